//! Laws of registers and their cells, each the contract of an empty function.

ghost use Rattle.elastic_laws.specs.Containers.RegisterFacts.{CellsAreApart, NamesStay, NamesLeadToCells};

/// A cell that was written has the value and keeps its width, every other cell stays, and writes into two cells commute.
/// It holds of the definitions, and takes no step.
pub fn cells_are_apart()
    ensures { CellsAreApart }
{}

/// A register is found where it was put, whatever is written or put after it, and its cells are the values of its name
/// and index. It holds of the definitions, and takes no step.
pub fn names_lead_to_cells()
    ensures stay { NamesStay }
    ensures cells { NamesLeadToCells }
{}
