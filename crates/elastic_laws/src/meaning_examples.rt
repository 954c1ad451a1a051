//! What small expressions, statements and packets mean, as equations that are computed when the crate is checked.

ghost use Rattle.elastic_laws.specs.Examples.MeaningExamples.{LawOfValues, LawOfStatements, LawOfPackets};
ghost use Rattle.elastic_ast.specs.OperatorSorts.{CodesTell};

/// The code of an operator leads back to it.
pub fn operators_are_told_by_codes()
    ensures { CodesTell }
{}

/// Values of expressions.
pub fn law_of_values()
    ensures { LawOfValues }
{}

/// What statements do in the worked program.
pub fn law_of_statements()
    ensures { LawOfStatements }
{}

/// What becomes of packets in the worked program. Cells 0 and 1 begin as 11 and 12.
pub fn law_of_packets()
    ensures { LawOfPackets }
{}
