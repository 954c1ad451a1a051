//! More small programs that break one rule of types alone, and typed ones, part by part of the rules.

ghost use Rattle.elastic_laws.specs.Examples.TypingDetails.{NamesInDetail, ValuesInDetail, SizesInDetail, TablesInDetail, FaultsStandAlone};

/// More of names: what each place asks for.
pub fn names_in_detail()
    ensures { NamesInDetail }
{}

/// More of widths and booleans.
pub fn values_in_detail()
    ensures { ValuesInDetail }
{}

/// More of sizes and indices.
pub fn sizes_in_detail()
    ensures { SizesInDetail }
{}

/// More of tables and calls.
pub fn tables_in_detail()
    ensures { TablesInDetail }
{}

/// What breaks a rule breaks no other beside it.
pub fn faults_stand_alone()
    ensures { FaultsStandAlone }
{}
