//! Small programs that break one rule of types alone, and typed ones that look as if they broke it: equations that are computed
//! when the crate is checked.

ghost use Rattle.elastic_laws.specs.Examples.TypingExamples.{NamesAreDeclaredOnceAndKnown, WidthsAgree, SizesAndIndicesAgree, TablesAndCallsAgree, WholeProgramsAreTyped, RegistersAreNamedByOneUnit, PartsBelongTogether, NamesMayBreakTwoRules};

/// Names: each is declared before it is used, once in its scope, and as what its place asks for.
pub fn names_are_declared_once_and_known()
    ensures { NamesAreDeclaredOnceAndKnown }
{}

/// Widths: bits of one width stand together, and a number is below 2 to its width.
pub fn widths_agree()
    ensures { WidthsAgree }
{}

/// Sizes: an array stands with the index of a loop over its size, and loops don't nest.
pub fn sizes_and_indices_agree()
    ensures { SizesAndIndicesAgree }
{}

/// Tables and calls: sets go with keys, entries with actions, and arguments with parameters.
pub fn tables_and_calls_agree()
    ensures { TablesAndCallsAgree }
{}

/// Whole programs are typed.
pub fn whole_programs_are_typed()
    ensures { WholeProgramsAreTyped }
{}

/// Registers: each is named by one unit, which names no other.
pub fn registers_are_named_by_one_unit()
    ensures { RegistersAreNamedByOneUnit }
{}

/// Parsers come to an end, and the parts of a pipeline stand together.
pub fn parts_belong_together()
    ensures { PartsBelongTogether }
{}

/// A name in a set that isn't declared breaks two rules, and names with two underscores may be allowed.
pub fn names_may_break_two_rules()
    ensures { NamesMayBreakTwoRules }
{}
