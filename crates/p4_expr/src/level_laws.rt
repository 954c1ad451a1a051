//! Laws of the levels of operators, each the contract of an empty function.

ghost use Rattle.p4_expr.specs.Laws.{CastInBrackets, PrefixInBrackets, WeakerInBrackets};

/// A binary operator that is weaker than its place allows stands in brackets, and so does a prefix or a cast before a slice. The
/// right operand of an operator has the next stronger level for its place: so operators of one level group to the left.
pub fn law_of_levels()
    ensures binary { WeakerInBrackets }
    ensures unary { PrefixInBrackets }
    ensures cast { CastInBrackets }
{}
