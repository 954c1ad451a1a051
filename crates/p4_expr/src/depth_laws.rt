//! Laws of the depth of expressions, each the contract of an empty function.

ghost use Rattle.p4_expr.specs.Laws.{AsManyAsOpen, GreaterDepths, OpenAtMost};

/// What is spelled within a depth is spelled within each greater one.
pub fn law_of_greater_depths()
    ensures { GreaterDepths }
{}

/// The depth is the number of brackets that are open at a word: no more are open than the depth says, and what is spelled at
/// all is spelled within each depth that is as great.
pub fn law_of_open_brackets()
    ensures at_most { OpenAtMost }
    ensures as_many { AsManyAsOpen }
{}
