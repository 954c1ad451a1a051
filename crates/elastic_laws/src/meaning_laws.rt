//! Laws of the values of expressions, each the contract of an empty function.

ghost use Rattle.elastic_laws.specs.Meaning.ShiftFacts.{ShiftsAreOfWords};

/// A shift has the value of the shift of words, whether its amount is below the width or not.
pub fn shifts_are_of_words()
    ensures { ShiftsAreOfWords }
{}
