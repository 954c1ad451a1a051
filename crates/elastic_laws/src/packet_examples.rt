//! What worked programs do with packets, as equations that are computed when the crate is checked.

ghost use Rattle.elastic_laws.specs.Examples.PacketExamples.{ExamplesOfAnswers, ExamplesOfRegisters};

/// Conditions, blocks, the hash, and a table two entries of which match.
pub fn examples_of_answers()
    ensures { ExamplesOfAnswers }
{}

/// A rejected packet changes no register, and a dropped one does; each turn of a loop has the register of its index; a loop of
/// size 0 does nothing.
pub fn examples_of_registers()
    ensures { ExamplesOfRegisters }
{}
