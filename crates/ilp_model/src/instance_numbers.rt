//! The numbers of the variables of instances.

ghost use Rattle.std.specs.Prelude.{◌≡◌, ◌+◌, ◌*◌, ◌<◌};
ghost use Rattle.ilp_model.specs.ListedCandidates.{most_numbers};
ghost use Rattle.ilp_model.specs.WrittenGroups.{exists_number as exists_number_of, stands_from as stands_from_of, held_from as held_from_of, FitsExists};

use crate::numbering::Numbering;

/// The number of the variable that a loop of this size runs at an index. Outside of loops there is none, and this is 0.
pub(crate) fn exists_number(loops: &[u32], size: Option<u32>, index: u32) -> u32
    requires { FitsExists loops.now size index }
    ensures { result ≡ exists_number_of loops.now size index }
{
    match size {
        None => 0,
        Some(symbol) => loops[symbol as usize] + index,
    }
}

/// The number that is so many times the stages behind the first one.
fn number_behind(first: u32, count: usize, stages: u32) -> u32
    requires { first + count * stages < most_numbers }
    ensures { result ≡ first + count * stages }
{
    (u64::from(first) + count as u64 * u64::from(stages)) as u32
}

/// The number of the first variable of the stages of the instance at a place.
pub(crate) fn stands_from(numbers: &Numbering, place: usize) -> u32
    requires { stands_from_of numbers.now place < most_numbers }
    ensures { result ≡ stands_from_of numbers.now place }
{
    number_behind(numbers.stands, place, numbers.stages)
}

/// The number of the first variable of the cells of the instance with a rank.
pub(crate) fn held_from(numbers: &Numbering, rank: usize) -> u32
    requires { held_from_of numbers.now rank < most_numbers }
    ensures { result ≡ held_from_of numbers.now rank }
{
    number_behind(numbers.held, rank, numbers.stages)
}
