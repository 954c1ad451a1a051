//! How many operators a unit may have.

ghost use Rattle.std.specs.Prelude.{◌≡◌, ◌≤◌, ◌<◌, ℕ, [], ◌∷◌, ◌++◌, length, OnOk, IfErr};
ghost use Rattle.unit_flow.specs.TooLarge.{IsTooLarge};

use elastic_ast::Unit;
use elx_bits::Items;
use thiserror::Error;

/// Why a program has no units that a target can take.
#[derive(Clone, Copy, Debug, PartialEq, Eq, Error)]
pub enum UnitError {
    /// A unit has more operators than the target allows.
    #[error("unit {unit} has {ops} operators")]
    UnitTooLarge { unit: u32, ops: u32 },
    /// There is no memory for the units.
    #[error("out of memory")]
    Memory,
}

/// Adds the next unit, if it has no more operators than this.
pub fn push_unit(list: &mut Items<Unit>, unit: Unit, most: u32) -> Result<(), UnitError>
    ensures pushed { OnOk result (list.new ≡ list.old ++ unit ∷ []) }
    ensures fits { OnOk result (unit.ops ≤ most) }
    ensures refused { IfErr result (IsTooLarge (length list.old) unit.ops most) }
{
    let ops = unit.ops;
    let number = list.as_slice().len();
    if ops > most {
        return Err(too_large(number, ops));
    }
    if list.push(unit).is_err() {
        return Err(UnitError::Memory);
    }
    Ok(())
}

/// The refusal of a unit. A number that 32 bits don't hold counts as want of memory.
fn too_large(number: usize, ops: u32) -> UnitError
    ensures { (most : ℕ) → most < ops → IsTooLarge number ops most result }
{
    match u32::try_from(number) {
        Ok(unit) => UnitError::UnitTooLarge { unit, ops },
        Err(_) => UnitError::Memory,
    }
}
