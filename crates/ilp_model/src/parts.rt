//! Parts of rows: variables by their numbers, times numbers other than 0.

ghost use Rattle.std.specs.Prelude.{◌≡◌, ◌+◌, ◌≤◌, ◌^◌, ◌++◌, length, OnOk};
ghost use Rattle.ilp_model.specs.Written.{written, written_run, written_sizes};

use elx_bits::Items;
use int_program::Part;
use std::alloc::AllocError;

/// Adds a variable times a number, where the number isn't 0.
pub(crate) fn put(parts: &mut Items<Part>, var: u32, by: i128) -> Result<(), AllocError>
    ensures { OnOk result (parts.new ≡ parts.old ++ written var by) }
{
    if by != 0 {
        parts.push(Part { var, by })?;
    }
    Ok(())
}

/// Adds variables of rising numbers, each times the same number.
pub(crate) fn put_run(
    parts: &mut Items<Part>,
    first: u32,
    count: u32,
    by: i128,
) -> Result<(), AllocError>
    requires { first + count ≤ 2 ^ 32 }
    ensures { OnOk result (parts.new ≡ parts.old ++ written_run first count by) }
{
    for step in 0..count {
        put(parts, first + step, by)?;
    }
    Ok(())
}

/// Adds the sizes, each times its coefficient.
pub(crate) fn put_sizes(parts: &mut Items<Part>, by: &[i128]) -> Result<(), AllocError>
    requires { length by.now ≤ 2 ^ 32 }
    ensures { OnOk result (parts.new ≡ parts.old ++ written_sizes 0 by.now) }
{
    for symbol in 0..by.len() {
        put(parts, symbol as u32, by[symbol])?;
    }
    Ok(())
}
