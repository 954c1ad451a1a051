//! Tables of the first thing of each name.

ghost use Rattle.std.specs.Prelude.{OnOk};
ghost use Rattle.program_names.specs.FirstNamed.{EntersValue};

use indexmap::IndexMap;
use std::alloc::AllocError;

/// Puts a value under a name, if none stands there yet.
pub fn enter<'a, V: Drop>(
    table: &mut IndexMap<&'a [u8], V>,
    name: &'a [u8],
    value: V,
) -> Result<(), AllocError>
    ensures { OnOk result (EntersValue table.old.entries table.new.entries name.now value) }
{
    if !table.contains_key(name) {
        table.insert(name, value)?;
    }
    Ok(())
}
