ghost use Rattle.std.specs.Prelude.{◌≡◌, [], ◌∷◌, ◌++◌, OnOk, OnErr, IfErr};

use crate::error::{Parsed, SyntaxError};
use elx_bits::Items;

/// Appends what was read to a list. The one error is Memory: the list stays then, and what was read is let go.
pub fn keep<T: Drop>(items: &mut Items<T>, item: T) -> Parsed<()>
    ensures ok { OnOk result (items.new ≡ items.old ++ item ∷ []) }
    ensures err { OnErr result (items.new ≡ items.old) }
    ensures memory { IfErr result (λ error. error ≡ SyntaxError.Memory) }
{
    if items.push(item).is_err() {
        return Err(SyntaxError::Memory);
    }
    Ok(())
}
