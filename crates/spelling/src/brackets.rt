ghost use Rattle.std.specs.Prelude.{◌≡◌, ℕ, ◌+◌};
ghost use Rattle.spelling.specs.Readers.{InBrackets, Enclosed, depth_of};

use crate::error::Parsed;
use crate::reader::Reader;

/// A pair of brackets, with how many may be open from there on, these counted.
#[derive(Clone, Copy)]
pub enum Brackets {
    Round(u32),
    Square(u32),
    Curly(u32),
}

impl Brackets {
    /// Reads the opening sign, a part that may open one bracket fewer, and the closing sign.
    pub fn around<T: Drop, F: FnOnce(&mut Reader<'_>, u32) -> Parsed<T>>(
        self,
        reader: &mut Reader<'_>,
        part: F,
    ) -> Parsed<T>
        requires { (old : _) (inner : ℕ) → depth_of self ≡ inner + 1 → F.pre part old inner }
        ensures { Enclosed self (F.post part) reader.old reader.new result }
    {
        match self {
            Brackets::Round(depth) => in_brackets(reader, b"(", b")", depth, part),
            Brackets::Square(depth) => in_brackets(reader, b"[", b"]", depth, part),
            Brackets::Curly(depth) => in_brackets(reader, b"{", b"}", depth, part),
        }
    }
}

/// Reads an opening sign, a part that may open one bracket fewer, and the closing sign.
pub fn in_brackets<T: Drop, F: FnOnce(&mut Reader<'_>, u32) -> Parsed<T>>(
    reader: &mut Reader<'_>,
    opening: &[u8],
    closing: &[u8],
    depth: u32,
    part: F,
) -> Parsed<T>
    requires { (old : _) (inner : ℕ) → depth ≡ inner + 1 → F.pre part old inner }
    ensures { InBrackets opening.now closing.now depth (F.post part) reader.old reader.new result }
{
    let inner = reader.open(opening, depth)?;
    let read = part(reader, inner)?;
    reader.sign(closing)?;
    Ok(read)
}
