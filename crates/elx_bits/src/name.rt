ghost use Rattle.std.specs.Prelude.{◌≡◌, ◌↔◌, IsTrue, IfOk};

use std::alloc::{AllocError, Global};
use std::marker::Model;

/// A name of a program, as its bytes. A contract sees it as the list of these.
#[derive(Debug, Drop)]
pub struct Name {
    bytes: Vec<u8>,
}

impl Model for Name {
    ghost use Rattle.std.specs.Prelude.{List, ℕ};

    ghost Value = { List ℕ };

    ghost view = { λ name. name.bytes.items };
}

impl Name {
    /// A copy of a text, as a name.
    pub fn of(alloc: Global, text: &[u8]) -> Result<Name, AllocError>
        ensures { IfOk result (λ name. name ≡ text.now) }
    {
        let bytes = Vec::from_slice(alloc, text)?;
        Ok(Name { bytes })
    }

    /// The bytes of the name.
    pub fn as_slice(&self) -> &[u8]
        ensures { result.now ≡ self.now }
    {
        self.bytes.as_slice()
    }

    /// Whether two names have the same bytes.
    pub fn same(&self, other: &Name) -> bool
        ensures { IsTrue result ↔ (self.now ≡ other.now) }
    {
        self.bytes.as_slice() == other.bytes.as_slice()
    }
}

#[cfg(test)]
mod tests {
    use super::*;
    use std::test::Fail;

    #[test]
    fn names_are_the_same_exactly_with_the_same_bytes(rt: HostRuntime) -> Result<(), Fail> {
        for (text, other, want) in [
            ("", "", true),
            ("rows", "rows", true),
            ("rows", "row", false),
            ("row", "rows", false),
            ("", "r", false),
            ("rows", "cols", false),
            ("rows", "Rows", false),
        ] {
            let name = Name::of(rt.alloc(), text.as_bytes())?;
            let other = Name::of(rt.alloc(), other.as_bytes())?;
            assert_eq!(rt; name.as_slice(), text.as_bytes());
            assert_eq!(rt; name.same(&other), want, "{text}");
        }
        Ok(())
    }
}
