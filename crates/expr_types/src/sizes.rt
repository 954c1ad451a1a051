//! The sizes of the loops that an index may be of.

ghost use Rattle.std.specs.Prelude.{◌≡◌, map};
ghost use Rattle.std.specs.List.{list_all};
ghost use Rattle.elastic_ast.specs.Typing.Scope.{same};
ghost use Rattle.expr_types.specs.Agreeing.{name_now, are_one};

use elx_bits::Name;

/// The sizes of the loops that an index may be of, and whether they are all the same.
#[derive(Clone, Copy)]
pub struct Sizes<'a> {
    pub names: &'a [&'a Name],
    agree: bool,
    ghost agreed: { agree ≡ are_one names.now },
}

fn all_same(name: &Name, sizes: &[&Name]) -> bool
    ensures { result ≡ list_all (same name.now) (map name_now sizes.now) }
{
    for size in sizes {
        if name.as_slice() != size.as_slice() {
            return false;
        }
    }
    true
}

/// Whether sizes are all the same.
fn agree(sizes: &[&Name]) -> bool
    ensures { result ≡ are_one sizes.now }
{
    match sizes.first() {
        Some(first) => all_same(first, sizes),
        None => true,
    }
}

impl<'a> Sizes<'a> {
    /// Some sizes, which are compared with one another once.
    pub fn new(names: &'a [&'a Name]) -> Sizes<'a>
        ensures { result.names ≡ names.entry }
    {
        Sizes {
            names,
            agree: agree(names),
        }
    }

    /// Whether each of them is that of a name. This looks at one of them.
    pub fn are_all(&self, name: &Name) -> bool
        ensures { result ≡ list_all (same name.now) (map name_now self.now.names.now) }
    {
        match self.names.first() {
            Some(first) => self.agree && name.as_slice() == first.as_slice(),
            None => true,
        }
    }
}
