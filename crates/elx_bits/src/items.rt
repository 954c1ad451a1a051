ghost use Rattle.std.specs.Prelude.{◌≡◌, [], ◌∷◌, ◌++◌, OnOk, OnErr, IfErr};

use std::alloc::{AllocFailed, Global};
use std::marker::Model;

/// A list of values, kept in one piece of memory. A contract sees it as the list; a type may lead back to itself
/// through it.
#[derive(Debug, Drop)]
pub struct Items<T> {
    items: Vec<T>,
}

impl<T> Model for Items<T> {
    ghost use Rattle.std.specs.Prelude.{List};
    ghost use Rattle.std.specs.Coded.{coded_list};

    ghost Value = { List T };

    ghost coded = { coded_list T.code };

    ghost view = { λ items. items.items.items };
}

impl<T> Items<T> {
    /// The empty list. It takes no memory.
    pub fn new(alloc: Global) -> Items<T>
        ensures { result ≡ [] }
    {
        Items {
            items: Vec::new(alloc),
        }
    }

    /// The list of a vector's elements.
    pub fn from_vec(items: Vec<T>) -> Items<T>
        ensures { result ≡ items.items }
    {
        Items { items }
    }

    /// The vector that holds the list.
    pub fn into_vec(self) -> Vec<T>
        ensures { result.items ≡ self }
    {
        let Items { items } = self;
        items
    }

    /// Appends a value. For want of memory the list stays, and the value comes back in the error.
    pub fn push(&mut self, item: T) -> Result<(), AllocFailed<T>>
        ensures ok { OnOk result (self.new ≡ self.old ++ item ∷ []) }
        ensures err { OnErr result (self.new ≡ self.old) }
        ensures returned { IfErr result (λ refused. refused.value ≡ item) }
    {
        self.items.push(item)
    }

    /// The list as a slice.
    pub fn as_slice(&self) -> &[T]
        ensures { result.now ≡ self.now }
    {
        self.items.as_slice()
    }
}

#[cfg(test)]
mod tests {
    use super::*;
    use std::test::Fail;

    #[test]
    fn push_appends_at_the_end(rt: HostRuntime) -> Result<(), Fail> {
        let mut items = Items::new(rt.alloc());
        assert_eq!(rt; items.as_slice(), [].as_slice());
        for (item, want) in [
            (3u8, [3u8].as_slice()),
            (1, [3, 1].as_slice()),
            (3, [3, 1, 3].as_slice()),
        ] {
            items.push(item)?;
            assert_eq!(rt; items.as_slice(), want);
        }
        Ok(())
    }

    #[test]
    fn holds_the_elements_of_a_vector(rt: HostRuntime) -> Result<(), Fail> {
        for want in [[].as_slice(), [7u8].as_slice(), [7, 0, 7].as_slice()] {
            let items = Items::from_vec(want.to_vec(rt.alloc())?);
            assert_eq!(rt; items.as_slice(), want);
            let vec = items.into_vec();
            assert_eq!(rt; vec.as_slice(), want);
        }
        Ok(())
    }
}
