//! What a vector holds at its locations.

ghost use Rattle.std.specs.Prelude.{ℕ, IfOk};
ghost use Rattle.elastic_ast.specs.Containers.Vectors.{MayStand};

use elastic_ast::{Location, Lval, Vector};
use elx_bits::{Bits, Name};
use std::alloc::{AllocError, Global};
use std::process::Abort;
use std::test::Fail;

/// What stands for the number of a value that isn't there.
const NOTHING: u128 = 999;

fn name(alloc: Global, text: &str) -> Result<Name, AllocError> {
    Name::of(alloc, text.as_bytes())
}

fn field(alloc: Global, header: &str, field: &str) -> Result<Location, AllocError>
    ensures { IfOk result (λ at. (width : ℕ) → MayStand at width) }
{
    Ok(Location::Header {
        header: name(alloc, header)?,
        field: name(alloc, field)?,
    })
}

fn meta(alloc: Global, text: &str, own: bool) -> Result<Location, AllocError>
    ensures { IfOk result (λ at. (width : ℕ) → MayStand at width) }
{
    Ok(Location::Meta {
        name: name(alloc, text)?,
        own,
    })
}

/// The metadata field `x`, or its element at an index `i`.
fn assigned(alloc: Global, element: bool) -> Result<Lval, AllocError> {
    let index = if element {
        Some(name(alloc, "i")?)
    } else {
        None
    };
    Ok(Lval::Meta {
        name: name(alloc, "x")?,
        index,
    })
}

/// A value of 8 bits.
fn byte(value: u8) -> Bits {
    Bits {
        width: 8,
        value: u128::from(value),
    }
}

/// The number of a value, or that of nothing.
fn number(value: Option<Bits>) -> u128 {
    value.map_or(NOTHING, |bits| bits.value)
}

/// The fields `a.x` and `b.x`, in one order or the other.
fn fields(alloc: Global, turned: bool, first: u8, second: u8) -> Result<Vector, AllocError> {
    let mut vector = Vector::new(alloc);
    if turned {
        vector.put(field(alloc, "b", "x")?, None, byte(second))?;
    }
    vector.put(field(alloc, "a", "x")?, None, byte(first))?;
    if !turned {
        vector.put(field(alloc, "b", "x")?, None, byte(second))?;
    }
    Ok(vector)
}

/// The metadata field `x`, and the elements 0 and 1 of an array `x`.
fn elements(alloc: Global) -> Result<Vector, AllocError> {
    let mut vector = Vector::new(alloc);
    vector.put(meta(alloc, "x", false)?, None, byte(3))?;
    vector.put(meta(alloc, "x", true)?, Some(0), byte(4))?;
    vector.put(meta(alloc, "x", true)?, Some(1), byte(5))?;
    Ok(vector)
}

/// The values of `a.x` and `b.x`.
fn both(alloc: Global, vector: &Vector) -> Result<(u128, u128), AllocError> {
    let first = number(vector.get(&field(alloc, "a", "x")?, None));
    let second = number(vector.get(&field(alloc, "b", "x")?, None));
    Ok((first, second))
}

/// The values of the metadata field `x` and of the elements 0, 1 and 2 of the array.
fn loaded(alloc: Global, vector: &Vector) -> Result<[u128; 4], AllocError> {
    let scalar = number(vector.load(&assigned(alloc, false)?, Some(1)));
    let element = assigned(alloc, true)?;
    Ok([
        scalar,
        number(vector.load(&element, Some(0))),
        number(vector.load(&element, Some(1))),
        number(vector.load(&element, Some(2))),
    ])
}

#[test]
fn fields_of_one_name_in_two_headers_are_apart(rt: HostRuntime) -> Result<(), Fail> {
    let mut vector = fields(rt.alloc(), false, 1, 2)?;
    assert_eq!(rt; both(rt.alloc(), &vector)?, (1, 2));
    let second = field(rt.alloc(), "b", "x")?;
    assert!(rt; vector.set(&second, None, byte(7)));
    assert_eq!(rt; both(rt.alloc(), &vector)?, (1, 7));
    vector.put(field(rt.alloc(), "a", "x")?, None, byte(8))?;
    assert_eq!(rt; both(rt.alloc(), &vector)?, (8, 7));
    assert!(rt; !vector.set(&second, Some(0), byte(9)));
    assert!(rt; vector.get(&second, Some(0)).is_none());
    Ok(())
}

#[test]
fn names_are_cut_where_the_header_ends(rt: HostRuntime) -> Result<(), Fail> {
    let mut vector = Vector::new(rt.alloc());
    vector.put(field(rt.alloc(), "ab", "c")?, None, byte(1))?;
    let cut = field(rt.alloc(), "a", "bc")?;
    assert!(rt; vector.get(&cut, None).is_none() && !vector.set(&cut, None, byte(2)));
    let same = field(rt.alloc(), "ab", "c")?;
    assert_eq!(rt; number(vector.get(&same, None)), 1);
    Ok(())
}

#[test]
fn an_element_and_a_scalar_of_one_name_are_apart(rt: HostRuntime) -> Result<(), Fail> {
    let mut vector = elements(rt.alloc())?;
    assert_eq!(rt; loaded(rt.alloc(), &vector)?, [3, 4, 5, NOTHING]);
    let element = assigned(rt.alloc(), true)?;
    assert!(rt; vector.store(&element, Some(1), byte(9)));
    assert!(rt;
        !vector.store(&element, Some(2), byte(9)) && !vector.store(&element, None, byte(9))
    );
    assert_eq!(rt; loaded(rt.alloc(), &vector)?, [3, 4, 9, NOTHING]);
    let scalar = assigned(rt.alloc(), false)?;
    assert!(rt; vector.store(&scalar, Some(1), byte(6)));
    assert_eq!(rt; loaded(rt.alloc(), &vector)?, [6, 4, 9, NOTHING]);
    Ok(())
}

#[test]
fn a_statement_names_header_fields_and_fields_of_std(rt: HostRuntime) -> Result<(), Fail> {
    let mut vector = fields(rt.alloc(), false, 1, 2)?;
    let header = Lval::Header {
        header: name(rt.alloc(), "b")?,
        field: name(rt.alloc(), "x")?,
    };
    assert!(rt; vector.store(&header, Some(1), byte(6)));
    assert_eq!(rt; both(rt.alloc(), &vector)?, (1, 6));
    let port = Lval::Std(name(rt.alloc(), "x")?);
    assert!(rt; vector.load(&port, None).is_none() && !vector.store(&port, None, byte(1)));
    let name = name(rt.alloc(), "x")?;
    vector.put(Location::Std { name }, None, byte(10))?;
    assert_eq!(rt; number(vector.load(&port, Some(3))), 10);
    Ok(())
}

#[test]
fn a_header_has_its_validity_bit(rt: HostRuntime) -> Result<(), Fail> {
    let mut vector = Vector::new(rt.alloc());
    let header = name(rt.alloc(), "a")?;
    vector.put(
        Location::Valid { header },
        None,
        Bits { width: 1, value: 1 },
    )?;
    let (header, other) = (name(rt.alloc(), "a")?, name(rt.alloc(), "b")?);
    assert_eq!(rt; number(vector.valid(&header)), 1);
    assert!(rt; vector.mark(&header, Bits { width: 1, value: 0 }));
    assert_eq!(rt; number(vector.valid(&header)), 0);
    assert!(rt;
        vector.valid(&other).is_none() && !vector.mark(&other, Bits { width: 1, value: 0 })
    );
    Ok(())
}

#[test]
fn predicates_are_told_by_number_and_element(rt: HostRuntime) -> Result<(), Fail> {
    let mut vector = Vector::new(rt.alloc());
    for (value, number, own) in [(0, 0, false), (1, 1, false), (2, 0, true), (3, 1, true)] {
        vector.put(Location::Pred { number, own }, None, byte(value))?;
    }
    for (want, number, own) in [(0, 0, false), (1, 1, false), (2, 0, true), (3, 1, true)] {
        let value = vector.get(&Location::Pred { number, own }, None);
        assert_eq!(rt; value.map_or(NOTHING, |bits| bits.value), want);
    }
    Ok(())
}

#[test]
fn registers_are_told_by_name_and_element(rt: HostRuntime) -> Result<(), Fail> {
    let mut vector = Vector::new(rt.alloc());
    for (value, text, own) in [(0, "r", false), (1, "s", false), (2, "r", true)] {
        let name = name(rt.alloc(), text)?;
        vector.put(Location::Reg { name, own }, None, byte(value))?;
    }
    for (want, text, own) in [
        (0, "r", false),
        (1, "s", false),
        (2, "r", true),
        (NOTHING, "s", true),
    ] {
        let name = name(rt.alloc(), text)?;
        assert_eq!(rt;
            number(vector.get(&Location::Reg { name, own }, None)),
            want
        );
    }
    Ok(())
}

#[test]
fn a_copy_takes_all_values_of_the_same_locations(rt: HostRuntime) -> Result<(), Fail> {
    for (turned, other) in [(false, false), (false, true), (true, false)] {
        let mut vector = fields(rt.alloc(), turned, 1, 2)?;
        let from = fields(rt.alloc(), other, 11, 12)?;
        assert!(rt; vector.copy_from(&from), "{turned} {other}");
        assert_eq!(rt; both(rt.alloc(), &vector)?, (11, 12));
    }
    Ok(())
}

#[test]
fn a_copy_of_other_locations_is_refused(rt: HostRuntime) -> Result<(), Fail> {
    let mut vector = fields(rt.alloc(), false, 1, 2)?;
    let mut from = Vector::new(rt.alloc());
    from.put(field(rt.alloc(), "b", "x")?, None, byte(12))?;
    assert!(rt; !vector.copy_from(&from) && !from.copy_from(&vector));
    from.put(field(rt.alloc(), "a", "y")?, None, byte(11))?;
    assert!(rt; !vector.copy_from(&from));
    assert_eq!(rt; both(rt.alloc(), &vector)?, (1, 2));
    Ok(())
}
