//! Registers with their cells.

use elastic_ast::Registers;
use elx_bits::{Bits, Name};
use std::alloc::Global;
use std::process::Abort;

/// A name, or the end of the test.
fn named(rt: &impl Abort, alloc: Global, text: &str) -> Name {
    Name::of(alloc, text.as_bytes()).expect(rt, "ample memory")
}

/// Registers of these names, indices, widths and numbers of cells.
fn registers(rt: &impl Abort, alloc: Global, rows: &[(&str, Option<u32>, u8, u32)]) -> Registers {
    let mut registers = Registers::new(alloc);
    for (name, index, width, cells) in rows {
        let name = named(rt, alloc, name);
        if registers.find(&name, *index).is_none() && 1 <= *width && *width <= 128 {
            registers
                .put(name, *index, *width, *cells)
                .expect(rt, "ample memory");
        }
    }
    registers
}

#[test]
fn a_register_is_found_by_its_name_and_its_index(rt: HostRuntime) {
    let rows = [
        ("packets", None, 32, 4),
        ("rows", Some(0), 8, 2),
        ("rows", Some(1), 8, 2),
        ("rows", None, 1, 0),
        ("", Some(u32::MAX), 128, 1),
    ];
    let registers = registers(&rt, rt.alloc(), &rows);
    assert_eq!(rt; registers.len(), 5);
    for (place, (name, index, width, cells)) in rows.iter().enumerate() {
        let name = named(&rt, rt.alloc(), name);
        assert_eq!(rt; registers.find(&name, *index), Some(place));
        match registers.entry(place) {
            Some(entry) => {
                assert!(rt; entry.0.same(&name));
                assert_eq!(rt; (entry.1, entry.2, entry.3), (*index, *width, *cells));
            }
            None => assert!(rt; false, "{place}"),
        }
    }
    for (name, index) in [
        ("packets", Some(0)),
        ("rows", Some(2)),
        ("row", Some(0)),
        ("", None),
    ] {
        let name = named(&rt, rt.alloc(), name);
        assert_eq!(rt; registers.find(&name, index), None);
    }
    assert!(rt; registers.entry(5).is_none());
}

#[test]
fn a_cell_keeps_what_was_stored_last(rt: HostRuntime) {
    let rows = [
        ("bit", None, 1, 3),
        ("wide", None, 128, 2),
        ("none", None, 8, 0),
    ];
    let mut registers = registers(&rt, rt.alloc(), &rows);
    // place, cell, width, value, and whether it is stored
    let stores = [
        (0, 1, 1, 1, true),
        (0, 2, 1, 0, true),
        (0, 3, 1, 1, false),
        (0, 0, 2, 1, false),
        (0, u32::MAX, 1, 1, false),
        (1, 0, 128, 7, true),
        (1, 0, 128, u128::MAX, true),
        (1, 1, 127, 1, false),
        (2, 0, 8, 1, false),
        (3, 0, 8, 1, false),
    ];
    for (place, cell, width, value, want) in stores {
        match Bits::of(width, value) {
            Some(bits) => {
                assert_eq!(rt; registers.store(place, cell, bits), want, "{place} {cell}")
            }
            None => assert!(rt; false, "{width} {value}"),
        }
    }
    // place, cell, and the width and the value that are there
    let loads = [
        (0, 0, Some((1, 0))),
        (0, 1, Some((1, 1))),
        (0, 2, Some((1, 0))),
        (0, 3, None),
        (1, 0, Some((128, u128::MAX))),
        (1, 1, Some((128, 0))),
        (1, 2, None),
        (2, 0, None),
        (3, 0, None),
    ];
    for (place, cell, want) in loads {
        let found = registers
            .load(place, cell)
            .map(|bits| (bits.width, bits.value));
        assert_eq!(rt; found, want, "{place} {cell}");
    }
}
