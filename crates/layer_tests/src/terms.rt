//! Assume clauses and utilities over two symbols, as rows and terms at sizes.

ghost use Rattle.std.specs.Prelude.{IfOk};
ghost use Rattle.size_terms.specs.Rows.{AreShort};

use crate::sources::checked;
use elastic_ast::{Sizes, Terms};
use elx_bits::Items;
use size_terms::{holds, terms, utility};
use std::alloc::{AllocError, Global};
use std::test::Fail;

/// The terms of a text that declares the symbols `rows` and `cols` before it.
fn terms_of(alloc: Global, clauses: &str) -> Result<Terms, Fail>
    ensures { IfOk result AreShort }
{
    let text = format!(in alloc; "symbolic int rows; symbolic int cols; {clauses}")?;
    let program = checked(alloc, text.as_str(), false)??;
    Ok(terms(alloc, &program)?)
}

fn sizes_of(alloc: Global, rows: u64, cols: u64) -> Result<Sizes, AllocError> {
    Ok(Sizes {
        values: Items::from_vec([rows, cols].to_vec(alloc)?),
    })
}

/// Whether the assume clauses hold at two sizes, and the utility there; None where there aren't two symbols.
fn at(terms: &Terms, sizes: &Sizes) -> Option<(bool, i128)>
    requires { AreShort terms.now }
{
    let many = terms.symbols.as_slice().len();
    if sizes.values.as_slice().len() == many {
        Some((holds(terms, sizes), utility(terms, sizes)))
    } else {
        None
    }
}

/// Two sizes, whether the clauses hold there, and the utility.
type Row = (u64, u64, bool, i128);

const BOUNDED: [Row; 7] = [
    (3, 100, true, 130),
    (1, 0, true, 10),
    (2, 37, true, 57),
    (0, 50, false, 50),
    (4, 100, false, 140),
    (3, 101, false, 131),
    (u64::MAX, 0, false, 184_467_440_737_095_516_150),
];

const BELOW_NOTHING: [Row; 5] = [
    (0, 0, false, 4),
    (3, 3, false, 1),
    (4, 3, true, -1),
    (0, 7, true, 11),
    (10, 1, true, -15),
];

const STEPPED: [Row; 6] = [
    (0, 0, true, 1),
    (7, 4, true, -6),
    (8, 5, true, 35),
    (15, 4, true, 35),
    (16, 5, true, 37),
    (u64::MAX, u64::MAX, true, -18_446_744_073_709_551_562),
];

#[test]
fn clauses_hold_and_utilities_are_worth_what_they_say(rt: HostRuntime) -> Result<(), Fail> {
    for (clauses, rows) in [
        (
            "assume(rows >= 1 && rows <= 3); assume(cols <= 100); maximize(10 * rows + cols);",
            BOUNDED.as_slice(),
        ),
        (
            "assume(rows - 5 > 1 - cols); maximize(7 - 2 * rows + cols - 3);",
            BELOW_NOTHING.as_slice(),
        ),
        (
            "maximize(table(rows) {0: 1, 8: 50, 16: 60} - table(cols) {0: 0, 5: 7} - rows);",
            STEPPED.as_slice(),
        ),
    ] {
        let terms = terms_of(rt.alloc(), clauses)?;
        for (rows, cols, hold, worth) in rows {
            let sizes = sizes_of(rt.alloc(), *rows, *cols)?;
            assert_eq!(rt;
                at(&terms, &sizes),
                Some((*hold, *worth)),
                "{clauses} {rows} {cols}"
            );
        }
    }
    Ok(())
}

#[test]
fn each_relation_holds_where_its_sides_are_so(rt: HostRuntime) -> Result<(), Fail> {
    // the sides are 3 and 5 at 1 row and 3 columns, 5 and 5 at 2 rows, 7 and 5 at 3; no utility is declared
    for (rel, below, equal, above) in [
        ("<=", true, true, false),
        ("<", true, false, false),
        (">=", false, true, true),
        (">", false, false, true),
        ("==", false, true, false),
    ] {
        let clause = format!(in rt.alloc(); "assume(2 * rows - cols + 4 {rel} 3 * cols - 4);")?;
        let terms = terms_of(rt.alloc(), clause.as_str())?;
        for (rows, hold) in [(1, below), (2, equal), (3, above)] {
            let sizes = sizes_of(rt.alloc(), rows, 3)?;
            assert_eq!(rt; at(&terms, &sizes), Some((hold, 0)), "{rel} at {rows} rows");
        }
    }
    Ok(())
}
