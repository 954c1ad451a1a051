//! The rows of single instances, by the numbers of their variables: where they stand, their cells, and their orders.

ghost use Rattle.std.specs.Prelude.{◌≡◌, pos, neg_ℤ, ◌+◌, ◌≤◌, ◌<◌, ◌*◌, ◌-ℤ◌, ◌^◌, [], ◌∷◌, ◌++◌, OnOk};
ghost use Rattle.elastic_ast.specs.Units.Instances.{each_turn};
ghost use Rattle.ilp_model.specs.Rows.{exists_constant as exists_constant_of};
ghost use Rattle.ilp_model.specs.Written.{written_run, written_row};
ghost use Rattle.ilp_model.specs.WrittenInstances.{written_exists, written_stand, written_only, written_whole, written_order};

use crate::parts::{put, put_run};
use crate::size_rows::put_row;
use elx_bits::Items;
use int_program::{Part, Row};
use std::alloc::{AllocError, Global};

/// Adds that an instance is there, times a number; outside of loops this is a constant.
fn put_exists(
    parts: &mut Items<Part>,
    size: Option<u32>,
    number: u32,
    by: i128,
) -> Result<(), AllocError>
    ensures { OnOk result (parts.new ≡ parts.old ++ written_exists size number by) }
{
    if let Some(_) = size {
        put(parts, number, by)?;
    }
    Ok(())
}

/// One where a unit stands outside of loops.
fn exists_constant(size: Option<u32>) -> i128
    ensures { result ≡ pos (exists_constant_of size) }
{
    match size {
        None => 1,
        Some(_) => 0,
    }
}

/// Adds a row that an instance stands in as many stages as it is there, at most or at least.
fn put_stand_row(
    alloc: Global,
    rows: &mut Items<Row>,
    size: Option<u32>,
    exists: u32,
    first: u32,
    stages: u32,
    by: (i128, i128),
    most: i128,
) -> Result<(), AllocError>
    requires { first + stages ≤ 2 ^ 32 }
    ensures { OnOk result (rows.new
        ≡ rows.old ++ written_row (written_exists size exists by.0 ++ written_run first stages by.1) most ∷ []) }
{
    let mut parts = Items::new(alloc);
    put_exists(&mut parts, size, exists, by.0)?;
    put_run(&mut parts, first, stages, by.1)?;
    put_row(rows, parts, most)
}

/// Adds the rows that an instance stands in one stage where it is there, and in none otherwise.
pub(crate) fn put_stand(
    alloc: Global,
    rows: &mut Items<Row>,
    size: Option<u32>,
    exists: u32,
    first: u32,
    stages: u32,
) -> Result<(), AllocError>
    requires { first + stages ≤ 2 ^ 32 }
    ensures { OnOk result (rows.new ≡ rows.old ++ written_stand size exists first stages) }
{
    let most = exists_constant(size);
    put_stand_row(alloc, rows, size, exists, first, stages, (-1, 1), most)?;
    put_stand_row(alloc, rows, size, exists, first, stages, (1, -1), -most)
}

/// Adds the rows that an instance has cells only in its stage.
pub(crate) fn put_only_rows(
    alloc: Global,
    rows: &mut Items<Row>,
    stands: u32,
    held: u32,
    stages: u32,
    most: u64,
) -> Result<(), AllocError>
    requires stands { stands + stages ≤ 2 ^ 32 }
    requires held { held + stages ≤ 2 ^ 32 }
    ensures { OnOk result (rows.new
        ≡ rows.old ++ each_turn stages (λ stage. written_only most (stands + stage) (held + stage) ∷ [])) }
{
    for stage in 0..stages {
        let mut parts = Items::new(alloc);
        put(&mut parts, stands + stage, -i128::from(most))?;
        put(&mut parts, held + stage, 1)?;
        put_row(rows, parts, 0)?;
    }
    Ok(())
}

/// Adds the row that not both the one stands from a stage on and the other up to a stage.
pub(crate) fn put_order_row(
    alloc: Global,
    rows: &mut Items<Row>,
    first: u32,
    from: u32,
    second: u32,
    to: u32,
) -> Result<(), AllocError>
    requires first { first + from ≤ 2 ^ 32 }
    requires second { second + to ≤ 2 ^ 32 }
    ensures { OnOk result (rows.new ≡ rows.old ++ written_order first from second to ∷ []) }
{
    let mut parts = Items::new(alloc);
    put_run(&mut parts, first, from, 1)?;
    put_run(&mut parts, second, to, 1)?;
    put_row(rows, parts, 1)
}

/// Adds the row that an instance has as many cells as the size says, at least, where it is there.
pub(crate) fn put_whole_row(
    alloc: Global,
    rows: &mut Items<Row>,
    symbol: u32,
    size: Option<u32>,
    exists: u32,
    held: u32,
    stages: u32,
    most: u64,
) -> Result<(), AllocError>
    requires { held + stages ≤ 2 ^ 32 }
    ensures { OnOk result (rows.new ≡ rows.old ++ written_whole symbol size exists held stages most ∷ []) }
{
    let mut parts = Items::new(alloc);
    put(&mut parts, symbol, 1)?;
    put_exists(&mut parts, size, exists, i128::from(most))?;
    put_run(&mut parts, held, stages, -1)?;
    put_row(rows, parts, whole_most(size, most))
}

/// The right side of that row.
fn whole_most(size: Option<u32>, most: u64) -> i128
    ensures { result ≡ pos most -ℤ pos (most * exists_constant_of size) }
{
    match size {
        None => 0,
        Some(_) => i128::from(most),
    }
}
