//! The rows over sizes, loops and keys, and the objective.

ghost use Rattle.std.specs.Prelude.{◌≡◌, ℕ, pos, unsigned_abs, ◌-ℤ◌, ◌+◌, ◌≤◌, ◌<◌, ◌^◌, [], ◌∷◌, ◌++◌, map, flat_map, length, All, OnOk, IfOk};
ghost use Rattle.elastic_ast.specs.Units.Instances.{nth_size, each_turn};
ghost use Rattle.elastic_ast.specs.Sizes.SizeSums.{negated_if};
ghost use Rattle.elastic_ast.specs.Typing.LanguageLimits.{most_terms};
ghost use Rattle.size_terms.specs.SumLimits.{most_right_side};
ghost use Rattle.ilp_model.specs.Marks.{is_marked};
ghost use Rattle.ilp_model.specs.Objective.{rise_of, first_value, first_values, constant as constant_of};
ghost use Rattle.ilp_model.specs.SeenKeys.{seen_key};
ghost use Rattle.ilp_model.specs.Written.{written, written_run, written_row, written_sizes, written_term, written_one, written_falling, written_loop, written_marked, written_key, written_keys, written_rise};

use crate::parts::{put, put_run, put_sizes};
use crate::step_keys::ReachedKey;
use elastic_ast::{Linear, Steps, Terms, Units};
use elx_bits::Items;
use int_program::{Part, Row};
use std::alloc::{AllocError, Global};
use target_desc::Target;
use unroll_bound::LoopUse;

/// Adds a row.
pub(crate) fn put_row(
    rows: &mut Items<Row>,
    parts: Items<Part>,
    most: i128,
) -> Result<(), AllocError>
    ensures { OnOk result (rows.new ≡ rows.old ++ written_row parts most ∷ []) }
{
    rows.push(Row { parts, most })?;
    Ok(())
}

/// Adds the rows of the terms.
pub(crate) fn put_term_rows(
    alloc: Global,
    rows: &mut Items<Row>,
    terms: &[Linear],
) -> Result<(), AllocError>
    requires { All (λ linear. length linear.by ≤ 2 ^ 32) terms.now }
    ensures { OnOk result (rows.new ≡ rows.old ++ map written_term terms.now) }
{
    for linear in terms {
        let mut parts = Items::new(alloc);
        put_sizes(&mut parts, linear.by.as_slice())?;
        put_row(rows, parts, linear.most)?;
    }
    Ok(())
}

/// Adds the rows of the symbols that are at least 1.
pub(crate) fn put_one_rows(
    alloc: Global,
    rows: &mut Items<Row>,
    ones: &[u32],
) -> Result<(), AllocError>
    ensures { OnOk result (rows.new ≡ rows.old ++ map written_one ones.now) }
{
    for symbol in ones {
        let mut parts = Items::new(alloc);
        put(&mut parts, *symbol, -1)?;
        put_row(rows, parts, -1)?;
    }
    Ok(())
}

/// Adds the row of the bits of headers and metadata.
pub(crate) fn put_header_row(
    alloc: Global,
    rows: &mut Items<Row>,
    units: &Units,
    target: &Target,
) -> Result<(), AllocError>
    requires { length units.now.symbol_bits ≤ 2 ^ 32 }
    ensures { OnOk result (rows.new ≡ rows.old ++ written_row (written_sizes 0 (map pos units.now.symbol_bits))
        (pos target.now.header_bits -ℤ pos units.now.fixed_bits) ∷ []) }
{
    let each = units.symbol_bits.as_slice();
    let mut parts = Items::new(alloc);
    for symbol in 0..each.len() {
        put(&mut parts, symbol as u32, i128::from(each[symbol]))?;
    }
    let most = i128::from(target.header_bits) - i128::from(units.fixed_bits);
    put_row(rows, parts, most)
}

/// Adds the row that the sizes of a loop's symbol and its indices add up, by 1 or by -1.
fn put_count_row(
    alloc: Global,
    rows: &mut Items<Row>,
    symbol: u32,
    first: u32,
    count: u32,
    by: i128,
    other: i128,
) -> Result<(), AllocError>
    requires { first + count ≤ 2 ^ 32 }
    ensures { OnOk result (rows.new
        ≡ rows.old ++ written_row (written symbol by ++ written_run first count other) (pos 0) ∷ []) }
{
    let mut parts = Items::new(alloc);
    put(&mut parts, symbol, by)?;
    put_run(&mut parts, first, count, other)?;
    put_row(rows, parts, 0)
}

/// Adds the rows that a loop runs no more at an index than at the one before it.
fn put_falling_rows(
    alloc: Global,
    rows: &mut Items<Row>,
    first: u32,
    count: u32,
) -> Result<(), AllocError>
    requires { first + count < 2 ^ 32 }
    ensures { OnOk result (rows.new ≡ rows.old ++ each_turn count (λ index. written_falling (first + index) ∷ [])) }
{
    for index in 0..count {
        let mut parts = Items::new(alloc);
        put(&mut parts, first + index, -1)?;
        put(&mut parts, first + index + 1, 1)?;
        put_row(rows, parts, 0)?;
    }
    Ok(())
}

/// Adds the rows of one loop's symbol, whose indices have the numbers from the first on.
fn put_loop(
    alloc: Global,
    rows: &mut Items<Row>,
    symbol: u32,
    first: u32,
    count: u32,
) -> Result<(), AllocError>
    requires { first + count < 2 ^ 32 }
    ensures { OnOk result (rows.new ≡ rows.old ++ written_loop symbol first count) }
{
    put_count_row(alloc, rows, symbol, first, count, 1, -1)?;
    put_count_row(alloc, rows, symbol, first, count, -1, 1)?;
    put_falling_rows(alloc, rows, first, count.saturating_sub(1))
}

/// Adds the rows of the symbols over which loops with units run, where the indices of each have the numbers from one on.
pub(crate) fn put_loop_rows(
    alloc: Global,
    rows: &mut Items<Row>,
    uses: &[LoopUse],
    loops: &[u32],
    bounds: &[u64],
) -> Result<(), AllocError>
    requires dense { length loops.now ≡ length bounds.now }
    requires uses { length uses.now ≡ length bounds.now }
    requires symbols { length loops.now ≤ 2 ^ 32 }
    requires near { (symbol : ℕ) → nth_size loops.now symbol + nth_size bounds.now symbol < 2 ^ 32 }
    ensures { OnOk result (rows.new
        ≡ rows.old ++ each_turn (length loops.now) (written_marked (is_marked uses.now) (nth_size loops.now) (nth_size bounds.now))) }
{
    for symbol in 0..loops.len() {
        if uses[symbol].looped {
            put_loop(
                alloc,
                rows,
                symbol as u32,
                loops[symbol],
                bounds[symbol] as u32,
            )?;
        }
    }
    Ok(())
}

/// Adds the rows of a key of a step table, where the key's variable has this number.
fn put_key(
    alloc: Global,
    rows: &mut Items<Row>,
    key: ReachedKey,
    reached: u32,
    bound: u64,
) -> Result<(), AllocError>
    ensures { OnOk result (rows.new ≡ rows.old ++ written_key key.symbol key.key reached bound) }
{
    let mut lower = Items::new(alloc);
    put(&mut lower, key.symbol, -1)?;
    put(&mut lower, reached, i128::from(key.key))?;
    put_row(rows, lower, 0)?;
    let mut upper = Items::new(alloc);
    put(&mut upper, key.symbol, 1)?;
    put(
        &mut upper,
        reached,
        -(i128::from(bound.saturating_sub(key.key)) + 1),
    )?;
    put_row(rows, upper, i128::from(key.key) - 1)
}

/// A value with the sign of its table.
fn signed(minus: bool, value: u64) -> i128
    ensures { result ≡ negated_if minus (pos value) }
{
    if minus {
        -i128::from(value)
    } else {
        i128::from(value)
    }
}

/// By how much the value of a step table changes at a key.
fn rise(key: ReachedKey) -> i128
    ensures { result ≡ rise_of (seen_key key) }
{
    signed(key.minus, key.value) - signed(key.minus, key.before)
}

/// The value of a step table at its first key.
fn first_of(table: &Steps) -> u64
    ensures { result ≡ first_value table.now.pairs }
{
    match table.pairs.as_slice().first() {
        None => 0,
        Some(pair) => pair.1,
    }
}

/// Adds the rows of the keys of all step tables, whose variables have the numbers from the first on.
pub(crate) fn put_key_rows(
    alloc: Global,
    rows: &mut Items<Row>,
    keys: &[ReachedKey],
    first: u32,
    bounds: &[u64],
) -> Result<(), AllocError>
    requires symbols { All (λ key. key.symbol < length bounds.now) keys.now }
    requires numbers { All (λ key. first + key.place < 2 ^ 32) keys.now }
    ensures { OnOk result (rows.new ≡ rows.old ++ flat_map (written_keys first (nth_size bounds.now)) keys.now) }
{
    for key in keys {
        let number = first + key.place as u32;
        put_key(alloc, rows, *key, number, bounds[key.symbol as usize])?;
    }
    Ok(())
}

/// The parts of the objective, where the keys' variables have the numbers from the first on.
pub(crate) fn objective(
    alloc: Global,
    by: &[i128],
    keys: &[ReachedKey],
    first: u32,
) -> Result<Items<Part>, AllocError>
    requires symbols { length by.now ≤ 2 ^ 32 }
    requires numbers { All (λ key. first + key.place < 2 ^ 32) keys.now }
    ensures { IfOk result (λ goal. goal ≡ written_sizes 0 by.now ++ flat_map (written_rise first) keys.now) }
{
    let mut goal = Items::new(alloc);
    put_sizes(&mut goal, by)?;
    for key in keys {
        put(&mut goal, first + key.place as u32, rise(*key))?;
    }
    Ok(goal)
}

/// What a step table is worth at key 0.
fn worth_of_first(table: &Steps) -> i128
    ensures value { result ≡ negated_if table.now.minus (pos (first_value table.now.pairs)) }
    ensures most { unsigned_abs result ≤ 2 ^ 64 }
{
    signed(table.minus, first_of(table))
}

/// What step tables are worth at key 0, added up.
fn first_sum(tables: &[Steps]) -> i128
    requires { length tables.now ≤ most_terms }
    ensures value { result ≡ first_values tables.now }
    ensures most { unsigned_abs result ≤ 2 ^ 70 }
{
    let mut sum = 0i128;
    for table in tables {
        sum += worth_of_first(table);
    }
    sum
}

/// The constant of the objective.
pub(crate) fn constant(terms: &Terms) -> i128
    requires near { unsigned_abs terms.now.base ≤ most_right_side }
    requires few { length terms.now.steps ≤ most_terms }
    ensures value { result ≡ constant_of terms.now }
    ensures most { unsigned_abs result ≤ 2 ^ 71 }
{
    terms.base + first_sum(terms.steps.as_slice())
}
