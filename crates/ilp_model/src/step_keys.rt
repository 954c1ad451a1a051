//! The keys of step tables that the bounds of sizes let be reached.

ghost use Rattle.std.specs.Prelude.{◌≡◌, [], ◌∷◌, length, map, ◌<◌, ◌++◌, OnOk, IfOk, All};
ghost use Rattle.elastic_ast.specs.Units.Instances.{nth_size};
ghost use Rattle.ilp_model.specs.StepKeys.{keys_after, keys_of_table, keys_from};
ghost use Rattle.ilp_model.specs.SeenKeys.{seen_keys};

use elastic_ast::Steps;
use elx_bits::Items;
use std::alloc::{AllocError, Global};

/// A key above 0 of a step table, with its place among all of them, the sign and the symbol of the table, and the values at the
/// key and below it.
#[derive(Clone, Copy, Debug)]
pub struct ReachedKey {
    pub place: usize,
    pub minus: bool,
    pub symbol: u32,
    pub key: u64,
    pub value: u64,
    pub before: u64,
}

/// Lists a key of a table, with its value and the one below it, where it is at most the bound.
fn add_key(
    keys: &mut Items<ReachedKey>,
    table: &Steps,
    bound: u64,
    pair: (u64, u64),
    before: u64,
) -> Result<(), AllocError>
    ensures { OnOk result (seen_keys keys.new
        ≡ seen_keys keys.old ++ keys_after (λ symbol. bound) table.now.minus table.now.symbol (length keys.old) before (pair ∷ [])) }
{
    if pair.0 <= bound {
        keys.push(ReachedKey {
            place: keys.as_slice().len(),
            minus: table.minus,
            symbol: table.symbol,
            key: pair.0,
            value: pair.1,
            before,
        })?;
    }
    Ok(())
}

/// Lists the keys of a table that the bound of its symbol lets be reached.
fn add_keys(keys: &mut Items<ReachedKey>, table: &Steps, bound: u64) -> Result<(), AllocError>
    ensures { OnOk result (seen_keys keys.new ≡ seen_keys keys.old ++ keys_of_table (λ symbol. bound) (length keys.old) table.now) }
{
    let pairs = table.pairs.as_slice();
    if pairs.is_empty() {
        return Ok(());
    }
    let mut before = pairs[0].1;
    for i in 1..pairs.len() {
        add_key(keys, table, bound, pairs[i], before)?;
        before = pairs[i].1;
    }
    Ok(())
}

/// The keys of all tables that the bounds let be reached, in order.
pub(crate) fn step_keys(
    alloc: Global,
    tables: &[Steps],
    bounds: &[u64],
) -> Result<Items<ReachedKey>, AllocError>
    requires { All (λ table. table.symbol < length bounds.now) tables.now }
    ensures { IfOk result (λ keys. seen_keys keys ≡ keys_from (nth_size bounds.now) 0 tables.now) }
{
    let mut keys = Items::new(alloc);
    for table in tables {
        add_keys(&mut keys, table, bounds[table.symbol as usize])?;
    }
    Ok(keys)
}
