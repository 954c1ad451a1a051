//! Step tables over the places of symbols.

ghost use Rattle.std.specs.Prelude.{◌≡◌, ◌≤◌, ◌++◌, true, IfOk, OnOk, length};
ghost use Rattle.std.specs.List.{list_all};
ghost use Rattle.width_check.specs.Sound.{most_declarations};
ghost use Rattle.size_terms.specs.Building.{is_near_util};
ghost use Rattle.size_terms.specs.Tables.{table_in, tables_in};

use crate::places::Places;
use elastic_ast::{Steps, UtilTerm};
use elx_bits::Items;
use std::alloc::{AllocError, Global};

/// Adds the step table of a term of the utility, if it is one that has pairs.
fn push_table(
    alloc: Global,
    places: &Places<'_>,
    tables: &mut Items<Steps>,
    term: &UtilTerm,
) -> Result<(), AllocError>
    requires few { length places.now ≤ most_declarations }
    requires near { is_near_util places.now term.now ≡ true }
    ensures { OnOk result (tables.new ≡ tables.old ++ table_in places.now term.now) }
{
    let UtilTerm::Steps {
        minus,
        symbol,
        pairs,
    } = term
    else {
        return Ok(());
    };
    if pairs.as_slice().is_empty() {
        return Ok(());
    }
    // The symbol of a table that was checked has a place.
    if let Some(place) = places.place_of(symbol) {
        tables.push(Steps {
            minus: *minus,
            symbol: place as u32,
            pairs: Items::from_vec(pairs.as_slice().to_vec(alloc)?),
        })?;
    }
    Ok(())
}

/// The step tables of the utility that have pairs, in the order of the text.
pub fn step_tables(
    alloc: Global,
    places: &Places<'_>,
    terms: &[UtilTerm],
) -> Result<Items<Steps>, AllocError>
    requires few { length places.now ≤ most_declarations }
    requires near { list_all (is_near_util places.now) terms.now ≡ true }
    ensures { IfOk result (λ tables. tables ≡ tables_in places.now terms.now) }
{
    let mut tables = Items::new(alloc);
    for term in terms {
        push_table(alloc, places, &mut tables, term)?;
    }
    Ok(tables)
}
