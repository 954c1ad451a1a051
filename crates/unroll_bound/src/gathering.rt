//! The bounds of all symbols, gathered rule by rule.

ghost use Rattle.std.specs.Prelude.{◌≡◌, ◌<◌, ℕ, get_or, length, map, All, IfOk};
ghost use Rattle.elastic_ast.specs.Units.PlainUnits.{PlainUnits};
ghost use Rattle.elastic_ast.specs.Units.SeenUnits.{seen_unit, seen_units};
ghost use Rattle.size_terms.specs.Rows.{AreShort};
ghost use Rattle.unit_flow.specs.SoundUnits.{IsLoopSize, SoundUnits};
ghost use Rattle.unroll_bound.specs.GatheredBounds.{IsGathered};
ghost use Rattle.unroll_bound.specs.LoopUses.{NamesSymbol, loop_use};
ghost use Rattle.unroll_bound.specs.SizeRules.{rows_bound, cells_bound};
ghost use Rattle.unroll_bound.specs.UnitBounds.{bound_of_units};
ghost use Rattle.unroll_bound.specs.SymbolLists.{IsListOf};

use crate::cells::lower_by_cells;
use crate::certain::certain_symbols;
use crate::joining::units_bound;
use crate::loop_uses::{LoopUse, uses_of_loops};
use crate::rules::{lesser, lower_by_rows, share};
use elastic_ast::{Terms, Unit, Units};
use std::alloc::{AllocError, Global};
use target_desc::Target;

/// What the rows say of each symbol.
pub fn bounds_by_rows(alloc: Global, terms: &Terms) -> Result<Vec<Option<u128>>, AllocError>
    requires { AreShort terms.now }
    ensures { IfOk result (λ found. IsListOf (length terms.now.symbols) (λ symbol. rows_bound symbol terms.now.rows) found.items) }
{
    let mut found = vec![in alloc; None; terms.symbols.as_slice().len()]?;
    lower_by_rows(found.as_mut_slice(), terms.rows.as_slice());
    Ok(found)
}

/// What the cells of registers say of each symbol.
pub fn bounds_by_cells(
    alloc: Global,
    terms: &Terms,
    units: &[Unit],
    memory: u64,
) -> Result<Vec<Option<u128>>, AllocError>
    requires short { AreShort terms.now }
    requires sizes { All (λ unit. IsLoopSize (length terms.now.symbols) unit.size) units.now }
    requires cells { All (λ unit. NamesSymbol (length terms.now.symbols) unit.cells) units.now }
    ensures { IfOk result (λ found. IsListOf (length terms.now.symbols) (λ symbol. cells_bound terms.now memory symbol (map seen_unit units.now)) found.items) }
{
    let certain = certain_symbols(alloc, terms)?;
    let mut found = vec![in alloc; None; terms.symbols.as_slice().len()]?;
    lower_by_cells(found.as_mut_slice(), units, certain.as_slice(), memory);
    Ok(found)
}

/// The bound of a symbol, where those by rows and by cells and the use of its loops are known.
pub fn bound_at(
    by_rows: Option<u128>,
    bits: u64,
    one: LoopUse,
    cells: Option<u128>,
    target: &Target,
) -> Option<u128>
    ensures { (units : PlainUnits) (symbol : ℕ)
        → by_rows ≡ rows_bound symbol units.terms.rows
        → bits ≡ get_or units.symbol_bits symbol 0
        → one ≡ loop_use units.list symbol
        → cells ≡ cells_bound units.terms target.now.memory_bits symbol units.list
        → result ≡ bound_of_units units target.now symbol }
{
    let header = share(u128::from(target.header_bits), u128::from(bits));
    lesser(by_rows, lesser(header, units_bound(one, cells, target)))
}

/// What the rows, the loops and the cells of registers say of each symbol.
#[derive(Drop)]
pub struct Gathered {
    pub rows: Vec<Option<u128>>,
    pub uses: Vec<LoopUse>,
    pub cells: Vec<Option<u128>>,
}

/// Gathers what is said of all symbols, in one walk over the rows and three over the units.
pub fn gather(alloc: Global, units: &Units, target: &Target) -> Result<Gathered, AllocError>
    requires { SoundUnits (seen_units units.now) }
    ensures { IfOk result (IsGathered (seen_units units.now) target.now) }
{
    let list = units.list.as_slice();
    let rows = bounds_by_rows(alloc, &units.terms)?;
    let uses = uses_of_loops(alloc, list, units.terms.symbols.as_slice().len())?;
    let cells = bounds_by_cells(alloc, &units.terms, list, target.memory_bits)?;
    Ok(Gathered { rows, uses, cells })
}

/// The bound of a symbol, from what was gathered.
pub fn gathered_bound(
    units: &Units,
    target: &Target,
    gathered: &Gathered,
    symbol: usize,
) -> Option<u128>
    requires sound { SoundUnits (seen_units units.now) }
    requires gathered { IsGathered (seen_units units.now) target.now gathered.now }
    requires within { symbol < length units.now.terms.symbols }
    ensures { result ≡ bound_of_units (seen_units units.now) target.now symbol }
{
    let rows = gathered.rows[symbol];
    let bits = units.symbol_bits.as_slice()[symbol];
    bound_at(
        rows,
        bits,
        gathered.uses[symbol],
        gathered.cells[symbol],
        target,
    )
}
