//! What the memory of a stage says of the symbols that count cells.

ghost use Rattle.std.specs.Prelude.{◌≡◌, ◌<◌, [], length, map, All, IfOk, Some};
ghost use Rattle.elastic_ast.specs.declared.flat.Terms.{Terms as SomeTerms};
ghost use Rattle.elastic_ast.specs.Units.SeenUnits.{seen_unit};
ghost use Rattle.unit_flow.specs.SoundUnits.{IsLoopSize};
ghost use Rattle.unroll_bound.specs.SizeRules.{lesser as lesser_of, surely_exists, cell_bound, cells_bound};
ghost use Rattle.unroll_bound.specs.SymbolLists.{IsListOf, Changes};
ghost use Rattle.unroll_bound.specs.LoopUses.{NamesSymbol};

use crate::certain::surely;
use crate::rules::{lesser, share};
use elastic_ast::{Cells, Unit};

/// Lowers the bound of the symbol that counts the cells of a unit's register, where that surely exists.
fn lower_by_unit(found: &mut [Option<u128>], unit: &Unit, certain: &[bool], memory: u64)
    requires dense { length certain.now ≡ length found.old }
    requires size { IsLoopSize (length found.old) unit.now.size }
    requires cells { NamesSymbol (length found.old) unit.now.cells }
    ensures { (terms : SomeTerms)
        → IsListOf (length found.old) (λ symbol. surely_exists terms (Some symbol)) certain.now
        → Changes (λ symbol bound. lesser_of (cell_bound terms memory symbol (seen_unit unit.now)) bound) found.old found.new }
{
    if let Some(Cells::Symbol(symbol)) = unit.cells {
        if surely(certain, unit.size) {
            let place = symbol as usize;
            found[place] = lesser(
                share(u128::from(memory), u128::from(unit.cell_width)),
                found[place],
            );
        }
    }
}

/// Lowers each bound, of which there is none yet, to what the units say of the symbols that count cells.
pub fn lower_by_cells(found: &mut [Option<u128>], units: &[Unit], certain: &[bool], memory: u64)
    requires dense { length certain.now ≡ length found.old }
    requires sizes { All (λ unit. IsLoopSize (length found.old) unit.size) units.now }
    requires cells { All (λ unit. NamesSymbol (length found.old) unit.cells) units.now }
    requires unset { (terms : SomeTerms)
        → IsListOf (length found.old) (λ symbol. cells_bound terms memory symbol []) found.old }
    ensures { (terms : SomeTerms)
        → IsListOf (length found.old) (λ symbol. surely_exists terms (Some symbol)) certain.now
        → IsListOf (length found.old) (λ symbol. cells_bound terms memory symbol (map seen_unit units.now)) found.new }
{
    for i in (0..units.len()).rev() {
        lower_by_unit(found, &units[i], certain, memory);
    }
}
