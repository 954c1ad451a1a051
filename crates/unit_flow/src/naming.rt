//! What is declared under the names that a unit uses.

ghost use Rattle.std.specs.Prelude.{◌≡◌, IfOk, Some, option_map};
ghost use Rattle.std.specs.Option.{option_copied};
ghost use Rattle.elastic_ast.specs.Units.Costs.{place_of_symbol, cells_counted, kept_by};
ghost use Rattle.expr_types.specs.Scoped.{kept_shown};
ghost use Rattle.unit_parts.specs.SeenPieces.{seen_loop, seen_piece};
ghost use Rattle.unit_parts.specs.UnitFrom.{AreNeeds, IsFound};
ghost use Rattle.unit_flow.specs.Knowing.{Knows, known_decls, counted_kept};

use crate::summaries::Summaries;
use crate::table_bits::bits_of;
use elastic_ast::{Amount, Cells};
use elx_bits::Name;
use expr_types::Scope;
use size_terms::Places;
use std::alloc::AllocError;
use unit_parts::{Found, InLoop, Needs, Piece, first_register};

/// What the units of a program ask of it: what its names declare, the places of its symbols and how many there are, and the
/// summaries of its actions and tables.
#[derive(Drop)]
pub struct Known<'a> {
    pub scope: Scope<'a>,
    pub places: Places<'a>,
    pub count: usize,
    pub summaries: Summaries<'a>,
}

/// The place of the first symbol of a name, and the number of all symbols where none has it.
pub fn place_of(known: &Known<'_>, name: &Name) -> usize
    requires { Knows known.now }
    ensures { result ≡ place_of_symbol (known_decls known.now) name.now }
{
    known.places.place_of(name).unwrap_or(known.count)
}

/// The number of a symbol. One that 32 bits don't hold counts as want of memory.
fn symbol_number(known: &Known<'_>, name: &Name) -> Result<u32, AllocError>
    requires { Knows known.now }
    ensures { IfOk result (λ number. number ≡ place_of_symbol (known_decls known.now) name.now) }
{
    match u32::try_from(place_of(known, name)) {
        Ok(number) => Ok(number),
        Err(_) => Err(AllocError),
    }
}

/// The number of the symbol of the loop around a piece.
fn loop_size(known: &Known<'_>, around: Option<InLoop<'_>>) -> Result<Option<u32>, AllocError>
    requires { Knows known.now }
    ensures { IfOk result (λ size. size ≡
        option_map (λ loop. place_of_symbol (known_decls known.now) loop.size) (option_map seen_loop around.entry)) }
{
    match around {
        Some(around) => Ok(Some(symbol_number(known, around.size)?)),
        None => Ok(None),
    }
}

/// How many cells a register has.
fn cells_of(known: &Known<'_>, amount: &Amount) -> Result<Cells, AllocError>
    requires { Knows known.now }
    ensures { IfOk result (λ cells. cells ≡ cells_counted (known_decls known.now) amount.now) }
{
    match amount {
        Amount::Num(number) => Ok(Cells::Fixed(*number)),
        Amount::Named(name) => Ok(Cells::Symbol(symbol_number(known, name)?)),
    }
}

/// The cells that a register is declared with, and their width.
fn counted(
    known: &Known<'_>,
    kept: Option<(&Amount, u8)>,
) -> Result<Option<(Cells, u8)>, AllocError>
    requires { Knows known.now }
    ensures { IfOk result (λ cells. cells ≡ counted_kept (known_decls known.now) (kept_shown kept.entry)) }
{
    match kept {
        Some((amount, width)) => {
            let cells = cells_of(known, amount)?;
            Ok(Some((cells, width)))
        }
        None => Ok(None),
    }
}

/// The cells of the register of a name, and their width.
fn kept_under(known: &Known<'_>, name: &Name) -> Result<Option<(Cells, u8)>, AllocError>
    requires { Knows known.now }
    ensures { IfOk result (λ kept. kept ≡ kept_by (known_decls known.now) (Some name.now)) }
{
    let kept = known.scope.register(name);
    let counted = counted(known, kept)?;
    Ok(counted)
}

/// The same where there may be no register.
fn kept_of(known: &Known<'_>, name: Option<&Name>) -> Result<Option<(Cells, u8)>, AllocError>
    requires { Knows known.now }
    ensures { IfOk result (λ kept. kept ≡ kept_by (known_decls known.now) (option_copied name.entry)) }
{
    match name {
        Some(name) => kept_under(known, name),
        None => Ok(None),
    }
}

/// What is declared under the names that a piece uses.
pub fn found_for(
    known: &Known<'_>,
    piece: &Piece<'_>,
    needs: &Needs<'_>,
) -> Result<Found, AllocError>
    requires known { Knows known.now }
    requires needs { AreNeeds (known_decls known.now) (seen_piece piece.now) needs.now }
    ensures { IfOk result (IsFound (known_decls known.now) (seen_piece piece.now)) }
{
    let size = loop_size(known, piece.around)?;
    let kept = kept_of(known, first_register(needs.writes.locations()))?;
    let bits = bits_of(&known.scope, piece.task)?;
    Ok(Found {
        size,
        kept,
        table_bits: bits.table_bits,
        ternary_bits: bits.ternary_bits,
    })
}
