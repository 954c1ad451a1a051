//! The units of pieces of work, one after the other.

ghost use Rattle.std.specs.Prelude.{◌≡◌, IfOk, IfErr, map};
ghost use Rattle.elastic_ast.specs.Units.SeenUnits.{seen_unit};
ghost use Rattle.unit_parts.specs.SeenPieces.{seen_piece};
ghost use Rattle.unit_flow.specs.Knowing.{Knows, known_decls, known_units};
ghost use Rattle.unit_flow.specs.PieceUnit.{IsUnitAt};
ghost use Rattle.unit_flow.specs.TooLarge.{AreFitting, IsFirstTooLarge};

use crate::limit::{UnitError, push_unit};
use crate::naming::{Known, found_for};
use crate::summaries::needs;
use elastic_ast::Unit;
use elx_bits::Items;
use std::alloc::{AllocError, Global};
use unit_parts::{Piece, unit_of};

/// The unit of a piece.
fn piece_unit<'a>(alloc: Global, known: &Known<'a>, piece: &Piece<'a>) -> Result<Unit, AllocError>
    requires { Knows known.now }
    ensures { IfOk result (IsUnitAt (known_decls known.now) (seen_piece piece.now)) }
{
    let needs = needs(alloc, &known.scope, &known.summaries, piece)?;
    let found = found_for(known, piece, &needs)?;
    let unit = unit_of(alloc, piece, &needs, found)?;
    Ok(unit)
}

/// The units of pieces, if none of them has more operators than this.
pub fn list_units<'a>(
    alloc: Global,
    known: &Known<'a>,
    pieces: &[Piece<'a>],
    most: u32,
) -> Result<Items<Unit>, UnitError>
    requires { Knows known.now }
    ensures listed { IfOk result (λ list. map seen_unit list ≡ known_units known.now pieces.now) }
    ensures fits { IfOk result (λ list. AreFitting most (map seen_unit list)) }
    ensures refused { IfErr result (IsFirstTooLarge (known_units known.now pieces.now) most) }
{
    let mut list = Items::new(alloc);
    for piece in pieces {
        let unit = match piece_unit(alloc, known, piece) {
            Ok(unit) => unit,
            Err(_) => return Err(UnitError::Memory),
        };
        push_unit(&mut list, unit, most)?;
    }
    Ok(list)
}
