//! The unit of a piece of work.

ghost use Rattle.std.specs.Prelude.{◌≡◌, ℕ, IfOk, option_map, unwrap_or};
ghost use Rattle.elastic_ast.specs.Units.SeenUnits.{seen_unit};
ghost use Rattle.unit_parts.specs.SeenPieces.{seen_piece};
ghost use Rattle.unit_parts.specs.Capped.{capped};
ghost use Rattle.unit_parts.specs.UnitFrom.{unit_from, NeedsWith};

use crate::callee::Summary;
use crate::copies::{copy_conds, copy_name, own_locations, own_work};
use crate::footprint::Footprint;
use crate::pieces::{InLoop, Piece};
use crate::tasks::{cost, operators_of, reads_of, writes_of};
use elastic_ast::{Cells, Unit};
use elx_bits::{Items, Name};
use std::alloc::{AllocError, Global};

/// What is found by name for a unit: the number of the symbol of its loop, the cells of its register and their width, and the
/// bits of its table.
#[derive(Clone, Copy)]
pub struct Found {
    pub size: Option<u32>,
    pub kept: Option<(Cells, u8)>,
    pub table_bits: u64,
    pub ternary_bits: u64,
}

/// What a unit touches and takes.
#[derive(Drop)]
pub struct Needs<'a> {
    pub reads: Footprint<'a>,
    pub writes: Footprint<'a>,
    pub cost: u32,
    pub ops: u32,
}

/// A number that is exact, where 32 bits hold it. A greater one counts as want of memory.
fn exact(number: u32) -> Result<u32, AllocError>
    ensures { IfOk result (λ kept. (wanted : ℕ) → number ≡ capped wanted → kept ≡ wanted) }
{
    if number == u32::MAX {
        return Err(AllocError);
    }
    Ok(number)
}

/// What a piece touches and takes, where `callee` is the summary of what it calls.
pub fn needs_of<'a>(
    alloc: Global,
    piece: &Piece<'a>,
    callee: &Summary<'a>,
) -> Result<Needs<'a>, AllocError>
    ensures { IfOk result (NeedsWith piece.now callee.now) }
{
    let reads = reads_of(alloc, piece, callee)?;
    let writes = writes_of(alloc, piece, callee)?;
    let cost = exact(cost(writes.locations()))?;
    let ops = exact(operators_of(piece, callee))?;
    Ok(Needs {
        reads,
        writes,
        cost,
        ops,
    })
}

/// The number of the loop around a piece.
fn loop_number(around: Option<InLoop<'_>>) -> Option<u32>
    ensures { result ≡ option_map (λ loop. loop.number) around.entry }
{
    match around {
        Some(around) => Some(around.number),
        None => None,
    }
}

/// The name of the index of the loop around a piece.
fn loop_index(alloc: Global, around: Option<InLoop<'_>>) -> Result<Option<Name>, AllocError>
    ensures { IfOk result (λ index. index ≡ option_map (λ loop. loop.index.now) around.entry) }
{
    match around {
        Some(around) => Ok(Some(copy_name(alloc, around.index)?)),
        None => Ok(None),
    }
}

/// The unit of a piece.
pub fn unit_of(
    alloc: Global,
    piece: &Piece<'_>,
    needs: &Needs<'_>,
    found: Found,
) -> Result<Unit, AllocError>
    ensures { IfOk result (λ unit. seen_unit unit ≡ unit_from (seen_piece piece.now) needs.now found) }
{
    let lits = Items::from_vec(Vec::from_slice(alloc, piece.lits.as_slice())?);
    let conds = copy_conds(alloc, piece.conds.as_slice())?;
    let work = own_work(alloc, piece.task)?;
    let index = loop_index(alloc, piece.around)?;
    let reads = own_locations(alloc, needs.reads.locations())?;
    let writes = own_locations(alloc, needs.writes.locations())?;
    Ok(Unit {
        lits,
        conds,
        work,
        loop_no: loop_number(piece.around),
        size: found.size,
        index,
        stage: piece.stage,
        reads,
        writes,
        cells: cells_of(found.kept),
        cell_width: width_of(found.kept),
        cost: needs.cost,
        ops: needs.ops,
        table_bits: found.table_bits,
        ternary_bits: found.ternary_bits,
    })
}

/// The cells of a register, if there is one.
fn cells_of(kept: Option<(Cells, u8)>) -> Option<Cells>
    ensures { result ≡ option_map (λ kept. kept.0) kept }
{
    match kept {
        Some(kept) => Some(kept.0),
        None => None,
    }
}

/// The width of its cells, and 0 where there is none.
fn width_of(kept: Option<(Cells, u8)>) -> u8
    ensures { result ≡ unwrap_or (option_map (λ kept. kept.1) kept) 0 }
{
    match kept {
        Some(kept) => kept.1,
        None => 0,
    }
}
