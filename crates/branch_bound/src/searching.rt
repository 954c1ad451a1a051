//! The search: line after line, until no place is open.

ghost use Rattle.std.specs.Prelude.{◌≡◌, ◌≤◌, IfOk, OnOk};
ghost use Rattle.int_program.specs.Boxes.{root_of};
ghost use Rattle.int_program.specs.Limits.{IsInLimits};
ghost use Rattle.branch_bound.specs.Columns.{AreColumns};
ghost use Rattle.branch_bound.specs.States.{AreStates};
ghost use Rattle.branch_bound.specs.Found.{most_splits, IsFound};
ghost use Rattle.branch_bound.specs.Lines.{IsBestKnown, IsClosed};

use crate::columns::Columns;
use crate::deciding::write_line;
use crate::diving::first_point;
use crate::found::Found;
use crate::guide::Guide;
use crate::line::{Line, has_open, settled_tree};
use crate::open::Open;
use crate::states::{RowState, states_of};
use crate::table::Table;
use crate::testing::try_values;
use elx_bits::Items;
use int_program::{Ip, IpBox, Place, Point, root};
use std::alloc::{AllocError, Global};

/// The best point that was found, its value, and the lines.
#[derive(Drop)]
struct Closed {
    best: Option<Point>,
    known: Option<i128>,
    lines: Items<Line>,
}

/// Tries a first point, and answers the value that is known then.
fn try_first(
    alloc: Global,
    ip: &Ip,
    table: &Table,
    best: &mut Option<Point>,
) -> Result<Option<i128>, AllocError>
    requires limits { IsInLimits ip.now }
    requires nothing { IsBestKnown ip.now best.old None }
    ensures { IfOk result (λ known. IsBestKnown ip.now best.new known) }
{
    match first_point(alloc, ip, table)? {
        Some(values) => try_values(alloc, ip, values, None, best),
        None => Ok(None),
    }
}

/// Fills the root box with lines.
fn fill(
    alloc: Global,
    ip: &Ip,
    limit: u64,
    table: &Table,
    states: &mut [RowState],
    known: &mut Option<i128>,
    best: &mut Option<Point>,
    within: IpBox,
) -> Result<Items<Line>, AllocError>
    requires limits { IsInLimits ip.now }
    requires columns { AreColumns ip.now table.now.columns }
    requires states { AreStates ip.now within states.old }
    requires best_known { IsBestKnown ip.now best.old known.old }
    requires root { within ≡ root_of ip.now }
    ensures { IfOk result (IsClosed ip.now limit best.new known.new) }
{
    let mut guide = Guide::new(alloc, ip, table)?;
    let mut here = Some(Place { within, above: 0 });
    let mut waiting = Open::new(alloc);
    let mut lines = Items::new(alloc);
    let mut splits = 0u64;
    'places: while let Some(place) = here {
        let hint = guide.hint(ip, table, &place, *known)?;
        let may_split = splits < limit;
        let (next, split) = write_line(
            alloc,
            ip,
            known,
            best,
            may_split,
            hint,
            place,
            &table.columns,
            states,
            &mut waiting,
            &mut lines,
        )?;
        here = next;
        if split {
            splits += 1;
        }
    }
    Ok(lines)
}

/// The lines of the root box, with what is known when all are written.
fn close(alloc: Global, ip: &Ip, limit: u64) -> Result<Closed, AllocError>
    requires { IsInLimits ip.now }
    ensures { IfOk result (λ closed. IsClosed ip.now limit closed.best closed.known closed.lines) }
{
    let table = Table::new(alloc, ip, Columns::new(alloc, ip)?)?;
    let mut best = None;
    let mut known = try_first(alloc, ip, &table, &mut best)?;
    let within = root(alloc, ip)?;
    let mut states = states_of(alloc, ip, &within)?;
    let lines = fill(
        alloc,
        ip,
        limit,
        &table,
        states.as_mut_slice(),
        &mut known,
        &mut best,
        within,
    )?;
    Ok(Closed { best, known, lines })
}

/// The best point of the program with a tree of cases that shows it, or a tree that shows that there is none; or, where `limit`
/// splits were not enough, the best point so far and a tree with open leaves.
pub fn search(alloc: Global, ip: &Ip, limit: u64) -> Result<Found, AllocError>
    requires limits { IsInLimits ip.now }
    requires few { limit ≤ most_splits }
    ensures { IfOk result (IsFound ip.now limit) }
{
    let Closed { best, known, lines } = close(alloc, ip, limit)?;
    let tree = settled_tree(alloc, lines, known)?;
    if has_open(tree.nodes.as_slice()) {
        return Ok(Found::Unfinished { best, tree });
    }
    match best {
        Some(point) => Ok(Found::Best { point, tree }),
        None => Ok(Found::NoPoint { tree }),
    }
}
