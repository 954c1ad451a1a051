//! The boxes that nodes open.

ghost use Rattle.std.specs.Prelude.{◌≡◌, length, slice_get, ◌++◌, None, IfOk, IfSome, OnOk};
ghost use Rattle.int_program.specs.Boxes.{IsInside};
ghost use Rattle.int_program.specs.Limits.{IsInLimits};
ghost use Rattle.int_program.specs.Accepts.{tight_child, tight_fault};
ghost use Rattle.int_program.specs.Places.{opened};
ghost use Rattle.branch_bound.specs.Lines.{IsDone};
ghost use Rattle.branch_bound.specs.Trail.{behind, open_places, AreStepsOf};
ghost use Rattle.branch_bound.specs.Columns.{AreColumns};
ghost use Rattle.branch_bound.specs.States.{AreStates};

use crate::columns::Columns;
use crate::open::Open;
use crate::states::RowState;
use elx_bits::Items;
use int_program::{Ip, IpBox, Node, Place, tighten};
use std::alloc::{AllocError, Global};

/// A copy of the numbers.
fn copied(alloc: Global, numbers: &Items<i128>) -> Result<Items<i128>, AllocError>
    ensures { IfOk result (λ copy. copy ≡ numbers.now) }
{
    Ok(Items::from_vec(numbers.as_slice().to_vec(alloc)?))
}

/// The box with both ends of each variable at its low one.
pub(crate) fn lowest(alloc: Global, within: &IpBox) -> Result<IpBox, AllocError>
    ensures { IfOk result (λ b. (b.low ≡ within.now.low) × (b.high ≡ within.now.low)) }
{
    let low = copied(alloc, &within.low)?;
    let high = copied(alloc, &within.low)?;
    Ok(IpBox { low, high })
}

/// The box that an accepted tightening leaves.
fn tightened(
    ip: &Ip,
    within: IpBox,
    var: u32,
    row: u32,
    columns: &Columns,
    states: &mut [RowState],
    waiting: &mut Open,
) -> Result<IpBox, AllocError>
    requires limits { IsInLimits ip.now }
    requires inside { IsInside ip.now within }
    requires accepted { tight_fault (length ip.now.tops) within var (slice_get ip.now.rows row) ≡ None }
    requires steps { AreStepsOf (length ip.now.tops) waiting.old }
    requires columns { AreColumns ip.now columns.now }
    requires states { AreStates ip.now within states.old }
    ensures child { IfOk result (λ b. b ≡ tight_child within var (slice_get ip.now.rows row)) }
    ensures behind { IfOk result (λ b. behind b waiting.new ≡ behind within waiting.old) }
    ensures steps { OnOk result (AreStepsOf (length ip.now.tops) waiting.new) }
    ensures states { IfOk result (λ b. AreStates ip.now b states.new) }
{
    let row = &ip.rows.as_slice()[row as usize];
    match tighten(row, var, &within) {
        None => Ok(within),
        Some(ends) => {
            let child = waiting.change(ip, columns, states, within, var, ends)?;
            Ok(child)
        }
    }
}

/// The place that is open next, after a node at the place before.
pub(crate) fn next_place(
    ip: &Ip,
    known: Option<i128>,
    place: Place,
    node: &Node,
    columns: &Columns,
    states: &mut [RowState],
    waiting: &mut Open,
) -> Result<Option<Place>, AllocError>
    requires limits { IsInLimits ip.now }
    requires inside { IsInside ip.now place.within }
    requires done { IsDone ip.now known place node.now }
    requires steps { AreStepsOf (length ip.now.tops) waiting.old }
    requires columns { AreColumns ip.now columns.now }
    requires states { AreStates ip.now place.within states.old }
    ensures places { IfOk result (λ next.
        open_places next waiting.new ≡ opened ip.now place node.now ++ behind place.within waiting.old) }
    ensures steps { OnOk result (AreStepsOf (length ip.now.tops) waiting.new) }
    ensures states { IfOk result (λ next. IfSome next (λ p. AreStates ip.now p.within states.new)) }
{
    let Place { within, above } = place;
    match node {
        Node::Split { var, at } => Ok(Some(Place {
            within: waiting.split(ip, columns, states, within, *var, *at)?,
            above: 0,
        })),
        Node::Tight { var, row } => Ok(Some(Place {
            within: tightened(ip, within, *var, *row, columns, states, waiting)?,
            above: above + 1,
        })),
        _ => waiting_place(ip, columns, states, within, waiting),
    }
}

/// The place that waits next.
pub(crate) fn waiting_place(
    ip: &Ip,
    columns: &Columns,
    states: &mut [RowState],
    within: IpBox,
    waiting: &mut Open,
) -> Result<Option<Place>, AllocError>
    requires low_count { length within.low ≡ length ip.now.tops }
    requires high_count { length within.high ≡ length ip.now.tops }
    requires steps { AreStepsOf (length ip.now.tops) waiting.old }
    requires columns { AreColumns ip.now columns.now }
    requires states { AreStates ip.now within states.old }
    ensures places { IfOk result (λ next. open_places next waiting.new ≡ behind within waiting.old) }
    ensures steps { OnOk result (AreStepsOf (length ip.now.tops) waiting.new) }
    ensures states { IfOk result (λ next. IfSome next (λ p. AreStates ip.now p.within states.new)) }
{
    match waiting.next(ip, columns, states, within)? {
        Some(within) => Ok(Some(Place { within, above: 0 })),
        None => Ok(None),
    }
}
