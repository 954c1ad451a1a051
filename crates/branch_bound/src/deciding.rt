//! What is written at a place: a leaf, a tightening, a split, or that it is left.

ghost use Rattle.std.specs.Prelude.{◌≡◌, ◌≢◌, ◌≤◌, ◌⊎◌, length, ◌++◌, IfSome, IfNone, IfOk, OnOk};
ghost use Rattle.int_program.specs.Boxes.{IsInside};
ghost use Rattle.int_program.specs.Limits.{IsInLimits};
ghost use Rattle.int_program.specs.Points.{IsBetter};
ghost use Rattle.int_program.specs.Accepts.{goal_fault, split_fault};
ghost use Rattle.int_program.specs.Fair.{NoRowLeaf, NoTightening, most_above};
ghost use Rattle.int_program.specs.Places.{opened};
ghost use Rattle.branch_bound.specs.Trail.{behind, open_places, AreStepsOf};
ghost use Rattle.branch_bound.specs.Columns.{AreColumns};
ghost use Rattle.branch_bound.specs.States.{AreStates};
ghost use Rattle.branch_bound.specs.Lines.{node_of, AtMost, IsBestKnown, IsStep, IsUnsplit, IsWritten, IsDecided, IsGrown, IsOpenPlace, IsSingle, IsSearchedThrough};

use crate::boxes::{next_place, waiting_place};
use crate::columns::Columns;
use crate::line::Line;
use crate::open::Open;
use crate::states::RowState;
use crate::testing::{closing_row, tightening, try_lowest};
use elx_bits::Items;
use int_program::{
    Ip, IpBox, Node, Place, Point, fault_of_goal_leaf, fault_of_row_leaf, fault_of_split,
    fault_of_tight, goal_most,
};
use std::alloc::{AllocError, Global};

/// How many tightenings may stand directly above another node.
const MOST_ABOVE: u32 = 100;

/// What to try first at a place. It is only a hint: each is tested before it is written.
#[derive(Clone, Copy, Debug)]
pub(crate) enum Hint {
    Nothing,
    Tight { var: u32, row: u32 },
    Row { row: u32 },
    Split { var: u32, at: i128 },
}

/// The tightening, where it is accepted and has room above it.
fn hinted_tight(ip: &Ip, place: &Place, var: u32, row: u32) -> Option<Node>
    requires limits { IsInLimits ip.now }
    requires open_place { IsOpenPlace ip.now place.now }
    ensures { IfSome result (IsUnsplit ip.now None place.now) }
{
    if place.above < MOST_ABOVE && fault_of_tight(ip, &place.within, var, row).is_none() {
        Some(Node::Tight { var, row })
    } else {
        None
    }
}

/// The row leaf, where it is accepted.
fn hinted_row(ip: &Ip, place: &Place, row: u32) -> Option<Node>
    requires limits { IsInLimits ip.now }
    requires open_place { IsOpenPlace ip.now place.now }
    ensures { IfSome result (IsUnsplit ip.now None place.now) }
{
    if fault_of_row_leaf(ip, &place.within, row).is_none() {
        Some(Node::RowLeaf { row })
    } else {
        None
    }
}

/// What the hint names, where it may be written.
fn hinted(ip: &Ip, place: &Place, hint: Hint) -> Option<Node>
    requires limits { IsInLimits ip.now }
    requires open_place { IsOpenPlace ip.now place.now }
    ensures { IfSome result (IsUnsplit ip.now None place.now) }
{
    match hint {
        Hint::Tight { var, row } => hinted_tight(ip, place, var, row),
        Hint::Row { row } => hinted_row(ip, place, row),
        Hint::Nothing | Hint::Split { var: _, at: _ } => None,
    }
}

/// The leaf that closes the place.
fn leaf(ip: &Ip, known: Option<i128>, states: &[RowState], place: &Place) -> Option<Node>
    requires limits { IsInLimits ip.now }
    requires open_place { IsOpenPlace ip.now place.now }
    requires states { AreStates ip.now place.now.within states.now }
    ensures found { IfSome result (IsUnsplit ip.now known place.now) }
    ensures no_goal { IfNone result (goal_fault ip.now place.now.within known ≢ None) }
    ensures no_row { IfNone result (NoRowLeaf ip.now place.now.within) }
{
    if fault_of_goal_leaf(ip, &place.within, known).is_none() {
        return Some(Node::GoalLeaf);
    }
    match closing_row(ip, &place.within, states) {
        Some(row) => Some(Node::RowLeaf { row }),
        None => None,
    }
}

/// The first tightening that may be written at the place.
fn first_tight(ip: &Ip, states: &mut [RowState], place: &Place) -> Option<Node>
    requires limits { IsInLimits ip.now }
    requires open_place { IsOpenPlace ip.now place.now }
    requires states { AreStates ip.now place.now.within states.old }
    ensures states { AreStates ip.now place.now.within states.new }
    ensures found { IfSome result (IsUnsplit ip.now None place.now) }
    ensures none { IfNone result (NoTightening ip.now place.now.within ⊎ (most_above ≤ place.now.above)) }
{
    if place.above >= MOST_ABOVE {
        return None;
    }
    match tightening(ip, &place.within, states) {
        Some((var, row)) => Some(Node::Tight { var, row }),
        None => None,
    }
}

/// What is written at the place without a split.
fn unsplit(ip: &Ip, known: Option<i128>, states: &mut [RowState], place: &Place) -> Option<Node>
    requires limits { IsInLimits ip.now }
    requires open_place { IsOpenPlace ip.now place.now }
    requires states { AreStates ip.now place.now.within states.old }
    ensures states { AreStates ip.now place.now.within states.new }
    ensures found { IfSome result (IsUnsplit ip.now known place.now) }
    ensures none { IfNone result (IsSearchedThrough ip.now known place.now) }
{
    match leaf(ip, known, states, place) {
        Some(node) => Some(node),
        None => first_tight(ip, states, place),
    }
}

/// The first variable with more than one number left, to be split at its low end.
fn first_split(ip: &Ip, within: &IpBox) -> Option<(u32, i128)>
    requires limits { IsInLimits ip.now }
    requires inside { IsInside ip.now within.now }
    ensures found { IfSome result (λ s. split_fault (length ip.now.tops) within.now s.0 s.1 ≡ None) }
    ensures none { IfNone result (IsSingle within.now) }
{
    let low = within.low.as_slice();
    'variables: for i in 0..low.len() {
        let at = low[i];
        if fault_of_split(ip, within, i as u32, at).is_none() {
            return Some((i as u32, at));
        }
    }
    None
}

/// Where the box is split: as the hint says, if that may be.
fn split_place(ip: &Ip, hint: Hint, within: &IpBox) -> Option<(u32, i128)>
    requires limits { IsInLimits ip.now }
    requires inside { IsInside ip.now within.now }
    ensures found { IfSome result (λ s. split_fault (length ip.now.tops) within.now s.0 s.1 ≡ None) }
    ensures none { IfNone result (IsSingle within.now) }
{
    match hint {
        Hint::Split { var, at } => {
            if fault_of_split(ip, within, var, at).is_none() {
                Some((var, at))
            } else {
                first_split(ip, within)
            }
        }
        _ => first_split(ip, within),
    }
}

/// Splits the place, or leaves it where no split is allowed.
fn split_or_leave(ip: &Ip, known: Option<i128>, may_split: bool, hint: Hint, place: &Place) -> Line
    requires limits { IsInLimits ip.now }
    requires open_place { IsOpenPlace ip.now place.now }
    requires through { IsSearchedThrough ip.now known place.now }
    requires tried { IsBetter ip.now known place.now.within.low → ⊥ }
    ensures { IsDecided ip.now known may_split place.now result }
{
    let _ = known;
    if !may_split {
        return Line::Left {
            most: goal_most(ip, &place.within),
        };
    }
    match split_place(ip, hint, &place.within) {
        Some((var, at)) => Line::Done(Node::Split { var, at }),
        None => unreachable!(),
    }
}

/// What is written at the place. Where the hint doesn't tell, the lowest point is tried first.
fn decided(
    alloc: Global,
    ip: &Ip,
    known: &mut Option<i128>,
    best: &mut Option<Point>,
    may_split: bool,
    hint: Hint,
    states: &mut [RowState],
    place: &Place,
) -> Result<Line, AllocError>
    requires limits { IsInLimits ip.now }
    requires open_place { IsOpenPlace ip.now place.now }
    requires best_known { IsBestKnown ip.now best.old known.old }
    requires states { AreStates ip.now place.now.within states.old }
    ensures step { IfOk result (IsStep ip.now known.old known.new best.new may_split place.now) }
    ensures states { OnOk result (AreStates ip.now place.now.within states.new) }
{
    if let Some(node) = hinted(ip, place, hint) {
        return Ok(Line::Done(node));
    }
    let value = try_lowest(alloc, ip, &place.within, states, *known, best)?;
    *known = value;
    match unsplit(ip, value, states, place) {
        Some(node) => Ok(Line::Done(node)),
        None => Ok(split_or_leave(ip, value, may_split, hint, place)),
    }
}

/// The place that is open next, after a line at the place before.
fn go_on(
    ip: &Ip,
    known: Option<i128>,
    place: Place,
    line: &Line,
    columns: &Columns,
    states: &mut [RowState],
    waiting: &mut Open,
) -> Result<Option<Place>, AllocError>
    requires limits { IsInLimits ip.now }
    requires open_place { IsOpenPlace ip.now place }
    requires written { IsWritten ip.now known place line.now }
    requires steps { AreStepsOf (length ip.now.tops) waiting.old }
    requires columns { AreColumns ip.now columns.now }
    requires states { AreStates ip.now place.within states.old }
    ensures places { IfOk result (λ next.
        open_places next waiting.new ≡ opened ip.now place (node_of line.now) ++ behind place.within waiting.old) }
    ensures steps { OnOk result (AreStepsOf (length ip.now.tops) waiting.new) }
    ensures states { IfOk result (λ next. IfSome next (λ p. AreStates ip.now p.within states.new)) }
{
    match line {
        Line::Done(node) => next_place(ip, known, place, node, columns, states, waiting),
        Line::Left { most: _ } => waiting_place(ip, columns, states, place.within, waiting),
    }
}

/// Writes one line at the place, and answers the place that is open next, and whether the line is a split.
pub(crate) fn write_line(
    alloc: Global,
    ip: &Ip,
    known: &mut Option<i128>,
    best: &mut Option<Point>,
    may_split: bool,
    hint: Hint,
    place: Place,
    columns: &Columns,
    states: &mut [RowState],
    waiting: &mut Open,
    lines: &mut Items<Line>,
) -> Result<(Option<Place>, bool), AllocError>
    requires limits { IsInLimits ip.now }
    requires open_place { IsOpenPlace ip.now place }
    requires best_known { IsBestKnown ip.now best.old known.old }
    requires steps { AreStepsOf (length ip.now.tops) waiting.old }
    requires columns { AreColumns ip.now columns.now }
    requires states { AreStates ip.now place.within states.old }
    ensures at_most { OnOk result (AtMost known.old known.new) }
    ensures best { OnOk result (IsBestKnown ip.now best.new known.new) }
    ensures grown { IfOk result (λ next. IsGrown ip.now known.new may_split place (behind place.within waiting.old)
        (open_places next.0 waiting.new) lines.old lines.new next.1) }
    ensures steps { OnOk result (AreStepsOf (length ip.now.tops) waiting.new) }
    ensures states { IfOk result (λ next. IfSome next.0 (λ p. AreStates ip.now p.within states.new)) }
{
    let line = decided(alloc, ip, known, best, may_split, hint, states, &place)?;
    let next = go_on(ip, *known, place, &line, columns, states, waiting)?;
    let split = line.is_split();
    lines.push(line)?;
    Ok((next, split))
}
