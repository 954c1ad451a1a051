//! The places that are still open, kept as the steps that led to the box where a line is written.

ghost use Rattle.std.specs.Prelude.{◌≡◌, ◌<◌, ◌<ℤ◌, ◌+ℤ◌, pos, length, slice_set, [], ◌∷◌, IfOk, IfSome, OnOk, MatchOption};
ghost use Rattle.int_program.specs.Sums.{at as at_place};
ghost use Rattle.int_program.specs.Accepts.{lower_half, upper_half, with_ends};
ghost use Rattle.int_program.specs.Places.{place as place_of};
ghost use Rattle.branch_bound.specs.Trail.{behind, AreStepsOf};
ghost use Rattle.branch_bound.specs.Columns.{AreColumns};
ghost use Rattle.branch_bound.specs.States.{AreStates};

use crate::columns::Columns;
use crate::states::{RowState, change_ends};
use elx_bits::Items;
use int_program::{Ip, IpBox};
use std::alloc::{AllocError, Global};
use std::marker::Model;

/// A step towards the box where a line is written.
#[derive(Clone, Copy, Debug)]
pub(crate) enum Step {
    /// The ends of a variable were changed; these are the ones that it had.
    Changed { var: u32, ends: (i128, i128) },
    /// The upper half of a split waits; these are the ends of the variable there.
    Waits { var: u32, ends: (i128, i128) },
}

/// The steps, the last one first.
#[derive(Drop)]
pub(crate) struct Open {
    steps: Vec<Step>,
}

impl Model for Open {
    ghost use Rattle.std.specs.Prelude.{List, reverse};
    ghost use Rattle.branch_bound.specs.declared.open.Step.{Step};

    ghost Value = { List Step };

    ghost view = { λ s. reverse s.steps.items };
}

/// The numbers with another one at a place.
fn replaced(numbers: Items<i128>, at: usize, number: i128) -> Items<i128>
    requires { at < length numbers }
    ensures { result ≡ slice_set numbers at number }
{
    let mut vec = numbers.into_vec();
    vec[at] = number;
    Items::from_vec(vec)
}

/// The box with other ends of the variable.
fn narrowed(within: IpBox, var: usize, ends: (i128, i128)) -> IpBox
    requires in_low { var < length within.low }
    requires in_high { var < length within.high }
    ensures { result ≡ with_ends within var ends }
{
    let IpBox { low, high } = within;
    IpBox {
        low: replaced(low, var, ends.0),
        high: replaced(high, var, ends.1),
    }
}

/// The next number, where some number is above it.
fn after(at: i128, end: i128) -> i128
    requires { at <ℤ end }
    ensures { result ≡ at +ℤ pos 1 }
{
    at + 1
}

/// The ends of the variable.
fn ends_of(within: &IpBox, var: u32) -> (i128, i128)
    requires in_low { var < length within.now.low }
    requires in_high { var < length within.now.high }
    ensures { result ≡ (at_place within.now.low var, at_place within.now.high var) }
{
    let var = var as usize;
    (within.low.as_slice()[var], within.high.as_slice()[var])
}

/// The ends of the variable in the upper half of a box.
fn upper_ends(within: &IpBox, var: u32, at: i128) -> (i128, i128)
    requires in_low { var < length within.now.low }
    requires in_high { var < length within.now.high }
    requires below { at <ℤ at_place within.now.high var }
    ensures { result ≡ (at +ℤ pos 1, at_place within.now.high var) }
{
    let (_, high) = ends_of(within, var);
    (after(at, high), high)
}

/// The ends of the variable in the lower half of a box.
fn lower_ends(within: &IpBox, var: u32, at: i128) -> (i128, i128)
    requires in_low { var < length within.now.low }
    requires in_high { var < length within.now.high }
    ensures { result ≡ (at_place within.now.low var, at) }
{
    let (low, _) = ends_of(within, var);
    (low, at)
}

impl Open {
    /// No step.
    pub(crate) fn new(alloc: Global) -> Self
        ensures { result ≡ [] }
    {
        Open {
            steps: Vec::new(alloc),
        }
    }

    /// Puts a step before the others.
    fn push(&mut self, step: Step) -> Result<(), AllocError>
        ensures { OnOk result (self.new ≡ step ∷ self.old) }
    {
        self.steps.push(step)?;
        Ok(())
    }

    /// Takes the last step.
    fn pop(&mut self) -> Option<Step>
        ensures { MatchOption result ((self.old ≡ []) × (self.new ≡ [])) (λ step. self.old ≡ step ∷ self.new) }
    {
        self.steps.pop()
    }

    /// The box with other ends of the variable, whose own ends are kept.
    pub(crate) fn change(
        &mut self,
        ip: &Ip,
        columns: &Columns,
        states: &mut [RowState],
        within: IpBox,
        var: u32,
        ends: (i128, i128),
    ) -> Result<IpBox, AllocError>
        requires var { var < length ip.now.tops }
        requires low_count { length within.low ≡ length ip.now.tops }
        requires high_count { length within.high ≡ length ip.now.tops }
        requires steps { AreStepsOf (length ip.now.tops) self.old }
        requires columns { AreColumns ip.now columns.now }
        requires states { AreStates ip.now within states.old }
        ensures changed { IfOk result (λ b. b ≡ with_ends within var ends) }
        ensures behind { IfOk result (λ b. behind b self.new ≡ behind within self.old) }
        ensures steps { OnOk result (AreStepsOf (length ip.now.tops) self.new) }
        ensures states { IfOk result (λ b. AreStates ip.now b states.new) }
    {
        let own = ends_of(&within, var);
        self.push(Step::Changed { var, ends: own })?;
        change_ends(ip, columns, states, &within, var, own, ends);
        Ok(narrowed(within, var as usize, ends))
    }

    /// The lower half of a box, while the upper one waits.
    pub(crate) fn split(
        &mut self,
        ip: &Ip,
        columns: &Columns,
        states: &mut [RowState],
        within: IpBox,
        var: u32,
        at: i128,
    ) -> Result<IpBox, AllocError>
        requires var { var < length ip.now.tops }
        requires low_count { length within.low ≡ length ip.now.tops }
        requires high_count { length within.high ≡ length ip.now.tops }
        requires below { at <ℤ at_place within.high var }
        requires steps { AreStepsOf (length ip.now.tops) self.old }
        requires columns { AreColumns ip.now columns.now }
        requires states { AreStates ip.now within states.old }
        ensures half { IfOk result (λ b. b ≡ lower_half within var at) }
        ensures behind { IfOk result (λ b.
            behind b self.new ≡ place_of (upper_half within var at) 0 ∷ behind within self.old) }
        ensures steps { OnOk result (AreStepsOf (length ip.now.tops) self.new) }
        ensures states { IfOk result (λ b. AreStates ip.now b states.new) }
    {
        let upper = upper_ends(&within, var, at);
        let lower = lower_ends(&within, var, at);
        self.push(Step::Waits { var, ends: upper })?;
        let half = self.change(ip, columns, states, within, var, lower)?;
        Ok(half)
    }

    /// The box that waits next.
    pub(crate) fn next(
        &mut self,
        ip: &Ip,
        columns: &Columns,
        states: &mut [RowState],
        within: IpBox,
    ) -> Result<Option<IpBox>, AllocError>
        requires low_count { length within.low ≡ length ip.now.tops }
        requires high_count { length within.high ≡ length ip.now.tops }
        requires steps { AreStepsOf (length ip.now.tops) self.old }
        requires columns { AreColumns ip.now columns.now }
        requires states { AreStates ip.now within states.old }
        ensures next { IfOk result (λ next. MatchOption next (behind within self.old ≡ [])
            (λ b. behind within self.old ≡ place_of b 0 ∷ behind b self.new)) }
        ensures steps { OnOk result (AreStepsOf (length ip.now.tops) self.new) }
        ensures states { IfOk result (λ next. IfSome next (λ b. AreStates ip.now b states.new)) }
    {
        let mut within = within;
        'steps: while let Some(step) = self.pop() {
            match step {
                Step::Changed { var, ends } => {
                    let own = ends_of(&within, var);
                    change_ends(ip, columns, states, &within, var, own, ends);
                    within = narrowed(within, var as usize, ends);
                }
                Step::Waits { var, ends } => {
                    return Ok(Some(self.change(ip, columns, states, within, var, ends)?));
                }
            }
        }
        Ok(None)
    }
}
