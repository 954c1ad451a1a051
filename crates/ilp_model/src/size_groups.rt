//! The rows of sizes, loops and keys, by the numbers of the variables, and the objective.

ghost use Rattle.std.specs.Prelude.{◌≡◌, ◌++◌, map, OnOk, IfOk};
ghost use Rattle.elastic_ast.specs.Units.Instances.{nth_size};
ghost use Rattle.elastic_ast.specs.Units.SeenUnits.{seen_units};
ghost use Rattle.unit_flow.specs.SoundUnits.{SoundUnits};
ghost use Rattle.unroll_bound.specs.BoundAnswers.{AreBoundsWithin};
ghost use Rattle.ilp_model.specs.IpOf.{row_of, parts_of};
ghost use Rattle.ilp_model.specs.Numbers.{AreNumbers};
ghost use Rattle.ilp_model.specs.Objective.{objective as objective_of};
ghost use Rattle.ilp_model.specs.Rows.{size_groups};
ghost use Rattle.ilp_model.specs.SeenKeys.{seen_keys};
ghost use Rattle.ilp_model.specs.StepKeys.{step_keys as step_keys_of};
ghost use Rattle.ilp_model.specs.Variables.{variable_number};

use crate::numbering::Numbering;
use crate::size_rows::{
    objective, put_header_row, put_key_rows, put_loop_rows, put_one_rows, put_term_rows,
};
use crate::step_keys::ReachedKey;
use elastic_ast::Units;
use elx_bits::Items;
use int_program::{Part, Row};
use std::alloc::{AllocError, Global};
use target_desc::Target;
use unroll_bound::uses_of_loops;

/// Adds the rows of the terms, of the symbols that are at least 1, of the header bits, of loops and of keys.
pub(crate) fn put_size_groups(
    alloc: Global,
    rows: &mut Items<Row>,
    units: &Units,
    target: &Target,
    bounds: &[u64],
    keys: &[ReachedKey],
    numbers: &Numbering,
) -> Result<(), AllocError>
    requires sound { SoundUnits (seen_units units.now) }
    requires within { AreBoundsWithin (seen_units units.now) target.now bounds.now }
    requires keys { seen_keys keys.now ≡ step_keys_of (seen_units units.now).terms (nth_size bounds.now) }
    requires numbers { AreNumbers (seen_units units.now) target.now (nth_size bounds.now) numbers.now }
    ensures { OnOk result (rows.new ≡ rows.old
        ++ map (row_of (variable_number (seen_units units.now) target.now (nth_size bounds.now)))
        (size_groups (seen_units units.now) target.now (nth_size bounds.now))) }
{
    put_term_rows(alloc, rows, units.terms.rows.as_slice())?;
    put_one_rows(alloc, rows, units.terms.ones.as_slice())?;
    put_header_row(alloc, rows, units, target)?;
    let uses = uses_of_loops(alloc, units.list.as_slice(), bounds.len())?;
    put_loop_rows(
        alloc,
        rows,
        uses.as_slice(),
        numbers.loops.as_slice(),
        bounds,
    )?;
    put_key_rows(alloc, rows, keys, numbers.keys, bounds)
}

/// The parts of the objective.
pub(crate) fn goal_of(
    alloc: Global,
    units: &Units,
    target: &Target,
    bounds: &[u64],
    keys: &[ReachedKey],
    numbers: &Numbering,
) -> Result<Items<Part>, AllocError>
    requires sound { SoundUnits (seen_units units.now) }
    requires within { AreBoundsWithin (seen_units units.now) target.now bounds.now }
    requires keys { seen_keys keys.now ≡ step_keys_of (seen_units units.now).terms (nth_size bounds.now) }
    requires numbers { AreNumbers (seen_units units.now) target.now (nth_size bounds.now) numbers.now }
    ensures { IfOk result (λ goal. goal ≡ parts_of (variable_number (seen_units units.now) target.now (nth_size bounds.now))
        (objective_of (seen_units units.now).terms (nth_size bounds.now))) }
{
    objective(alloc, units.terms.by.as_slice(), keys, numbers.keys)
}
