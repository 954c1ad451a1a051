//! The outcome of `size` for a program and a target.

ghost use Rattle.std.specs.Prelude.{◌≡◌, IfOk, length};
ghost use Rattle.elastic_ast.specs.Seen.{seen_decls};
ghost use Rattle.elastic_ast.specs.Units.SeenUnits.{seen_units};
ghost use Rattle.elastic_ast.specs.Units.UnitsOf.{OpsFit};
ghost use Rattle.unroll_bound.specs.ProgramUnits.{AreKnownUnits};
ghost use Rattle.target_desc.specs.InRange.{IsInRange};
ghost use Rattle.p4all_top.specs.Printed.{refusal_text, unit_text};
ghost use Rattle.p4all_top.specs.Shown.{FitsSymbols, IsAnswerFor, ShowsChoice};

use crate::parsing::Refusal;
use crate::printing::{
    infeasible_line, large_line, refusal_line, sizes_lines, unbounded_line, unit_line,
};
use crate::status::Status;
use crate::unfinished::unfinished_lines;
use elastic_ast::Units;
use elx_bits::Name;
use elx_io::Lines;
use size_search::{Choice, choose};
use size_terms::terms;
use std::alloc::{AllocError, Global};
use target_desc::Target;
use unit_flow::{UnitError, units};
use width_check::Checked;

/// The most splits of boxes that `size` makes.
const SIZE_SPLITS: u64 = 100_000;

/// The lines that a run prints, and the status that it ends with.
#[derive(Drop)]
pub struct Outcome {
    pub status: Status,
    pub lines: Lines,
}

/// The refusal of a source or of a description.
pub fn refused(alloc: Global, refusal: Refusal) -> Result<Outcome, AllocError>
    ensures status { IfOk result (λ outcome. outcome.status ≡ Status.Refused) }
    ensures lines { IfOk result (λ outcome. outcome.lines ≡ refusal_text refusal) }
{
    let lines = refusal_line(alloc, refusal)?;
    Ok(Outcome {
        status: Status::Refused,
        lines,
    })
}

/// The refusal of a program whose unit of this number has so many operators.
fn refused_unit(alloc: Global, unit: u32, ops: u32) -> Result<Outcome, AllocError>
    ensures status { IfOk result (λ outcome. outcome.status ≡ Status.Refused) }
    ensures lines { IfOk result (λ outcome. outcome.lines ≡ unit_text unit ops) }
{
    let lines = unit_line(alloc, unit, ops)?;
    Ok(Outcome {
        status: Status::Refused,
        lines,
    })
}

/// The outcome for a choice of sizes.
fn outcome_of(alloc: Global, symbols: &[Name], choice: Choice) -> Result<Outcome, AllocError>
    requires { FitsSymbols (length symbols.now) choice }
    ensures { IfOk result (ShowsChoice symbols.now choice) }
{
    let (status, lines) = match choice {
        Choice::Best { best, tree: _tree } => {
            let lines = sizes_lines(alloc, symbols, best.sizes.values.as_slice(), best.utility)?;
            (Status::Done, lines)
        }
        Choice::Unfinished { best, tree } => {
            let lines = unfinished_lines(alloc, SIZE_SPLITS, symbols, best, &tree)?;
            (Status::Unfinished, lines)
        }
        Choice::Infeasible { tree: _tree } => (Status::Infeasible, infeasible_line(alloc)?),
        Choice::Unbounded { symbol } => {
            (
                Status::Refused,
                unbounded_line(alloc, &symbols[symbol as usize])?,
            )
        }
        Choice::Large { what, count } => (Status::Refused, large_line(alloc, what, count)?),
    };
    Ok(Outcome { status, lines })
}

/// The outcome of `size` for a program and a target, where these are the units of the program.
fn outcome_for(
    alloc: Global,
    checked: &Checked,
    units: &Units,
    target: &Target,
) -> Result<Outcome, AllocError>
    requires units { AreKnownUnits (seen_decls checked.now) (seen_units units.now) }
    requires in_range { IsInRange target.now }
    requires fits { OpsFit (seen_decls checked.now) target.now.ops }
    ensures { IfOk result (λ outcome.
        IsAnswerFor (seen_decls checked.now) target.now outcome.status outcome.lines) }
{
    let choice = choose(alloc, units, target, SIZE_SPLITS)?;
    outcome_of(alloc, units.terms.symbols.as_slice(), choice)
}

/// The outcome of `size` for a program and a target.
pub fn size_outcome(
    alloc: Global,
    checked: &Checked,
    target: &Target,
) -> Result<Outcome, AllocError>
    requires { IsInRange target.now }
    ensures { IfOk result (λ outcome.
        IsAnswerFor (seen_decls checked.now) target.now outcome.status outcome.lines) }
{
    let terms = terms(alloc, checked)?;
    match units(alloc, checked, terms, target.ops) {
        Ok(units) => outcome_for(alloc, checked, &units, target),
        Err(UnitError::UnitTooLarge { unit, ops }) => refused_unit(alloc, unit, ops),
        Err(UnitError::Memory) => Err(AllocError),
    }
}
