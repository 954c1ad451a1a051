//! From a source and a target to the text of their answers.

ghost use Rattle.std.specs.Prelude.{◌≤◌, IfOk, IfSome, length};
ghost use Rattle.width_check.specs.Sound.{most_declarations};
ghost use Rattle.elastic_ast.specs.Units.SeenUnits.{seen_units};
ghost use Rattle.target_desc.specs.InRange.{IsInRange};
ghost use Rattle.unit_flow.specs.SoundUnits.{SoundUnits};
ghost use Rattle.place_check.specs.Conditions.{AreSound};

use crate::answers::put_answers;
use crate::unit_lines::put_units;
use elastic_ast::{Program, Units};
use elx_io::Lines;
use p4_lexer::lex;
use p4_parser::parse;
use size_terms::terms;
use std::alloc::{AllocError, Global};
use target_desc::{Target, read};
use thiserror::Error;
use unit_flow::{UnitError, units};
use width_check::{Checked, check};

/// Why a source and a target have no answer.
#[derive(Clone, Copy, Debug, PartialEq, Eq, Error)]
pub enum NoAnswer {
    #[error("the source is no typed program")]
    Source,
    #[error("the target is no target")]
    Target,
    #[error("out of memory")]
    Memory,
}

impl From<AllocError> for NoAnswer {
    fn from(_error: AllocError) -> NoAnswer {
        NoAnswer::Memory
    }
}

/// The depth of brackets that a source may have.
const MOST_DEPTH: u32 = 80;

/// The program that a text spells.
fn spelled(alloc: Global, source: &[u8]) -> Option<Program>
    ensures { IfSome result (λ program. length program.decls ≤ most_declarations) }
{
    if source.len() > 16_777_216 {
        return None;
    }
    let tokens = lex(alloc, source).ok()?;
    let program = parse(alloc, source, tokens.as_slice(), MOST_DEPTH).ok()?;
    if program.decls.as_slice().len() > 1_000_000 {
        return None;
    }
    Some(program)
}

/// The typed program that a text spells.
pub fn typed(alloc: Global, source: &str) -> Result<Checked, NoAnswer> {
    let Some(program) = spelled(alloc, source.as_bytes()) else {
        return Err(NoAnswer::Source);
    };
    match check(alloc, program, false) {
        Ok(checked) => Ok(checked),
        Err(_) => Err(NoAnswer::Source),
    }
}

/// The units of a program, if none has more operators than this.
pub fn units_within(alloc: Global, program: &Checked, most: u32) -> Result<Units, UnitError>
    ensures sound { IfOk result AreSound }
    ensures whole { IfOk result (λ units. SoundUnits (seen_units units)) }
{
    let Ok(terms) = terms(alloc, program) else {
        return Err(UnitError::Memory);
    };
    if terms.symbols.as_slice().len() > 4_294_967_295 {
        return Err(UnitError::Memory);
    }
    units(alloc, program, terms, most)
}

/// The units of a program, however many operators they have.
fn all_units(alloc: Global, program: &Checked) -> Result<Units, NoAnswer>
    ensures { IfOk result AreSound }
{
    match units_within(alloc, program, u32::MAX) {
        Ok(units) => Ok(units),
        Err(_) => Err(NoAnswer::Memory),
    }
}

/// Adds the line that says whether each unit has as many operators as the target allows at most, or else the first that hasn't.
fn put_fit(
    alloc: Global,
    lines: &mut Lines,
    program: &Checked,
    target: &Target,
) -> Result<(), NoAnswer> {
    lines.word(b"fit")?;
    match units_within(alloc, program, target.ops) {
        Ok(_) => lines.word(b"ok")?,
        Err(UnitError::UnitTooLarge { unit, ops }) => {
            lines.word(b"unit")?;
            lines.number(i128::from(unit))?;
            lines.number(i128::from(ops))?;
        }
        Err(UnitError::Memory) => return Err(NoAnswer::Memory),
    }
    lines.end()?;
    Ok(())
}

/// The target that a text describes.
pub fn on_target(alloc: Global, text: &str) -> Result<Target, NoAnswer>
    ensures { IfOk result IsInRange }
{
    match read(alloc, text.as_bytes()) {
        Ok(target) => Ok(target),
        Err(_) => Err(NoAnswer::Target),
    }
}

/// What is computed of the units of a source and a target, and of the questions in a worked text.
pub fn answer(alloc: Global, source: &str, target: &str, worked: &str) -> Result<Lines, NoAnswer> {
    let program = typed(alloc, source)?;
    let target = on_target(alloc, target)?;
    let units = all_units(alloc, &program)?;
    let mut lines = Lines::new(alloc);
    put_units(alloc, &mut lines, &units)?;
    put_fit(alloc, &mut lines, &program, &target)?;
    put_answers(alloc, &mut lines, &units, &target, worked)?;
    Ok(lines)
}
