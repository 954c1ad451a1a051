//! From the units of a program and a target to their integer program.

ghost use Rattle.std.specs.Prelude.{IfOk};
ghost use Rattle.elastic_ast.specs.Units.SeenUnits.{seen_units};
ghost use Rattle.target_desc.specs.InRange.{IsInRange};
ghost use Rattle.unit_flow.specs.SoundUnits.{SoundUnits};
ghost use Rattle.int_program.specs.Limits.{IsInLimits};

use crate::lp_lines::put_lp;
use crate::model_lines::{put_bounds, put_program, put_variables};
use crate::program::{NoAnswer, on_target, typed, units_within};
use crate::searching::put_found;
use crate::unit_lines::{put_count, put_symbol};
use elastic_ast::{Terms, Units};
use elx_io::Lines;
use ilp_model::{candidates, model};
use int_program::Ip;
use std::alloc::{AllocError, Global};
use target_desc::Target;
use unit_flow::UnitError;
use unroll_bound::{BoundError, BoundList, What, bounds};

/// What is printed of an integer program.
#[derive(Clone, Copy, Debug, PartialEq, Eq)]
pub enum Form {
    /// The bounds, the variables, the rows and the objective, as the worked models have them.
    Model,
    /// How many variables and rows it has.
    Count,
    /// A file as solvers of integer programs read it.
    Lp,
    /// What a search of it answers.
    Search,
}

/// Adds the line of a unit that has too many operators.
fn put_unit(lines: &mut Lines, unit: u32, ops: u32) -> Result<(), AllocError> {
    lines.word(b"refused unit")?;
    lines.number(i128::from(unit))?;
    lines.number(i128::from(ops))?;
    lines.end()
}

fn what_word(what: What) -> &'static [u8] {
    match what {
        What::Bound => b"bound",
        What::Instances => b"instances",
        What::Variables => b"variables",
        What::Rows => b"rows",
    }
}

/// Adds the line that says why there are no bounds.
fn put_refusal(
    alloc: Global,
    lines: &mut Lines,
    terms: &Terms,
    error: BoundError,
) -> Result<(), AllocError> {
    match error {
        BoundError::Unbounded { symbol } => {
            lines.word(b"refused unbounded")?;
            put_symbol(lines, terms.symbols.as_slice(), symbol)?;
        }
        BoundError::TooLarge { what, count } => {
            lines.word(b"refused large")?;
            lines.word(what_word(what))?;
            lines.word(format!(in alloc; "{count}")?.as_bytes())?;
        }
        BoundError::Memory => return Err(AllocError),
    }
    lines.end()
}

/// Adds the lines of the integer program of units on a target, or why there is none.
fn put_form(
    alloc: Global,
    lines: &mut Lines,
    units: &Units,
    target: &Target,
    form: Form,
) -> Result<(), AllocError>
    requires sound { SoundUnits (seen_units units.now) }
    requires range { IsInRange target.now }
{
    let BoundList { most } = match bounds(alloc, units, target) {
        Ok(list) => list,
        Err(error) => return put_refusal(alloc, lines, &units.terms, error),
    };
    let ip = model(alloc, units, target, most.as_slice())?;
    match form {
        Form::Count => {
            put_count(lines, b"variables", ip.tops.as_slice().len() as i128)?;
            put_count(lines, b"rows", ip.rows.as_slice().len() as i128)
        }
        Form::Lp => put_lp(alloc, lines, &ip),
        Form::Search => put_found(alloc, lines, &ip),
        Form::Model => {
            let list = candidates(alloc, units, most.as_slice())?;
            put_bounds(lines, units, most.as_slice())?;
            put_variables(
                lines,
                units,
                target,
                most.as_slice(),
                list.as_slice(),
                ip.tops.as_slice(),
            )?;
            put_program(alloc, lines, &ip)
        }
    }
}

/// What is computed of the integer program of a source and a target.
pub fn modelled(alloc: Global, source: &str, target: &str, form: Form) -> Result<Lines, NoAnswer> {
    let program = typed(alloc, source)?;
    let target = on_target(alloc, target)?;
    let mut lines = Lines::new(alloc);
    match units_within(alloc, &program, target.ops) {
        Ok(units) => put_form(alloc, &mut lines, &units, &target, form)?,
        Err(UnitError::UnitTooLarge { unit, ops }) => put_unit(&mut lines, unit, ops)?,
        Err(UnitError::Memory) => return Err(NoAnswer::Memory),
    }
    Ok(lines)
}

#[cfg(test)]
mod tests {
    use super::*;
    use std::test::Fail;

    /// Two registers, whose cells are the sizes of two symbols.
    const SOURCE: &str =
        "symbolic int a; symbolic int b; assume(b >= 5); maximize(3*a + 2*b); header h_t { bit<8> v; } struct headers_t { h_t h; } struct meta_t { bit<32> x; bit<32> y; } Register<bit<32>>(a) ra; Register<bit<32>>(b) rb;
parser P(packet_in pkt, out headers_t hdr, inout meta_t meta, inout std_t std) {
  state start { pkt.extract(hdr.h); transition accept; } }
control C(inout headers_t hdr, inout meta_t meta, inout std_t std) {  apply { meta.x = ra.read(0); meta.y = rb.read(0); } }
control D(packet_out pkt, in headers_t hdr) { apply { pkt.emit(hdr.h); } }
Pisa(P(), C(), D()) main;
";

    /// One stage.
    const TARGET: &str = "stages = 1
memory_bits = 1024
stateful = 2
stateless = 8
table_bits = 1024
ternary_bits = 1024
header_bits = 512
ops = 8
";

    /// The row of the header bits is the one behind those of the sizes, and five rows stand at the end for the stage.
    const MODEL: &str = "bound a 32
bound b 32
variables 6
0 size a top 32
1 size b top 32
2 x 0 0 0 top 1
3 x 1 0 0 top 1
4 c 0 0 0 top 32
5 c 1 0 0 top 32
rows 17
fnv 576d4b618f19474c
row 0 1:-1 <= -5
row 1 0:-1 <= -1
row 2 1:-1 <= -1
row 3 <= 439
row 4 2:1 <= 1
row 5 2:-1 <= -1
row 6 3:1 <= 1
row 7 3:-1 <= -1
row 8 2:-32 4:1 <= 0
row 9 0:1 4:-1 <= 0
row 10 3:-32 5:1 <= 0
row 11 1:1 5:-1 <= 0
row 12 2:1 3:1 <= 2
row 13 2:1 3:1 <= 8
row 14 4:32 5:32 <= 1024
row 15 <= 1024
row 16 <= 1024
goal 0:3 1:2
base 0
";

    #[test]
    fn the_header_row_is_the_fourth_and_each_stage_has_five(rt: HostRuntime) -> Result<(), Fail> {
        let lines = modelled(rt.alloc(), SOURCE, TARGET, Form::Model).expect(&rt, "ample memory");
        assert_eq!(rt; lines.bytes(), MODEL.as_bytes());
        Ok(())
    }
}
