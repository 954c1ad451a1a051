//! The lines that the commands print.

ghost use Rattle.std.specs.Prelude.{◌≡◌, ◌≤◌, ◌<◌, ◌^◌, length, IfOk, OnOk};
ghost use Rattle.p4all_top.specs.Printed.{with_size, with_utility, sizes_text, infeasible_text, unit_text, unbounded_text, what_text, large_text};
ghost use Rattle.p4all_top.specs.Printed.{begun_cause, begun_refusal, begun_rule, refused_text, source_text, rule_line_text, target_text, refusal_text};

use crate::parsing::Refusal;
use crate::rule_names::rule_name;
use elx_bits::Name;
use elx_io::Lines;
use std::alloc::{AllocError, Global};
use target_desc::KeyName;
use unroll_bound::What;
use width_check::Rule;

/// Adds the line of one symbol.
fn put_size(lines: &mut Lines, symbol: &Name, size: u64) -> Result<(), AllocError>
    ensures { OnOk result (lines.new ≡ with_size lines.old symbol.now size) }
{
    lines.word(b"size")?;
    lines.word(symbol.as_slice())?;
    lines.number(i128::from(size))?;
    lines.end()
}

/// The sizes of the symbols and the utility.
pub fn sizes_lines(
    alloc: Global,
    symbols: &[Name],
    sizes: &[u64],
    utility: i128,
) -> Result<Lines, AllocError>
    requires { length sizes.now ≡ length symbols.now }
    ensures { IfOk result (λ lines. lines ≡ sizes_text symbols.now sizes.now utility) }
{
    let mut lines = Lines::new(alloc);
    for i in 0..symbols.len() {
        put_size(&mut lines, &symbols[i], sizes[i])?;
    }
    put_utility(&mut lines, utility)?;
    Ok(lines)
}

/// Adds the line of the utility.
fn put_utility(lines: &mut Lines, utility: i128) -> Result<(), AllocError>
    ensures { OnOk result (lines.new ≡ with_utility lines.old utility) }
{
    lines.word(b"utility")?;
    lines.number(utility)?;
    lines.end()
}

/// The line that says that no sizes are feasible.
pub fn infeasible_line(alloc: Global) -> Result<Lines, AllocError>
    ensures { IfOk result (λ lines. lines ≡ infeasible_text) }
{
    let mut lines = Lines::new(alloc);
    lines.word(b"infeasible")?;
    lines.end()?;
    Ok(lines)
}

/// The line that refuses a program whose unit of this number has so many operators.
pub fn unit_line(alloc: Global, unit: u32, ops: u32) -> Result<Lines, AllocError>
    ensures { IfOk result (λ lines. lines ≡ unit_text unit ops) }
{
    let mut lines = refusal_begun(alloc, b"unit")?;
    lines.number(i128::from(unit))?;
    lines.number(i128::from(ops))?;
    lines.end()?;
    Ok(lines)
}

/// The line that refuses a program whose symbol has no bound.
pub fn unbounded_line(alloc: Global, symbol: &Name) -> Result<Lines, AllocError>
    ensures { IfOk result (λ lines. lines ≡ unbounded_text symbol.now) }
{
    refused_line(alloc, b"unbounded", symbol.as_slice())
}

/// The word for what is too large.
fn what_word(what: What) -> &'static [u8]
    ensures { result.now ≡ what_text what }
{
    match what {
        What::Bound => b"bound",
        What::Instances => b"instances",
        What::Variables => b"variables",
        What::Rows => b"rows",
    }
}

/// The line that refuses a program of which something is too large.
pub fn large_line(alloc: Global, what: What, count: u128) -> Result<Lines, AllocError>
    requires { count < 2 ^ 127 }
    ensures { IfOk result (λ lines. lines ≡ large_text what count) }
{
    let mut lines = cause_begun(alloc, b"large", what_word(what))?;
    lines.number(count as i128)?;
    lines.end()?;
    Ok(lines)
}

/// The line that refuses a source or a target's description.
pub fn refusal_line(alloc: Global, refusal: Refusal) -> Result<Lines, AllocError>
    ensures { IfOk result (λ lines. lines ≡ refusal_text refusal) }
{
    match refusal {
        Refusal::LongSource => refused_line(alloc, b"long", b"src"),
        Refusal::LongTarget => refused_line(alloc, b"long", b"target"),
        Refusal::Byte { at } => source_line(alloc, b"byte", at),
        Refusal::Number { at } => source_line(alloc, b"number", at),
        Refusal::Comment { at } => source_line(alloc, b"comment", at),
        Refusal::Syntax { token } => source_line(alloc, b"syntax", token),
        Refusal::Deep { token } => source_line(alloc, b"deep", token),
        Refusal::Rule { rule, decl } => rule_line(alloc, rule, decl),
        Refusal::Toml => refused_line(alloc, b"target", b"toml"),
        Refusal::UnknownKey => refused_line(alloc, b"target", b"unknown"),
        Refusal::MissingKey { key } => target_line(alloc, b"missing", key),
        Refusal::OutOfRange { key } => target_line(alloc, b"range", key),
    }
}

/// The begin of a line that refuses something.
fn refusal_begun(alloc: Global, what: &[u8]) -> Result<Lines, AllocError>
    ensures { IfOk result (λ lines. lines ≡ begun_refusal what.now) }
{
    let mut lines = Lines::new(alloc);
    lines.word(b"refused")?;
    lines.word(what)?;
    Ok(lines)
}

/// The begin of a line that refuses something for a cause.
fn cause_begun(alloc: Global, what: &[u8], cause: &[u8]) -> Result<Lines, AllocError>
    ensures { IfOk result (λ lines. lines ≡ begun_cause what.now cause.now) }
{
    let mut lines = refusal_begun(alloc, what)?;
    lines.word(cause)?;
    Ok(lines)
}

/// The line that refuses something for what is named.
fn refused_line(alloc: Global, why: &[u8], named: &[u8]) -> Result<Lines, AllocError>
    ensures { IfOk result (λ lines. lines ≡ refused_text why.now named.now) }
{
    let mut lines = cause_begun(alloc, why, named)?;
    lines.end()?;
    Ok(lines)
}

/// The line that refuses a target's description for what it has at a key.
fn target_line(alloc: Global, cause: &[u8], key: KeyName) -> Result<Lines, AllocError>
    ensures { IfOk result (λ lines. lines ≡ target_text cause.now key) }
{
    let mut lines = cause_begun(alloc, b"target", cause)?;
    lines.word(key.text().as_bytes())?;
    lines.end()?;
    Ok(lines)
}

/// The line that refuses a source for what stands at one place of it.
fn source_line(alloc: Global, cause: &[u8], place: u32) -> Result<Lines, AllocError>
    ensures { IfOk result (λ lines. lines ≡ source_text cause.now place) }
{
    let mut lines = cause_begun(alloc, b"src", cause)?;
    lines.number(i128::from(place))?;
    lines.end()?;
    Ok(lines)
}

/// The begin of the line that refuses a source for a rule of types.
fn rule_begun(alloc: Global, rule: Rule) -> Result<Lines, AllocError>
    ensures { IfOk result (λ lines. lines ≡ begun_rule rule) }
{
    let mut lines = cause_begun(alloc, b"src", b"rule")?;
    lines.word(rule_name(rule).as_bytes())?;
    Ok(lines)
}

/// The line that refuses a source for a rule of types that this declaration breaks.
fn rule_line(alloc: Global, rule: Rule, decl: u32) -> Result<Lines, AllocError>
    ensures { IfOk result (λ lines. lines ≡ rule_line_text rule decl) }
{
    let mut lines = rule_begun(alloc, rule)?;
    lines.number(i128::from(decl))?;
    lines.end()?;
    Ok(lines)
}
