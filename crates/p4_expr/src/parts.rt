//! The parts of expressions and statements that have no expression in them.

ghost use Rattle.std.specs.Prelude.{◌≡◌, ℕ, false, IsTrue, codes, drop};
ghost use Rattle.elastic_ast.specs.declared.statements.Lval.TheVariants as Lval;
ghost use Rattle.spelling.specs.Grammar.{Begins, IsSign, Named};
ghost use Rattle.spelling.specs.Reading.{ahead};
ghost use Rattle.spelling.specs.Readers.{InSquare, itself, Reads, ReadsLine, ReadsLineBefore};
ghost use Rattle.p4_expr.specs.GoesOn.{BeginsNumber, EndsIndex};
ghost use Rattle.p4_expr.specs.Parts.{SpellsAmount, SpellsAnyNumber, SpellsBits, SpellsHeader};
ghost use Rattle.p4_expr.specs.Parts.{ReadsIndex, ReadsPlace, SpellsCallEnd, SpellsRegister};
ghost use Rattle.p4_expr.specs.Parts.{a_header_place, a_meta_place};

use elastic_ast::{Amount, Lval, RegRef};
use elx_bits::Name;
use spelling::{Parsed, Reader, in_brackets};
use std::alloc::Global;

/// Reads a number, and its width where it has one. NotProgram where the next token is none.
pub fn number(reader: &mut Reader<'_>) -> Parsed<(Option<u8>, u128)>
    ensures { Reads SpellsAnyNumber itself reader.old reader.new result }
{
    let (width, value) = reader.any_number()?;
    Ok((width, value))
}

/// `bit<WIDTH>`: its width. NotProgram where something else follows, or the width is above 255.
pub fn bits(reader: &mut Reader<'_>) -> Parsed<u8>
    ensures { Reads SpellsBits itself reader.old reader.new result }
{
    reader.reserved(b"bit")?;
    reader.sign(b"<")?;
    let width = reader.number(255)?;
    reader.sign(b">")?;
    Ok(width as u8)
}

/// Reads a number without a width or the name of a symbol or an index. NotProgram where neither follows, or the number is
/// above 4294967295.
pub fn amount(alloc: Global, reader: &mut Reader<'_>) -> Parsed<Amount>
    ensures { Reads SpellsAmount itself reader.old reader.new result }
{
    if !reader.is_at_number() {
        let name = reader.name(alloc)?;
        return Ok(Amount::Named(name));
    }
    let value = reader.number(u128::from(u32::MAX))?;
    Ok(Amount::Num(value as u32))
}

/// `[NAME]`, where it is there: not where no bracket follows, or one with a number behind it, which begins a slice. `depth` is
/// how many brackets may be open from here on. TooDeep names the bracket where none may.
pub fn index(alloc: Global, reader: &mut Reader<'_>, depth: u32) -> Parsed<Option<Name>>
    ensures { ReadsIndex depth reader.old reader.new result }
{
    if !is_at_index(reader) {
        return Ok(None);
    }
    let name = index_name(alloc, reader, depth)?;
    Ok(Some(name))
}

/// `[NAME]`
fn index_name(alloc: Global, reader: &mut Reader<'_>, depth: u32) -> Parsed<Name>
    ensures { ReadsLine (InSquare (λ _. Named)) itself depth reader.old reader.new result }
{
    in_brackets(reader, b"[", b"]", depth, |reader, _| reader.name(alloc))
}

/// `hdr.NAME`: the name of the header.
pub fn header(alloc: Global, reader: &mut Reader<'_>) -> Parsed<Name>
    ensures { Reads SpellsHeader itself reader.old reader.new result }
{
    reader.fixed_name(b"hdr")?;
    reader.sign(b".")?;
    let name = reader.name(alloc)?;
    Ok(name)
}

/// `()`. `depth` is how many brackets may be open from here on.
pub fn no_arguments(reader: &mut Reader<'_>, depth: u32) -> Parsed<()>
    ensures { ReadsLine SpellsCallEnd itself depth reader.old reader.new result }
{
    let _inner = reader.open(b"(", depth)?;
    reader.sign(b")")?;
    Ok(())
}

/// Reads a place that a statement may assign to: `hdr.HEADER.FIELD`, `meta.NAME`, `meta.NAME[INDEX]` or `std.NAME`. `depth` is
/// how many brackets may be open from here on.
pub fn lval(alloc: Global, reader: &mut Reader<'_>, depth: u32) -> Parsed<Lval>
    ensures { ReadsPlace itself depth reader.old reader.new result }
{
    if reader.is_at_name(b"meta") {
        return meta_place(alloc, reader, depth);
    }
    if reader.is_at_name(b"std") {
        return std_place(alloc, reader);
    }
    header_place(alloc, reader)
}

/// Reads a register, or the register of an array at an index: `NAME` or `NAME[INDEX]`. `depth` is how many brackets may be open
/// from here on.
pub fn register(alloc: Global, reader: &mut Reader<'_>, depth: u32) -> Parsed<RegRef>
    ensures { ReadsLineBefore EndsIndex SpellsRegister itself depth reader.old reader.new result }
{
    let name = reader.name(alloc)?;
    let index = index(alloc, reader, depth)?;
    Ok(RegRef { name, index })
}

/// Whether a bracket stands next that begins an index.
fn is_at_index(reader: &Reader<'_>) -> bool
    ensures at { IsTrue result → Begins (IsSign (codes "[")) (ahead reader.now) }
    ensures none { result ≡ false → EndsIndex (ahead reader.now) }
    ensures not_number { IsTrue result → BeginsNumber (drop 1 (ahead reader.now)) → ⊥ }
{
    reader.is_at_sign(b"[") && !reader.later(1).is_at_number()
}

/// `meta.NAME` or `meta.NAME[INDEX]`
fn meta_place(alloc: Global, reader: &mut Reader<'_>, depth: u32) -> Parsed<Lval>
    ensures { ReadsPlace a_meta_place depth reader.old reader.new result }
{
    reader.fixed_name(b"meta")?;
    reader.sign(b".")?;
    let name = reader.name(alloc)?;
    let index = index(alloc, reader, depth)?;
    Ok(Lval::Meta { name, index })
}

/// `std.NAME`
fn std_place(alloc: Global, reader: &mut Reader<'_>) -> Parsed<Lval>
    ensures { (depth : ℕ) → ReadsPlace Lval.Std depth reader.old reader.new result }
{
    reader.fixed_name(b"std")?;
    reader.sign(b".")?;
    let name = reader.name(alloc)?;
    Ok(Lval::Std(name))
}

/// `hdr.HEADER.FIELD`
fn header_place(alloc: Global, reader: &mut Reader<'_>) -> Parsed<Lval>
    ensures { (depth : ℕ) → ReadsPlace a_header_place depth reader.old reader.new result }
{
    let header = header(alloc, reader)?;
    reader.sign(b".")?;
    let field = reader.name(alloc)?;
    Ok(Lval::Header { header, field })
}
