//! Units of the programs of short texts.

ghost use Rattle.std.specs.Prelude.{◌≤◌, IfOk, length};
ghost use Rattle.place_check.specs.Conditions.{AreSound};

use elastic_ast::{Program, Units};
use p4_lexer::lex;
use p4_parser::parse;
use size_terms::terms;
use std::alloc::{AllocError, Global};
use std::test::Fail;
use unit_flow::units;
use width_check::{Checked, check};

/// A read of two registers, whose cells are the sizes of two symbols.
pub const TWO_REGISTERS: &str =
    "symbolic int a; symbolic int b; assume(b >= 5); maximize(3*a + 2*b);
header h_t { bit<8> v; } struct headers_t { h_t h; } struct meta_t { bit<32> x; bit<32> y; }
Register<bit<32>>(a) ra; Register<bit<32>>(b) rb;
parser P(packet_in pkt, out headers_t hdr, inout meta_t meta, inout std_t std) {
  state start { pkt.extract(hdr.h); transition accept; } }
control C(inout headers_t hdr, inout meta_t meta, inout std_t std) {
  apply { meta.x = ra.read(0); meta.y = rb.read(0); } }
control D(packet_out pkt, in headers_t hdr) { apply { pkt.emit(hdr.h); } }
Pisa(P(), C(), D()) main;";

/// Two assignments, the second of which may stand beside the first, since it assigns what the first reads.
pub const SET_AFTER_COPY: &str =
    "header h_t { bit<8> x; bit<8> y; } struct headers_t { h_t h; } struct meta_t { }
parser P(packet_in pkt, out headers_t hdr, inout meta_t meta, inout std_t std) {
  state start { pkt.extract(hdr.h); transition accept; } }
control C(inout headers_t hdr, inout meta_t meta, inout std_t std) {
  apply { hdr.h.x = hdr.h.y; hdr.h.y = 1; } }
control D(packet_out pkt, in headers_t hdr) { apply { pkt.emit(hdr.h); } }
Pisa(P(), C(), D()) main;";

/// Two assignments, the second of which reads what the first assigns.
pub const COPY_AFTER_SET: &str =
    "header h_t { bit<8> x; bit<8> y; } struct headers_t { h_t h; } struct meta_t { }
parser P(packet_in pkt, out headers_t hdr, inout meta_t meta, inout std_t std) {
  state start { pkt.extract(hdr.h); transition accept; } }
control C(inout headers_t hdr, inout meta_t meta, inout std_t std) {
  apply { hdr.h.x = 1; hdr.h.y = hdr.h.x; } }
control D(packet_out pkt, in headers_t hdr) { apply { pkt.emit(hdr.h); } }
Pisa(P(), C(), D()) main;";

/// The program that a short text spells.
fn spelled(alloc: Global, text: &str) -> Result<Program, Fail>
    ensures { IfOk result (λ program. length program.decls ≤ 100) }
{
    if text.len() > 10_000 {
        return Err(AllocError.into());
    }
    let tokens = lex(alloc, text.as_bytes())?;
    let program = parse(alloc, text.as_bytes(), tokens.as_slice(), 80)?;
    if program.decls.as_slice().len() > 100 {
        return Err(AllocError.into());
    }
    Ok(program)
}

/// The units of a typed program.
fn sound_units(alloc: Global, program: &Checked) -> Result<Units, Fail>
    ensures { IfOk result AreSound }
{
    let terms = terms(alloc, program)?;
    if terms.symbols.as_slice().len() > 100 {
        return Err(AllocError.into());
    }
    Ok(units(alloc, program, terms, 8)?)
}

/// The units of the program that a short text spells.
pub fn units_of(alloc: Global, text: &str) -> Result<Units, Fail>
    ensures { IfOk result AreSound }
{
    let program = spelled(alloc, text)?;
    let program = check(alloc, program, false)?;
    sound_units(alloc, &program)
}
