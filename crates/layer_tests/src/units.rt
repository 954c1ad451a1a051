//! Units of worked programs: operators, stateless units and header bits, and the first unit that is too large.

use crate::sources::checked;
use elastic_ast::Units;
use size_terms::terms;
use std::alloc::{AllocError, Global};
use std::test::Fail;
use unit_flow::{UnitError, units};

/// A condition over two assignments.
const CONDITION: &str =
    "header h_t { bit<8> a; bit<8> b; } struct headers_t { h_t h; } struct meta_t { }
parser P(packet_in pkt, out headers_t hdr, inout meta_t meta, inout std_t std) {
  state start { pkt.extract(hdr.h); transition accept; } }
control C(inout headers_t hdr, inout meta_t meta, inout std_t std) {
  apply { if (hdr.h.a == 0) { hdr.h.a = 1; hdr.h.b = 2; } } }
control D(packet_out pkt, in headers_t hdr) { apply { pkt.emit(hdr.h); } }
Pisa(P(), C(), D()) main;";

/// A count-min sketch.
const SKETCH: &str =
    "symbolic int rows; symbolic int cols; assume(rows >= 1); maximize(100*rows + cols);
header eth_t { bit<48> dst; bit<48> src; bit<16> kind; } struct headers_t { eth_t eth; }
struct meta_t { bit<32>[rows] idx; bit<32>[rows] cnt; bit<32> low; } Register<bit<32>>(cols)[rows] sketch;
parser P(packet_in pkt, out headers_t hdr, inout meta_t meta, inout std_t std) {
  state start { pkt.extract(hdr.eth); transition accept; } }
control C(inout headers_t hdr, inout meta_t meta, inout std_t std) {
  action count[int i]() { meta.idx[i] = hash(i, hdr.eth.src, cols); meta.cnt[i] = sketch[i].read(meta.idx[i]);
    sketch[i].write(meta.idx[i], meta.cnt[i] + 1); }
  action least[int i]() { meta.low = meta.cnt[i]; }
  apply { meta.low = 0xFFFFFFFF; for (i < rows) { count[i](); if (meta.cnt[i] < meta.low) { least[i](); } } } }
control D(packet_out pkt, in headers_t hdr) { apply { pkt.emit(hdr.eth); } }
Pisa(P(), C(), D()) main;";

/// The units of the program of a text, on a target with so many operators.
fn units_of(alloc: Global, text: &str, ops: u32) -> Result<Result<Units, UnitError>, Fail> {
    let program = checked(alloc, text, false)??;
    let terms = terms(alloc, &program)?;
    Ok(units(alloc, &program, terms, ops))
}

/// The operators and the stateless units of each unit.
fn counts_of(alloc: Global, units: &Units) -> Result<Vec<(u32, u32)>, AllocError> {
    let mut counts = Vec::new(alloc);
    for unit in units.list.as_slice() {
        counts.push((unit.ops, unit.cost))?;
    }
    Ok(counts)
}

#[test]
fn units_have_operators_and_header_bits(rt: HostRuntime) -> Result<(), Fail> {
    let alloc = rt.alloc();
    let condition = units_of(alloc, CONDITION, 2)??;
    let counts = counts_of(alloc, &condition)?;
    assert_eq!(&rt; counts.as_slice(), [(2, 1), (1, 1), (1, 1)].as_slice());
    assert_eq!(&rt; condition.fixed_bits, 18);
    let sketch = units_of(alloc, SKETCH, 2)??;
    let counts = counts_of(alloc, &sketch)?;
    assert_eq!(&rt; counts.as_slice(), [(0, 1), (2, 2), (1, 1)].as_slice());
    assert_eq!(&rt; sketch.fixed_bits, 145);
    assert_eq!(&rt; sketch.symbol_bits.as_slice(), [64, 0].as_slice());
    Ok(())
}

#[test]
fn the_first_unit_that_is_too_large_is_named(rt: HostRuntime) -> Result<(), Fail> {
    let alloc = rt.alloc();
    for (text, ops, unit, has) in [
        (CONDITION, 1, 0, 2),
        (CONDITION, 0, 0, 2),
        (SKETCH, 1, 1, 2),
        (SKETCH, 0, 1, 2),
    ] {
        let refused = units_of(alloc, text, ops)?.err();
        assert_eq!(&rt; refused, Some(UnitError::UnitTooLarge { unit, ops: has }));
    }
    Ok(())
}
