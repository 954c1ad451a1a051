//! What `size` prints of programs with a pipeline, as worked out by hand.

use crate::Status;
use crate::size_tests::{one_stage, run, whole_with};
use crate::unit_tests::GUARDED;
use std::test::Fail;

const READS: &str = "meta.x = ra.read(0); meta.y = rb.read(0);";

/// The front of a program, its fields, the body of its control, and what `size` prints on a target with one stage.
const PLACED: [(&str, &str, &str, &str); 5] = [
    (
        "symbolic int a; symbolic int b; assume(b >= 5); maximize(3*a + 2*b); \
        Register<bit<32>>(a) ra; Register<bit<32>>(b) rb;",
        "bit<32> x; bit<32> y;",
        READS,
        "size a 27\nsize b 5\nutility 91\n",
    ),
    (
        "symbolic int a; symbolic int b; maximize(table(a){0:0, 8:50, 16:60} + 2*b); \
        Register<bit<32>>(a) ra; Register<bit<32>>(b) rb;",
        "bit<32> x; bit<32> y;",
        READS,
        "size a 8\nsize b 24\nutility 98\n",
    ),
    (
        "symbolic int rows; assume(rows <= 4); maximize(0 - rows);",
        "bit<8>[rows] v;",
        "for (i < rows) { meta.v[i] = 1; }",
        "size rows 0\nutility 0\n",
    ),
    ("", "", "hdr.h.v = 1;", "utility 0\n"),
    ("", "", GUARDED, "utility 0\n"),
];

#[test]
fn size_prints_the_best_sizes_of_programs_with_a_pipeline(rt: HostRuntime) -> Result<(), Fail> {
    let target = one_stage(rt.alloc(), 512)?;
    for (front, fields, body, printed) in PLACED {
        let source = whole_with(rt.alloc(), front, fields, body)?;
        let (status, out) = run(rt.alloc(), source.as_bytes(), target.as_bytes(), &[])?;
        assert_eq!(rt; status, Status::Done);
        assert!(rt; out.bytes() == printed.as_bytes(), "{front} {body}");
    }
    Ok(())
}

#[test]
fn two_field_arrays_share_the_header_bits(rt: HostRuntime) -> Result<(), Fail> {
    let target = one_stage(rt.alloc(), 90)?;
    let source =
        "symbolic int a; symbolic int b; struct meta_t { bit<24>[a] x; bit<40>[b] y; } maximize(5*a + 9*b);";
    let (status, out) = run(rt.alloc(), source.as_bytes(), target.as_bytes(), &[])?;
    assert_eq!(rt; status, Status::Done);
    assert!(rt; out.bytes() == b"size a 2\nsize b 1\nutility 19\n".as_slice());
    Ok(())
}

const TWO_STAGES: &str =
    "stages = 2\nmemory_bits = 100\nstateful = 3\nstateless = 8\ntable_bits = 1024\nternary_bits = 1024\n\
    header_bits = 512\nops = 8\n";

#[test]
fn three_registers_need_more_memory_than_two_stages_have(rt: HostRuntime) -> Result<(), Fail> {
    let source = whole_with(
        rt.alloc(),
        "Register<bit<60>>(1) ra; Register<bit<60>>(1) rb; Register<bit<60>>(1) rc;",
        "bit<60> a; bit<60> b; bit<60> c;",
        "meta.a = ra.read(0); meta.b = rb.read(0); meta.c = rc.read(0);",
    )?;
    let (status, out) = run(rt.alloc(), source.as_bytes(), TWO_STAGES.as_bytes(), &[])?;
    assert_eq!(rt; status, Status::Infeasible);
    assert!(rt; out.bytes() == b"infeasible\n".as_slice());
    Ok(())
}
