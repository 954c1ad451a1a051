//! What `size` prints where a program has no bounds that are taken, as worked out by hand.

use crate::size_tests::{one_stage, refuses, whole_with};
use std::test::Fail;

/// A count-min sketch of which at most 4 rows are asked for, and no row surely.
const MAYBE_NO_ROWS: &str =
    "symbolic int rows; symbolic int cols; assume(rows <= 4); maximize(100*rows + cols); \
    header eth_t { bit<48> dst; bit<48> src; bit<16> kind; } struct headers_t { eth_t eth; } \
    struct meta_t { bit<32>[rows] idx; bit<32>[rows] cnt; bit<32> low; } Register<bit<32>>(cols)[rows] sketch; \
    parser P(packet_in pkt, out headers_t hdr, inout meta_t meta, inout std_t std) { \
    state start { pkt.extract(hdr.eth); transition accept; } } \
    control C(inout headers_t hdr, inout meta_t meta, inout std_t std) { \
    action count[int i]() { meta.idx[i] = hash(i, hdr.eth.src, cols); meta.cnt[i] = sketch[i].read(meta.idx[i]); \
    sketch[i].write(meta.idx[i], meta.cnt[i] + 1); } \
    action least[int i]() { meta.low = meta.cnt[i]; } apply { meta.low = 0xFFFFFFFF; \
    for (i < rows) { count[i](); if (meta.cnt[i] < meta.low) { least[i](); } } } } \
    control D(packet_out pkt, in headers_t hdr) { apply { pkt.emit(hdr.eth); } } \
    Pisa(P(), C(), D()) main;";

/// A target of 64 stages that bounds none of the sizes below by its room.
const ROOMY: &str = "stages = 64\nmemory_bits = 1000000\nstateful = 1024\nstateless = 1024\n\
    table_bits = 0\nternary_bits = 0\nheader_bits = 1000000\nops = 4\n";

/// Declarations in front, metadata and a body of a control, and the line that refuses the program for its bounds.
const BOUNDED: [(&str, &str, &str, &str); 4] = [
    // The row bounds `s`, and no other rule does.
    (
        "symbolic int s; assume(s <= 600000000 + 600000000);",
        "bit<8> x;",
        "hdr.h.v = 1;",
        "refused large bound 1200000000\n",
    ),
    // One instance of the first unit and 1024 of the other.
    (
        "symbolic int n; assume(n <= 1024);",
        "bit<1>[n] v;",
        "hdr.h.v = 1; for (i < n) { meta.v[i] = 1; }",
        "refused large instances 1025\n",
    ),
    // 2 sizes, 800 indices of the loop, where each of 800 instances stands in 64 stages (51200), and the cells it has there,
    // as a symbol counts them (51200).
    (
        "symbolic int n; symbolic int c; assume(n <= 800 && n >= 1); assume(c <= 9); \
        Register<bit<1>>(c)[n] r;",
        "bit<1>[n] v;",
        "for (i < n) { meta.v[i] = r[i].read(0); }",
        "refused large variables 103202\n",
    ),
    // Both units write `x`, so that there are 64 turns, one a stage, and 128 instances. 1 row of the header, 2 and 63 of the
    // loop, 2 for each instance (256), 5 for each stage (320), and 64 for each of the 128 * 127 / 2 pairs (520192).
    (
        "symbolic int n;",
        "bit<8> x;",
        "for (i < n) { meta.x = meta.x + 1; meta.x = meta.x ^ hdr.h.v; }",
        "refused large rows 520834\n",
    ),
];

#[test]
fn a_program_is_refused_for_its_bounds(rt: HostRuntime) -> Result<(), Fail> {
    for (front, fields, body, line) in BOUNDED {
        let source = whole_with(rt.alloc(), front, fields, body)?;
        let refused = refuses(rt.alloc(), source.as_bytes(), ROOMY.as_bytes(), line)?;
        assert!(rt; refused, "{front} {body}");
    }
    Ok(())
}

#[test]
fn bounds_are_asked_for_with_and_without_a_pipeline(rt: HostRuntime) -> Result<(), Fail> {
    let target = one_stage(rt.alloc(), 512)?;
    for (source, line) in [
        (MAYBE_NO_ROWS, "refused unbounded cols\n"),
        ("symbolic int x; maximize(x);", "refused unbounded x\n"),
        (
            "symbolic int s; assume(s <= 600000000 + 600000000);",
            "refused large bound 1200000000\n",
        ),
    ] {
        let refused = refuses(rt.alloc(), source.as_bytes(), target.as_bytes(), line)?;
        assert!(rt; refused, "{source}");
    }
    Ok(())
}
