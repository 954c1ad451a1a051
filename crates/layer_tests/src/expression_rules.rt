//! What the rules of types say of expressions, each text as the body of a control.

use crate::pipelines::{Part, expect_in};
use std::test::Fail;
use width_check::Rule;

const TYPED: [&str; 32] = [
    "",
    "hdr.h.v = 255;",
    "hdr.h.v = 8w255;",
    "hdr.h.v = c;",
    "hdr.h.v = hdr.h.v + 1 - c;",
    "hdr.h.v = 1 + (2 + hdr.h.v);",
    "hdr.h.v = ~1;",
    "hdr.h.v = ~255 & hdr.h.v;",
    "hdr.h.v = (bit<8>)255;",
    "hdr.h.v = (bit<8>)hdr.h.w;",
    "hdr.h.w = (bit<16>)hdr.h.v;",
    "hdr.h.w = hdr.h.v ++ hdr.h.v;",
    "hdr.h.w = hdr.h.v ++ 8w255;",
    "hdr.h.v = hdr.h.w[15:8];",
    "hdr.h.v = hdr.h.w[7:0];",
    "meta.f = hdr.h.v[7:7];",
    "hdr.h.v = hdr.h.v << 255;",
    "hdr.h.v = hdr.h.v << 9w300;",
    "hdr.h.v = hdr.h.v >> hdr.h.w;",
    "hdr.h.v = (hdr.h.v * 3) ^ (hdr.h.v | 1);",
    "if (true) { }",
    "if (!false && (hdr.h.isValid() || hdr.h.v < 3)) { }",
    "if (hdr.h.v >= 255) { } else { }",
    "if (300 == hdr.h.w) { }",
    "meta.f = (bit<1>)true;",
    "meta.f = (bit<1>)(hdr.h.v != 1);",
    "meta.k = hash(0, hdr.h.v, 1);",
    "meta.k = hash(0, hdr.h.v, 1000000000);",
    "meta.k = hash(4294967295, hdr.h.v, n);",
    "hdr.h.v = hash(0, 1w1, 8)[7:0];",
    "std.out_port = std.in_port; std.drop = 1;",
    "hdr.h.setValid(); hdr.h.setInvalid();",
];

const UNKNOWN: [&str; 13] = [
    "hdr.h.v = d;",
    "hdr.h.v = n;",
    "hdr.h.v = p;",
    "hdr.h.v = h_t;",
    "hdr.h.z = 1;",
    "hdr.h_t.v = 1;",
    "hdr.z.setValid();",
    "if (hdr.z.isValid()) { }",
    "meta.z = 1;",
    "std.z = 1;",
    "meta.k = hash(0, hdr.h.v, c);",
    "meta.k = hash(0, hdr.h.v, z);",
    "meta.k = hash(n, hdr.h.v, 8);",
];

const WIDTH: [&str; 12] = [
    "hdr.h.v = hdr.h.w;",
    "hdr.h.v = 16w1;",
    "hdr.h.w = c;",
    "hdr.h.v = hdr.h.v + hdr.h.w;",
    "hdr.h.v = hdr.h.v & 9w1;",
    "if (hdr.h.v == hdr.h.w) { }",
    "if (hdr.h.w < c) { }",
    "hdr.h.v = hdr.h.v ++ hdr.h.v;",
    "hdr.h.v = hdr.h.w[8:0];",
    "hdr.h.v = hash(0, hdr.h.v, 8);",
    "hdr.h.v = (bit<8>)((bit<0>)hdr.h.w);",
    "hdr.h.v = ((bit<128>)hdr.h.v ++ hdr.h.v)[7:0];",
];

const NO_WIDTH: [&str; 12] = [
    "if (1 == 1) { }",
    "if (1 < 2) { }",
    "hdr.h.v = 1 + 1;",
    "hdr.h.v = 1 + 2 + hdr.h.v;",
    "hdr.h.v = ~(1 * 1);",
    "hdr.h.v = (bit<8>)(1 | 1);",
    "hdr.h.v = 1 << hdr.h.v;",
    "hdr.h.v = ~1 >> hdr.h.v;",
    "hdr.h.v = 1 ++ 7w1;",
    "hdr.h.v = 7w1 ++ 1;",
    "meta.f = 1[0:0];",
    "meta.k = hash(0, 1, 8);",
];

const TOO_WIDE: [&str; 11] = [
    "hdr.h.v = 256;",
    "hdr.h.v = 8w256;",
    "hdr.h.v = ~256;",
    "hdr.h.v = hdr.h.v + 256;",
    "hdr.h.v = 256 - hdr.h.v;",
    "if (256 > hdr.h.v) { }",
    "hdr.h.v = (bit<8>)256;",
    "hdr.h.v = (bit<8>)(hdr.h.w + 65536);",
    "hdr.h.w = hdr.h.v ++ 8w256;",
    "hdr.h.v = hdr.h.v << 256;",
    "hdr.h.v = hdr.h.v >> 8w256;",
];

const NOT_BOOL: [&str; 17] = [
    "if (0) { }",
    "if (hdr.h.v) { }",
    "if (meta.f) { }",
    "if (!hdr.h.v) { }",
    "if (hdr.h.isValid() && hdr.h.v) { }",
    "if (hdr.h.v || hdr.h.isValid()) { }",
    "if (true == true) { }",
    "if (hdr.h.isValid() != false) { }",
    "if (true < false) { }",
    "meta.f = true;",
    "meta.f = hdr.h.v == 1;",
    "meta.f = ~true;",
    "meta.f = meta.f | true;",
    "hdr.h.v = (bit<8>)true;",
    "hdr.h.v = hdr.h.v << true;",
    "hdr.h.v = true ++ 7w1;",
    "meta.k = hash(0, true, 8);",
];

const AMOUNTS: [&str; 2] = [
    "meta.k = hash(0, hdr.h.v, 0);",
    "meta.k = hash(0, hdr.h.v, 1000000001);",
];

const SLICES: [&str; 4] = [
    "meta.f = hdr.h.v[8:8];",
    "hdr.h.v = hdr.h.v[8:1];",
    "hdr.h.v = hdr.h.w[0:7];",
    "hdr.h.v = (hdr.h.v ++ hdr.h.w)[24:17];",
];

#[test]
fn expressions_break_the_rules_on_names_and_widths(rt: HostRuntime) -> Result<(), Fail> {
    for (rule, texts) in [
        (None, TYPED.as_slice()),
        (Some(Rule::UnknownName), UNKNOWN.as_slice()),
        (Some(Rule::Width), WIDTH.as_slice()),
        (Some(Rule::NoWidth), NO_WIDTH.as_slice()),
        (Some(Rule::LiteralTooWide), TOO_WIDE.as_slice()),
        (Some(Rule::NotBool), NOT_BOOL.as_slice()),
        (Some(Rule::BadAmount), AMOUNTS.as_slice()),
        (Some(Rule::BadSlice), SLICES.as_slice()),
    ] {
        expect_in(&rt, rt.alloc(), Part::Body, rule, texts)?;
    }
    Ok(())
}
