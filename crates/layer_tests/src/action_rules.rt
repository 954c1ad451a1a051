//! What the rules of types say of loops, of calls, and of actions.

use crate::pipelines::{Part, expect_in};
use std::test::Fail;
use width_check::Rule;

const TYPED_BODIES: [&str; 11] = [
    "set(1); set(c); set(hdr.h.v + 1); both(1, 300); NoAction();",
    "for (i < n) { meta.x[i] = meta.x[i] + 1; }",
    "for (i < n) { meta.k = hash(i, hdr.h.v, n); }",
    "for (i < n) { set(meta.x[i]); }",
    "for (i < n) { } for (i < n) { }",
    "for (n < n) { meta.x[n] = c; }",
    "for (i < n) { each[i](); }",
    "for (i < n) { each[i](); } for (j < n) { each[j](); }",
    "for (i < n) { rest[i](1); } for (i < m) { rest[i](meta.y[i]); }",
    "for (i < n) { if (meta.x[i] == 0) { each[i](); } else { @stage(63) { each[i](); } } }",
    "@stage(0) { for (i < m) { meta.y[i] = 1; } }",
];

const UNKNOWN_IN_BODIES: [&str; 5] = [
    "z();",
    "P();",
    "set.apply();",
    "z.apply();",
    "for (i < c) { }",
];

const INDEX_IN_BODIES: [&str; 14] = [
    "meta.x = 1;",
    "hdr.h.v = meta.x;",
    "for (i < n) { meta.x = 1; }",
    "for (i < m) { meta.x[i] = 1; }",
    "for (i < n) { if (meta.y[i] == 0) { } }",
    "for (i < n) { meta.f[i] = 1; }",
    "for (i < n) { hdr.h.v = i; }",
    "for (c < n) { hdr.h.v = c; }",
    "for (i < n) { meta.k = hash(0, i, 8); }",
    "for (i < n) { rest[i](i); }",
    "each();",
    "for (i < n) { each(); }",
    "for (i < n) { set[i](1); }",
    "for (i < m) { each[i](); }",
];

/// The index of the action counts as that of each loop that calls it, the first and the last.
const OTHER_CALLERS: [&str; 4] = [
    "for (i < n) { each[i](); } for (i < m) { each[i](); }",
    "for (i < m) { each[i](); } for (i < n) { each[i](); }",
    "for (i < n) { each[i](); } for (i < m) { if (meta.y[i] == 0) { } else { each[i](); } }",
    "for (i < n) { each[i](); } for (i < m) { @stage(1) { each[i](); } }",
];

const NESTED: [&str; 4] = [
    "for (i < n) { for (j < m) { } }",
    "for (i < n) { @stage(0) { for (j < n) { } } }",
    "for (i < n) { if (true) { } else { for (j < n) { } } }",
    "for (i < n) { } for (i < n) { meta.x[i] = 1; for (i < n) { } }",
];

const CALLS: [&str; 6] = [
    "set();",
    "set(1, 2);",
    "both(1);",
    "NoAction(1);",
    "for (i < n) { each[i](1); }",
    "for (i < n) { rest[i](); }",
];

const TYPED_ACTIONS: [&str; 9] = [
    "action a() { } action b() { }",
    "action a(bit<1> p, bit<128> q) { meta.f = p; }",
    "action a(bit<8> p) { hdr.h.v = p; } action b(bit<16> p) { hdr.h.w = p; }",
    "action a(bit<16> c) { hdr.h.w = c; }",
    "action a(bit<8> n) { hdr.h.v = n; }",
    "action n() { } action h_t() { } action a() { }",
    "action a[int i]() { meta.x[i] = 1; meta.y[i] = 2; }",
    "action a[int n]() { meta.x[n] = c; meta.k = hash(n, hdr.h.v, n); }",
    "action a() { hdr.h.setInvalid(); std.drop = 1; }",
];

const UNKNOWN_IN_ACTIONS: [&str; 4] = [
    "action a() { hdr.h.v = d; }",
    "action a(bit<8> p) { } action b() { hdr.h.v = p; }",
    "action a[int i]() { } action b() { meta.k = hash(i, hdr.h.v, 8); }",
    "action a() { hdr.z.setValid(); }",
];

const TWICE: [&str; 9] = [
    "action a() { } action a() { }",
    "action a() { } table a { }",
    "table a { } table a { }",
    "action NoAction() { }",
    "table accept { }",
    "action a(bit<8> p, bit<8> p) { }",
    "action a[int p](bit<8> p) { }",
    "action a(bit<8> hdr) { }",
    "action a[int meta]() { }",
];

const RESERVED: [&str; 4] = [
    "action a__b() { }",
    "table __ { }",
    "action a(bit<8> p__) { }",
    "action a[int _i__]() { }",
];

const WIDTH_IN_ACTIONS: [&str; 5] = [
    "action a(bit<0> p) { }",
    "action a(bit<129> p) { }",
    "action a(bit<9> p) { hdr.h.v = p; }",
    "action a(bit<16> c) { hdr.h.v = c; }",
    "action a[int i](bit<16> p) { meta.x[i] = p; }",
];

const INDEX_IN_ACTIONS: [&str; 5] = [
    "action a[int i]() { meta.x = 1; }",
    "action a[int i]() { meta.f[i] = 1; }",
    "action a[int i]() { hdr.h.v = i; }",
    "action a[int c]() { hdr.h.v = c; }",
    "action a() { meta.x = 1; }",
];

#[test]
fn statements_break_the_rules_on_loops_and_calls(rt: HostRuntime) -> Result<(), Fail> {
    for (rule, texts) in [
        (None, TYPED_BODIES.as_slice()),
        (Some(Rule::UnknownName), UNKNOWN_IN_BODIES.as_slice()),
        (Some(Rule::Twice), ["for (meta < n) { }"].as_slice()),
        (Some(Rule::Width), ["set(hdr.h.w);"].as_slice()),
        (Some(Rule::LiteralTooWide), ["both(1, 65536);"].as_slice()),
        (Some(Rule::NotBool), ["set(true);"].as_slice()),
        (Some(Rule::BadIndex), INDEX_IN_BODIES.as_slice()),
        (Some(Rule::BadIndex), OTHER_CALLERS.as_slice()),
        (Some(Rule::NestedLoop), NESTED.as_slice()),
        (Some(Rule::BadCall), CALLS.as_slice()),
        (Some(Rule::ReservedName), ["for (i__ < n) { }"].as_slice()),
    ] {
        expect_in(&rt, rt.alloc(), Part::Body, rule, texts)?;
    }
    Ok(())
}

#[test]
fn actions_break_the_rules_on_names_and_indices(rt: HostRuntime) -> Result<(), Fail> {
    for (rule, texts) in [
        (None, TYPED_ACTIONS.as_slice()),
        (Some(Rule::UnknownName), UNKNOWN_IN_ACTIONS.as_slice()),
        (Some(Rule::Twice), TWICE.as_slice()),
        (Some(Rule::Width), WIDTH_IN_ACTIONS.as_slice()),
        (Some(Rule::BadIndex), INDEX_IN_ACTIONS.as_slice()),
        (Some(Rule::ReservedName), RESERVED.as_slice()),
    ] {
        expect_in(&rt, rt.alloc(), Part::Locals, rule, texts)?;
    }
    Ok(())
}
