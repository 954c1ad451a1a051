//! What the rules of types say of the states of a parser.

use crate::pipelines::{FIELDS, Part, Pipeline, expect_in, source};
use crate::sources::expect;
use std::alloc::{AllocError, Global};
use std::test::Fail;
use width_check::Rule;

const TYPED: [&str; 9] = [
    "state start { transition accept; }",
    "state start { pkt.extract(hdr.h); pkt.extract(hdr.h); transition reject; }",
    "state last { transition accept; } state start { transition last; }",
    "state start { transition next; } state next { transition accept; } state other { transition next; }",
    "state start { transition select (hdr.h.v) { } }",
    "state start { transition select (hdr.h.v) { 1: accept; 255: reject; c: accept; 3 &&& c: accept; _: accept; default: reject; } }",
    "state start { transition select (hdr.h.v + 1) { 8w3: accept; } }",
    "state start { transition select (hash(0, hdr.h.v, n)) { 1: accept; } }",
    "state start { transition select (hdr.h.v) { 1: left; default: right; } } state left { transition last; } state right { transition last; } state last { transition accept; }",
];

const LOOPS: [&str; 10] = [
    "",
    "state begin { transition accept; }",
    "state start { transition start; }",
    "state start { transition a; } state a { transition b; } state b { transition a; }",
    "state start { transition a; } state a { transition b; } state b { transition start; }",
    "state start { transition accept; } state a { transition b; } state b { transition a; }",
    "state a { transition a; } state start { transition accept; }",
    "state start { transition select (hdr.h.v) { 1: accept; 2: reject; 3: start; } }",
    "state start { transition select (hdr.h.v) { 1: a; default: b; } } state a { transition c; } state b { transition c; } state c { transition select (hdr.h.w) { 1: accept; _: b; } }",
    "state c { transition accept; } state b { transition c; } state a { transition select (hdr.h.v) { 1: b; 2: start; } } state start { transition a; }",
];

const UNKNOWN: [&str; 5] = [
    "state start { transition z; }",
    "state start { transition h_t; }",
    "state start { pkt.extract(hdr.z); transition accept; }",
    "state start { transition select (hdr.h.z) { } }",
    "state start { transition select (hdr.h.v) { 1: accept; default: z; } }",
];

const TWICE: [&str; 3] = [
    "state start { transition accept; } state start { transition accept; }",
    "state start { transition accept; } state accept { transition reject; }",
    "state start { transition accept; } state pkt { transition accept; }",
];

const WIDTH: [&str; 3] = [
    "state start { transition select (hdr.h.w) { c: accept; } }",
    "state start { transition select (hdr.h.v) { 9w1: accept; } }",
    "state start { transition select (hdr.h.v) { 1 &&& 7w1: accept; } }",
];

const TOO_WIDE: [&str; 3] = [
    "state start { transition select (hdr.h.v) { 256: accept; } }",
    "state start { transition select (hdr.h.v) { 1 &&& 256: accept; } }",
    "state start { transition select (hdr.h.v + 256) { } }",
];

const NOT_CONST: [&str; 2] = [
    "state start { transition select (hdr.h.v) { n: accept; } }",
    "state start { transition select (hdr.h.v) { 1 &&& h_t: accept; } }",
];

const BARE: [&str; 2] = [
    "state start { transition select (0) { } }",
    "state start { transition select (~1) { 1: accept; } }",
];

#[test]
fn states_break_the_rules_on_names_and_widths(rt: HostRuntime) -> Result<(), Fail> {
    let array = "state start { transition select (meta.x) { } }";
    let reserved = "state start { transition accept; } state a__b { transition accept; }";
    for (rule, texts) in [
        (None, TYPED.as_slice()),
        (Some(Rule::UnknownName), UNKNOWN.as_slice()),
        (Some(Rule::Twice), TWICE.as_slice()),
        (Some(Rule::Width), WIDTH.as_slice()),
        (Some(Rule::LiteralTooWide), TOO_WIDE.as_slice()),
        (Some(Rule::NotConst), NOT_CONST.as_slice()),
        (Some(Rule::BadIndex), [array].as_slice()),
        (Some(Rule::BadKey), BARE.as_slice()),
        (Some(Rule::ParserLoop), LOOPS.as_slice()),
        (Some(Rule::ReservedName), [reserved].as_slice()),
    ] {
        expect_in(&rt, rt.alloc(), Part::States, rule, texts)?;
    }
    Ok(())
}

/// States in a chain, so many behind `start`; the last goes on to a name.
fn chain(alloc: Global, count: u32, last: &str) -> Result<String, AllocError> {
    let mut states = String::new(alloc);
    states.push_str("state start { transition s0; }")?;
    for number in 1..count {
        let from = number - 1;
        let state = format!(in alloc; " state s{from} {{ transition s{number}; }}")?;
        states.push_str(state.as_str())?;
    }
    let from = count.saturating_sub(1);
    let state = format!(in alloc; " state s{from} {{ transition {last}; }}")?;
    states.push_str(state.as_str())?;
    Ok(states)
}

#[test]
fn long_chains_of_states_are_followed(rt: HostRuntime) -> Result<(), Fail> {
    for (last, want) in [
        ("accept", None),
        ("s1999", Some((Rule::ParserLoop, 6))),
        ("s1000", Some((Rule::ParserLoop, 6))),
        ("start", Some((Rule::ParserLoop, 6))),
    ] {
        let states = chain(rt.alloc(), 2000, last)?;
        let pipeline = Pipeline {
            states: states.as_str(),
            ..FIELDS
        };
        let text = source(rt.alloc(), &pipeline)?;
        expect(&rt, rt.alloc(), text.as_str(), want);
    }
    Ok(())
}
