//! Whole sources that break no rule of types.

use crate::pipelines::{EMPTY, ONE_BYTE, Pipeline, source};
use crate::sources::expect;
use std::test::Fail;

/// Sources without a pipeline.
const ALONE: [&str; 8] = [
    "",
    "maximize(7);",
    "symbolic int x; maximize(x);",
    "symbolic int x; assume(x >= 5 && x <= 4); maximize(x);",
    "symbolic int s; assume(s <= 600000000 + 600000000);",
    "symbolic int n; symbolic int k; assume(n + 2*k <= 9 && n >= 2); maximize(3*n - 1 - k);",
    "symbolic int rows; symbolic int cols; assume(rows >= 1 && rows <= 3); assume(cols <= 100); struct meta_t { bit<16>[rows] idx; } maximize(10*rows + cols);",
    "symbolic int a; symbolic int b; struct meta_t { bit<24>[a] x; bit<40>[b] y; } maximize(5*a + 9*b);",
];

/// A source that reads an Ethernet header and writes it.
const ETHERNET: Pipeline<'static> = Pipeline {
    states: "state start { pkt.extract(hdr.eth); transition accept; }",
    emits: "pkt.emit(hdr.eth);",
    ..EMPTY
};

/// A source with two registers, each of a size of its own.
const TWO_REGISTERS: Pipeline<'static> = Pipeline {
    top: "symbolic int a; symbolic int b; assume(b >= 5); maximize(3*a + 2*b); header h_t { bit<8> v; } struct headers_t { h_t h; }",
    metadata: "bit<32> x; bit<32> y;",
    registers: "Register<bit<32>>(a) ra; Register<bit<32>>(b) rb;",
    body: "meta.x = ra.read(0); meta.y = rb.read(0);",
    ..ONE_BYTE
};

const SOURCES: [Pipeline<'static>; 17] = [
    EMPTY,
    ONE_BYTE,
    // a count-min sketch
    Pipeline {
        top: "#include <core.p4>
#include <pisa.p4>
symbolic int rows; symbolic int cols; assume(rows >= 1); maximize(100*rows + cols); header eth_t { bit<48> dst; bit<48> src; bit<16> kind; } struct headers_t { eth_t eth; }",
        metadata: "bit<32>[rows] idx; bit<32>[rows] cnt; bit<32> low;",
        registers: "Register<bit<32>>(cols)[rows] sketch;",
        locals: "action count[int i]() { meta.idx[i] = hash(i, hdr.eth.src, cols); meta.cnt[i] = sketch[i].read(meta.idx[i]); sketch[i].write(meta.idx[i], meta.cnt[i] + 1); } action least[int i]() { meta.low = meta.cnt[i]; }",
        body: "meta.low = 0xFFFFFFFF; for (i < rows) { count[i](); if (meta.cnt[i] < meta.low) { least[i](); } }",
        ..ETHERNET
    },
    // the same sketch beside a cache
    Pipeline {
        top: "#include <core.p4>
#include <pisa.p4>
symbolic int rows; symbolic int cols; symbolic int ways; symbolic int slots; assume(rows >= 1 && rows <= 4); assume(ways >= 1 && ways <= 8); maximize(100000*rows + 50000*ways + cols + slots); header eth_t { bit<48> dst; bit<48> src; bit<16> kind; } struct headers_t { eth_t eth; }",
        metadata: "bit<32>[rows] idx; bit<32>[rows] cnt; bit<32> low; bit<32>[ways] pos; bit<64>[ways] old;",
        registers: "Register<bit<32>>(cols)[rows] sketch; Register<bit<64>>(slots)[ways] store;",
        locals: "action count[int i]() { meta.idx[i] = hash(i, hdr.eth.src, cols); meta.cnt[i] = sketch[i].read(meta.idx[i]); sketch[i].write(meta.idx[i], meta.cnt[i] + 1); } action least[int i]() { meta.low = meta.cnt[i]; } action keep[int j]() { meta.pos[j] = hash(j, hdr.eth.dst, slots); meta.old[j] = store[j].read(meta.pos[j]); store[j].write(meta.pos[j], hdr.eth.dst ++ hdr.eth.kind); }",
        body: "meta.low = 0xFFFFFFFF; for (i < rows) { count[i](); if (meta.cnt[i] < meta.low) { least[i](); } } for (j < ways) { keep[j](); }",
        ..ETHERNET
    },
    TWO_REGISTERS,
    // a utility in steps
    Pipeline {
        top: "symbolic int a; symbolic int b; maximize(table(a){0:0, 8:50, 16:60} + 2*b); header h_t { bit<8> v; } struct headers_t { h_t h; }",
        ..TWO_REGISTERS
    },
    // three registers
    Pipeline {
        metadata: "bit<60> a; bit<60> b; bit<60> c;",
        registers: "Register<bit<60>>(1) ra; Register<bit<60>>(1) rb; Register<bit<60>>(1) rc;",
        body: "meta.a = ra.read(0); meta.b = rb.read(0); meta.c = rc.read(0);",
        ..ONE_BYTE
    },
    // a loop that best has no turn
    Pipeline {
        top: "symbolic int rows; assume(rows <= 4); maximize(0 - rows); header h_t { bit<8> v; } struct headers_t { h_t h; }",
        metadata: "bit<8>[rows] v;",
        body: "for (i < rows) { meta.v[i] = 1; }",
        ..ONE_BYTE
    },
    // assignments in a row, without a stage and with one
    Pipeline {
        body: "hdr.h.x = hdr.h.y; hdr.h.y = 1;",
        ..TWO_BYTES
    },
    Pipeline {
        body: "hdr.h.x = 1; hdr.h.y = hdr.h.x;",
        ..TWO_BYTES
    },
    Pipeline {
        body: "@stage(0) { hdr.h.x = 1; } @stage(0) { hdr.h.y = hdr.h.x; }",
        ..TWO_BYTES
    },
    Pipeline {
        body: "hdr.h.x = hdr.h.x + 1;",
        ..TWO_BYTES
    },
    // a condition that its first assignment would change
    Pipeline {
        body: "if (hdr.h.x == 0) { hdr.h.x = 1; hdr.h.y = 2; }",
        ..TWO_BYTES
    },
    // a count of packets with a wide header
    Pipeline {
        top: "header h_t { bit<128> big; } struct headers_t { h_t h; }",
        metadata: "bit<8> n;",
        registers: "Register<bit<8>>(1) seen;",
        locals: "action note() { meta.n = seen.read(0); seen.write(0, meta.n + 1); }",
        body: "note(); if (hdr.h.big == 0) { std.drop = 1; } hdr.h.big = hdr.h.big + 1; std.out_port = std.in_port;",
        ..ONE_BYTE
    },
    // two blocks, each in a stage
    Pipeline {
        metadata: "bit<8> n;",
        registers: "Register<bit<8>>(4) r;",
        locals: "action note() { meta.n = r.read(1); r.write(1, meta.n + hdr.h.v); }",
        body: "@stage(0) { note(); } @stage(1) { hdr.h.v = meta.n; }",
        ..ONE_BYTE
    },
    // a hash
    Pipeline {
        top: "header h_t { bit<128> x; bit<32> o; } struct headers_t { h_t h; }",
        body: "hdr.h.o = hash(0, hdr.h.x, 256);",
        ..ONE_BYTE
    },
    // a table of ternary keys
    Pipeline {
        locals: "action set(bit<8> n) { hdr.h.x = n; } table t { key = { hdr.h.x : ternary; } actions = { set; NoAction; } const entries = { (5 &&& 0xF) : set(1); (0x15) : set(2); } default_action = NoAction(); }",
        body: "t.apply();",
        ..TWO_BYTES
    },
];

/// A pipeline over a header of two bytes.
const TWO_BYTES: Pipeline<'static> = Pipeline {
    top: "header h_t { bit<8> x; bit<8> y; } struct headers_t { h_t h; }",
    ..ONE_BYTE
};

#[test]
fn sources_within_the_rules_are_typed(rt: HostRuntime) -> Result<(), Fail> {
    for text in ALONE {
        expect(&rt, rt.alloc(), text, None);
    }
    for pipeline in &SOURCES {
        let text = source(rt.alloc(), pipeline)?;
        expect(&rt, rt.alloc(), text.as_str(), None);
    }
    Ok(())
}
