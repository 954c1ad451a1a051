//! Whole sources, read from their texts.

use crate::outlines::outline;
use elastic_ast::Program;
use p4_lexer::lex;
use p4_parser::parse;
use spelling::SyntaxError;
use std::alloc::{AllocError, Global};
use std::test::Fail;

/// The parts of a source with one header and one control; a part may be empty.
#[derive(Clone, Copy)]
struct Frame {
    top: &'static str,
    /// The name of the header in the packet, and of its type.
    header: &'static str,
    header_type: &'static str,
    fields: &'static str,
    meta: &'static str,
    registers: &'static str,
    locals: &'static str,
    body: &'static str,
}

const ONE_BYTE: Frame = Frame {
    top: "",
    header: "h",
    header_type: "h_t",
    fields: "bit<8> v;",
    meta: "",
    registers: "",
    locals: "",
    body: "",
};

fn source(alloc: Global, frame: &Frame) -> Result<String, AllocError> {
    let top = frame.top;
    let header = frame.header;
    let header_type = frame.header_type;
    let fields = frame.fields;
    let meta = frame.meta;
    let registers = frame.registers;
    let locals = frame.locals;
    let body = frame.body;
    format!(in alloc;
        "{top} header {header_type} {{ {fields} }} struct headers_t {{ {header_type} {header}; }} struct meta_t {{ {meta} }} {registers}
parser P(packet_in pkt, out headers_t hdr, inout meta_t meta, inout std_t std) {{
  state start {{ pkt.extract(hdr.{header}); transition accept; }} }}
control C(inout headers_t hdr, inout meta_t meta, inout std_t std) {{ {locals} apply {{ {body} }} }}
control D(packet_out pkt, in headers_t hdr) {{ apply {{ pkt.emit(hdr.{header}); }} }}
Pisa(P(), C(), D()) main;
"
    )
}

fn parsed(alloc: Global, text: &str) -> Result<Program, SyntaxError> {
    if text.len() > 2_000_000 {
        return Err(SyntaxError::Memory);
    }
    let Ok(tokens) = lex(alloc, text.as_bytes()) else {
        return Err(SyntaxError::Memory);
    };
    parse(alloc, text.as_bytes(), tokens.as_slice(), 80)
}

/// How many declarations a source has, or why it has none.
fn counted(alloc: Global, text: &str) -> Result<usize, SyntaxError> {
    Ok(parsed(alloc, text)?.decls.as_slice().len())
}

const COUNT_MIN: Frame = Frame {
    top: "#include <core.p4>
#include <pisa.p4>
symbolic int rows; symbolic int cols; assume(rows >= 1); maximize(100*rows + cols);",
    header: "eth",
    header_type: "eth_t",
    fields: "bit<48> dst; bit<48> src; bit<16> kind;",
    meta: "bit<32>[rows] idx; bit<32>[rows] cnt; bit<32> low;",
    registers: "Register<bit<32>>(cols)[rows] sketch;",
    locals: "action count[int i]() { meta.idx[i] = hash(i, hdr.eth.src, cols); meta.cnt[i] = sketch[i].read(meta.idx[i]); sketch[i].write(meta.idx[i], meta.cnt[i] + 1); } action least[int i]() { meta.low = meta.cnt[i]; }",
    body: "meta.low = 0xFFFFFFFF; for (i < rows) { count[i](); if (meta.cnt[i] < meta.low) { least[i](); } }",
};

const SKETCH_AND_CACHE: Frame = Frame {
    top: "#include <core.p4>
#include <pisa.p4>
symbolic int rows; symbolic int cols; symbolic int ways; symbolic int slots; assume(rows >= 1 && rows <= 4); assume(ways >= 1 && ways <= 8); maximize(100000*rows + 50000*ways + cols + slots);",
    header: "eth",
    header_type: "eth_t",
    fields: "bit<48> dst; bit<48> src; bit<16> kind;",
    meta: "bit<32>[rows] idx; bit<32>[rows] cnt; bit<32> low; bit<32>[ways] pos; bit<64>[ways] old;",
    registers: "Register<bit<32>>(cols)[rows] sketch; Register<bit<64>>(slots)[ways] store;",
    locals: "action count[int i]() { meta.idx[i] = hash(i, hdr.eth.src, cols); meta.cnt[i] = sketch[i].read(meta.idx[i]); sketch[i].write(meta.idx[i], meta.cnt[i] + 1); } action least[int i]() { meta.low = meta.cnt[i]; } action keep[int j]() { meta.pos[j] = hash(j, hdr.eth.dst, slots); meta.old[j] = store[j].read(meta.pos[j]); store[j].write(meta.pos[j], hdr.eth.dst ++ hdr.eth.kind); }",
    body: "meta.low = 0xFFFFFFFF; for (i < rows) { count[i](); if (meta.cnt[i] < meta.low) { least[i](); } } for (j < ways) { keep[j](); }",
};

/// A frame, and the outline of its program up to the parser, and that of the control's declarations and body.
const FRAMES: [(Frame, &str, &str); 10] = [
    (ONE_BYTE, "header h_t v:8;headers h_t h;meta;", " do"),
    (
        COUNT_MIN,
        "include 0;include 1;symbolic rows;symbolic cols;assume 1;maximize 2;header eth_t dst:48 src:48 kind:16;headers eth_t eth;meta idx:32[rows] cnt:32[rows] low:32;register sketch:32[rows];",
        " action count action least do assign for rows:2",
    ),
    (
        SKETCH_AND_CACHE,
        "include 0;include 1;symbolic rows;symbolic cols;symbolic ways;symbolic slots;assume 2;assume 2;maximize 4;header eth_t dst:48 src:48 kind:16;headers eth_t eth;meta idx:32[rows] cnt:32[rows] low:32 pos:32[ways] old:64[ways];register sketch:32[rows];register store:64[ways];",
        " action count action least action keep do assign for rows:2 for ways:1",
    ),
    (
        Frame {
            top: "symbolic int a; symbolic int b; assume(b >= 5); maximize(3*a + 2*b);",
            meta: "bit<32> x; bit<32> y;",
            registers: "Register<bit<32>>(a) ra; Register<bit<32>>(b) rb;",
            body: "meta.x = ra.read(0); meta.y = rb.read(0);",
            ..ONE_BYTE
        },
        "symbolic a;symbolic b;assume 1;maximize 2;header h_t v:8;headers h_t h;meta x:32 y:32;register ra:32;register rb:32;",
        " do read ra read rb",
    ),
    (
        Frame {
            meta: "bit<60> a; bit<60> b; bit<60> c;",
            registers: "Register<bit<60>>(1) ra; Register<bit<60>>(1) rb; Register<bit<60>>(1) rc;",
            body: "meta.a = ra.read(0); meta.b = rb.read(0); meta.c = rc.read(0);",
            ..ONE_BYTE
        },
        "header h_t v:8;headers h_t h;meta a:60 b:60 c:60;register ra:60;register rb:60;register rc:60;",
        " do read ra read rb read rc",
    ),
    (
        Frame {
            top: "symbolic int rows; assume(rows <= 4); maximize(0 - rows);",
            meta: "bit<8>[rows] v;",
            body: "for (i < rows) { meta.v[i] = 1; }",
            ..ONE_BYTE
        },
        "symbolic rows;assume 1;maximize 2;header h_t v:8;headers h_t h;meta v:8[rows];",
        " do for rows:1",
    ),
    (
        Frame {
            fields: "bit<8> x; bit<8> y;",
            body: "hdr.h.x = hdr.h.y; hdr.h.y = 1;",
            ..ONE_BYTE
        },
        "header h_t x:8 y:8;headers h_t h;meta;",
        " do assign assign",
    ),
    (
        Frame {
            fields: "bit<128> big;",
            meta: "bit<8> n;",
            registers: "Register<bit<8>>(1) seen;",
            locals: "action note() { meta.n = seen.read(0); seen.write(0, meta.n + 1); }",
            body: "note(); if (hdr.h.big == 0) { std.drop = 1; } hdr.h.big = hdr.h.big + 1; std.out_port = std.in_port;",
            ..ONE_BYTE
        },
        "header h_t big:128;headers h_t h;meta n:8;register seen:8;",
        " action note do call note if1 assign assign",
    ),
    (
        Frame {
            meta: "bit<8> n;",
            registers: "Register<bit<8>>(4) r;",
            locals: "action note() { meta.n = r.read(1); r.write(1, meta.n + hdr.h.v); }",
            body: "@stage(0) { note(); } @stage(1) { hdr.h.v = meta.n; }",
            ..ONE_BYTE
        },
        "header h_t v:8;headers h_t h;meta n:8;register r:8;",
        " action note do block1 block1",
    ),
    (
        Frame {
            fields: "bit<8> x;",
            locals: "action set(bit<8> n) { hdr.h.x = n; } table t { key = { hdr.h.x : ternary; } actions = { set; NoAction; } const entries = { (5 &&& 0xF) : set(1); (0x15) : set(2); } default_action = NoAction(); }",
            body: "t.apply();",
            ..ONE_BYTE
        },
        "header h_t x:8;headers h_t h;meta;",
        " action set table t do apply t",
    ),
];

#[test]
fn sources_with_a_control_are_read(rt: HostRuntime) -> Result<(), Fail> {
    for (frame, before, control) in &FRAMES {
        let text = source(rt.alloc(), frame)?;
        let program = parsed(rt.alloc(), text.as_str())?;
        let header = frame.header;
        let want = format!(in rt.alloc();
            "{before}parser P start {header};control C{control};deparser D {header};main P C D;"
        )?;
        let read = outline(rt.alloc(), &program)?;
        assert_eq!(rt; read.as_slice(), want.as_bytes(), "{text}");
    }
    Ok(())
}

#[test]
fn sources_without_a_control_are_read(rt: HostRuntime) -> Result<(), Fail> {
    let cases = [
        ("", ""),
        (
            "symbolic int rows; symbolic int cols; assume(rows >= 1 && rows <= 3); assume(cols <= 100); struct meta_t { bit<16>[rows] idx; } maximize(10*rows + cols);",
            "symbolic rows;symbolic cols;assume 2;assume 1;meta idx:16[rows];maximize 2;",
        ),
        (
            "symbolic int a; symbolic int b; struct meta_t { bit<24>[a] x; bit<40>[b] y; } maximize(5*a + 9*b);",
            "symbolic a;symbolic b;meta x:24[a] y:40[b];maximize 2;",
        ),
        (
            "parser p(packet_in pkt, out headers_t hdr, inout meta_t meta, inout std_t std) { state start { pkt.extract(hdr.h); transition select (hdr.h.kind) { 0x800: other; 1 &&& 3: accept; _: reject; default: accept; } } state other { transition accept; } }",
            "parser p start h other;",
        ),
    ];
    for (text, want) in cases {
        let program = parsed(rt.alloc(), text)?;
        let read = outline(rt.alloc(), &program)?;
        assert_eq!(rt; read.as_slice(), want.as_bytes(), "{text}");
    }
    Ok(())
}

#[test]
fn texts_are_refused_at_a_token(rt: HostRuntime) -> Result<(), Fail> {
    let cases = [
        ("rows;", 0),
        ("symbolic int ;", 2),
        ("symbolic int rows", 3),
        ("const bit<8> a = 9w3;", 7),
        (
            "control c(inout headers_t hdr, inout meta_t meta, inout std_t std) { apply { if (a) b(); else if (c) d(); else { } else ; } }",
            38,
        ),
        (
            "control c(inout headers_t hdr, inout meta_t meta, inout std_t std) { table t { key = { } key = { } } apply { } }",
            23,
        ),
    ];
    for (text, token) in cases {
        let refusal = parsed(rt.alloc(), text).err();
        assert_eq!(rt; refusal, Some(SyntaxError::NotProgram { token }), "{text}");
    }
    Ok(())
}

/// A piece of text, so many times.
fn times(alloc: Global, piece: &str, count: usize) -> Result<String, AllocError> {
    let mut text = String::new(alloc);
    for _ in 0..count {
        text.push_str(piece)?;
    }
    Ok(text)
}

/// The source of one byte with so many conditions around its one statement.
fn nested(alloc: Global, conditions: usize) -> Result<Result<usize, SyntaxError>, AllocError> {
    let frame = source(alloc, &ONE_BYTE)?;
    let open = times(alloc, "if (hdr.h.v == 0) {", conditions)?;
    let close = times(alloc, "}", conditions)?;
    let Some((before, after)) = frame.as_str().split_once("apply {  }") else {
        return Ok(Err(SyntaxError::Memory));
    };
    let text = format!(in alloc; "{before}apply {{ {open} hdr.h.v = 1; {close} }}{after}")?;
    Ok(counted(alloc, text.as_str()))
}

#[test]
fn conditions_are_read_to_the_depth(rt: HostRuntime) -> Result<(), Fail> {
    assert_eq!(rt; nested(rt.alloc(), 78)?, Ok(7));
    assert_eq!(rt;
        nested(rt.alloc(), 79)?,
        Err(SyntaxError::TooDeep { token: 934 })
    );
    Ok(())
}

#[test]
fn long_rows_are_answered_at_once(rt: HostRuntime) -> Result<(), Fail> {
    let rows = [
        ("(", 1_000_000, Err(SyntaxError::NotProgram { token: 0 })),
        ("symbolic int a;", 20_000, Ok(20_000)),
    ];
    for (piece, count, answer) in rows {
        let text = times(rt.alloc(), piece, count)?;
        assert_eq!(rt; counted(rt.alloc(), text.as_str()), answer, "{piece}");
    }
    Ok(())
}
