//! Texts of whole pipelines, each part of which may differ.

use crate::sources::expect;
use std::alloc::{AllocError, Global};
use std::process::Abort;
use width_check::Rule;

/// The parts of a source with a parser, a control and a deparser; a part may be empty.
#[derive(Clone, Copy)]
pub struct Pipeline<'a> {
    /// The declarations before the metadata.
    pub top: &'a str,
    pub metadata: &'a str,
    pub registers: &'a str,
    pub states: &'a str,
    pub locals: &'a str,
    pub body: &'a str,
    pub emits: &'a str,
}

/// The smallest pipeline: without a header, a field and a statement.
pub const EMPTY: Pipeline<'static> = Pipeline {
    top: "struct headers_t { }",
    metadata: "",
    registers: "",
    states: "state start { transition accept; }",
    locals: "",
    body: "",
    emits: "",
};

/// A pipeline that reads a header of one byte and writes it.
pub const ONE_BYTE: Pipeline<'static> = Pipeline {
    top: "header h_t { bit<8> v; } struct headers_t { h_t h; }",
    states: "state start { pkt.extract(hdr.h); transition accept; }",
    emits: "pkt.emit(hdr.h);",
    ..EMPTY
};

/// The text of a pipeline.
pub fn source(alloc: Global, pipeline: &Pipeline<'_>) -> Result<String, AllocError> {
    let top = pipeline.top;
    let metadata = pipeline.metadata;
    let registers = pipeline.registers;
    let states = pipeline.states;
    let locals = pipeline.locals;
    let body = pipeline.body;
    let emits = pipeline.emits;
    format!(in alloc;
        "{top} struct meta_t {{ {metadata} }} {registers}
parser P(packet_in pkt, out headers_t hdr, inout meta_t meta, inout std_t std) {{ {states} }}
control C(inout headers_t hdr, inout meta_t meta, inout std_t std) {{ {locals} apply {{ {body} }} }}
control D(packet_out pkt, in headers_t hdr) {{ apply {{ {emits} }} }}
Pisa(P(), C(), D()) main;
"
    )
}

/// A pipeline with symbols, a constant, fields and actions. Its parser is declaration 6, and its control declaration 7.
pub const FIELDS: Pipeline<'static> = Pipeline {
    top: "symbolic int n; symbolic int m; const bit<8> c = 7; header h_t { bit<8> v; bit<16> w; } struct headers_t { h_t h; }",
    metadata: "bit<1> f; bit<32> k; bit<8>[n] x; bit<8>[m] y;",
    locals: "action set(bit<8> p) { hdr.h.v = p; } action both(bit<8> p, bit<16> q) { hdr.h.v = p; hdr.h.w = q; } action each[int j]() { meta.x[j] = 1; } action rest[int j](bit<8> p) { meta.k = hash(j, p, 8); }",
    ..EMPTY
};

/// The part of that pipeline that a text stands in.
#[derive(Clone, Copy)]
pub enum Part {
    States,
    Locals,
    Body,
}

/// That pipeline with a text in place of one part, and the number of the declaration that the part belongs to.
fn with_part<'a>(part: Part, text: &'a str) -> (Pipeline<'a>, u32) {
    match part {
        Part::States => (
            Pipeline {
                states: text,
                ..FIELDS
            },
            6,
        ),
        Part::Locals => (
            Pipeline {
                locals: text,
                ..FIELDS
            },
            7,
        ),
        Part::Body => (
            Pipeline {
                body: text,
                ..FIELDS
            },
            7,
        ),
    }
}

/// Asks that each text breaks this rule as that part, or none.
pub fn expect_in(
    rt: &impl Abort,
    alloc: Global,
    part: Part,
    rule: Option<Rule>,
    texts: &[&str],
) -> Result<(), AllocError> {
    for text in texts {
        let (pipeline, decl) = with_part(part, text);
        let text = source(alloc, &pipeline)?;
        expect(rt, alloc, text.as_str(), rule.map(|rule| (rule, decl)));
    }
    Ok(())
}
