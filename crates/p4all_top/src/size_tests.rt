//! What `size` prints, over a shelf and a sink in memory, as worked out by hand.

use crate::{Status, p4all};
use elx_bits::Items;
use elx_io::{MemShelf, MemSink};
use std::alloc::{AllocError, Global};
use std::test::Fail;

pub const ROWS_AND_COLS: &str =
    "symbolic int rows; symbolic int cols; assume(rows >= 1 && rows <= 3); assume(cols <= 100); \
    struct meta_t { bit<16>[rows] idx; } maximize(10*rows + cols);";

/// A target with one stage, these header bits and this number of operators.
pub fn one_stage_with(alloc: Global, header_bits: u32, ops: u32) -> Result<String, AllocError> {
    format!(in alloc;
        "stages = 1\nmemory_bits = 1024\nstateful = 2\nstateless = 8\ntable_bits = 1024\n\
        ternary_bits = 1024\nheader_bits = {header_bits}\nops = {ops}\n"
    )
}

/// A target with one stage and these header bits.
pub fn one_stage(alloc: Global, header_bits: u32) -> Result<String, AllocError> {
    one_stage_with(alloc, header_bits, 8)
}

/// Runs `size` on a source and a target's description, where the calls of the shelf with these numbers fail.
pub fn run(
    alloc: Global,
    source: &[u8],
    target: &[u8],
    fails: &[u64],
) -> Result<(Status, MemSink), AllocError> {
    let mut shelf = MemShelf::new(alloc, Items::from_vec(fails.to_vec(alloc)?));
    shelf.put_file("src", source)?;
    shelf.put_file("target", target)?;
    let mut out = MemSink::new(alloc, Items::new(alloc));
    let status = p4all(
        alloc,
        ["size", "src", "target"].as_slice(),
        &mut shelf,
        &mut out,
    );
    Ok((status, out))
}

/// A source, the header bits of its target, and what `size` ends with and prints.
const ROWS: [(&str, u32, Status, &str); 26] = [
    (
        ROWS_AND_COLS,
        64,
        Status::Done,
        "size rows 3\nsize cols 100\nutility 130\n",
    ),
    (
        ROWS_AND_COLS,
        32,
        Status::Done,
        "size rows 2\nsize cols 100\nutility 120\n",
    ),
    (ROWS_AND_COLS, 0, Status::Infeasible, "infeasible\n"),
    ("maximize(7);", 64, Status::Done, "utility 7\n"),
    ("", 64, Status::Done, "utility 0\n"),
    ("header h_t { bit<8> v; }", 64, Status::Done, "utility 0\n"),
    (
        "symbolic int s; header h_t { bit<16> v; } struct headers_t { h_t a; h_t b; } \
        struct meta_t { bit<8>[s] x; } maximize(s);",
        64,
        Status::Done,
        "size s 3\nutility 3\n",
    ),
    (
        "symbolic int a; assume(a <= 40); maximize(table(a){0:0, 8:50, 16:60} - a);",
        64,
        Status::Done,
        "size a 16\nutility 44\n",
    ),
    (
        "symbolic int a; symbolic int b; assume(a <= 9 && b <= 3); maximize(3*a + b - table(a){0:0, 4:20});",
        64,
        Status::Done,
        "size a 3\nsize b 3\nutility 12\n",
    ),
    (
        "symbolic int a; symbolic int b; assume(a + b <= 9); maximize(table(b){0:1, 4:5, 6:6} + table(a){0:0, 4:3});",
        64,
        Status::Done,
        "size a 4\nsize b 4\nutility 8\n",
    ),
    (
        "symbolic int x; assume(x >= 5 && x <= 4); maximize(x);",
        64,
        Status::Infeasible,
        "infeasible\n",
    ),
    (
        "symbolic int x; maximize(x);",
        64,
        Status::Refused,
        "refused unbounded x\n",
    ),
    (
        "symbolic int a; symbolic int b; maximize(a + b);",
        64,
        Status::Refused,
        "refused unbounded a\n",
    ),
    (
        "symbolic int x; symbolic int y; assume(y <= 2 && x - y <= 3); maximize(x);",
        64,
        Status::Refused,
        "refused unbounded x\n",
    ),
    (
        "symbolic int x; symbolic int y; assume(y <= 2 && x - y <= 3); maximize(x); \
        struct meta_t { bit<8>[x] v; }",
        64,
        Status::Done,
        "size x 5\nsize y 2\nutility 5\n",
    ),
    (
        "symbolic int s; symbolic int t; assume(s <= 1000000);",
        64,
        Status::Refused,
        "refused unbounded t\n",
    ),
    (
        "/* one */ symbolic int s; // two\nassume(s == 0x1_0); maximize(0 - s);",
        64,
        Status::Done,
        "size s 16\nutility -16\n",
    ),
    (
        "symbolic int a; symbolic int b; assume(2*a + 3*b <= 12); maximize(a + 2*b);",
        20,
        Status::Done,
        "size a 0\nsize b 4\nutility 8\n",
    ),
    (
        "symbolic int a; symbolic int b; assume(b <= 1); maximize(5*a + b); struct meta_t { bit<3> x; bit<8>[a] y; }",
        20,
        Status::Done,
        "size a 2\nsize b 1\nutility 11\n",
    ),
    (
        "symbolic int a; symbolic int b; assume(b <= 1); maximize(5*a + b); struct meta_t { bit<5> x; bit<8>[a] y; }",
        20,
        Status::Done,
        "size a 1\nsize b 1\nutility 6\n",
    ),
    (
        "symbolic int a; symbolic int b; assume(a + b == 3); maximize(a);",
        20,
        Status::Done,
        "size a 3\nsize b 0\nutility 3\n",
    ),
    (
        "symbolic int a; symbolic int b; assume(a <= 999 && b < 1000); maximize(a + 2*b);",
        20,
        Status::Done,
        "size a 999\nsize b 999\nutility 2997\n",
    ),
    (
        "symbolic int a; symbolic int b; assume(a <= 1000 && b < 1000); maximize(a + b);",
        20,
        Status::Done,
        "size a 1000\nsize b 999\nutility 1999\n",
    ),
    (
        "symbolic int a; symbolic int b; assume(a <= 3); maximize(a);",
        20,
        Status::Refused,
        "refused unbounded b\n",
    ),
    (
        "symbolic int a; symbolic int b; assume(a + b <= 4); assume(a >= 5); maximize(a);",
        20,
        Status::Infeasible,
        "infeasible\n",
    ),
    (
        "symbolic int a; symbolic int b; assume(a + b < 0); maximize(a);",
        20,
        Status::Infeasible,
        "infeasible\n",
    ),
];

#[test]
fn size_prints_the_best_sizes_or_why_there_are_none(rt: HostRuntime) -> Result<(), Fail> {
    for (source, header_bits, status, printed) in ROWS {
        let target = one_stage(rt.alloc(), header_bits)?;
        let (ended, out) = run(rt.alloc(), source.as_bytes(), target.as_bytes(), &[])?;
        assert_eq!(rt; ended, status, "{source}");
        assert_eq!(rt; out.bytes(), printed.as_bytes(), "{source}");
    }
    Ok(())
}

/// Whether `size` refuses a source and a target's description with this line.
pub fn refuses(
    alloc: Global,
    source: &[u8],
    target: &[u8],
    line: &str,
) -> Result<bool, AllocError> {
    let (ended, out) = run(alloc, source, target, &[])?;
    Ok(ended == Status::Refused && out.bytes() == line.as_bytes())
}

/// A utility with one step table of this many keys, each worth itself.
fn stepped(alloc: Global, keys: u32) -> Result<String, AllocError> {
    let mut pairs = String::new(alloc);
    pairs.push_str("0: 0")?;
    for key in 1..keys {
        let pair = format!(in alloc; ", {key}: {key}")?;
        pairs.push_str(pair.as_str())?;
    }
    format!(in alloc; "symbolic int a; assume(a <= 99); maximize(table(a) {{ {pairs} }});")
}

#[test]
fn a_step_table_has_64_keys_at_most(rt: HostRuntime) -> Result<(), Fail> {
    let target = one_stage(rt.alloc(), 64)?;
    for (keys, status, printed) in [
        (64, Status::Done, "size a 63\nutility 63\n"),
        (65, Status::Refused, "refused src rule BadTerm 2\n"),
    ] {
        let source = stepped(rt.alloc(), keys)?;
        let (ended, out) = run(rt.alloc(), source.as_bytes(), target.as_bytes(), &[])?;
        assert_eq!(rt; ended, status, "{keys}");
        assert_eq!(rt; out.bytes(), printed.as_bytes(), "{keys}");
    }
    Ok(())
}

#[test]
fn a_utility_has_at_most_sixty_four_terms(rt: HostRuntime) -> Result<(), Fail> {
    let target = one_stage(rt.alloc(), 64)?;
    let more = " + 1".repeat(rt.alloc(), 64)?;
    let source = format!(in rt.alloc(); "symbolic int s; maximize(1{more});")?;
    let refused = refuses(
        rt.alloc(),
        source.as_bytes(),
        target.as_bytes(),
        "refused src rule BadTerm 1\n",
    )?;
    assert!(rt; refused);
    Ok(())
}

#[test]
fn a_description_is_refused_for_its_first_cause(rt: HostRuntime) -> Result<(), Fail> {
    let numbers =
        "memory_bits = 1024\nstateful = 2\nstateless = 8\ntable_bits = 1024\nternary_bits = 1024\nheader_bits = 64\n";
    let rows = [
        ("stages =", "refused target toml\n"),
        ("stages = 1\nops = 8\nx = 1\n", "refused target unknown\n"),
        ("stages = 1\n", "refused target missing ops\n"),
        ("", "refused target missing stages\n"),
        ("stages = 65\nops = 8\n", "refused target range stages\n"),
        ("stages = 1\nops = \"8\"\n", "refused target range ops\n"),
    ];
    for (others, line) in rows {
        let target = format!(in rt.alloc(); "{numbers}{others}")?;
        let refused = refuses(rt.alloc(), b"maximize(7);", target.as_bytes(), line)?;
        assert!(rt; refused, "{others}");
    }
    let refused = refuses(
        rt.alloc(),
        b"symbolic int;",
        b"stages =",
        "refused src syntax 2\n",
    )?;
    assert!(rt; refused, "the source's cause comes first");
    Ok(())
}

/// A source, and the line that refuses it.
const REFUSED: [(&str, &str); 16] = [
    ("a $", "refused src byte 2\n"),
    ("const bit<8> a = 129w1;", "refused src number 17\n"),
    ("/*", "refused src comment 0\n"),
    ("symbolic int int;", "refused src syntax 2\n"),
    ("maximize(7)", "refused src syntax 4\n"),
    ("maximize(7; $", "refused src byte 12\n"),
    ("symbolic int a__1;", "refused src rule ReservedName 0\n"),
    (
        "symbolic int s; symbolic int s;",
        "refused src rule Twice 1\n",
    ),
    ("maximize(x);", "refused src rule UnknownName 0\n"),
    ("maximize(1); maximize(x);", "refused src rule Twice 1\n"),
    (
        "symbolic int a; assume(a <= 9); maximize(table(b){0:0});",
        "refused src rule UnknownName 2\n",
    ),
    (
        "symbolic int a; assume(a <= 9); maximize(table(a){1:0});",
        "refused src rule BadTerm 2\n",
    ),
    (
        "symbolic int s; maximize(table(s) {0: 1, 2: 3, 2: 4});",
        "refused src rule BadTerm 1\n",
    ),
    ("struct meta_t { bit<0> x; }", "refused src rule Width 0\n"),
    (
        "maximize(x); header h_t { bit<8> v; }",
        "refused src rule UnknownName 0\n",
    ),
    (
        "header h_t { bit<8> v; } maximize(x);",
        "refused src rule UnknownName 1\n",
    ),
];

#[test]
fn a_source_is_refused_for_its_first_cause(rt: HostRuntime) -> Result<(), Fail> {
    let target = one_stage(rt.alloc(), 64)?;
    for (source, line) in REFUSED {
        let refused = refuses(rt.alloc(), source.as_bytes(), target.as_bytes(), line)?;
        assert!(rt; refused, "{source}");
    }
    let open = vec![in rt.alloc(); b'('; 1_000_000]?;
    let refused = refuses(
        rt.alloc(),
        open.as_slice(),
        target.as_bytes(),
        "refused src syntax 0\n",
    )?;
    assert!(rt; refused);
    Ok(())
}

/// A whole program with these declarations in front, this metadata, and this body of its control.
pub fn whole_with(
    alloc: Global,
    front: &str,
    fields: &str,
    body: &str,
) -> Result<String, AllocError> {
    format!(in alloc;
        "{front} header h_t {{ bit<8> v; }} struct headers_t {{ h_t h; }} struct meta_t {{ {fields} }}\n\
        parser P(packet_in pkt, out headers_t hdr, inout meta_t meta, inout std_t std) {{\n\
        state start {{ pkt.extract(hdr.h); transition accept; }} }}\n\
        control C(inout headers_t hdr, inout meta_t meta, inout std_t std) {{ apply {{\n\
        {body} }} }}\n\
        control D(packet_out pkt, in headers_t hdr) {{ apply {{ pkt.emit(hdr.h); }} }}\n\
        Pisa(P(), C(), D()) main;\n"
    )
}
