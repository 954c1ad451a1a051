//! What the rules of types say of registers and of the units that name them.

use crate::pipelines::{EMPTY, Pipeline, source};
use crate::sources::{Breach, expect};
use std::test::Fail;
use width_check::Rule;

const PLAIN: &str = "Register<bit<8>>(4) r;";

const ARRAY: &str = "Register<bit<8>>(4)[n] r;";

const TWO: &str = "Register<bit<8>>(4) r; Register<bit<8>>(n) q;";

/// Two units name the first register, or one names two.
const TWICE: Option<Breach> = Some((Rule::RegisterTwice, 4));

/// Registers, what the control declares, its body, and what is broken. The first register is declaration 4.
type Row = (&'static str, &'static str, &'static str, Option<Breach>);

/// Bodies without actions.
const PLAIN_UNITS: [Row; 16] = [
    (PLAIN, "", "meta.a = r.read(0);", None),
    (PLAIN, "", "if (meta.a == 0) { r.write(0, 1); }", None),
    (PLAIN, "", "r.write(0, 1); r.write(1, 1);", TWICE),
    (PLAIN, "", "meta.a = r.read(0); r.write(0, meta.a);", TWICE),
    (
        PLAIN,
        "",
        "if (meta.a == 0) { r.write(0, 1); } else { r.write(0, 2); }",
        TWICE,
    ),
    (
        PLAIN,
        "",
        "if (meta.a == 0) { r.write(0, 1); } if (meta.a != 0) { r.write(0, 2); }",
        TWICE,
    ),
    (
        PLAIN,
        "",
        "@stage(0) { r.write(0, 1); } @stage(0) { r.write(0, 2); }",
        TWICE,
    ),
    (PLAIN, "", "for (i < n) { r.write(0, 1); }", TWICE),
    (
        PLAIN,
        "",
        "for (i < n) { if (meta.x[i] == 0) { r.write(0, 1); } }",
        TWICE,
    ),
    (ARRAY, "", "for (i < n) { r[i].write(0, 1); }", None),
    (
        ARRAY,
        "",
        "for (i < n) { r[i].write(0, 1); r[i].write(1, 1); }",
        TWICE,
    ),
    (
        ARRAY,
        "",
        "for (i < n) { r[i].write(0, 1); } for (i < n) { meta.x[i] = r[i].read(0); }",
        TWICE,
    ),
    (TWO, "", "r.write(0, 1); q.write(0, 1);", None),
    (
        TWO,
        "",
        "q.write(0, 1); r.write(0, 1); q.write(0, 1);",
        Some((Rule::RegisterTwice, 5)),
    ),
    (TWO, "", "r.write(0, 1);", Some((Rule::RegisterUnused, 5))),
    (
        TWO,
        "",
        "q.write(0, 1); q.write(0, 1);",
        Some((Rule::RegisterUnused, 4)),
    ),
];

/// Bodies that call actions and apply tables.
const ACTION_UNITS: [Row; 17] = [
    (
        PLAIN,
        "action a() { meta.a = r.read(0); r.write(0, meta.a + 1); }",
        "a();",
        None,
    ),
    (
        PLAIN,
        "action a() { meta.a = r.read(0); r.write(0, meta.a + 1); }",
        "",
        Some((Rule::RegisterUnused, 4)),
    ),
    (PLAIN, "action a() { r.write(0, 1); }", "a(); a();", TWICE),
    (
        PLAIN,
        "action a() { r.write(0, 1); }",
        "if (meta.a == 0) { a(); } else { a(); }",
        TWICE,
    ),
    (
        PLAIN,
        "action a() { r.write(0, 1); }",
        "a(); r.write(0, 1);",
        TWICE,
    ),
    (
        PLAIN,
        "action a() { r.write(0, 1); } action b() { r.write(1, 1); }",
        "a(); b();",
        TWICE,
    ),
    (
        PLAIN,
        "action a() { r.write(0, 1); }",
        "for (i < n) { a(); }",
        TWICE,
    ),
    (
        ARRAY,
        "action a[int j]() { meta.x[j] = r[j].read(0); r[j].write(0, 1); }",
        "for (i < n) { a[i](); }",
        None,
    ),
    (
        TWO,
        "action a() { r.write(0, 1); q.write(0, 1); }",
        "a();",
        TWICE,
    ),
    (
        TWO,
        "action a() { r.write(0, 1); q.write(0, 1); }",
        "a(); a();",
        TWICE,
    ),
    (
        TWO,
        "action a() { r.write(0, 1); } action b() { q.write(0, 1); } table t { actions = { a; b; } }",
        "t.apply();",
        TWICE,
    ),
    (
        PLAIN,
        "action a() { r.write(0, 1); } table t { actions = { a; } }",
        "t.apply(); t.apply();",
        TWICE,
    ),
    (
        PLAIN,
        "action a() { r.write(0, 1); } table t { actions = { a; } }",
        "for (i < n) { t.apply(); }",
        TWICE,
    ),
    (
        TWO,
        "action a() { r.write(0, 1); q.write(0, 1); }",
        "",
        Some((Rule::RegisterUnused, 4)),
    ),
    (
        TWO,
        "action a() { r.write(0, 1); } action b() { q.write(0, 1); r.write(0, 1); }",
        "a();",
        Some((Rule::RegisterUnused, 5)),
    ),
    (
        PLAIN,
        "action a() { r.write(0, 1); } table t { actions = { a; } }",
        "t.apply();",
        Some((Rule::RegisterInTable, 6)),
    ),
    (
        PLAIN,
        "action b() { } action a() { r.write(0, 1); } table t { actions = { b; a; } }",
        "a();",
        Some((Rule::RegisterInTable, 6)),
    ),
];

/// What a use of a register asks beside that. The control is declaration 6.
const USES: [Row; 10] = [
    (PLAIN, "", "r.write(32w1, 255);", None),
    (PLAIN, "", "meta.a = r.read(meta.k + 1);", None),
    (
        PLAIN,
        "",
        "meta.a = r.read(meta.a);",
        Some((Rule::Width, 6)),
    ),
    (PLAIN, "", "r.write(8w1, 1);", Some((Rule::Width, 6))),
    (PLAIN, "", "r.write(0, meta.k);", Some((Rule::Width, 6))),
    (PLAIN, "", "meta.k = r.read(0);", Some((Rule::Width, 6))),
    (
        PLAIN,
        "",
        "r.write(0, 256);",
        Some((Rule::LiteralTooWide, 6)),
    ),
    (ARRAY, "", "r.write(0, 1);", Some((Rule::BadIndex, 6))),
    (
        ARRAY,
        "",
        "for (i < m) { r[i].write(0, 1); }",
        Some((Rule::BadIndex, 6)),
    ),
    (
        PLAIN,
        "",
        "r.write(0, 1); q.write(0, 1);",
        Some((Rule::UnknownName, 6)),
    ),
];

/// What the declaration of a register asks.
const DECLARATIONS: [Row; 8] = [
    (
        "Register<bit<128>>(1000000000) r;",
        "",
        "r.write(0, 1);",
        None,
    ),
    (
        "Register<bit<1>>(m)[n] r;",
        "",
        "for (i < n) { r[i].write(0, 1); }",
        None,
    ),
    ("Register<bit<0>>(4) r;", "", "", Some((Rule::Width, 4))),
    ("Register<bit<129>>(4) r;", "", "", Some((Rule::Width, 4))),
    (
        "Register<bit<8>>(0)[n] r;",
        "",
        "",
        Some((Rule::BadAmount, 4)),
    ),
    (
        "Register<bit<8>>(1000000001) r;",
        "",
        "",
        Some((Rule::BadAmount, 4)),
    ),
    (
        "Register<bit<8>>(z) r;",
        "",
        "",
        Some((Rule::UnknownName, 4)),
    ),
    (
        "Register<bit<8>>(4)[z] r;",
        "",
        "",
        Some((Rule::UnknownName, 4)),
    ),
];

#[test]
fn registers_are_named_by_one_unit_each(rt: HostRuntime) -> Result<(), Fail> {
    for rows in [
        PLAIN_UNITS.as_slice(),
        ACTION_UNITS.as_slice(),
        USES.as_slice(),
        DECLARATIONS.as_slice(),
    ] {
        for (registers, locals, body, want) in rows {
            let pipeline = Pipeline {
                top: "symbolic int n; symbolic int m; struct headers_t { }",
                metadata: "bit<8> a; bit<32> k; bit<8>[n] x;",
                registers,
                locals,
                body,
                ..EMPTY
            };
            let text = source(rt.alloc(), &pipeline)?;
            expect(&rt, rt.alloc(), text.as_str(), *want);
        }
    }
    Ok(())
}
