//! The rule of types that a program breaks, and the number of the declaration that breaks it.

use crate::sources::{checked, spelled};
use std::alloc::{AllocError, Global};
use std::test::Fail;
use width_check::{CheckError, Rule, TypeError, program};

/// What a program breaks: what is wrong, its text, the rule and the declaration.
type Broken = (&'static str, &'static str, Rule, u32);

const UNKNOWN_AND_TWICE: [Broken; 10] = [
    (
        "an undeclared symbol in assume",
        "symbolic int cols; assume(rows >= 1);",
        Rule::UnknownName,
        1,
    ),
    (
        "an undeclared symbol in maximize",
        "symbolic int cols; maximize(rows);",
        Rule::UnknownName,
        1,
    ),
    (
        "an undeclared symbol as an array's size",
        "struct meta_t { bit<8> a; bit<8>[rows] b; }",
        Rule::UnknownName,
        0,
    ),
    (
        "a symbol before its declaration",
        "assume(rows >= 1); symbolic int rows;",
        Rule::UnknownName,
        0,
    ),
    (
        "a symbol twice",
        "symbolic int rows; symbolic int cols; symbolic int rows;",
        Rule::Twice,
        2,
    ),
    ("a fixed name", "symbolic int hash;", Rule::Twice, 0),
    (
        "two utilities",
        "maximize(1); assume(1 >= 1); maximize(1);",
        Rule::Twice,
        2,
    ),
    (
        "two structs of metadata",
        "struct meta_t { bit<8> a; } struct meta_t { bit<8> b; }",
        Rule::Twice,
        1,
    ),
    (
        "a field twice",
        "struct meta_t { bit<8> a; bit<9> a; }",
        Rule::Twice,
        0,
    ),
    (
        "a field of a fixed name",
        "struct meta_t { bit<8> std; }",
        Rule::Twice,
        0,
    ),
];

const WIDTHS_AND_NUMBERS: [Broken; 6] = [
    (
        "a field of no width",
        "struct meta_t { bit<0> a; }",
        Rule::Width,
        0,
    ),
    (
        "a field that is too wide",
        "struct meta_t { bit<128> a; bit<129> b; }",
        Rule::Width,
        0,
    ),
    (
        "too great a number in assume",
        "symbolic int rows; assume(1000000001 * rows >= 1);",
        Rule::BadTerm,
        1,
    ),
    (
        "too great a number in maximize",
        "maximize(1000000001);",
        Rule::BadTerm,
        0,
    ),
    (
        "a symbol with two underscores",
        "symbolic int rows; symbolic int a__b;",
        Rule::ReservedName,
        1,
    ),
    (
        "a field with two underscores",
        "struct meta_t { bit<8> a_b; bit<8> a__; }",
        Rule::ReservedName,
        0,
    ),
];

const STEP_TABLES: [Broken; 7] = [
    (
        "a step table over an undeclared symbol",
        "symbolic int rows; maximize(table(cols) {1: 0});",
        Rule::UnknownName,
        1,
    ),
    (
        "a step table over a symbol of a later declaration",
        "maximize(table(rows) {0: 0}); symbolic int rows;",
        Rule::UnknownName,
        0,
    ),
    (
        "a first key above 0",
        "symbolic int rows; maximize(1 - table(rows) {1: 0, 2: 5});",
        Rule::BadTerm,
        1,
    ),
    (
        "a key twice",
        "symbolic int rows; maximize(table(rows) {0: 0, 8: 50, 8: 60});",
        Rule::BadTerm,
        1,
    ),
    (
        "keys that fall",
        "symbolic int rows; maximize(table(rows) {0: 0, 8: 50, 9: 51, 7: 60});",
        Rule::BadTerm,
        1,
    ),
    (
        "too great a key",
        "symbolic int rows; maximize(table(rows) {0: 0, 1000000001: 1});",
        Rule::BadTerm,
        1,
    ),
    (
        "too great a value",
        "symbolic int rows; maximize(table(rows) {0: 1000000001});",
        Rule::BadTerm,
        1,
    ),
];

const FIRST_OF_SEVERAL: [Broken; 5] = [
    (
        "the first of two declarations",
        "symbolic int rows; assume(1000000001 >= 1); symbolic int rows;",
        Rule::BadTerm,
        1,
    ),
    (
        "that it stands twice before what stands in it",
        "maximize(1); maximize(rows);",
        Rule::Twice,
        1,
    ),
    (
        "the names of all fields before their widths",
        "struct meta_t { bit<0> a; bit<8> a; }",
        Rule::Twice,
        0,
    ),
    (
        "a declaration before an include",
        "symbolic int main; #include <core.p4>",
        Rule::Twice,
        0,
    ),
    (
        "a declaration behind an include",
        "symbolic int rows; #include <core.p4> symbolic int rows;",
        Rule::Twice,
        2,
    ),
];

#[test]
fn a_broken_rule_is_named_with_its_declaration(rt: HostRuntime) -> Result<(), Fail> {
    for rows in [
        UNKNOWN_AND_TWICE.as_slice(),
        WIDTHS_AND_NUMBERS.as_slice(),
        STEP_TABLES.as_slice(),
        FIRST_OF_SEVERAL.as_slice(),
    ] {
        for (what, text, rule, decl) in rows {
            let refusal = checked(rt.alloc(), text, false)?.err();
            let want = CheckError::Broken(TypeError {
                rule: *rule,
                decl: *decl,
            });
            assert_eq!(rt; refusal, Some(want), "{what}");
        }
    }
    Ok(())
}

/// The number 1, added so many times.
fn ones(alloc: Global, count: usize) -> Result<String, AllocError> {
    let mut sum = String::new(alloc);
    sum.push_str("1")?;
    for _ in 1..count {
        sum.push_str(" + 1")?;
    }
    Ok(sum)
}

#[test]
fn at_most_64_terms_are_taken(rt: HostRuntime) -> Result<(), Fail> {
    // terms on the left and on the right of a comparison, and whether that is too many
    for (left, right, too_many) in [
        (31, 33, false),
        (1, 63, false),
        (32, 33, true),
        (64, 1, true),
        (1, 64, true),
    ] {
        let (left_sum, right_sum) = (ones(rt.alloc(), left)?, ones(rt.alloc(), right)?);
        let text = format!(in rt.alloc(); "assume({left_sum} >= {right_sum});")?;
        let refusal = checked(rt.alloc(), text.as_str(), false)?.err();
        assert_eq!(rt; refusal.is_some(), too_many, "{left} {right}");
    }
    for (terms, too_many) in [(64, false), (65, true)] {
        let sum = ones(rt.alloc(), terms)?;
        let text = format!(in rt.alloc(); "maximize({sum});")?;
        let refusal = checked(rt.alloc(), text.as_str(), false)?.err();
        assert_eq!(rt; refusal.is_some(), too_many, "{terms}");
    }
    Ok(())
}

/// What is right, the text, and whether names with two underscores are allowed.
const TAKEN: [(&str, &str, bool); 9] = [
    ("no declaration", "", false),
    ("an include", "#include <core.p4>", false),
    (
        "symbols, assume clauses, the metadata and a utility",
        "symbolic int rows; symbolic int cols; assume(rows >= 1); assume(3 * cols >= 1); \
        struct meta_t { bit<1> a; bit<128>[rows] b; } maximize(10 * rows);",
        false,
    ),
    (
        "the greatest number in assume",
        "assume(1000000000 >= 1);",
        false,
    ),
    (
        "the greatest number in maximize",
        "maximize(1000000000);",
        false,
    ),
    (
        "the greatest key and value of a step table",
        "symbolic int rows; maximize(table(rows) {0: 1000000000, 1000000000: 0});",
        false,
    ),
    (
        "a symbol and a field of one name",
        "symbolic int rows; struct meta_t { bit<8>[rows] rows; }",
        false,
    ),
    ("single underscores", "symbolic int _a_b_;", false),
    (
        "two underscores where they are allowed",
        "symbolic int a__b; struct meta_t { bit<8>[a__b] __; }",
        true,
    ),
];

#[test]
fn programs_within_the_rules_are_taken(rt: HostRuntime) -> Result<(), Fail> {
    for (what, text, allow_reserved) in TAKEN {
        let taken = checked(rt.alloc(), text, allow_reserved)??;
        let declared = spelled(rt.alloc(), text)?.decls.as_slice().len();
        assert_eq!(rt; program(&taken).decls.as_slice().len(), declared, "{what}");
    }
    Ok(())
}
