//! Checked programs of texts.

ghost use Rattle.std.specs.Prelude.{◌≤◌, IfOk, length};

use elastic_ast::{Program, Rule};
use p4_lexer::lex;
use p4_parser::parse;
use std::alloc::{AllocError, Global};
use std::process::Abort;
use width_check::{CheckError, Checked, check};

/// The program that a short text spells.
pub fn spelled(alloc: Global, text: &str) -> Result<Program, AllocError>
    ensures { IfOk result (λ program. length program.decls ≤ 10000) }
{
    if text.len() > 1_000_000 {
        return Err(AllocError);
    }
    let Ok(tokens) = lex(alloc, text.as_bytes()) else {
        return Err(AllocError);
    };
    match parse(alloc, text.as_bytes(), tokens.as_slice(), 80) {
        Ok(program) if program.decls.as_slice().len() <= 10_000 => Ok(program),
        _ => Err(AllocError),
    }
}

/// What the check says of the program of a text.
pub fn checked(
    alloc: Global,
    text: &str,
    allow_reserved: bool,
) -> Result<Result<Checked, CheckError>, AllocError> {
    let program = spelled(alloc, text)?;
    Ok(check(alloc, program, allow_reserved))
}

/// A rule, and the number of the declaration that breaks it.
pub type Breach = (Rule, u32);

/// The first rule that the program of a text breaks; none where it is typed.
fn breach(alloc: Global, text: &str) -> Result<Option<Breach>, AllocError> {
    match checked(alloc, text, false)? {
        Ok(_) => Ok(None),
        Err(CheckError::Broken(error)) => Ok(Some((error.rule, error.decl))),
        Err(CheckError::Memory) => Err(AllocError),
    }
}

/// Asks that the program of a text breaks this rule in this declaration, or none.
pub fn expect(rt: &impl Abort, alloc: Global, text: &str, want: Option<Breach>) {
    assert_eq!(rt; breach(alloc, text), Ok(want), "{text}");
}
