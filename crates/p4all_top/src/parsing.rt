//! The program that a source spells, the target that a text describes, and why there is none. Nothing is read here.

ghost use Rattle.std.specs.Prelude.{◌≡◌, ◌≤◌, length, IfOk, Some};
ghost use Rattle.target_desc.specs.InRange.{IsInRange};
ghost use Rattle.p4all_top.specs.Description.{IsDescriptionFound};
ghost use Rattle.p4all_top.specs.Limits.{most_source, most_target};
ghost use Rattle.p4all_top.specs.Refusing.{lexer_refusal, parser_refusal, check_refusal, target_refusal};
ghost use Rattle.p4all_top.specs.Source.{IsProgramFound};

use p4_lexer::{LexError, lex};
use p4_parser::parse;
use spelling::SyntaxError;
use std::alloc::{AllocError, Global};
use target_desc::{KeyName, Target, TargetError};
use width_check::{CheckError, Checked, Rule, TypeError, check};

/// Why a source or a target's description isn't taken. Places in the source are in bytes, and its tokens and declarations are
/// numbered; all count from 0.
#[derive(Clone, Copy, Debug, PartialEq, Eq)]
pub enum Refusal {
    /// The source has more bytes than a source may have.
    LongSource,
    /// The description has more bytes than a description may have.
    LongTarget,
    /// No token, space or comment of the source begins with the byte there.
    Byte { at: u32 },
    /// The number there in the source has a wrong form, width or size.
    Number { at: u32 },
    /// The `/*` there in the source has no end.
    Comment { at: u32 },
    /// The source is no program. The reading stopped at this token, or at the end of the tokens.
    Syntax { token: u32 },
    /// This token of the source passes the number of brackets that may be open, or that of operators of an expression.
    Deep { token: u32 },
    /// The source is a program whose declaration with this number is the first to break a rule of types, and breaks this one first.
    Rule { rule: Rule, decl: u32 },
    /// The description is no TOML document.
    Toml,
    /// The description has a key that no number of a target has.
    UnknownKey,
    /// The description lacks this key of a target, the first that it lacks.
    MissingKey { key: KeyName },
    /// The description has no whole number in its range at this key of a target, the first such.
    OutOfRange { key: KeyName },
}

/// The most brackets that are open at one token.
const MOST_DEPTH: u32 = 80;

/// The typed program that a text spells, or why it spells none.
pub fn program_of(alloc: Global, text: &[u8]) -> Result<Result<Checked, Refusal>, AllocError>
    requires { length text.now ≤ most_source }
    ensures { IfOk result (IsProgramFound text.now) }
{
    let tokens = match lex(alloc, text) {
        Ok(tokens) => tokens,
        Err(error) => return Ok(Err(refused_by_lexer(error)?)),
    };
    let parsed = match parse(alloc, text, tokens.as_slice(), MOST_DEPTH) {
        Ok(parsed) => parsed,
        Err(error) => return Ok(Err(refused_by_parser(error)?)),
    };
    match check(alloc, parsed, false) {
        Ok(checked) => Ok(Ok(checked)),
        Err(error) => Ok(Err(refused_by_check(error)?)),
    }
}

/// The refusal of a text by the lexer.
fn refused_by_lexer(error: LexError) -> Result<Refusal, AllocError>
    ensures { IfOk result (λ refusal. lexer_refusal error ≡ Some refusal) }
{
    match error {
        LexError::BadByte { at } => Ok(Refusal::Byte { at }),
        LexError::BadNumber { at } => Ok(Refusal::Number { at }),
        LexError::OpenComment { at } => Ok(Refusal::Comment { at }),
        LexError::Memory => Err(AllocError),
    }
}

/// The refusal of tokens by the parser.
fn refused_by_parser(error: SyntaxError) -> Result<Refusal, AllocError>
    ensures { IfOk result (λ refusal. parser_refusal error ≡ Some refusal) }
{
    match error {
        SyntaxError::NotProgram { token } => Ok(Refusal::Syntax { token }),
        SyntaxError::TooDeep { token } => Ok(Refusal::Deep { token }),
        SyntaxError::Memory => Err(AllocError),
    }
}

/// The refusal of a program by the check.
fn refused_by_check(error: CheckError) -> Result<Refusal, AllocError>
    ensures { IfOk result (λ refusal. check_refusal error ≡ Some refusal) }
{
    match error {
        CheckError::Broken(TypeError { rule, decl }) => Ok(Refusal::Rule { rule, decl }),
        CheckError::Memory => Err(AllocError),
    }
}

/// The target that a description describes, or why it isn't taken.
pub fn target_of(alloc: Global, text: &[u8]) -> Result<Result<Target, Refusal>, AllocError>
    requires { length text.now ≤ most_target }
    ensures found { IfOk result (IsDescriptionFound text.now) }
    ensures in_range { IfOk result (λ found. IfOk found IsInRange) }
{
    match target_desc::read(alloc, text) {
        Ok(target) => Ok(Ok(target)),
        Err(error) => Ok(Err(refused_by_target(error)?)),
    }
}

/// The refusal of a description.
fn refused_by_target(error: TargetError) -> Result<Refusal, AllocError>
    ensures { IfOk result (λ refusal. target_refusal error ≡ Some refusal) }
{
    match error {
        TargetError::NotToml => Ok(Refusal::Toml),
        TargetError::UnknownKey => Ok(Refusal::UnknownKey),
        TargetError::MissingKey { key } => Ok(Refusal::MissingKey { key }),
        TargetError::OutOfRange { key } => Ok(Refusal::OutOfRange { key }),
        TargetError::Memory => Err(AllocError),
    }
}
