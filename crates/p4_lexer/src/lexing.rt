ghost use Rattle.std.specs.Prelude.{◌≡◌, ◌≤◌, [], ◌∷◌, ◌++◌, length, All, IfOk, IfErr, OnOk};
ghost use Rattle.p4_lexer.specs.BadPlaces.{IsBadPlace, IsBad};
ghost use Rattle.p4_lexer.specs.Tokens.{TokensOf, LiesWithin};
ghost use Rattle.p4_lexer.specs.OneTokenList.{HasOneTokenList, HasNoTokensWhereBad, HasOneBadPlace};
ghost use Rattle.p4_lexer.specs.TextLimit.{most_text};

use crate::spacing::{is_opening, spacing_end};
use crate::token::{LexError, Token};
use crate::words::token_at;
use elx_bits::Items;
use std::alloc::Global;

/// The tokens of a text. An error names the first bad place of the text, or says that there is no memory for the tokens.
pub fn lex(alloc: Global, text: &[u8]) -> Result<Items<Token>, LexError>
    requires { length text.now ≤ most_text }
    ensures tokens { IfOk result (λ tokens. TokensOf text.now tokens) }
    ensures within { IfOk result (λ tokens. All (LiesWithin (length text.now)) tokens) }
    ensures few { IfOk result (λ tokens. length tokens ≤ length text.now) }
    ensures refused { IfErr result (IsBad text.now) }
{
    let mut tokens = Items::new(alloc);
    let mut at = 0;
    while at < text.len() {
        if let Some(end) = spacing_end(text, at) {
            at = end;
        } else if let Some(token) = token_at(text, at) {
            at = token.end as usize;
            add(&mut tokens, token)?;
        } else {
            return Err(bad_at(text, at));
        }
    }
    Ok(tokens)
}

/// A text is one list of tokens at most; a text with a bad place is none, and it has no second bad place. It holds of
/// the definitions, and takes no step.
pub fn one_list_of_tokens()
    ensures same { HasOneTokenList }
    ensures none { HasNoTokensWhereBad }
    ensures one_place { HasOneBadPlace }
{}

fn add(tokens: &mut Items<Token>, token: Token) -> Result<(), LexError>
    ensures added { OnOk result (tokens.new ≡ tokens.old ++ token ∷ []) }
    ensures refused { IfErr result (λ error. error ≡ LexError.Memory) }
{
    if tokens.push(token).is_err() {
        Err(LexError::Memory)
    } else {
        Ok(())
    }
}

/// The error that names a bad place, and says what stands there.
fn bad_at(text: &[u8], at: usize) -> LexError
    requires short { length text.now ≤ most_text }
    requires bad { IsBadPlace text.now at }
    ensures { IsBad text.now result }
{
    let place = at as u32;
    if text[at].is_ascii_digit() {
        LexError::BadNumber { at: place }
    } else if is_opening(text, at) {
        LexError::OpenComment { at: place }
    } else {
        LexError::BadByte { at: place }
    }
}
