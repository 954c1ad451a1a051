ghost use Rattle.std.specs.Prelude.{◌≡◌, ◌≢◌, ◌+◌, ◌<◌, ◌≤◌, ◌↔◌, codes, IsTrue, true, false, length, slice_index, take, IfSome, MatchOption};
ghost use Rattle.std.specs.Char.{is_ascii_digit};
ghost use Rattle.std.specs.List.{AllPass};
ghost use Rattle.case_table.specs.Rows.{IsWordAt};
ghost use Rattle.p4_lexer.specs.BadPlaces.{HasNoToken};
ghost use Rattle.p4_lexer.specs.Finding.{IsFound, IsPieceRead, IsSignRead, AllBetween};
ghost use Rattle.p4_lexer.specs.Pieces.{is_word_byte, is_blank, reserved_words, IsFile};
ghost use Rattle.p4_lexer.specs.Tokens.{IsTokenAt};
ghost use Rattle.p4_lexer.specs.TextLimit.{most_text};

use crate::numbers::number;
use crate::tables::{RESERVED, SIGNS};
use crate::token::{Kind, Token};
use case_table::{find, munch};

/// The token that begins at `at`, the longest piece of the text there, or None where none begins there.
pub fn token_at(text: &[u8], at: usize) -> Option<Token>
    requires short { length text.now ≤ most_text }
    requires within { at < length text.now }
    ensures { MatchOption result (HasNoToken text.now at) (IsTokenAt text.now at) }
{
    if text[at] == b'#' {
        include_at(text, at)
    } else if is_word_byte(text[at]) {
        word_at(text, at)
    } else {
        sign_at(text, at)
    }
}

/// The number, the reserved word or the name at `at`, where a letter, a digit or `_` stands.
fn word_at(text: &[u8], at: usize) -> Option<Token>
    requires short { length text.now ≤ most_text }
    requires within { at < length text.now }
    requires word { is_word_byte (slice_index text.now at) ≡ true }
    ensures { MatchOption result (HasNoToken text.now at) (IsTokenAt text.now at) }
{
    let end = word_end(text, at);
    let kind = word_kind(&text[at..end])?;
    Some(Token {
        kind,
        at: at as u32,
        end: end as u32,
    })
}

/// The kind of a word, or None where it begins with a digit and is no number.
fn word_kind(word: &[u8]) -> Option<Kind>
    requires some { 0 < length word.now }
    requires bytes { AllPass is_word_byte word.now }
    ensures { IsPieceRead word.now result }
{
    if word[0].is_ascii_digit() {
        let (width, value) = number(word)?;
        Some(Kind::Number { width, value })
    } else {
        match reserved_code(word) {
            Some(code) => Some(Kind::Reserved(code)),
            None => Some(Kind::Name),
        }
    }
}

/// The code of a reserved word, or None where the word is none.
fn reserved_code(word: &[u8]) -> Option<u16>
    ensures { IsFound (λ code. IsWordAt reserved_words code word.now) result }
{
    find(&RESERVED, word)
}

/// The code and the length of the longest sign at `at`, or None where no sign stands there.
fn longest_sign(text: &[u8], at: usize) -> Option<(u16, usize)>
    requires { at < length text.now }
    ensures { IsSignRead text.now at result }
{
    munch(&SIGNS, text, at)
}

/// The sign at `at`, where no letter, digit, `_` or `#` stands.
fn sign_at(text: &[u8], at: usize) -> Option<Token>
    requires short { length text.now ≤ most_text }
    requires within { at < length text.now }
    requires not_word { is_word_byte (slice_index text.now at) ≡ false }
    requires not_include { slice_index text.now at ≢ 35 }
    ensures { MatchOption result (HasNoToken text.now at) (IsTokenAt text.now at) }
{
    let (code, len) = longest_sign(text, at)?;
    Some(Token {
        kind: Kind::Sign(code),
        at: at as u32,
        end: (at + len) as u32,
    })
}

/// The include at `at`, where a `#` stands.
fn include_at(text: &[u8], at: usize) -> Option<Token>
    requires short { length text.now ≤ most_text }
    requires within { at < length text.now }
    requires include { slice_index text.now at ≡ 35 }
    ensures { MatchOption result (HasNoToken text.now at) (IsTokenAt text.now at) }
{
    if !is_include(&text[at..]) {
        return None;
    }
    let file = blanks_end(text, at + 8);
    if file == at + 8 {
        return None;
    }
    let code = file_code(&text[file..])?;
    Some(Token {
        kind: Kind::Include(code),
        at: at as u32,
        end: (file + 9) as u32,
    })
}

/// Whether a text begins with `#include`.
fn is_include(text: &[u8]) -> bool
    ensures within { IsTrue result → 8 ≤ length text.now }
    ensures word { IsTrue result ↔ (take 8 text.now ≡ codes "#include") }
{
    text.starts_with(b"#include")
}

/// The number of the file whose name in angle brackets a text begins with, or None where it begins with no such name.
fn file_code(text: &[u8]) -> Option<u8>
    ensures within { IfSome result (λ code. 9 ≤ length text.now) }
    ensures file { IsFound (λ code. IsFile code (take 9 text.now)) result }
{
    if text.starts_with(b"<core.p4>") {
        Some(0)
    } else if text.starts_with(b"<pisa.p4>") {
        Some(1)
    } else {
        None
    }
}

/// The place of the first byte from `from` on that is no letter, digit or `_`, or the end of the text.
fn word_end(text: &[u8], from: usize) -> usize
    requires { from ≤ length text.now }
    ensures after { from ≤ result }
    ensures within { result ≤ length text.now }
    ensures before { AllBetween from result (λ k. is_word_byte (slice_index text.now k) ≡ true) }
    ensures stop { result < length text.now → is_word_byte (slice_index text.now result) ≡ false }
{
    for i in from..text.len() {
        if !is_word_byte(text[i]) {
            return i;
        }
    }
    text.len()
}

/// The place of the first byte from `from` on that is no space and no tab, or the end of the text.
fn blanks_end(text: &[u8], from: usize) -> usize
    requires { from ≤ length text.now }
    ensures after { from ≤ result }
    ensures within { result ≤ length text.now }
    ensures before { AllBetween from result (λ k. is_blank (slice_index text.now k) ≡ true) }
    ensures stop { result < length text.now → is_blank (slice_index text.now result) ≡ false }
{
    for i in from..text.len() {
        if text[i] != b' ' && text[i] != b'\t' {
            return i;
        }
    }
    text.len()
}

/// Whether a byte is a letter, a digit or `_`.
fn is_word_byte(byte: u8) -> bool
    ensures { result ≡ is_word_byte byte }
{
    byte.is_ascii_alphanumeric() || byte == b'_'
}
