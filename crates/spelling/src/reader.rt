ghost use Rattle.std.specs.Prelude.{◌≡◌, ℕ, ◌+◌, ◌<◌, ◌≤◌, ◌↔◌, [], drop, false, length};
ghost use Rattle.std.specs.Prelude.{IsTrue, OnOk, OnErr, IfOk, IfSome, MatchOption};
ghost use Rattle.spelling.specs.Words.{piece_of, words};
ghost use Rattle.spelling.specs.Grammar.{Begins, BeginSigns, IncludeOf, IsAnyNumber, IsName};
ghost use Rattle.spelling.specs.Grammar.{IsNamed, IsNum, IsReserved, IsSign, Named, Num, NumberOf};
ghost use Rattle.spelling.specs.Grammar.{Reserved, Sign, TwoSigns};
ghost use Rattle.spelling.specs.Reading.{ahead, token_place, Takes};
ghost use Rattle.spelling.specs.Readers.{RefusesBracket, RefusesInclude, RefusesNumber, RefusesWord};
ghost use Rattle.spelling.specs.Readers.{AtEnd, NextIs, TakesOver};

use crate::error::{Parsed, SyntaxError};
use elx_bits::Name;
use p4_lexer::{Kind, Token};
use std::alloc::Global;

/// A place among the tokens of a text. A contract speaks of the words from there on.
#[derive(Drop)]
pub struct Reader<'a> {
    text: &'a [u8],
    tokens: &'a [Token],
    next: usize,
}

impl<'a> Reader<'a> {
    /// The place before the first token.
    pub fn new(text: &'a [u8], tokens: &'a [Token]) -> Reader<'a>
        ensures { ahead result ≡ words text.now tokens.now }
    {
        Reader {
            text,
            tokens,
            next: 0,
        }
    }

    /// The place before a token, which is counted from 0; the end of the tokens where there is no such token.
    pub fn from(text: &'a [u8], tokens: &'a [Token], at: usize) -> Reader<'a>
        ensures { ahead result ≡ words text.now (drop at tokens.now) }
    {
        Reader {
            text,
            tokens,
            next: at,
        }
    }

    /// The place so many tokens on, or the end where there are fewer; what may stand there decides how a reader goes on here.
    pub fn later(&self, count: usize) -> Reader<'a>
        ensures { ahead result ≡ drop count (ahead self.now) }
    {
        Reader {
            text: self.text,
            tokens: self.tokens,
            next: self.next.saturating_add(count).min(self.count()),
        }
    }

    /// How many tokens are left.
    pub fn left(&self) -> usize
        ensures { result ≡ length (ahead self.now) }
    {
        self.count().saturating_sub(self.next)
    }

    /// Whether no token is left.
    pub fn is_done(&self) -> bool
        ensures { IsTrue result ↔ (ahead self.now ≡ []) }
    {
        self.next >= self.tokens.len()
    }

    /// The refusal that the tokens spell no program, at the next token.
    pub fn refusal(&self) -> SyntaxError
        ensures { result ≡ SyntaxError.NotProgram (token_place self.now) }
    {
        SyntaxError::NotProgram {
            token: self.place(),
        }
    }

    /// The refusal that the next token lies deeper, or has more operators before it, than is allowed.
    pub fn too_deep(&self) -> SyntaxError
        ensures { result ≡ SyntaxError.TooDeep (token_place self.now) }
    {
        SyntaxError::TooDeep {
            token: self.place(),
        }
    }

    /// Whether the next token is this sign.
    pub fn is_at_sign(&self, sign: &[u8]) -> bool
        ensures { IsTrue result ↔ Begins (IsSign sign.now) (ahead self.now) }
    {
        let Some(token) = self.peek() else {
            return false;
        };
        matches!(token.kind, Kind::Sign(_)) && piece(self.text, token) == sign
    }

    /// Whether the next token is this reserved word.
    pub fn is_at_reserved(&self, text: &[u8]) -> bool
        ensures { IsTrue result ↔ Begins (IsReserved text.now) (ahead self.now) }
    {
        let Some(token) = self.peek() else {
            return false;
        };
        matches!(token.kind, Kind::Reserved(_)) && piece(self.text, token) == text
    }

    /// Whether the next token is this name.
    pub fn is_at_name(&self, name: &[u8]) -> bool
        ensures { IsTrue result ↔ Begins (IsNamed name.now) (ahead self.now) }
    {
        let Some(token) = self.peek() else {
            return false;
        };
        matches!(token.kind, Kind::Name) && piece(self.text, token) == name
    }

    /// Whether the next two tokens are these signs, and touch.
    pub fn is_at_touching(&self, one: &[u8], other: &[u8]) -> bool
        ensures { IsTrue result ↔ BeginSigns one.now other.now (ahead self.now) }
    {
        let Some(first) = self.peek() else {
            return false;
        };
        let behind = self.later(1);
        let Some(second) = behind.peek() else {
            return false;
        };
        self.is_at_sign(one) && behind.is_at_sign(other) && first.end == second.at
    }

    /// Whether the next token is a name.
    pub fn is_at_any_name(&self) -> bool
        ensures { IsTrue result ↔ Begins IsName (ahead self.now) }
    {
        let Some(token) = self.peek() else {
            return false;
        };
        matches!(token.kind, Kind::Name)
    }

    /// Whether the next token is a number, with a width or without.
    pub fn is_at_number(&self) -> bool
        ensures { IsTrue result ↔ Begins IsAnyNumber (ahead self.now) }
    {
        let Some(token) = self.peek() else {
            return false;
        };
        matches!(token.kind, Kind::Number { .. })
    }

    /// Goes over the next token where it is this sign, and says whether it is. Else the reader stays.
    pub fn eat_sign(&mut self, sign: &[u8]) -> bool
        ensures at { IsTrue result ↔ Begins (IsSign sign.now) (ahead self.old) }
        ensures taken { IsTrue result → Takes (Sign sign.now) (ahead self.old) (ahead self.new) }
        ensures left { result ≡ false → self.new ≡ self.old }
    {
        let is_here = self.is_at_sign(sign);
        if is_here {
            self.next += 1;
        }
        is_here
    }

    /// Goes over this sign. NotProgram where the next token is another; the reader stays then.
    pub fn sign(&mut self, sign: &[u8]) -> Parsed<()>
        ensures taken { OnOk result (Takes (Sign sign.now) (ahead self.old) (ahead self.new)) }
        ensures refused { RefusesWord (IsSign sign.now) self.old result }
        ensures left { OnErr result (self.new ≡ self.old) }
    {
        if self.eat_sign(sign) {
            return Ok(());
        }
        Err(self.refusal())
    }

    /// Goes over these two signs where they are the next tokens and touch, and says whether they are. Else the reader stays.
    pub fn eat_touching(&mut self, one: &[u8], other: &[u8]) -> bool
        ensures at { IsTrue result ↔ BeginSigns one.now other.now (ahead self.old) }
        ensures taken { IsTrue result → TakesOver (TwoSigns one.now other.now) self.old self.new }
        ensures left { result ≡ false → self.new ≡ self.old }
    {
        let is_here = self.is_at_touching(one, other);
        if is_here {
            self.next += 2;
        }
        is_here
    }

    /// Goes over this reserved word. NotProgram where the next token is another; the reader stays then.
    pub fn reserved(&mut self, text: &[u8]) -> Parsed<()>
        ensures taken { OnOk result (Takes (Reserved text.now) (ahead self.old) (ahead self.new)) }
        ensures refused { RefusesWord (IsReserved text.now) self.old result }
        ensures left { OnErr result (self.new ≡ self.old) }
    {
        if !self.is_at_reserved(text) {
            return Err(self.refusal());
        }
        self.next += 1;
        Ok(())
    }

    /// Goes over this name, which the grammar fixes. NotProgram where the next token is another; the reader stays then.
    pub fn fixed_name(&mut self, name: &[u8]) -> Parsed<()>
        ensures taken { OnOk result (Takes (Named name.now) (ahead self.old) (ahead self.new)) }
        ensures refused { RefusesWord (IsNamed name.now) self.old result }
        ensures left { OnErr result (self.new ≡ self.old) }
    {
        if !self.is_at_name(name) {
            return Err(self.refusal());
        }
        self.next += 1;
        Ok(())
    }

    /// Goes over this opening bracket, and gives how many more may be open in it; `depth` is how many may be open from
    /// here on, this one counted. NotProgram where the next token is another, TooDeep where it is there and `depth` is 0;
    /// the reader stays then.
    pub fn open(&mut self, bracket: &[u8], depth: u32) -> Parsed<u32>
        ensures depth { IfOk result (λ inner. depth ≡ inner + 1) }
        ensures taken { OnOk result (Takes (Sign bracket.now) (ahead self.old) (ahead self.new)) }
        ensures refused { RefusesBracket bracket.now depth self.old result }
        ensures left { OnErr result (self.new ≡ self.old) }
    {
        if !self.is_at_sign(bracket) {
            return Err(self.refusal());
        }
        if depth == 0 {
            return Err(SyntaxError::TooDeep {
                token: self.place(),
            });
        }
        self.next += 1;
        Ok(depth - 1)
    }

    /// Reads a name. NotProgram where the next token is none; the reader stays then, and for want of memory.
    pub fn name(&mut self, alloc: Global) -> Parsed<Name>
        ensures taken { IfOk result (λ name. Takes (Named name) (ahead self.old) (ahead self.new)) }
        ensures refused { RefusesWord IsName self.old result }
        ensures left { OnErr result (self.new ≡ self.old) }
    {
        let Some(token) = self.peek() else {
            return Err(self.refusal());
        };
        let Kind::Name = token.kind else {
            return Err(self.refusal());
        };
        let Ok(name) = Name::of(alloc, piece(self.text, token)) else {
            return Err(SyntaxError::Memory);
        };
        self.next += 1;
        Ok(name)
    }

    /// Reads a number that has no width and is at most `most`. NotProgram where the next token is none; the reader stays
    /// then.
    pub fn number(&mut self, most: u128) -> Parsed<u128>
        ensures within { IfOk result (λ value. value ≤ most) }
        ensures taken { IfOk result (λ value. Takes (Num value) (ahead self.old) (ahead self.new)) }
        ensures refused { RefusesNumber most self.old result }
        ensures left { OnErr result (self.new ≡ self.old) }
    {
        let Some(value) = self.number_ahead() else {
            return Err(self.refusal());
        };
        if value > most {
            return Err(self.refusal());
        }
        self.next += 1;
        Ok(value)
    }

    /// Reads a number and its width, where it has one. NotProgram where the next token is none; the reader stays then.
    pub fn any_number(&mut self) -> Parsed<(Option<u8>, u128)>
        ensures taken { IfOk result (λ number. TakesOver (NumberOf number) self.old self.new) }
        ensures refused { RefusesWord IsAnyNumber self.old result }
        ensures left { OnErr result (self.new ≡ self.old) }
    {
        let Some(token) = self.peek() else {
            return Err(self.refusal());
        };
        let Kind::Number { width, value } = token.kind else {
            return Err(self.refusal());
        };
        self.next += 1;
        Ok((width, value))
    }

    /// Reads an include, and gives the number of its file. NotProgram where the next token is none; the reader stays then.
    pub fn include(&mut self) -> Parsed<u8>
        ensures taken { IfOk result (λ file. TakesOver (IncludeOf file) self.old self.new) }
        ensures refused { RefusesInclude self.old result }
        ensures left { OnErr result (self.new ≡ self.old) }
    {
        let Some(token) = self.peek() else {
            return Err(self.refusal());
        };
        let Kind::Include(file) = token.kind else {
            return Err(self.refusal());
        };
        self.next += 1;
        Ok(file)
    }

    /// The next token's value, where it is a number without a width.
    fn number_ahead(&self) -> Option<u128>
        ensures some { IfSome result (λ value. Begins (IsNum value) (ahead self.now)) }
        ensures all { (value : ℕ) → Begins (IsNum value) (ahead self.now) → result ≡ Some value }
    {
        match self.peek()?.kind {
            Kind::Number { width, value } if width.is_none() => Some(value),
            _ => None,
        }
    }

    /// How many tokens there are.
    fn count(&self) -> usize
        ensures { result ≡ length self.now.tokens.now }
    {
        self.tokens.len()
    }

    /// The number of the next token, or the greatest number of 32 bits.
    fn place(&self) -> u32
        ensures { result ≡ token_place self.now }
    {
        u32::try_from(self.next).unwrap_or(u32::MAX)
    }

    /// The next token, or none at the end.
    fn peek(&self) -> Option<&'a Token>
        ensures words { MatchOption result (AtEnd self.now) (λ token. NextIs self.now token.now) }
        ensures inside { IfSome result (λ _. self.now.next < length self.now.tokens.now) }
    {
        self.tokens.get(self.next)
    }
}

/// The bytes of a text at a token; none where the token lies past the text.
fn piece<'a>(text: &'a [u8], token: &Token) -> &'a [u8]
    ensures { result.now ≡ piece_of text.now token.now }
{
    let at = (token.at as usize).min(text.len());
    let end = (token.end as usize).min(text.len()).max(at);
    &text[at..end]
}
