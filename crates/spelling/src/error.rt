ghost use Rattle.std.specs.Prelude.{◌≡◌, ◌-◌, ◌^◌, ◌≤◌, min};
ghost use Rattle.spelling.specs.Reading.{NamesAtMost, IsSameRefusal};
ghost use Rattle.spelling.specs.Bounds.{IfTooDeepAt};

use thiserror::Error;

/// What a reader answers: what the tokens spell, or why they spell nothing.
pub type Parsed<T> = Result<T, SyntaxError>;

/// Why tokens spell nothing. A token counts from 0, and is at most the number of tokens.
#[derive(Clone, Copy, Debug, PartialEq, Eq, Error)]
pub enum SyntaxError {
    /// The reading stopped at this token: it doesn't go on what stands before it, or the tokens end there too early.
    #[error("the text is no program from token {token} on")]
    NotProgram { token: u32 },
    /// This token opens one bracket more, or begins one operator more, than the reader was allowed.
    #[error("token {token} lies deeper than is allowed")]
    TooDeep { token: u32 },
    /// There is no memory for what the tokens spell.
    #[error("out of memory")]
    Memory,
}

impl SyntaxError {
    /// The same refusal, where `most` is the number of tokens and the reader stopped before the token `next`: TooDeep names that
    /// token, and the end of the tokens is named for a place behind it.
    pub fn within(self, most: usize, next: usize) -> SyntaxError
        ensures named { NamesAtMost most result }
        ensures same { IsSameRefusal self result }
        ensures at { next ≤ most → IfTooDeepAt (λ token. token ≡ min next (2 ^ 32 - 1)) result }
    {
        let last = u32::try_from(most).unwrap_or(u32::MAX);
        match self {
            SyntaxError::NotProgram { token } => SyntaxError::NotProgram {
                token: token.min(last),
            },
            SyntaxError::TooDeep { .. } => SyntaxError::TooDeep {
                token: u32::try_from(next).unwrap_or(u32::MAX).min(last),
            },
            SyntaxError::Memory => SyntaxError::Memory,
        }
    }
}
