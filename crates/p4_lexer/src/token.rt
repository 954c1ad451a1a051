use thiserror::Error;

/// What a token is. The code of a reserved word or a sign is its place in the table of these.
#[derive(Clone, Copy, Debug, PartialEq, Eq)]
pub enum Kind {
    Reserved(u16),
    Sign(u16),
    Name,
    Number { width: Option<u8>, value: u128 },
    Include(u8),
}

/// A token: its kind, and the places of its first byte and after its last one, in bytes from the start of the text.
#[derive(Clone, Copy, Debug, PartialEq, Eq)]
pub struct Token {
    pub kind: Kind,
    pub at: u32,
    pub end: u32,
}

/// Why a text has no tokens, with the first bad place, in bytes from the start of the text.
#[derive(Clone, Copy, Debug, PartialEq, Eq, Error)]
pub enum LexError {
    /// No token, space or comment begins with the byte there.
    #[error("no token begins at byte {at}")]
    BadByte { at: u32 },
    /// The number that begins there has a wrong form, width or size, or a letter, a digit or `_` follows it.
    #[error("the number at byte {at} has a wrong form, width or size")]
    BadNumber { at: u32 },
    /// The `/*` there has no end.
    #[error("the comment at byte {at} has no end")]
    OpenComment { at: u32 },
    /// There is no memory for the tokens.
    #[error("out of memory")]
    Memory,
}
