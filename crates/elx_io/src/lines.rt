ghost use Rattle.std.specs.Prelude.{◌≡◌, [], ◌++◌, OnOk, OnErr, if◌then◌else◌};
ghost use Rattle.elx_io.specs.Lines.{is_line_start, with_end, with_number, with_word};

use itoa::Buffer;
use std::alloc::{AllocError, Global};
use std::marker::Model;

/// A text that is built word by word. A contract sees it as its bytes.
#[derive(Debug, Drop)]
pub struct Lines {
    text: Vec<u8>,
}

impl Model for Lines {
    ghost use Rattle.std.specs.Prelude.{List, ℕ};

    ghost Value = { List ℕ };

    ghost view = { λ lines. lines.text.items };
}

impl Lines {
    /// The empty text. It takes no memory.
    pub fn new(alloc: Global) -> Lines
        ensures { result ≡ [] }
    {
        Lines {
            text: Vec::new(alloc),
        }
    }

    /// Appends a word to the last line, after one space where that line isn't empty. For want of memory the text stays.
    pub fn word(&mut self, word: &[u8]) -> Result<(), AllocError>
        ensures ok { OnOk result (self.new ≡ with_word self.old word.now) }
        ensures err { OnErr result (self.new ≡ self.old) }
    {
        append_word(&mut self.text, word)
    }

    /// Appends a number in decimal digits, as `word` does. For want of memory the text stays.
    pub fn number(&mut self, value: i128) -> Result<(), AllocError>
        ensures ok { OnOk result (self.new ≡ with_number self.old value) }
        ensures err { OnErr result (self.new ≡ self.old) }
    {
        let mut buffer = Buffer::new();
        append_word(&mut self.text, buffer.format(value).as_bytes())
    }

    /// Ends the last line. For want of memory the text stays.
    pub fn end(&mut self) -> Result<(), AllocError>
        ensures ok { OnOk result (self.new ≡ with_end self.old) }
        ensures err { OnErr result (self.new ≡ self.old) }
    {
        self.text.push(b'\n')?;
        Ok(())
    }

    /// Appends a piece as it is. For want of memory the text stays.
    pub(crate) fn append(&mut self, piece: &[u8]) -> Result<(), AllocError>
        ensures ok { OnOk result (self.new ≡ self.old ++ piece.now) }
        ensures err { OnErr result (self.new ≡ self.old) }
    {
        self.text.extend_from_slice(piece)
    }

    /// The text so far.
    pub fn bytes(&self) -> &[u8]
        ensures { result.now ≡ self.now }
    {
        self.text.as_slice()
    }
}

fn append_word(text: &mut Vec<u8>, word: &[u8]) -> Result<(), AllocError>
    ensures ok { OnOk result (text.new.items ≡ with_word text.old.items word.now) }
    ensures err { OnErr result (text.new.items ≡ text.old.items) }
{
    let before = text.len();
    if text.last().is_some_and(|byte| *byte != b'\n') {
        text.push(b' ')?;
    }
    if let Err(error) = text.extend_from_slice(word) {
        text.truncate(before);
        return Err(error);
    }
    Ok(())
}

#[cfg(test)]
mod tests {
    use super::*;

    #[test]
    fn a_line_has_its_words_with_one_space_between(rt: HostRuntime) -> Result<(), AllocError> {
        let mut lines = Lines::new(rt.alloc());
        lines.word(b"size")?;
        lines.word(b"rows")?;
        lines.number(3)?;
        lines.end()?;
        lines.end()?;
        lines.number(-170141183460469231731687303715884105728)?;
        lines.word(b"x")?;
        let text = b"size rows 3\n\n-170141183460469231731687303715884105728 x";
        assert_eq!(rt; lines.bytes(), text.as_slice());
        Ok(())
    }
}
