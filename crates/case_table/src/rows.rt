ghost use Rattle.std.specs.Prelude.{◌≡◌, ◌<◌, ◌≤◌, ◌↔◌, IsTrue, length, drop, All};
ghost use Rattle.std.specs.Option.{option_map};
ghost use Rattle.case_table.specs.Rows.{code_in, word_with, IsApart, IsDistinctTable, IsMunched, StandsInRow};

/// A row of a table: a word and the code that stands for it.
#[derive(Clone, Copy)]
pub struct Case {
    pub word: &'static str,
    pub code: u16,
}

/// The code of the first row with this word, or None where no row has it.
#[tactic(auto, unfolding(crate::specs::Rows::code_in))]
pub fn find(table: &[Case], word: &[u8]) -> Option<u16>
    ensures { result ≡ code_in table.now word.now }
{
    table
        .iter()
        .find(|row| row.word.as_bytes() == word)
        .map(|row| row.code)
}

/// The code and the length of the longest row whose word stands in `text` at `at`, the first of them where several are
/// as long, or None where none stands there. A row with an empty word never stands.
pub fn munch(table: &[Case], text: &[u8], at: usize) -> Option<(u16, usize)>
    requires { at ≤ length text.now }
    ensures { IsMunched table.now (drop at text.now) result }
{
    let rest = &text[at..];
    let mut best = None;
    let mut longest = 0;
    for row in table {
        if is_longer(row, rest, longest) {
            longest = row.word.len();
            best = Some((row.code, longest));
        }
    }
    best
}

/// The word of the first row with this code, or None where no row has it.
pub fn word_of(table: &[Case], code: u16) -> Option<&'static str>
    ensures { option_map (λ word. word.now) result ≡ word_with table.now code }
{
    table
        .iter()
        .find(|row| row.code == code)
        .map(|row| row.word)
}

/// Whether the words of all rows differ, and their codes too.
pub fn distinct(table: &[Case]) -> bool
    ensures { IsTrue result ↔ IsDistinctTable table.now }
{
    for (i, row) in table.iter().enumerate() {
        if !is_apart(row, &table[i + 1..]) {
            return false;
        }
    }
    true
}

/// Whether the row's word has more than `least` bytes and the text begins with it.
fn is_longer(row: &Case, text: &[u8], least: usize) -> bool
    ensures { IsTrue result ↔ ((least < length row.now.word.now) × StandsInRow text.now row.now) }
{
    least < row.word.len() && text.starts_with(row.word.as_bytes())
}

/// Whether the row's word and its code differ from those of all others.
fn is_apart(row: &Case, others: &[Case]) -> bool
    ensures { IsTrue result ↔ All (λ other. IsApart row.now other) others.now }
{
    others
        .iter()
        .all(|other| row.word != other.word && row.code != other.code)
}

#[cfg(test)]
mod tests {
    use super::*;

    const SIGNS: [Case; 5] = [
        Case { word: "<", code: 7 },
        Case { word: "", code: 1 },
        Case {
            word: "<<",
            code: 9,
        },
        Case { word: "<", code: 3 },
        Case { word: "&", code: 7 },
    ];

    #[test]
    fn finds_the_first_row(rt: HostRuntime) {
        assert_eq!(rt; find(&SIGNS, b"<"), Some(7));
        assert_eq!(rt; find(&SIGNS, b"<<<"), None);
        assert_eq!(rt; word_of(&SIGNS, 7), Some("<"));
        assert_eq!(rt; word_of(&SIGNS, 2), None);
    }

    #[test]
    fn munches_the_longest_row(rt: HostRuntime) {
        for (text, at, want) in [
            ("a<<b", 1, Some((9, 2))),
            ("a<<b", 2, Some((7, 1))),
            ("a", 1, None),
            ("ab", 1, None),
        ] {
            assert_eq!(rt; munch(&SIGNS, text.as_bytes(), at), want, "{text} at {at}");
        }
    }

    #[test]
    fn tells_rows_apart(rt: HostRuntime) {
        let [less, _, shift, ..] = SIGNS;
        assert_eq!(rt; distinct(&[less, shift]), true);
        assert_eq!(rt;
            distinct(&[less, shift, Case { word: "a", code: 7 }]),
            false
        );
        assert_eq!(rt;
            distinct(&[
                less,
                shift,
                Case {
                    word: "<<",
                    code: 1
                }
            ]),
            false
        );
        assert_eq!(rt; distinct(&SIGNS), false);
    }
}
