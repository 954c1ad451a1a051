ghost use Rattle.std.specs.Prelude.{◌≡◌, ◌≢◌, ℕ, ◌+◌, ◌^◌, ◌<◌, ◌≤◌, ◌↔◌, length, slice_index, IsTrue, IfSome, IfNone, MatchOption};
ghost use Rattle.p4_lexer.specs.Finding.{AllBetween};
ghost use Rattle.p4_lexer.specs.Gaps.{is_space, IsClose, IsBlockComment, IsSpacing};
ghost use Rattle.p4_lexer.specs.BadPlaces.{HasNoSpacing, IsOpening};

/// The end of the space or the comment that begins at `at`, or None where neither begins there.
pub fn spacing_end(text: &[u8], at: usize) -> Option<usize>
    requires { at < length text.now }
    ensures { MatchOption result (HasNoSpacing text.now at) (IsSpacing text.now at) }
{
    if is_space(text[at]) {
        return Some(at + 1);
    }
    if text[at] != b'/' || at + 1 == text.len() {
        return None;
    }
    match text[at + 1] {
        b'/' => Some(line_end(text, at + 2)),
        b'*' => block_end(text, at + 2),
        _ => None,
    }
}

/// Whether `/*` stands at `at`.
pub fn is_opening(text: &[u8], at: usize) -> bool
    requires { at < length text.now }
    ensures { IsTrue result ↔ IsOpening text.now at }
{
    at + 1 < text.len() && text[at] == b'/' && text[at + 1] == b'*'
}

/// Whether a byte separates tokens: a space, a tab, a carriage return or a line feed.
fn is_space(byte: u8) -> bool
    ensures { result ≡ is_space byte }
{
    byte == b' ' || byte == b'\t' || byte == b'\r' || byte == b'\n'
}

/// The place of the first line feed from `from` on, or the end of the text.
fn line_end(text: &[u8], from: usize) -> usize
    requires { from ≤ length text.now }
    ensures after { from ≤ result }
    ensures within { result ≤ length text.now }
    ensures before { (k : ℕ) → from ≤ k → k < result → slice_index text.now k ≢ 10 }
    ensures found { result < length text.now → slice_index text.now result ≡ 10 }
{
    for i in from..text.len() {
        if text[i] == b'\n' {
            return i;
        }
    }
    text.len()
}

/// The place after the first `*/` from `from` on, or None where none stands there.
fn block_end(text: &[u8], from: usize) -> Option<usize>
    requires { from ≤ length text.now }
    ensures after { IfSome result (λ end. from + 2 ≤ end) }
    ensures within { IfSome result (λ end. end ≤ length text.now) }
    ensures before { IfSome result (λ end. (k : ℕ) → from ≤ k → k + 2 < end → IsClose text.now k → ⊥) }
    ensures found { IfSome result (λ end. (k : ℕ) → k + 2 ≡ end → IsClose text.now k) }
    ensures none { IfNone result (AllBetween from (length text.now) (λ k. IsClose text.now k → ⊥)) }
{
    for i in from..text.len() {
        if is_close(text, i) {
            return Some(i + 2);
        }
    }
    None
}

/// Whether `*/` stands at `at`.
fn is_close(text: &[u8], at: usize) -> bool
    requires { at < length text.now }
    ensures { IsTrue result ↔ IsClose text.now at }
{
    at + 1 < text.len() && text[at] == b'*' && text[at + 1] == b'/'
}
