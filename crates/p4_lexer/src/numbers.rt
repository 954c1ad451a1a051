ghost use Rattle.std.specs.Prelude.{◌≡◌, ℕ, ◌+◌, ◌*◌, ◌^◌, ◌<◌, ◌≤◌, ◌==◌, IfSome, IfNone, MatchOption, position};
ghost use Rattle.std.specs.Char.{digit_value};
ghost use Rattle.p4_lexer.specs.Finding.{IsFound, IsNumberRead, IsSmallInBase, IsTooGreat};
ghost use Rattle.p4_lexer.specs.Numbers.{IsNumberText, IsNoNumber, IsNatural, IsInBase, IsWidth, base_of};

/// The most bits that a width may say.
const WIDEST: u32 = 128;

/// The width and the value of a number, or None where the text is none or passes a limit.
pub fn number(text: &[u8]) -> Option<(Option<u8>, u128)>
    ensures { IsNumberRead text.now result }
{
    match width_end(text) {
        Some(place) => {
            let width = width_of(&text[..place])?;
            let value = natural(&text[place + 1..])?;
            Some((Some(width), value))
        }
        None => {
            let value = natural(text)?;
            Some((None, value))
        }
    }
}

/// The place of the first `w`.
fn width_end(text: &[u8]) -> Option<usize>
    ensures { result ≡ position (λ byte. byte == 119) text.now }
{
    text.iter().position(|byte| *byte == b'w')
}

/// The width that stands before a `w`, decimal digits for 1 to 128, or None where something else stands there.
fn width_of(digits: &[u8]) -> Option<u8>
    ensures { IsFound (λ width. IsWidth width digits.now) result }
{
    let mut width: u32 = 0;
    for byte in digits {
        let digit = digit_of(10, *byte)?;
        width = width * 10 + digit;
        if width > WIDEST {
            return None;
        }
    }
    if width > 0 { Some(width as u8) } else { None }
}

/// The value of a number without its width, or None where the text is none or the value passes the limit.
fn natural(text: &[u8]) -> Option<u128>
    ensures { IsFound (λ value. IsNatural value text.now) result }
{
    if text.len() >= 2 && text[0] == b'0' {
        if let Some(base) = base_of(text[1]) {
            return value_in(base, &text[2..]);
        }
    }
    value_in(10, text)
}

/// The base that the letter after a leading 0 stands for.
fn base_of(letter: u8) -> Option<u32>
    ensures { result ≡ base_of letter }
{
    match letter {
        b'x' | b'X' => Some(16),
        b'o' | b'O' => Some(8),
        b'b' | b'B' => Some(2),
        _ => None,
    }
}

/// The value of digits of a base, among which `_` may stand after the first, or None where the text is no such digits
/// or the value passes the limit.
fn value_in(base: u32, digits: &[u8]) -> Option<u128>
    requires low { 2 ≤ base }
    requires high { base ≤ 16 }
    ensures { IsSmallInBase base digits.now result }
{
    if digits.is_empty() || digits[0] == b'_' {
        return None;
    }
    let mut value: u128 = 0;
    for byte in digits {
        if *byte != b'_' {
            value = with_digit(base, value, *byte)?;
        }
    }
    Some(value)
}

/// The value with one more digit behind it, or None where it is no digit or the value passes the limit.
fn with_digit(base: u32, value: u128, byte: u8) -> Option<u128>
    requires low { 2 ≤ base }
    requires high { base ≤ 16 }
    ensures digit { IfSome result (λ more. digit_value byte < base) }
    ensures value { IfSome result (λ more. more ≡ value * base + digit_value byte) }
    ensures none { IfNone result (digit_value byte < base → IsTooGreat (value * base + digit_value byte)) }
{
    let digit = digit_of(base, byte)?;
    let shifted = value.checked_mul(u128::from(base))?;
    shifted.checked_add(u128::from(digit))
}

/// The value of a digit of the base: of a decimal digit, or of a letter in either case. None where it is no digit.
fn digit_of(base: u32, byte: u8) -> Option<u32>
    requires low { 2 ≤ base }
    requires high { base ≤ 16 }
    ensures low { IfSome result (λ digit. digit_value byte < base) }
    ensures value { IfSome result (λ digit. digit ≡ digit_value byte) }
    ensures none { IfNone result (base ≤ digit_value byte) }
{
    char::from(byte).to_digit(base)
}
