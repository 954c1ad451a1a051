//! Values of a width in bits.

ghost use Rattle.std.specs.Prelude.{◌≡◌, ℕ, ◌≤◌, ◌<◌, ◌^◌, ◌+◌, ◌-◌, ◌%◌, ◌↔◌, IsTrue, MatchOption, bit_and, bit_or, bit_xor};
ghost use Rattle.elx_bits.specs.Hash.{hashed, mixed as mixed_of};
ghost use Rattle.elx_bits.specs.Words.{add as add_of, sub as sub_of, mul as mul_of, not as not_of, shl as shl_of, shr as shr_of, cat as cat_of, slice as slice_of, cast as cast_of, IsAmount, IsWord};

/// The most bits of a value.
const WIDEST: u8 = 128;

/// A value of a width from 1 to 128 bits: a whole number below 2 to the width.
#[derive(Clone, Copy, Debug)]
pub struct Bits {
    pub width: u8,
    pub value: u128,
    pub ghost positive: { 1 ≤ width },
    pub ghost within: { width ≤ 128 },
    pub ghost fits: { value < 2 ^ width },
}

impl Bits {
    ghost use Rattle.elx_bits.specs.AreBits.{AreBits};

    /// The value of this width, or None where the width isn't 1 to 128 or the value isn't below 2 to the width.
    pub fn of(width: u8, value: u128) -> Option<Bits>
        ensures { MatchOption result (IsWord width value → ⊥) (AreBits width value) }
    {
        if width == 0 || width > WIDEST || value > ones(width) {
            return None;
        }
        Some(Bits { width, value })
    }

    /// The sum, modulo 2 to the width.
    pub fn add(self, other: Bits) -> Bits
        requires { self.width ≡ other.width }
        ensures { AreBits self.width (add_of self.width self.value other.value) result }
    {
        low_bits(self.width, self.value.wrapping_add(other.value))
    }

    /// The difference, modulo 2 to the width.
    pub fn sub(self, other: Bits) -> Bits
        requires { self.width ≡ other.width }
        ensures { AreBits self.width (sub_of self.width self.value other.value) result }
    {
        low_bits(self.width, self.value.wrapping_sub(other.value))
    }

    /// The product, modulo 2 to the width.
    pub fn mul(self, other: Bits) -> Bits
        requires { self.width ≡ other.width }
        ensures { AreBits self.width (mul_of self.width self.value other.value) result }
    {
        low_bits(self.width, self.value.wrapping_mul(other.value))
    }

    /// The bits that both have.
    pub fn and(self, other: Bits) -> Bits
        requires { self.width ≡ other.width }
        ensures { AreBits self.width (bit_and self.value other.value) result }
    {
        Bits {
            width: self.width,
            value: self.value & other.value,
        }
    }

    /// The bits that one of them has.
    pub fn or(self, other: Bits) -> Bits
        requires { self.width ≡ other.width }
        ensures { AreBits self.width (bit_or self.value other.value) result }
    {
        Bits {
            width: self.width,
            value: self.value | other.value,
        }
    }

    /// The bits in which they differ.
    pub fn xor(self, other: Bits) -> Bits
        requires { self.width ≡ other.width }
        ensures { AreBits self.width (bit_xor self.value other.value) result }
    {
        Bits {
            width: self.width,
            value: self.value ^ other.value,
        }
    }

    /// Each bit turned.
    pub fn not(self) -> Bits
        ensures { AreBits self.width (not_of self.width self.value) result }
    {
        Bits {
            width: self.width,
            value: ones(self.width) - self.value,
        }
    }

    /// The bits moved up by an amount of any width, with zeros below; 0 from an amount of the width on.
    pub fn shl(self, by: Bits) -> Bits
        ensures { AreBits self.width (shl_of self.width self.value by.value) result }
    {
        match self.amount(by) {
            Some(amount) => low_bits(self.width, self.value << amount),
            None => zero(self.width),
        }
    }

    /// The bits moved down by an amount of any width, with zeros above; 0 from an amount of the width on.
    pub fn shr(self, by: Bits) -> Bits
        ensures { AreBits self.width (shr_of self.value by.value) result }
    {
        match self.amount(by) {
            Some(amount) => low_bits(self.width, self.value >> amount),
            None => zero(self.width),
        }
    }

    /// The amount of a shift, where it is below the width.
    fn amount(self, by: Bits) -> Option<u32>
        ensures { MatchOption result (self.width ≤ by.value) (IsAmount self.width by.value) }
    {
        if by.value < u128::from(self.width) {
            Some(by.value as u32)
        } else {
            None
        }
    }

    /// The bits of this value and, below them, those of another. The widths add up to at most 128.
    pub fn cat(self, low: Bits) -> Bits
        requires { self.width + low.width ≤ 128 }
        ensures { AreBits (self.width + low.width) (cat_of low.width self.value low.value) result }
    {
        Bits {
            width: self.width + low.width,
            value: self.value << low.width | low.value,
        }
    }

    /// The bits from number `low` to number `high`, both included. The lowest bit has the number 0.
    pub fn slice(self, high: u8, low: u8) -> Bits
        requires order { low ≤ high }
        requires within { high < self.width }
        ensures { AreBits (high + 1 - low) (slice_of high low self.value) result }
    {
        low_bits(high - low + 1, self.value >> low)
    }

    /// The lowest bits, or all with zeros above them, at a width from 1 to 128.
    pub fn cast(self, width: u8) -> Bits
        requires positive { 1 ≤ width }
        requires within { width ≤ 128 }
        ensures { AreBits width (cast_of width self.value) result }
    {
        low_bits(width, self.value)
    }

    /// Whether the value is less, as a whole number.
    pub fn lt(self, other: Bits) -> bool
        requires { self.width ≡ other.width }
        ensures { IsTrue result ↔ (self.value < other.value) }
    {
        self.value < other.value
    }

    /// Whether the value is at most the other, as a whole number.
    pub fn le(self, other: Bits) -> bool
        requires { self.width ≡ other.width }
        ensures { IsTrue result ↔ (self.value ≤ other.value) }
    {
        self.value <= other.value
    }

    /// Whether the values are equal.
    pub fn same(self, other: Bits) -> bool
        requires { self.width ≡ other.width }
        ensures { IsTrue result ↔ (self.value ≡ other.value) }
    {
        self.value == other.value
    }
}

/// The number whose bits are all 1.
fn ones(width: u8) -> u128
    requires positive { 1 ≤ width }
    requires within { width ≤ 128 }
    ensures { result + 1 ≡ 2 ^ width }
{
    u128::MAX >> (128 - width)
}

/// No bit set.
fn zero(width: u8) -> Bits
    requires positive { 1 ≤ width }
    requires within { width ≤ 128 }
    ensures width { result.width ≡ width }
    ensures value { result.value ≡ 0 }
{
    Bits { width, value: 0 }
}

/// The lowest bits of a number.
fn low_bits(width: u8, number: u128) -> Bits
    requires positive { 1 ≤ width }
    requires within { width ≤ 128 }
    ensures width { result.width ≡ width }
    ensures value { result.value ≡ number % 2 ^ width }
{
    Bits {
        width,
        value: number & ones(width),
    }
}

/// The hash with number `k` of a value, below `n`, as 32 bits. The formula is this project's own.
pub fn hash(k: u32, x: Bits, n: u32) -> Bits
    requires { 1 ≤ n }
    ensures width { result.width ≡ 32 }
    ensures value { result.value ≡ hashed k x.value n }
{
    let low = (x.value % 0x1_0000_0000_0000_0000) as u64;
    let high = (x.value >> 64) as u64;
    let moved = (u64::from(k) + 1).wrapping_mul(0x9E37_79B9_7F4A_7C15);
    let first = mixed(low.wrapping_add(moved));
    let second = mixed(first.wrapping_add(high));
    Bits {
        width: 32,
        value: u128::from((second >> 32) % u64::from(n)),
    }
}

/// A number with its high half turned into its low half, times a constant, modulo 2 to the 64.
fn mixed(number: u64) -> u64
    ensures { result ≡ mixed_of number }
{
    (number ^ (number >> 32)).wrapping_mul(0xD6E8_FEB8_6659_FD93)
}

#[cfg(test)]
mod tests {
    use super::*;

    /// A value, or a zero where the number doesn't fit the width.
    fn bits(width: u8, value: u128) -> Bits {
        match Bits::of(width, value) {
            Some(bits) => bits,
            None => zero(1),
        }
    }

    /// Two values of one width.
    fn pair(width: u8, left: u128, right: u128) -> (Bits, Bits)
        ensures { result.0.width ≡ result.1.width }
    {
        match (Bits::of(width, left), Bits::of(width, right)) {
            (Some(left), Some(right)) => (left, right),
            _ => (zero(1), zero(1)),
        }
    }

    #[test]
    fn a_value_has_a_width_from_1_to_128_and_fits_it(rt: HostRuntime) {
        for (width, value) in [
            (1, 0),
            (1, 1),
            (8, 255),
            (127, u128::MAX >> 1),
            (128, u128::MAX),
        ] {
            match Bits::of(width, value) {
                Some(bits) => assert_eq!(rt; (bits.width, bits.value), (width, value)),
                None => assert!(rt; false, "{width} {value}"),
            }
        }
        for (width, value) in [
            (0, 0),
            (129, 0),
            (255, 0),
            (1, 2),
            (8, 256),
            (127, u128::MAX),
        ] {
            assert!(rt; Bits::of(width, value).is_none(), "{width} {value}");
        }
    }

    #[test]
    fn sums_differences_and_products_wrap(rt: HostRuntime) {
        // width, two operands, and their sum, difference and product
        let rows = [
            (1, 1, 1, 0, 0, 1),
            (8, 250, 10, 4, 240, 196),
            (8, 10, 250, 4, 16, 196),
            (128, u128::MAX, 2, 1, u128::MAX - 2, u128::MAX - 1),
            (128, 0, 1, 1, u128::MAX, 0),
        ];
        for (width, left, right, sum, difference, product) in rows {
            let (left, right) = pair(width, left, right);
            assert_eq!(rt; left.add(right).value, sum);
            assert_eq!(rt; left.sub(right).value, difference);
            assert_eq!(rt; left.mul(right).value, product);
        }
    }

    #[test]
    fn each_bit_is_met_turned_or_compared(rt: HostRuntime) {
        let (left, right) = pair(4, 0b1100, 0b1010);
        assert_eq!(rt; left.and(right).value, 0b1000);
        assert_eq!(rt; left.or(right).value, 0b1110);
        assert_eq!(rt; left.xor(right).value, 0b0110);
        assert_eq!(rt; left.not().value, 0b0011);
        assert!(rt; right.lt(left) && right.le(left) && left.le(left));
        assert!(rt; !left.lt(left) && !left.le(right) && left.same(left) && !left.same(right));
        assert_eq!(rt; bits(1, 0).not().value, 1);
        assert_eq!(rt; bits(128, 0).not().value, u128::MAX);
    }

    #[test]
    fn shifts_are_exact_up_to_the_width_and_beyond(rt: HostRuntime) {
        // width, value, amount, and the value moved up and down
        let rows = [
            (8, 0x81, 0, 0x81, 0x81),
            (8, 0x81, 7, 0x80, 1),
            (8, 0x81, 8, 0, 0),
            (1, 1, 1, 0, 0),
            (128, u128::MAX, 127, 1 << 127, 1),
            (128, u128::MAX, 128, 0, 0),
            (128, u128::MAX, 1 << 32, 0, 0),
            (128, u128::MAX, u128::MAX, 0, 0),
        ];
        for (width, value, amount, up, down) in rows {
            let value = bits(width, value);
            assert_eq!(rt; value.shl(bits(128, amount)).value, up);
            assert_eq!(rt; value.shr(bits(128, amount)).value, down);
        }
    }

    #[test]
    fn bits_are_joined_cut_and_cast(rt: HostRuntime) {
        let high = Bits {
            width: 4,
            value: 0xa,
        };
        let both = high.cat(Bits {
            width: 124,
            value: 0x5c,
        });
        assert_eq!(rt; (both.width, both.value), (128, 0xa << 124 | 0x5c));
        let rest = both.slice(123, 0);
        assert_eq!(rt; (rest.width, rest.value), (124, 0x5c));
        let top = both.slice(127, 127);
        assert_eq!(rt; (top.width, top.value), (1, 1));
        let middle = both.slice(4, 2);
        assert_eq!(rt; (middle.width, middle.value), (3, 7));
        let whole = both.slice(127, 0);
        assert_eq!(rt; (whole.width, whole.value), (128, both.value));
        for (value, width, want) in [(0x1ff, 8, 0xff), (0x1ff, 1, 1), (0x1ff, 128, 0x1ff)] {
            let cast = bits(9, value).cast(width);
            assert_eq!(rt; (cast.width, cast.value), (width, want));
        }
    }

    #[test]
    fn the_hash_of_a_worked_vector(rt: HostRuntime) {
        let hashed = hash(0, bits(128, 0x0000_0000_0000_0001_61c8_8646_80b5_83eb), 256);
        assert_eq!(rt; (hashed.width, hashed.value), (32, 0xb8));
        assert_eq!(rt; hash(u32::MAX, bits(128, u128::MAX), 1).value, 0);
    }
}
