//! The hash of a key, from the parts of the key.

ghost use Rattle.std.specs.Prelude.{◌≡◌};
ghost use Rattle.std.specs.Int.{to_le_bytes, w64};
ghost use Rattle.elastic_ast.specs.Containers.Fnv.{fnv, fnv_step};

/// The hash of a key with no parts: the offset of FNV-1a of 64 bits.
pub const HASH_START: u64 = 0xcbf2_9ce4_8422_2325;

/// The prime of FNV-1a of 64 bits.
const PRIME: u64 = 0x100_0000_01b3;

/// The hash of a key with some bytes as its next part.
pub fn hash_bytes(state: u64, bytes: &[u8]) -> u64
    ensures { result ≡ fnv state bytes.now }
{
    let mut hash = state;
    for byte in bytes {
        hash = (hash ^ u64::from(*byte)).wrapping_mul(PRIME);
    }
    hash
}

/// The hash of a key with a number as its next part, met as one.
pub fn hash_word(state: u64, number: u64) -> u64
    ensures { result ≡ fnv_step state number }
{
    (state ^ number).wrapping_mul(PRIME)
}

/// The hash of a key with a number as its next part: the bytes of the number, the lowest first.
pub fn hash_number(state: u64, number: u64) -> u64
    ensures { result ≡ fnv state (to_le_bytes w64 number) }
{
    hash_bytes(state, &number.to_le_bytes())
}
