//! Trailing zero bits of BIT STRINGs.
ghost use Rattle.std.specs.Prelude.{◌≡◌, ◌↔◌, ◌<◌, ◌≤◌, ◌*◌, ◌+◌, length, IsTrue};
ghost use Rattle.schema_rules.specs.Characters.{AreZeroFrom};
ghost use Rattle.der_asn1.specs.NamedBits.{bit_count, has_bit};

/// Whether each bit of a BIT STRING from the bit `first` on is zero. Bit 0 is the first. `contents`
/// are the contents octets of its primitive encoding. True if there are no bits from `first` on.
pub fn are_zero_from(contents: &[u8], first: u64) -> bool
    ensures { IsTrue result ↔ AreZeroFrom first contents.now }
{
    for n in first as u128..bit_count(contents) {
        if has_bit(contents, n) {
            return false;
        }
    }
    true
}

/// The number of bits of a BIT STRING. `contents` are the contents octets of its primitive encoding.
pub fn bit_count(contents: &[u8]) -> u128
    ensures count { result ≡ bit_count contents.now }
    ensures few { result ≤ 8 * length contents.now }
{
    match contents {
        [] => 0,
        [unused, bits @ ..] => (8 * bits.len() as u128).saturating_sub(*unused as u128),
    }
}

/// Whether the bit with this number of a BIT STRING is one. Bit 0 is the first. The caller must ensure
/// that `contents` have more octets than an eighth of the number.
pub fn has_bit(contents: &[u8], number: u128) -> bool
    requires { number < 8 * length contents.now }
    ensures { result ≡ has_bit number contents.now }
{
    let at = 1 + (number / 8) as usize;
    at < contents.len() && (contents[at] >> (7 - number % 8)) % 2 == 1
}
