//! Strings of the Basic Multilingual Plane.
ghost use Rattle.std.specs.Prelude.{◌≡◌, ◌+◌, ◌*◌, false, IfSome, IfNone, [], ◌∷◌};
ghost use Rattle.std.specs.Fmt.{WritesOnOk};
ghost use Rattle.der_asn1.specs.Alphabets.{is_surrogate};
ghost use Rattle.x509.specs.Text.{bmp_characters, bmp_text};

use der_asn1::BmpStringRef;
use std::fmt;

// Writes the characters of the string.
pub(crate) fn write_bmp<W: fmt::Write>(
    string: &BmpStringRef<'_>,
    f: &mut fmt::Formatter<W>,
) -> fmt::Result
    ensures { WritesOnOk W.write_str_gives f.old result (bmp_text string.now.octets.now) f.new }
{
    let mut rest = string.octets();
    'codes: while let Some((high, low, after)) = first_code(rest) {
        f.write_char(bmp_character(high, low))?;
        rest = after;
    }
    Ok(())
}

// The two octets of the first code, and the octets after it.
fn first_code(octets: &[u8]) -> Option<(u8, u8, &[u8])>
    ensures some { IfSome result (λ p. octets.now ≡ p.0 ∷ p.1 ∷ p.2.now) }
    ensures none { IfNone result (bmp_characters octets.now ≡ []) }
{
    match octets {
        [high, low, after @ ..] => Some((*high, *low, after)),
        _ => None,
    }
}

// The character with this code, whose first octet does not begin a surrogate.
fn bmp_character(high: u8, low: u8) -> char
    requires { is_surrogate high ≡ false }
    ensures { result ≡ 256 * high + low }
{
    match char::from_u32(u32::from(high) * 256 + u32::from(low)) {
        Some(character) => character,
        None => unreachable!(),
    }
}
