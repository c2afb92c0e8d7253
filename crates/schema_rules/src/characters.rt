//! Characters of the string types that the crate `der_asn1` does not read.
ghost use Rattle.std.specs.Prelude.{◌≡◌};
ghost use Rattle.schema_rules.specs.Codes.{is_code, universal_form};
ghost use Rattle.schema_rules.specs.Small.{are_printing, is_printing};

// Whether there are octets, and they are printing characters.
pub(crate) fn is_printing(contents: &[u8]) -> bool
    ensures { result ≡ is_printing contents.now }
{
    !contents.is_empty() && are_printing(contents)
}

// Whether the octets are printing characters.
fn are_printing(contents: &[u8]) -> bool
    ensures { result ≡ are_printing contents.now }
{
    for octet in contents {
        match *octet {
            b'!'..=b'~' => {}
            _ => return false,
        }
    }
    true
}

// Whether the octets are whole characters of four octets.
pub(crate) fn is_universal(contents: &[u8]) -> bool
    ensures { result ≡ universal_form contents.now }
{
    let mut octets = contents;
    while let [a, b, c, _, others @ ..] = octets {
        if !is_code(*a, *b, *c) {
            return false;
        }
        octets = others;
    }
    octets.is_empty()
}

// Whether these are the first three octets of the code of a character.
fn is_code(a: u8, b: u8, c: u8) -> bool
    ensures { result ≡ is_code a b c }
{
    a == 0 && b <= 0x10 && !(b == 0 && 0xD8 <= c && c < 0xE0)
}
