//! Classes of octets.
ghost use Rattle.std.specs.Prelude.{◌≡◌};
ghost use Rattle.asn1_syntax.specs.Lexical.{is_digit, is_lower, is_name_octet, is_space, is_upper};
ghost use Rattle.asn1_syntax.specs.Lexical.{is_word_octet};

/// Whether the octet is an upper-case letter.
pub fn is_upper(octet: u8) -> bool
    ensures { result ≡ is_upper octet }
{
    b'A' <= octet && octet <= b'Z'
}

/// Whether the octet is a lower-case letter.
pub fn is_lower(octet: u8) -> bool
    ensures { result ≡ is_lower octet }
{
    b'a' <= octet && octet <= b'z'
}

/// Whether the octet is a digit.
pub fn is_digit(octet: u8) -> bool
    ensures { result ≡ is_digit octet }
{
    b'0' <= octet && octet <= b'9'
}

/// Whether the octet may be in an ASN.1 name: a letter, a digit or a hyphen.
pub fn is_name_octet(octet: u8) -> bool
    ensures { result ≡ is_name_octet octet }
{
    is_upper(octet) || is_lower(octet) || is_digit(octet) || octet == b'-'
}

/// Whether the octet may be in a Rust identifier: a letter, a digit or `_`.
pub fn is_word_octet(octet: u8) -> bool
    ensures { result ≡ is_word_octet octet }
{
    is_upper(octet) || is_lower(octet) || is_digit(octet) || octet == b'_'
}

/// Whether the octet is white space: a space or one of the octets 9 to 13.
pub fn is_space(octet: u8) -> bool
    ensures { result ≡ is_space octet }
{
    (9 <= octet && octet <= 13) || octet == b' '
}
