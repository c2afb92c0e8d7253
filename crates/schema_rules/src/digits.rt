//! Digits in texts.
ghost use Rattle.std.specs.Prelude.{◌≡◌, ◌≤◌, length};
ghost use Rattle.schema_rules.specs.Digits.{is_digit, digit_count, after_digits, are_digits};

/// Whether the octet is a decimal digit of ASCII.
pub fn is_digit(octet: u8) -> bool
    ensures { result ≡ is_digit octet }
{
    b'0' <= octet && octet <= b'9'
}

/// How many decimal digits the octets begin with.
pub fn digit_count(octets: &[u8]) -> usize
    ensures count { result ≡ digit_count octets.now }
    ensures within { result ≤ length octets.now }
{
    let mut count = 0;
    while count < octets.len() && is_digit(octets[count]) {
        count += 1;
    }
    count
}

/// The octets from the first one that is no decimal digit.
pub fn after_digits(octets: &[u8]) -> &[u8]
    ensures { result.now ≡ after_digits octets.now }
{
    &octets[digit_count(octets)..]
}

// Whether the octets are `count` digits and nothing else.
pub(crate) fn are_digits(octets: &[u8], count: usize) -> bool
    ensures { result ≡ are_digits count octets.now }
{
    octets.len() == count && digit_count(octets) == count
}
