//! Bounds of INTEGERs.
ghost use Rattle.std.specs.Prelude.{◌≡◌, ◌^◌, ◌<◌, ◌↔◌, IsTrue, map, pos, negsuc, if◌then◌else◌};
ghost use Rattle.std.specs.Int.Digits.{number_from_digits};
ghost use Rattle.std.specs.Option.{SomeIff};
ghost use Rattle.der_asn1.specs.Integer.{is_negative, turned};
ghost use Rattle.schema_rules.specs.Values.{integer_value, IsInRange};

/// Whether a number is between `low` and `high`, both included. `contents` are the contents octets
/// of an INTEGER or ENUMERATED, of any length. If `contents` is empty, the number is 0.
///
/// - If `low` is the least `i64`, there is no lower bound (MIN).
/// - If `high` is the greatest `i64`, there is no upper bound. It stands for MAX, and for each
///   bound above it.
pub fn is_in_range(contents: &[u8], low: i64, high: i64) -> bool
    ensures { IsTrue result ↔ IsInRange low high (integer_value contents.now) }
{
    let negative = is_negative(contents);
    match magnitude_of(negative, contents) {
        Some(magnitude) => is_between(signed(negative, magnitude), low, high),
        None if negative => low == i64::MIN,
        None => high == i64::MAX,
    }
}

// The number with this magnitude, which is that of -1 - number if `negative`.
fn signed(negative: bool, magnitude: u64) -> i64
    requires { magnitude < 2 ^ 63 }
    ensures { result ≡ (if negative then negsuc magnitude else pos magnitude) }
{
    if negative {
        -1 - magnitude as i64
    } else {
        magnitude as i64
    }
}

// Whether the number is between the bounds.
fn is_between(number: i64, low: i64, high: i64) -> bool
    ensures { IsTrue result ↔ IsInRange low high number }
{
    low <= number && number <= high
}

// Whether the first bit is one.
fn is_negative(octets: &[u8]) -> bool
    ensures { result ≡ is_negative octets.now }
{
    match octets {
        [] => false,
        [first, ..] => *first >= 0x80,
    }
}

// The octets as a number in base 256, with all bits inverted if `negative`; `None` from 2^63 on.
fn magnitude_of(negative: bool, octets: &[u8]) -> Option<u64>
    ensures { SomeIff result
        (number_from_digits 256 (map (turned negative) octets.now) < 2 ^ 63)
        (number_from_digits 256 (map (turned negative) octets.now)) }
{
    let mut number: u64 = 0;
    for octet in octets {
        if number >= 0x80_0000_0000_0000 {
            return None;
        }
        number = number * 256 + turned_octet(negative, *octet) as u64;
    }
    Some(number)
}

// The octet, with all bits inverted if `negative`.
fn turned_octet(negative: bool, octet: u8) -> u8
    ensures { result ≡ turned negative octet }
{
    if negative { 255 - octet } else { octet }
}
