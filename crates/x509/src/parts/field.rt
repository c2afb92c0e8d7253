//! The octets of one field of a SEQUENCE, as a part of the octets of the SEQUENCE.
ghost use Rattle.std.specs.Prelude.{◌≡◌, ◌<◌, ◌^◌, ◌++◌, ℕ, List, length};
ghost use Rattle.der.specs.Prelude.{Sequence, element_octets, header_octets};

use der::Encode;

/// The encoding of the first field of a SEQUENCE, as a part of `octets`. `octets` must be the whole
/// encoding of the SEQUENCE. `rest` must be all fields after the first one.
pub fn first_field<'a, T: Encode, U: Encode>(octets: &'a [u8], _first: &T, rest: &U) -> &'a [u8]
    requires whole { octets.now
        ≡ element_octets Sequence (T.encoding _first.now ++ U.encoding rest.now) }
    requires short { length octets.now < 2 ^ 32 }
    requires rest { U.encodable rest.now }
    ensures { result.now ≡ T.encoding _first.now }
{
    let start = header_count(octets);
    let end = octets.len() - count_of(rest);
    &octets[start..end]
}

/// The encoding of the field `value` of a SEQUENCE, as a part of `octets`. `octets` must be the
/// whole encoding of the SEQUENCE. The SEQUENCE must consist of the fields of `_first`, then
/// `value`, then the fields of `rest`.
pub fn field_between<'a, F: Encode, T: Encode, U: Encode>(
    octets: &'a [u8],
    _first: &F,
    value: &T,
    rest: &U,
) -> &'a [u8]
    requires whole { octets.now ≡ element_octets Sequence
        (F.encoding _first.now ++ (T.encoding value.now ++ U.encoding rest.now)) }
    requires short { length octets.now < 2 ^ 32 }
    requires value { T.encodable value.now }
    requires rest { U.encodable rest.now }
    ensures { result.now ≡ T.encoding value.now }
{
    part_before(octets, value, rest)
}

/// The encoding of the field `value` of a SEQUENCE, as a part of `octets`. `octets` must be the
/// whole encoding of the SEQUENCE. The SEQUENCE must consist of the fields of `_first`, the fields
/// of `_second`, then `value`, then the fields of `rest`.
pub fn field_in_middle<'a, F: Encode, S: Encode, T: Encode, U: Encode>(
    octets: &'a [u8],
    _first: &F,
    _second: &S,
    value: &T,
    rest: &U,
) -> &'a [u8]
    requires whole { octets.now ≡ element_octets Sequence (F.encoding _first.now
        ++ (S.encoding _second.now ++ (T.encoding value.now ++ U.encoding rest.now))) }
    requires short { length octets.now < 2 ^ 32 }
    requires value { T.encodable value.now }
    requires rest { U.encodable rest.now }
    ensures { result.now ≡ T.encoding value.now }
{
    part_before(octets, value, rest)
}

// The octets of a value before `rest`, with which `octets` end.
fn part_before<'a, T: Encode, U: Encode>(octets: &'a [u8], value: &T, rest: &U) -> &'a [u8]
    requires ends { (front : List ℕ)
        × (octets.now ≡ front ++ (T.encoding value.now ++ U.encoding rest.now)) }
    requires short { length octets.now < 2 ^ 32 }
    requires value { T.encodable value.now }
    requires rest { U.encodable rest.now }
    ensures { result.now ≡ T.encoding value.now }
{
    let count = count_of(value);
    let end = octets.len() - count_of(rest);
    &octets[end - count..end]
}

// The number of octets of the header with which the encoding of a SEQUENCE begins.
fn header_count(octets: &[u8]) -> usize
    ensures { (n : ℕ) (more : List ℕ) → octets.now ≡ header_octets Sequence n ++ more
        → result ≡ length (header_octets Sequence n) }
{
    match octets {
        [_, length, ..] => {
            if *length < 0x80 {
                2
            } else {
                2 + (*length - 0x80) as usize
            }
        }
        _ => 0,
    }
}

// The number of octets of the encoding of a value.
fn count_of<T: Encode>(value: &T) -> usize
    requires encodable { T.encodable value.now }
    requires short { length (T.encoding value.now) < 2 ^ 32 }
    ensures { result ≡ length (T.encoding value.now) }
{
    match value.encoded_len() {
        Ok(length) => u32::from(length) as usize,
        Err(_) => unreachable!(),
    }
}
