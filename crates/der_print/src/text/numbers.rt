//! Prints octets and numbers.

use crate::text::output::{Output, hex_digit};
use crate::text::target::Target;

/// Prints octets in upper-case hexadecimal.
pub fn put_octets<T: Target>(out: &mut Output<T>, octets: &[u8]) {
    for chunk in octets.chunks(32) {
        put_chunk(out, chunk);
    }
}

// Prints at most 32 octets.
fn put_chunk<T: Target>(out: &mut Output<T>, chunk: &[u8]) {
    let mut digits = [b'0'; 64];
    for (at, octet) in chunk.iter().enumerate() {
        let place = at.saturating_mul(2);
        if let Some(digit) = digits.get_mut(place) {
            *digit = hex_digit(*octet >> 4, true);
        }
        if let Some(digit) = digits.get_mut(place.saturating_add(1)) {
            *digit = hex_digit(*octet & 15, true);
        }
    }
    let count = chunk.len().saturating_mul(2);
    out.put_bytes(digits.get(..count).unwrap_or(&[]));
}

/// Prints octets in hexadecimal, with `:` between two octets. `is_upper` says whether the digits
/// are in upper case.
pub fn put_octets_with<T: Target>(out: &mut Output<T>, octets: &[u8], is_upper: bool) {
    let mut is_first = true;
    for octet in octets {
        if !is_first {
            out.put(":");
        }
        is_first = false;
        out.put_hex(*octet, is_upper);
    }
}

/// Prints the first `most` octets in upper-case hexadecimal. If there are more octets, prints `..`
/// after them.
pub fn put_some_octets<T: Target>(out: &mut Output<T>, octets: &[u8], most: usize) {
    match octets.get(..most) {
        Some(first) if octets.len() > most => {
            put_octets(out, first);
            out.put("..");
        }
        _ => put_octets(out, octets),
    }
}

/// The value of an INTEGER with these contents octets. `None` if the value is negative, or 2^53 or
/// more.
pub fn small_number(octets: &[u8]) -> Option<u64> {
    match octets {
        [] | [0x80..=0xFF, ..] => None,
        _ if octets.len() > 7 => None,
        _ => below_limit(octets),
    }
}

fn below_limit(octets: &[u8]) -> Option<u64> {
    let mut number = 0u64;
    for octet in octets {
        number = number.checked_mul(256)?.checked_add(u64::from(*octet))?;
    }
    if number < 0x20_0000_0000_0000 {
        Some(number)
    } else {
        None
    }
}

/// Prints an INTEGER in hexadecimal. `octets` are the contents octets. A negative number has `-` in
/// front of its absolute value. At least two digits are printed, and no leading zero octets.
pub fn put_integer<T: Target>(out: &mut Output<T>, octets: &[u8]) {
    match octets {
        [0, rest @ ..] if !rest.is_empty() => put_octets(out, rest),
        [0x80..=0xFF, ..] => {
            out.put("-");
            put_magnitude(out, octets);
        }
        _ => put_octets(out, octets),
    }
}

// The magnitude of a negative number in two's complement: the octets after the last one that is not
// zero stay zero, that one is negated, and the ones before it are inverted.
fn put_magnitude<T: Target>(out: &mut Output<T>, octets: &[u8]) {
    let last = octets.iter().rposition(|octet| *octet != 0).unwrap_or(0);
    let mut is_first = true;
    for (at, octet) in octets.iter().enumerate() {
        let digit = if at < last {
            !*octet
        } else {
            octet.wrapping_neg()
        };
        if digit != 0 || !is_first {
            out.put_hex(digit, true);
        }
        is_first = is_first && digit == 0;
    }
}

/// The number of bits of a natural number, not counting leading zero bits. `octets` are the number
/// in base 256, the highest octet first.
pub fn bit_count(octets: &[u8]) -> u64 {
    let mut rest = octets;
    for _ in 0..octets.len() {
        match rest {
            [0, after @ ..] => rest = after,
            _ => break,
        }
    }
    match rest {
        [] => 0,
        [first, others @ ..] => {
            let first_bits = 8u32.saturating_sub(first.leading_zeros());
            (others.len() as u64)
                .saturating_mul(8)
                .saturating_add(u64::from(first_bits))
        }
    }
}
