//! Contents octets of a GeneralizedTime.

use crate::moment::{Moment, minutes, put_two, two_at};
use schema_rules::digit_count;
use std::alloc::{AllocError, Global};

/// Rewrites the contents octets of a GeneralizedTime from BER to DER (X.690 11.7). The result is in
/// UTC, and has seconds. If it has a fraction of a second, the fraction does not end in 0. The
/// contents stay as they are in these cases:
///
/// - The time has no zone.
/// - The year is written as `0000`.
/// - In UTC, the time is after the year 9999.
pub(crate) fn generalized_time(alloc: Global, contents: &[u8]) -> Result<Vec<u8>, AllocError> {
    let count = digit_count(contents);
    let (time, after) = split(contents, count);
    let mut fraction = fraction_of(alloc, after)?;
    let (_, zone) = split(
        after,
        fraction.len().saturating_add(is_marked(after) as usize),
    );
    let minute = if count < 12 {
        shifted(fraction.as_mut_slice())
    } else {
        two_at(time, 10)
    };
    let second = if count < 14 {
        shifted(fraction.as_mut_slice())
    } else {
        two_at(time, 12)
    };
    let written = Moment {
        year: year_of(time),
        month: two_at(time, 4),
        day: two_at(time, 6),
        minute: minutes(two_at(time, 8), minute),
    };
    let moment = written.in_utc(zone);
    if zone.is_empty() || moment.year > 9999 || written.year == 0 {
        return contents.to_vec(alloc);
    }
    time_octets(alloc, moment, second, fraction.as_slice())
}

fn year_of(time: &[u8]) -> u32 {
    two_at(time, 0)
        .saturating_mul(100)
        .saturating_add(two_at(time, 2))
}

// The octets before an index, and the others.
fn split(octets: &[u8], at: usize) -> (&[u8], &[u8]) {
    octets.split_at(at.min(octets.len()))
}

// Whether a fraction begins.
fn is_marked(octets: &[u8]) -> bool {
    matches!(octets, [b'.' | b',', ..])
}

// The digits of the fraction at the front.
fn fraction_of(alloc: Global, octets: &[u8]) -> Result<Vec<u8>, AllocError> {
    if !is_marked(octets) {
        return Ok(Vec::new(alloc));
    }
    let (_, digits) = split(octets, 1);
    let (fraction, _) = split(digits, digit_count(digits));
    fraction.to_vec(alloc)
}

// The whole part of sixty times a fraction, which is replaced by the rest.
fn shifted(fraction: &mut [u8]) -> u32 {
    let mut carry = 0u32;
    for digit in fraction.iter_mut().rev() {
        let number = (digit.saturating_sub(b'0') as u32)
            .saturating_mul(60)
            .saturating_add(carry);
        *digit = b'0'.saturating_add((number % 10) as u8);
        carry = number / 10;
    }
    carry
}

// The octets of a time under DER.
fn time_octets(
    alloc: Global,
    moment: Moment,
    second: u32,
    fraction: &[u8],
) -> Result<Vec<u8>, AllocError> {
    let mut out = Vec::new(alloc);
    put_two(&mut out, moment.year / 100)?;
    put_two(&mut out, moment.year % 100)?;
    moment.put(&mut out)?;
    put_two(&mut out, second)?;
    let digits = shortened(fraction);
    if !digits.is_empty() {
        out.push(b'.')?;
        out.extend_from_slice(digits)?;
    }
    out.push(b'Z')?;
    Ok(out)
}

// Digits without zeros at the end.
fn shortened(digits: &[u8]) -> &[u8] {
    let mut short = digits;
    'zeros: while let [before @ .., b'0'] = short {
        short = before;
    }
    short
}
