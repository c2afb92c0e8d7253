//! Comparing the encodings of two elements, for C.
ghost use Rattle.std.specs.Prelude.{IfOk, IfErr};
ghost use Rattle.der_c_core.specs.CompareCall.{IsOneElement, RefusesWhole, RefusesEither, Compares};

use crate::error::{DerError, c_error};
use der_base::Error;
use der_core::{Reader, SliceReader, decode_header};
use std::cmp::Ordering;

/// Compares the encodings of two elements, `first` and `second`, octet by octet. This is the order
/// in which a SET OF has its elements (X.690 11.6). Sets `order` to -1 if `first` is less than
/// `second`, to 0 if they are equal, and to 1 if `first` is greater than `second`.
///
/// Each of `first` and `second` must be exactly one element under the Distinguished Encoding Rules.
/// `first` is checked before `second`. A call that fails leaves `order` unchanged. Fails with:
///
/// - the errors of `der_read_element`;
/// - `Overflow` without a position, if `first` or `second` has more than 4294967295 octets;
/// - `TrailingData`, if octets follow the element in `first` or `second`.
#[inline(always)]
pub fn der_compare(first: &[u8], second: &[u8], order: &mut i32) -> DerError
    ensures { Compares first.now second.now result order.old order.new }
{
    match both_whole(first, second) {
        Ok(()) => {
            *order = match first.cmp(second) {
                Ordering::Less => -1,
                Ordering::Equal => 0,
                Ordering::Greater => 1,
            };
            DerError::NONE
        }
        Err(error) => c_error(error),
    }
}

// Succeeds if both are exactly one element.
fn both_whole(first: &[u8], second: &[u8]) -> Result<(), Error>
    ensures first { IfOk result (λ _. IsOneElement first.now) }
    ensures second { IfOk result (λ _. IsOneElement second.now) }
    ensures refused { IfErr result (RefusesEither first.now second.now) }
{
    match whole(first) {
        Ok(()) => whole(second),
        Err(error) => Err(error),
    }
}

// Succeeds if the octets are exactly one element.
fn whole(octets: &[u8]) -> Result<(), Error>
    ensures ok { IfOk result (λ _. IsOneElement octets.now) }
    ensures refused { IfErr result (RefusesWhole octets.now) }
{
    let mut reader = match SliceReader::new(octets) {
        Ok(reader) => reader,
        Err(error) => return Err(error),
    };
    let header = match decode_header(&mut reader) {
        Ok(header) => header,
        Err(error) => return Err(error),
    };
    match reader.read_slice(header.length()) {
        Ok(_) => reader.finish(),
        Err(error) => Err(error),
    }
}
