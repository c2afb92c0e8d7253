//! Decodes the table of types, which is stored as hexadecimal digits.

use crate::table::TABLE;
use std::alloc::{AllocError, Global};

/// A size of memory that is enough for [`put_table`] to write the whole table of types.
pub const TABLE_ROOM: usize = TABLE.len() / 2;

/// Decodes the table of types into allocated memory. Fails if an allocation fails.
pub fn table_octets(alloc: Global) -> Result<Vec<u8>, AllocError> {
    let mut octets = vec![in alloc; 0u8; TABLE_ROOM]?;
    let count = put_table(octets.as_mut_slice());
    octets.truncate(count);
    Ok(octets)
}

/// Decodes the table of types into `octets`. Writes as many octets of the table as fit, and returns
/// their number.
pub fn put_table(octets: &mut [u8]) -> usize {
    let mut rest = TABLE.as_bytes();
    let mut count = 0usize;
    for place in octets {
        if let [b'\n', after @ ..] = rest {
            rest = after;
        }
        let [high, low, after @ ..] = rest else {
            break;
        };
        *place = digit_value(*high) << 4 | digit_value(*low) & 15;
        count = count.saturating_add(1);
        rest = after;
    }
    count
}

fn digit_value(digit: u8) -> u8 {
    match digit {
        b'0'..=b'9' => digit.wrapping_sub(b'0'),
        _ => digit.wrapping_sub(b'a').wrapping_add(10),
    }
}
