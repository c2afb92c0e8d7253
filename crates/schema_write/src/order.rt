//! The orders of elements in a SET and in a SET OF.

use ber::read_header;
use der_base::Class;
use std::cmp::Ordering;

/// Compares two encodings in a SET OF (X.690 11.6). The octets are compared one by one. If one
/// encoding is the beginning of the other, it comes first.
pub(crate) fn encoding_order(a: &Vec<u8>, b: &Vec<u8>) -> Ordering {
    a.as_slice().cmp(b.as_slice())
}

/// Compares two encoded components of a SET by their tags (X.690 10.3). Octets that are not an
/// element come first.
pub(crate) fn tag_order(a: &Vec<u8>, b: &Vec<u8>) -> Ordering {
    tag_of(a.as_slice()).cmp(&tag_of(b.as_slice()))
}

// The class and the number of the tag of an element (X.680 8.6).
fn tag_of(octets: &[u8]) -> Option<(Class, u32)> {
    match read_header(octets) {
        Ok(header) => Some((header.class, header.number)),
        Err(_) => None,
    }
}
