//! Contents octets of an INTEGER.

use asn1_syntax::Endpoint;
use std::alloc::{AllocError, Global};

/// The contents octets of an INTEGER (X.690, 8.3): two's complement, in as few octets as possible.
pub fn integer_octets(alloc: Global, number: Endpoint<'_>) -> Result<Vec<u8>, AllocError> {
    match number {
        Endpoint::Number(number) => octets_of(alloc, number, 0),
        Endpoint::Negative(0) => octets_of(alloc, 0, 0),
        Endpoint::Negative(number) => octets_of(alloc, number.saturating_sub(1), 255),
        _ => Ok(Vec::new(alloc)),
    }
}

// The octets of a number, each inverted if `sign` is 255, after an octet `sign` if the first bit
// says otherwise.
fn octets_of(alloc: Global, number: u64, sign: u8) -> Result<Vec<u8>, AllocError> {
    let mut octets = Vec::new(alloc);
    for octet in number.to_be_bytes() {
        let is_leading = octets.is_empty() && octet == 0;
        if !is_leading {
            if octets.is_empty() && octet >= 128 {
                octets.push(sign)?;
            }
            octets.push(octet ^ sign)?;
        }
    }
    if octets.is_empty() {
        octets.push(sign)?;
    }
    Ok(octets)
}
