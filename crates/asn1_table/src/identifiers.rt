//! Contents octets of OBJECT IDENTIFIERs.
ghost use Rattle.std.specs.Prelude.{◌≡◌, ◌<◌, ◌%◌};

use std::alloc::{AllocError, Global};

/// The contents octets of the OBJECT IDENTIFIER with these arcs (X.690, 8.19). The first two arcs
/// become one number, and each number is encoded in groups of seven bits. Empty if there are fewer
/// than two arcs.
pub fn oid_octets(alloc: Global, arcs: &Vec<u64>) -> Result<Vec<u8>, AllocError> {
    let mut octets = Vec::new(alloc);
    if let [first, second, rest @ ..] = arcs.as_slice() {
        push_number(&mut octets, 40 * u128::from(*first) + u128::from(*second))?;
        for arc in rest {
            push_number(&mut octets, u128::from(*arc))?;
        }
    }
    Ok(octets)
}

/// The greatest number of groups of seven bits that a number has. The number 41 times
/// 18446744073709551615 has as many groups.
const GROUPS: u32 = 11;

fn push_number(octets: &mut Vec<u8>, number: u128) -> Result<(), AllocError> {
    for count in 1..GROUPS {
        let rest = number >> (7 * (GROUPS - count));
        if rest > 0 {
            octets.push(group(rest) + 128)?;
        }
    }
    octets.push(group(number))?;
    Ok(())
}

// The lowest seven bits of a number.
fn group(number: u128) -> u8
    ensures small { result < 128 }
    ensures same { result ≡ number % 128 }
{
    (number % 128) as u8
}
