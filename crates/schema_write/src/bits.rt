//! Contents octets of a BIT STRING.
ghost use Rattle.std.specs.Prelude.{◌≡◌, ◌≤◌, ◌<◌, ◌+◌, ◌-◌, ◌%◌, ◌^◌, ℕ, true, false, IfOk, length};
ghost use Rattle.schema_rules.specs.Characters.{AreZeroFrom};
ghost use Rattle.der_asn1.specs.NamedBits.{bit_count, has_bit};
ghost use Rattle.schema_write.specs.SameBits.{AreSameBits, HasFirstBits};

use schema_rules::{bit_count, has_bit};
use std::alloc::{AllocError, Global};

/// Rewrites the contents octets of a BIT STRING from BER to DER. Unused bits are set to 0 (X.690
/// 11.2.1). If `names` is not 0, the bits have names, and zero bits at the end are removed (X.690
/// 11.2.2).
pub(crate) fn put_bits(alloc: Global, names: u32, contents: &[u8]) -> Result<Vec<u8>, AllocError>
    ensures { IfOk result (λ v. AreSameBits names contents.now v.items) }
{
    if names == 0 {
        first_bits(alloc, contents, bit_count(contents))
    } else {
        first_bits(alloc, contents, count_to_last_one(contents))
    }
}

// The number of bits without zero bits at the end.
fn count_to_last_one(contents: &[u8]) -> u128
    ensures there { result ≤ bit_count contents.now }
    ensures zero { AreZeroFrom result contents.now }
{
    let mut count = bit_count(contents);
    while count > 0 && !has_bit(contents, count - 1) {
        count -= 1;
    }
    count
}

// A BIT STRING of the first bits of another one.
fn first_bits(alloc: Global, contents: &[u8], count: u128) -> Result<Vec<u8>, AllocError>
    requires { count ≤ bit_count contents.now }
    ensures { IfOk result (λ v. HasFirstBits count contents.now v.items) }
{
    if count == 0 {
        return [0u8].to_vec(alloc);
    }
    let whole = ((count - 1) / 8) as usize;
    let unused = (7 - (count - 1) % 8) as u8;
    let mut out = Vec::with_capacity(alloc, contents.len())?;
    out.push(unused)?;
    out.extend_from_slice(&contents[1..1 + whole])?;
    out.push(without_low_bits(contents[1 + whole], unused))?;
    Ok(out)
}

// An octet whose last bits, so many of them, are zero.
fn without_low_bits(octet: u8, count: u8) -> u8
    requires { count < 8 }
    ensures { result ≡ octet - octet % 2 ^ count }
{
    octet - octet % unit(count)
}

// The bit with this number, alone.
fn unit(number: u8) -> u8
    requires { number < 8 }
    ensures value { result ≡ 2 ^ number }
    ensures some { 0 < result }
{
    match number {
        0 => 1,
        1 => 2,
        2 => 4,
        3 => 8,
        4 => 16,
        5 => 32,
        6 => 64,
        _ => 128,
    }
}
