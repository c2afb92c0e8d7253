//! IP addresses and ranges of IP addresses.
ghost use Rattle.std.specs.Prelude.{◌≡◌, ◌↔◌, ◌*◌, ◌+◌, ◌<◌, EachIndex, bit_and, length, slice_index, IsTrue};
ghost use Rattle.x509_names.specs.Addresses.{FitsMask, IsAddress, IsAddressWithin, IsCidrRange, IsMask, IsRange, is_mask_octet};

use crate::forms::rest::rest;

/// Whether the octets have the length of an IP address: 4 octets for IPv4, or 16 for IPv6.
pub fn is_address(octets: &[u8]) -> bool
    ensures { IsTrue result ↔ IsAddress octets.now }
{
    octets.len() == 4 || octets.len() == 16
}

/// Whether the octets have the length of a range of IP addresses, which is an address and a mask: 8
/// octets for IPv4, or 32 for IPv6.
pub fn is_range(octets: &[u8]) -> bool
    ensures { IsTrue result ↔ IsRange octets.now }
{
    octets.len() == 8 || octets.len() == 32
}

/// Whether the octets are a range of IP addresses in the style of RFC 4632 (RFC 5280, 4.2.1.10): an
/// address and a mask, whose one bits are all before its zero bits.
pub fn is_cidr_range(octets: &[u8]) -> bool
    ensures { IsTrue result ↔ IsCidrRange octets.now }
{
    is_range(octets) && is_mask(rest(octets, octets.len() / 2))
}

fn is_mask(mask: &[u8]) -> bool
    ensures { IsTrue result ↔ IsMask mask.now }
{
    for at in 0..mask.len() {
        if !fits_mask(mask, at) {
            return false;
        }
    }
    true
}

// Whether the octet at a place has ones and then zeros, and after a zero no one follows.
fn fits_mask(mask: &[u8], at: usize) -> bool
    requires { at < length mask.now }
    ensures { IsTrue result ↔ FitsMask mask.now at }
{
    is_mask_octet(mask[at]) && (mask[at] == 255 || mask.len() - at == 1 || mask[at + 1] == 0)
}

fn is_mask_octet(octet: u8) -> bool
    ensures { result ≡ is_mask_octet octet }
{
    octet == 0
        || octet == 128
        || octet == 192
        || octet == 224
        || octet == 240
        || octet == 248
        || octet == 252
        || octet == 254
        || octet == 255
}

/// Whether the address `name` is within the range `base` (RFC 5280, 4.2.1.10). A range is an
/// address and a mask of the same length. `name` must equal the address of the range in all bits
/// that are one in the mask. The mask may have zero bits before one bits. False if `base` does not
/// have twice as many octets as `name`.
pub fn is_address_within(base: &[u8], name: &[u8]) -> bool
    ensures { IsTrue result ↔ IsAddressWithin base.now name.now }
{
    if base.len() % 2 != 0 || base.len() / 2 != name.len() {
        return false;
    }
    for at in 0..name.len() {
        let mask = base[at + name.len()];
        if name[at] & mask != base[at] & mask {
            return false;
        }
    }
    true
}
