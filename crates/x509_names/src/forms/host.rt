//! Comparison of host names. The case of ASCII letters is ignored.
ghost use Rattle.std.specs.Prelude.{◌≡◌, ◌↔◌, ◌<◌, ◌∷◌, true, EachIndex, SomeIndex, length, slice_index, IsTrue};
ghost use Rattle.x509_names.specs.Hosts.{begins_with_dot, HasBefore, HasMoreLabels, IsBelowHost, IsDomainName, IsHostWithin, IsSameHost, is_host_octet, is_letter};

use crate::forms::rest::rest;

/// Whether two host names are the same, ignoring the case of ASCII letters (RFC 5280, 7.2).
pub fn is_same_host(first: &[u8], second: &[u8]) -> bool
    ensures { IsTrue result ↔ IsSameHost first.now second.now }
{
    first.eq_ignore_ascii_case(second)
}

/// Whether the dNSName `name` is within the constraint `base` (RFC 5280, 4.2.1.10), ignoring the
/// case of ASCII letters. This is the case if:
///
/// - `base` is empty;
/// - `name` is equal to `base`; or
/// - `name` ends with a dot and `base`, and has at least one octet before the dot.
///
/// The RFC does not define the meaning of a constraint that begins with a dot. This function
/// decides that `name` is within it if `name` is equal to it, or ends with it and is longer.
pub fn is_below_host(base: &[u8], name: &[u8]) -> bool
    ensures { IsTrue result ↔ IsBelowHost base.now name.now }
{
    is_same_host(name, base) || has_more_labels(base, name)
}

// Whether a name ends with a base, has a dot before it, and more octets before the dot. Each name
// does so with a base without octets.
pub(crate) fn has_more_labels(base: &[u8], name: &[u8]) -> bool
    ensures { IsTrue result ↔ HasMoreLabels base.now name.now }
{
    if base.is_empty() {
        return true;
    }
    if begins_with_dot(base) {
        has_before(base, name)
    } else {
        has_labels_before(base, name)
    }
}

/// Whether the host `name` of a URI or of a mailbox is within the constraint `base` (RFC 5280,
/// 4.2.1.10), ignoring the case of ASCII letters. If `base` begins with a dot, it is a domain:
/// `name` must end with `base`, and be longer than it. Otherwise `base` is a host: `name` must be
/// equal to it.
pub fn is_host_within(base: &[u8], name: &[u8]) -> bool
    ensures { IsTrue result ↔ IsHostWithin base.now name.now }
{
    if begins_with_dot(base) {
        has_before(base, name)
    } else {
        is_same_host(name, base)
    }
}

pub(crate) fn begins_with_dot(octets: &[u8]) -> bool
    ensures { result ≡ begins_with_dot octets.now }
{
    match octets {
        [first, ..] => *first == b'.',
        [] => false,
    }
}

// Whether a name ends with these octets, and has more before them.
pub(crate) fn has_before(end: &[u8], name: &[u8]) -> bool
    ensures { IsTrue result ↔ HasBefore end.now name.now }
{
    name.len() > end.len() && is_same_host(rest(name, name.len() - end.len()), end)
}

// Whether a name ends with a dot and these octets, and has more before the dot.
fn has_labels_before(end: &[u8], name: &[u8]) -> bool
    ensures { IsTrue result ↔ HasBefore (46 ∷ end.now) name.now }
{
    if name.len() < 2 || name.len() - 2 < end.len() {
        return false;
    }
    let at = name.len() - end.len();
    name[at - 1] == b'.' && is_same_host(rest(name, at), end)
}

/// Whether all octets are ASCII letters, digits, hyphens and dots, and at least one of them is a
/// letter. False for an IPv4 address, which has no letter.
pub fn is_domain_name(octets: &[u8]) -> bool
    ensures { IsTrue result ↔ IsDomainName octets.now }
{
    are_of_host(octets) && has_letter(octets)
}

fn are_of_host(octets: &[u8]) -> bool
    ensures { IsTrue result
        ↔ EachIndex octets.now (λ k. is_host_octet (slice_index octets.now k) ≡ true) }
{
    for at in 0..octets.len() {
        if !is_host_octet(octets[at]) {
            return false;
        }
    }
    true
}

fn has_letter(octets: &[u8]) -> bool
    ensures { IsTrue result
        ↔ SomeIndex octets.now (λ k. is_letter (slice_index octets.now k) ≡ true) }
{
    for at in 0..octets.len() {
        if is_letter(octets[at]) {
            return true;
        }
    }
    false
}

pub(crate) fn is_letter(octet: u8) -> bool
    ensures { result ≡ is_letter octet }
{
    64 < octet && octet < 91 || 96 < octet && octet < 123
}

// A letter, a digit, a hyphen or a dot.
fn is_host_octet(octet: u8) -> bool
    ensures { result ≡ is_host_octet octet }
{
    is_letter(octet) || 47 < octet && octet < 58 || octet == b'-' || octet == b'.'
}
