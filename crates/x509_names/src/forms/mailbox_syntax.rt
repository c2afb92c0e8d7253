//! The syntax of mailboxes (RFC 5321, 4.1.2).
ghost use Rattle.std.specs.Prelude.{◌≡◌, ◌↔◌, ◌<◌, ◌≤◌, ◌-◌, EachIndex, length, drop, take, IsTrue};
ghost use Rattle.x509_names.specs.Mailboxes.{AreQuoted, FitsLocal, FitsQuoted, HasPartsAt, HasQuotes, IsDotString, IsLocalPart, IsMailbox, IsMailDomain, IsQuotedString, is_atom_octet};

use crate::forms::host_name::{is_alphanumeric, is_between, is_host};
use crate::forms::mailbox::last_at;
use crate::forms::rest::{front, rest};

/// Whether the octets are a mailbox: a local part, an @, and a domain (RFC 5280, 4.2.1.6). A
/// phrase, a comment and angle brackets are not accepted. If the domain is an address in square
/// brackets, the syntax of the address is not checked.
pub fn is_mailbox(octets: &[u8]) -> bool
    ensures { IsTrue result ↔ IsMailbox octets.now }
{
    match last_at(octets) {
        Some(at) => has_parts_at(octets, at),
        None => false,
    }
}

fn has_parts_at(octets: &[u8], at: usize) -> bool
    requires { at < length octets.now }
    ensures { IsTrue result ↔ HasPartsAt octets.now at }
{
    is_local_part(front(octets, at)) && is_mail_domain(rest(octets, at + 1))
}

// Whether the octets are atoms with dots between them, or text in quotation marks.
fn is_local_part(octets: &[u8]) -> bool
    ensures { IsTrue result ↔ IsLocalPart octets.now }
{
    is_dot_string(octets) || is_quoted_string(octets)
}

pub(crate) fn is_dot_string(octets: &[u8]) -> bool
    ensures { IsTrue result ↔ IsDotString octets.now }
{
    !octets.is_empty() && all_local(octets)
}

fn all_local(octets: &[u8]) -> bool
    ensures { IsTrue result ↔ EachIndex octets.now (λ k. FitsLocal octets.now k) }
{
    for at in 0..octets.len() {
        if !fits_local(octets, at) {
            return false;
        }
    }
    true
}

fn fits_local(octets: &[u8], at: usize) -> bool
    requires { at < length octets.now }
    ensures { IsTrue result ↔ FitsLocal octets.now at }
{
    is_atom_octet(octets[at]) || octets[at] == b'.' && is_between(octets, at)
}

fn is_quoted_string(octets: &[u8]) -> bool
    ensures { IsTrue result ↔ IsQuotedString octets.now }
{
    has_quotes(octets) && is_inside_quoted(octets)
}

fn is_inside_quoted(octets: &[u8]) -> bool
    requires { 2 ≤ length octets.now }
    ensures { IsTrue result
        ↔ AreQuoted (take (length octets.now - 2) (drop 1 octets.now)) }
{
    all_quoted(front(rest(octets, 1), octets.len() - 2))
}

fn has_quotes(octets: &[u8]) -> bool
    ensures { IsTrue result ↔ HasQuotes octets.now }
{
    octets.len() > 1 && octets[0] == b'"' && octets[octets.len() - 1] == b'"'
}

fn all_quoted(octets: &[u8]) -> bool
    ensures { IsTrue result ↔ AreQuoted octets.now }
{
    for at in 0..octets.len() {
        if !fits_quoted(octets, at) {
            return false;
        }
    }
    true
}

fn fits_quoted(octets: &[u8], at: usize) -> bool
    requires { at < length octets.now }
    ensures { IsTrue result ↔ FitsQuoted octets.now at }
{
    let octet = octets[at];
    if octet < 32 || octet > 126 {
        return false;
    }
    octet != b'"' || at > 0 && octets[at - 1] == b'\\'
}

fn is_mail_domain(octets: &[u8]) -> bool
    ensures { IsTrue result ↔ IsMailDomain octets.now }
{
    if is_host(octets) {
        return true;
    }
    octets.len() > 2 && octets[0] == b'[' && octets[octets.len() - 1] == b']'
}

// An octet of an atom (RFC 5322, 3.2.3).
pub(crate) fn is_atom_octet(octet: u8) -> bool
    ensures { result ≡ is_atom_octet octet }
{
    is_alphanumeric(octet)
        || octet == b'!'
        || 34 < octet && octet < 40
        || octet == b'*'
        || octet == b'+'
        || octet == b'-'
        || octet == b'/'
        || octet == b'='
        || octet == b'?'
        || 93 < octet && octet < 97
        || 122 < octet && octet < 127
}
