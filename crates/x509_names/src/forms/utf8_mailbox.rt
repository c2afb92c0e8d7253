//! Mailboxes in UTF-8 (RFC 6531; RFC 9598).
ghost use Rattle.std.specs.Prelude.{◌≡◌, ◌↔◌, ◌<◌, EachIndex, IsUtf8, length, IsTrue};
ghost use Rattle.x509_names.specs.Comparable.{FitsUtf8Local, HasUtf8AtomsAt, IsUtf8HostMailbox, IsUtf8Local, is_utf8_atom_octet};

use crate::forms::comparable::is_plain_host;
use crate::forms::host_name::is_between;
use crate::forms::mailbox::last_at;
use crate::forms::mailbox_syntax::is_atom_octet;
use crate::forms::rest::{front, rest};

/// Whether the octets are a mailbox in UTF-8 at a host, as a SmtpUTF8Mailbox has it (RFC 9598, 3):
/// atoms with dots between them, an @, and a host name in ASCII. An atom may have characters beyond
/// ASCII. False if the local part is in quotation marks, or the host is an address.
pub fn is_utf8_host_mailbox(octets: &[u8]) -> bool
    ensures { IsTrue result ↔ IsUtf8HostMailbox octets.now }
{
    match last_at(octets) {
        Some(at) => has_utf8_atoms_at(octets, at),
        None => false,
    }
}

fn has_utf8_atoms_at(octets: &[u8], at: usize) -> bool
    requires { at < length octets.now }
    ensures { IsTrue result ↔ HasUtf8AtomsAt octets.now at }
{
    is_utf8_local(front(octets, at)) && is_plain_host(rest(octets, at + 1))
}

fn is_utf8_local(octets: &[u8]) -> bool
    ensures { IsTrue result ↔ IsUtf8Local octets.now }
{
    !octets.is_empty() && are_utf8_atoms(octets)
}

fn are_utf8_atoms(octets: &[u8]) -> bool
    ensures { IsTrue result ↔ (IsUtf8 octets.now
        × EachIndex octets.now (λ k. FitsUtf8Local octets.now k)) }
{
    is_utf8(octets) && all_fit(octets)
}

fn is_utf8(octets: &[u8]) -> bool
    ensures { IsTrue result ↔ IsUtf8 octets.now }
{
    match std::str::from_utf8(octets) {
        Ok(_text) => true,
        Err(_error) => false,
    }
}

fn all_fit(octets: &[u8]) -> bool
    ensures { IsTrue result ↔ EachIndex octets.now (λ k. FitsUtf8Local octets.now k) }
{
    for at in 0..octets.len() {
        if !fits_utf8_local(octets, at) {
            return false;
        }
    }
    true
}

fn fits_utf8_local(octets: &[u8], at: usize) -> bool
    requires { at < length octets.now }
    ensures { IsTrue result ↔ FitsUtf8Local octets.now at }
{
    is_utf8_atom_octet(octets[at]) || octets[at] == b'.' && is_between(octets, at)
}

fn is_utf8_atom_octet(octet: u8) -> bool
    ensures { result ≡ is_utf8_atom_octet octet }
{
    is_atom_octet(octet) || 127 < octet
}
