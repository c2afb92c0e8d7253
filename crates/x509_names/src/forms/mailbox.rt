//! Comparison of mailboxes. Local parts are compared octet by octet. Hosts are compared ignoring
//! the case of ASCII letters.
ghost use Rattle.std.specs.Prelude.{◌↔◌, ◌<◌, length, IfNone, IfSome, IsTrue};
ghost use Rattle.x509_names.specs.Mailboxes.{HasMailbox, HasNoAt, IsLastAt, IsMailWithin, IsSameAt, MailboxesMatch};

use crate::forms::host::{is_host_within, is_same_host};
use crate::forms::rest::rest;

/// Whether two mailboxes are the same (RFC 5280, 7.5). Local parts are compared octet by octet, and
/// hosts are compared ignoring the case of ASCII letters. The host is what follows the last @.
/// False if one of the two mailboxes has no @.
pub fn mailboxes_match(first: &[u8], second: &[u8]) -> bool
    ensures { IsTrue result ↔ MailboxesMatch first.now second.now }
{
    match last_at(first) {
        Some(at) => match last_at(second) {
            Some(place) => is_same_at(first, at, second, place),
            None => false,
        },
        None => false,
    }
}

// Whether two mailboxes with an @ at these places are the same.
fn is_same_at(first: &[u8], at: usize, second: &[u8], place: usize) -> bool
    requires first { at < length first.now }
    requires second { place < length second.now }
    ensures { IsTrue result ↔ IsSameAt first.now at second.now place }
{
    first[..at] == second[..place] && is_same_host(rest(first, at + 1), rest(second, place + 1))
}

/// Whether the mailbox `name` is within the constraint `base` of an rfc822Name (RFC 5280,
/// 4.2.1.10). False if `name` has no @. The constraint may be:
///
/// - a mailbox, which has an @: `name` must be the same mailbox;
/// - a dot and a domain: the host of `name` must be in the domain;
/// - a host: the host of `name` must be this host.
pub fn is_mail_within(base: &[u8], name: &[u8]) -> bool
    ensures { IsTrue result ↔ IsMailWithin base.now name.now }
{
    if last_at(base).is_some() {
        return mailboxes_match(name, base);
    }
    match last_at(name) {
        Some(at) => is_host_within(base, rest(name, at + 1)),
        None => false,
    }
}

/// Whether the octets have an @. Octets without an @ cannot be compared as a mailbox.
pub fn has_mailbox(octets: &[u8]) -> bool
    ensures { IsTrue result ↔ HasMailbox octets.now }
{
    last_at(octets).is_some()
}

/// The index of the last @, counted from 0; `None` if there is no @.
pub(crate) fn last_at(octets: &[u8]) -> Option<usize>
    ensures some { IfSome result (IsLastAt octets.now) }
    ensures none { IfNone result (HasNoAt octets.now) }
{
    let mut last = None;
    for at in 0..octets.len() {
        if octets[at] == b'@' {
            last = Some(at);
        }
    }
    last
}
