//! The names and the constraints that can be compared.
ghost use Rattle.std.specs.Prelude.{◌≡◌, ◌↔◌, ◌<◌, length, slice_index, IsTrue};
ghost use Rattle.x509_names.specs.Comparable.{HasAtomsAt, HasPlainHost, IsDomain, IsHostConstraint, IsHostMailbox, IsHostOrDomain, IsHostUri, IsMailConstraint, IsPlainHost, IsUriConstraint};

use crate::forms::host::{begins_with_dot, is_domain_name};
use crate::forms::host_name::is_host;
use crate::forms::mailbox::last_at;
use crate::forms::mailbox_syntax::is_dot_string;
use crate::forms::rest::{front, rest};
use crate::forms::uri::{has_domain_name, host_of};
use crate::forms::uri_syntax::is_uri;

/// Whether the octets are a host name without an asterisk, or an IPv4 address in dotted notation.
/// The lengths of the name and of its labels are not limited.
pub fn is_plain_host(octets: &[u8]) -> bool
    ensures { IsTrue result ↔ IsPlainHost octets.now }
{
    !begins_with_asterisk(octets) && is_host(octets)
}

fn begins_with_asterisk(octets: &[u8]) -> bool
    ensures { IsTrue result ↔ (slice_index octets.now 0 ≡ 42) }
{
    !octets.is_empty() && octets[0] == b'*'
}

// Whether the octets are a dot, and a host name after it.
fn is_domain(octets: &[u8]) -> bool
    ensures { IsTrue result ↔ IsDomain octets.now }
{
    begins_with_dot(octets) && is_plain_host(rest(octets, 1))
}

/// Whether the octets are a host name without an asterisk, or a dot and such a host name after it.
/// With the dot, a constraint has all hosts in the domain (RFC 5280, 4.2.1.10).
pub fn is_host_or_domain(octets: &[u8]) -> bool
    ensures { IsTrue result ↔ IsHostOrDomain octets.now }
{
    is_plain_host(octets) || is_domain(octets)
}

/// Whether the octets are a constraint with which a dNSName can be compared (RFC 5280, 4.2.1.10): a
/// host name, a dot and a host name, or no octets. Each name is within a constraint without octets,
/// because it is made by adding labels on the left of nothing.
pub fn is_host_constraint(octets: &[u8]) -> bool
    ensures { IsTrue result ↔ IsHostConstraint octets.now }
{
    octets.is_empty() || is_host_or_domain(octets)
}

/// Whether the octets are a constraint with which a URI can be compared (RFC 5280, 4.2.1.10): a
/// host name, or a dot and a host name. The name must have a letter, so an IPv4 address is no
/// constraint. False for no octets, which are no fully qualified domain name.
pub fn is_uri_constraint(octets: &[u8]) -> bool
    ensures { IsTrue result ↔ IsUriConstraint octets.now }
{
    is_host_or_domain(octets) && is_domain_name(octets)
}

/// Whether the octets are a constraint with which an rfc822Name can be compared (RFC 5280,
/// 4.2.1.10): a mailbox at a host, a host name, or a dot and a host name. False for no octets, which
/// are neither a mailbox nor a host nor a domain.
pub fn is_mail_constraint(octets: &[u8]) -> bool
    ensures { IsTrue result ↔ IsMailConstraint octets.now }
{
    is_host_mailbox(octets) || is_host_or_domain(octets)
}

/// Whether the octets are a mailbox at a host: atoms with dots between them, an @, and a host name.
/// False if the local part is in quotation marks, or the host is an address in square brackets: two
/// such mailboxes may be the same although their octets differ.
pub fn is_host_mailbox(octets: &[u8]) -> bool
    ensures { IsTrue result ↔ IsHostMailbox octets.now }
{
    match last_at(octets) {
        Some(at) => has_atoms_at(octets, at),
        None => false,
    }
}

fn has_atoms_at(octets: &[u8], at: usize) -> bool
    requires { at < length octets.now }
    ensures { IsTrue result ↔ HasAtomsAt octets.now at }
{
    is_dot_string(front(octets, at)) && is_plain_host(rest(octets, at + 1))
}

/// Whether the octets are a URI (RFC 3986) whose authority has a host name and not an IP address, so
/// that it can be compared with a constraint (RFC 5280, 4.2.1.10).
pub fn is_host_uri(uri: &[u8]) -> bool
    ensures { IsTrue result ↔ IsHostUri uri.now }
{
    is_uri(uri) && has_plain_host(uri)
}

fn has_plain_host(uri: &[u8]) -> bool
    ensures { IsTrue result ↔ HasPlainHost uri.now }
{
    has_domain_name(uri) && is_plain_host(host_of(uri))
}
