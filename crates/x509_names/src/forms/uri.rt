//! The parts of URIs.
ghost use Rattle.std.specs.Prelude.{◌≡◌, ◌↔◌, ◌≤◌, length, slice_index, IsTrue};
ghost use Rattle.x509_names.specs.Uris.{authority_of, before, after_mark, first_mark, from_mark, has_authority, has_user, HasDomainName, host_and_port, host_of, is_mark, IsUriWithin, path_of};

use crate::forms::host::{is_domain_name, is_host_within};
use crate::forms::mark::Mark;
use crate::forms::rest::{front, rest};

/// Whether the host of a URI is within the constraint `base` of a uniformResourceIdentifier (RFC
/// 5280, 4.2.1.10). If `base` begins with a dot, it is a domain, and the host must be in this
/// domain. Otherwise `base` is a host, and the host of the URI must be equal to it. False if the
/// URI has no authority.
pub fn is_uri_within(base: &[u8], uri: &[u8]) -> bool
    ensures { IsTrue result ↔ IsUriWithin base.now uri.now }
{
    has_authority(uri) && is_host_within(base, host_of(uri))
}

/// Whether a URI has an authority (RFC 3986, 3.2) whose host is a name and not an IP address (RFC
/// 5280, 4.2.1.10).
pub fn has_domain_name(uri: &[u8]) -> bool
    ensures { IsTrue result ↔ HasDomainName uri.now }
{
    has_authority(uri) && is_domain_name(host_of(uri))
}

// Whether two slashes after the scheme begin an authority (RFC 3986, 3.2).
pub(crate) fn has_authority(uri: &[u8]) -> bool
    ensures { result ≡ has_authority uri.now }
{
    begins_with_slashes(after_mark(uri, Mark::Colon))
}

// The host of a URI: of its authority, what is after a user and before a port (RFC 3986, 3.2).
pub(crate) fn host_of<'a>(uri: &'a [u8]) -> &'a [u8]
    ensures { result.now ≡ host_of uri.now }
{
    before(host_and_port(authority_of(uri)), Mark::Colon)
}

// What is between the two slashes after the scheme and the next / ? or #.
pub(crate) fn authority_of<'a>(uri: &'a [u8]) -> &'a [u8]
    ensures { result.now ≡ authority_of uri.now }
{
    before(rest(after_mark(uri, Mark::Colon), 2), Mark::End)
}

// The path of a URI, with its query and its fragment.
pub(crate) fn path_of<'a>(uri: &'a [u8]) -> &'a [u8]
    ensures { result.now ≡ path_of uri.now }
{
    let hierarchy = after_mark(uri, Mark::Colon);
    if has_authority(uri) {
        from_mark(rest(hierarchy, 2), Mark::End)
    } else {
        hierarchy
    }
}

// What an authority has after its user.
pub(crate) fn host_and_port<'a>(authority: &'a [u8]) -> &'a [u8]
    ensures { result.now ≡ host_and_port authority.now }
{
    if has_user(authority) {
        after_mark(authority, Mark::At)
    } else {
        authority
    }
}

// Whether an authority has a user.
pub(crate) fn has_user(authority: &[u8]) -> bool
    ensures { result ≡ has_user authority.now }
{
    first_mark(authority, Mark::At) < authority.len()
}

fn begins_with_slashes(octets: &[u8]) -> bool
    ensures { IsTrue result
        ↔ ((slice_index octets.now 0 ≡ 47) × (slice_index octets.now 1 ≡ 47)) }
{
    octets.len() > 1 && octets[0] == b'/' && octets[1] == b'/'
}

// The octets before the first mark; all, if there is none.
pub(crate) fn before<'a>(octets: &'a [u8], mark: Mark) -> &'a [u8]
    ensures { result.now ≡ before mark octets.now }
{
    front(octets, first_mark(octets, mark))
}

// The octets from the first mark on; none, if there is none.
pub(crate) fn from_mark<'a>(octets: &'a [u8], mark: Mark) -> &'a [u8]
    ensures { result.now ≡ from_mark mark octets.now }
{
    rest(octets, first_mark(octets, mark))
}

// The octets after the first mark; none, if there is none.
pub(crate) fn after_mark<'a>(octets: &'a [u8], mark: Mark) -> &'a [u8]
    ensures { result.now ≡ after_mark mark octets.now }
{
    rest(octets, first_mark(octets, mark).saturating_add(1))
}

// The place of the first mark, or the end.
fn first_mark(octets: &[u8], mark: Mark) -> usize
    ensures within { result ≤ length octets.now }
    ensures exact { result ≡ first_mark mark octets.now }
{
    for at in 0..octets.len() {
        if is_mark(octets[at], mark) {
            return at;
        }
    }
    octets.len()
}

fn is_mark(octet: u8, mark: Mark) -> bool
    ensures { result ≡ is_mark mark octet }
{
    match mark {
        Mark::At => octet == b'@',
        Mark::Close => octet == b']',
        Mark::Colon => octet == b':',
        Mark::End => octet == b'/' || octet == b'?' || octet == b'#',
        Mark::Hash => octet == b'#',
    }
}
