//! The syntax of URIs (RFC 3986).
ghost use Rattle.std.specs.Prelude.{◌≡◌, ◌≢◌, ◌↔◌, ◌⊎◌, ◌<◌, true, EachIndex, length, slice_index, IsTrue};
ghost use Rattle.x509_names.specs.UriSyntax.{AreOf, HasHost, HasParts, IsAuthority, IsEscape, IsLiteral, IsNameAndPort, IsPath, IsPortIfPresent, IsUri, allows_escapes, is_hexadecimal, is_name_octet, is_of};
ghost use Rattle.x509_names.specs.Uris.{authority_of, before, has_authority, has_user};
ghost use Rattle.x509_names.specs.declared.forms.mark.Mark.TheVariants.{At};
ghost use Rattle.x509_names.specs.declared.forms.uri_part.UriPart.TheVariants.{User};

use crate::forms::host_name::{is_alphanumeric, is_host};
use crate::forms::mark::Mark;
use crate::forms::rest::rest;
use crate::forms::scheme::has_scheme;
use crate::forms::uri::{
    after_mark, authority_of, before, from_mark, has_authority, has_user, host_and_port, path_of,
};
use crate::forms::uri_part::UriPart;

/// Whether the octets are a URI (RFC 3986, 3): a scheme and a colon, an optional authority, a path,
/// an optional query and an optional fragment. Each part must have only the octets that are allowed
/// in it. The syntax of an IP address in square brackets is not checked, only its octets.
pub fn is_uri(uri: &[u8]) -> bool
    ensures { IsTrue result ↔ IsUri uri.now }
{
    has_scheme(uri) && has_parts(uri)
}

fn has_parts(uri: &[u8]) -> bool
    ensures { IsTrue result ↔ HasParts uri.now }
{
    has_authority_of_form(uri) && is_path(path_of(uri))
}

/// Whether the authority of a URI has a host name or an IP address (RFC 5280, 4.2.1.6). Also true
/// if the URI has no authority.
pub fn has_host(uri: &[u8]) -> bool
    ensures { IsTrue result ↔ HasHost uri.now }
{
    if !has_authority(uri) {
        return true;
    }
    let host = host_and_port(authority_of(uri));
    is_literal(host) || is_host(before(host, Mark::Colon))
}

fn has_authority_of_form(uri: &[u8]) -> bool
    ensures { IsTrue result ↔ (has_authority uri.now ≡ true → IsAuthority (authority_of uri.now)) }
{
    !has_authority(uri) || is_authority(authority_of(uri))
}

fn is_authority(octets: &[u8]) -> bool
    ensures { IsTrue result ↔ IsAuthority octets.now }
{
    has_user_of_form(octets) && is_host_and_port(host_and_port(octets))
}

fn has_user_of_form(octets: &[u8]) -> bool
    ensures { IsTrue result ↔ (has_user octets.now ≡ true → AreOf User (before At octets.now)) }
{
    !has_user(octets) || are_of(before(octets, Mark::At), UriPart::User)
}

fn is_host_and_port(octets: &[u8]) -> bool
    ensures { IsTrue result ↔ (IsLiteral octets.now ⊎ IsNameAndPort octets.now) }
{
    is_literal(octets) || is_name_and_port(octets)
}

// Whether the octets are an address in brackets, and a port.
fn is_literal(octets: &[u8]) -> bool
    ensures { IsTrue result ↔ IsLiteral octets.now }
{
    let address = before(octets, Mark::Close);
    if octets.is_empty() || octets[0] != b'[' || address.len() == octets.len() {
        return false;
    }
    let inside = rest(address, 1);
    !inside.is_empty()
        && are_of(inside, UriPart::Literal)
        && is_port(after_mark(octets, Mark::Close))
}

fn is_name_and_port(octets: &[u8]) -> bool
    ensures { IsTrue result ↔ IsNameAndPort octets.now }
{
    are_of(before(octets, Mark::Colon), UriPart::Name) && is_port(from_mark(octets, Mark::Colon))
}

// Whether the octets are none, or a colon and digits.
fn is_port(octets: &[u8]) -> bool
    ensures { IsTrue result ↔ IsPortIfPresent octets.now }
{
    octets.is_empty() || octets[0] == b':' && are_of(rest(octets, 1), UriPart::Port)
}

fn is_path(octets: &[u8]) -> bool
    ensures { IsTrue result ↔ IsPath octets.now }
{
    are_of(before(octets, Mark::Hash), UriPart::Path)
        && are_of(after_mark(octets, Mark::Hash), UriPart::Path)
}

// Whether all octets are of a part, but for percent signs before digits.
fn are_of(octets: &[u8], part: UriPart) -> bool
    ensures { IsTrue result ↔ AreOf part octets.now }
{
    for at in 0..octets.len() {
        if !fits_part(octets, at, part) {
            return false;
        }
    }
    true
}

fn fits_part(octets: &[u8], at: usize, part: UriPart) -> bool
    requires { at < length octets.now }
    ensures { IsTrue result ↔ ((is_of part (slice_index octets.now at) ≡ true)
        ⊎ ((allows_escapes part ≡ true) × IsEscape octets.now at)) }
{
    is_of(octets[at], part) || allows_escapes(part) && is_escape(octets, at)
}

fn allows_escapes(part: UriPart) -> bool
    ensures { result ≡ allows_escapes part }
{
    match part {
        UriPart::Literal => false,
        UriPart::Port => false,
        _ => true,
    }
}

// Whether a percent sign and two digits begin at a place.
fn is_escape(octets: &[u8], at: usize) -> bool
    requires { at < length octets.now }
    ensures { IsTrue result ↔ IsEscape octets.now at }
{
    octets[at] == b'%'
        && octets.len() - at > 2
        && is_hexadecimal(octets[at + 1])
        && is_hexadecimal(octets[at + 2])
}

fn is_of(octet: u8, part: UriPart) -> bool
    ensures { result ≡ is_of part octet }
{
    match part {
        UriPart::User => is_name_octet(octet) || octet == b':',
        UriPart::Name => is_name_octet(octet),
        UriPart::Literal => is_name_octet(octet) || octet == b':',
        UriPart::Port => 47 < octet && octet < 58,
        UriPart::Path => {
            is_name_octet(octet) || octet == b':' || octet == b'@' || octet == b'/' || octet == b'?'
        }
    }
}

// An octet that is not reserved, or a delimiter inside of a part.
fn is_name_octet(octet: u8) -> bool
    ensures { result ≡ is_name_octet octet }
{
    is_alphanumeric(octet)
        || 37 < octet && octet < 47
        || octet == b'!'
        || octet == b'$'
        || octet == b';'
        || octet == b'='
        || octet == b'_'
        || octet == b'~'
}

fn is_hexadecimal(octet: u8) -> bool
    ensures { result ≡ is_hexadecimal octet }
{
    47 < octet && octet < 58 || 64 < octet && octet < 71 || 96 < octet && octet < 103
}
