//! Schemes of URIs (RFC 3986, 3.1).
ghost use Rattle.std.specs.Prelude.{◌≡◌, ◌↔◌, ◌<◌, length, IsTrue};
ghost use Rattle.x509_names.specs.UriSyntax.{HasScheme, fits_scheme, is_scheme_octet};

use crate::forms::host::is_letter;

/// Whether the octets begin with a scheme and a colon, and have at least one more octet after the
/// colon.
pub fn has_scheme(octets: &[u8]) -> bool
    ensures { IsTrue result ↔ HasScheme octets.now }
{
    for at in 0..octets.len() {
        let octet = octets[at];
        if octet == b':' {
            return at > 0 && octets.len() - at > 1;
        }
        if !fits_scheme(at, octet) {
            return false;
        }
    }
    false
}

// Whether an octet may be that of a scheme at this place.
fn fits_scheme(at: usize, octet: u8) -> bool
    ensures { result ≡ fits_scheme at octet }
{
    if at == 0 {
        is_letter(octet)
    } else {
        is_scheme_octet(octet)
    }
}

// A letter, a digit, or one of + - .
fn is_scheme_octet(octet: u8) -> bool
    ensures { result ≡ is_scheme_octet octet }
{
    is_letter(octet) || 47 < octet && octet < 58 || octet == 43 || octet == 45 || octet == 46
}
