//! Host names (RFC 1034, 3.5; RFC 1123, 2.1).
ghost use Rattle.std.specs.Prelude.{◌≡◌, ◌≢◌, ◌⊎◌, ◌↔◌, ◌<◌, ◌≤◌, ◌^◌, ◌+◌, [], EachIndex, length, IsTrue};
ghost use Rattle.x509_names.specs.HostNames.{FitsHost, HasLengthOfHost, HasShortLabels, IsBetween, IsHostName, IsOfLabels, is_alphanumeric};
ghost use Rattle.x509_names.specs.UriSyntax.{IsHost};

/// Whether the octets are a host name of at most 253 octets, with labels of at most 63 octets. The
/// first label may be an asterisk, if another label follows. An IPv4 address in dotted notation is
/// also accepted, because its numbers are labels.
pub fn is_host_name(octets: &[u8]) -> bool
    ensures { IsTrue result ↔ IsHostName octets.now }
{
    has_length_of_host(octets) && is_of_labels(octets)
}

fn is_of_labels(octets: &[u8]) -> bool
    ensures { IsTrue result ↔ IsOfLabels octets.now }
{
    all_fit(octets) && has_short_labels(octets)
}

/// Whether the octets are a host name, or an IPv4 address in dotted notation. The first label of a
/// host name may be an asterisk, if another label follows. The length of the name, and the lengths
/// of its labels, are not limited.
pub fn is_host(octets: &[u8]) -> bool
    ensures { IsTrue result ↔ IsHost octets.now }
{
    has_octets(octets) && all_fit(octets)
}

fn has_octets(octets: &[u8]) -> bool
    ensures { IsTrue result ↔ (octets.now ≢ []) }
{
    !octets.is_empty()
}

// Whether no label has more than 63 octets.
fn has_short_labels(octets: &[u8]) -> bool
    ensures { IsTrue result ↔ HasShortLabels octets.now }
{
    let mut begin = 0;
    for at in 0..octets.len() {
        begin = label_begin(octets[at], at, begin);
        if at + 1 - begin > 63 {
            return false;
        }
    }
    true
}

// Where the label begins that goes on after an octet.
fn label_begin(octet: u8, at: usize, begin: usize) -> usize
    requires last { at + 1 < 2 ^ 64 }
    requires within { begin ≤ at }
    ensures within { result ≤ at + 1 }
    ensures dot { octet ≡ 46 → result ≡ at + 1 }
    ensures other { octet ≢ 46 → result ≡ begin }
{
    if octet == b'.' { at + 1 } else { begin }
}

fn has_length_of_host(octets: &[u8]) -> bool
    ensures { IsTrue result ↔ HasLengthOfHost octets.now }
{
    !octets.is_empty() && octets.len() <= 253
}

fn all_fit(octets: &[u8]) -> bool
    ensures { IsTrue result ↔ EachIndex octets.now (λ k. FitsHost octets.now k) }
{
    for at in 0..octets.len() {
        if !fits_host(octets, at) {
            return false;
        }
    }
    true
}

// Whether the octet at a place may stand there.
fn fits_host(octets: &[u8], at: usize) -> bool
    requires { at < length octets.now }
    ensures { IsTrue result ↔ FitsHost octets.now at }
{
    let octet = octets[at];
    if is_alphanumeric(octet) {
        return true;
    }
    if is_separator(octet) {
        return is_between(octets, at);
    }
    octet == b'*' && at == 0 && octets.len() > 1 && octets[1] == b'.'
}

fn is_separator(octet: u8) -> bool
    ensures { IsTrue result ↔ ((octet ≡ 45) ⊎ (octet ≡ 46)) }
{
    octet == b'-' || octet == b'.'
}

// Whether a place is neither at an end nor beside a dot.
pub(crate) fn is_between(octets: &[u8], at: usize) -> bool
    requires { at < length octets.now }
    ensures { IsTrue result ↔ IsBetween octets.now at }
{
    at > 0 && octets.len() - at > 1 && octets[at - 1] != b'.' && octets[at + 1] != b'.'
}

// A letter or a digit of ASCII.
pub(crate) fn is_alphanumeric(octet: u8) -> bool
    ensures { result ≡ is_alphanumeric octet }
{
    64 < octet && octet < 91 || 96 < octet && octet < 123 || 47 < octet && octet < 58
}
