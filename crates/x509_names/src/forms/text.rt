//! Comparison of texts in names. The case of ASCII letters is ignored, and so are spaces at the
//! ends and repeated spaces.
ghost use Rattle.std.specs.Prelude.{◌≡◌, ◌↔◌, ◌<◌, ◌≤◌, ◌∷◌, [], false, length, drop, slice_index, EachIndex, IfNone, IfSome, IsTrue};
ghost use Rattle.x509_names.specs.PreparedText.{IsPlainText, is_plain_character, is_space, spaced, squeezed, TextsMatch};

/// Whether two texts in ASCII or UTF-8 match (RFC 5280, 7.1; RFC 4518). The case of ASCII letters
/// is ignored. Spaces at the beginning and at the end are ignored too. Several spaces between other
/// characters count as one. Characters that are not ASCII are compared octet by octet.
pub fn texts_match(first: &[u8], second: &[u8]) -> bool
    ensures { IsTrue result ↔ TextsMatch first.now second.now }
{
    let mut at = after_spaces(first, 0);
    let mut place = after_spaces(second, 0);
    while let Some((octet, after)) = next_of(first, at) {
        match next_of(second, place) {
            Some((other, after_mark)) => {
                if other != octet {
                    return false;
                }
                at = after;
                place = after_mark;
            }
            None => return false,
        }
    }
    next_of(second, place).is_none()
}

/// Whether all octets are spaces, printed characters of ASCII, or the controls 9 to 13, which count
/// as spaces. For two such texts, [`texts_match`] gives the answer of RFC 4518. Of other texts, it
/// may say that they differ although they match by the tables of RFC 4518.
pub fn is_plain_text(octets: &[u8]) -> bool
    ensures { IsTrue result ↔ IsPlainText octets.now }
{
    for at in 0..octets.len() {
        if !is_plain_character(octets[at]) {
            return false;
        }
    }
    true
}

fn is_plain_character(octet: u8) -> bool
    ensures { result ≡ is_plain_character octet }
{
    is_space(octet) || 32 < octet && octet < 127
}

// The next octet of the prepared text that begins at a place, and where the text goes on.
fn next_of(octets: &[u8], at: usize) -> Option<(u8, usize)>
    requires { at ≤ length octets.now }
    ensures some { IfSome result (λ n. (squeezed (drop at octets.now)
        ≡ n.0 ∷ squeezed (drop n.1 octets.now)) × (at < n.1) × (n.1 ≤ length octets.now)) }
    ensures none { IfNone result (squeezed (drop at octets.now) ≡ []) }
{
    if at == octets.len() {
        return None;
    }
    let octet = octets[at];
    if !is_space(octet) {
        return Some((octet.to_ascii_lowercase(), at + 1));
    }
    let after = after_spaces(octets, at + 1);
    if after == octets.len() {
        None
    } else {
        Some((b' ', after))
    }
}

// The first place from `from` on that has no space, or the end.
fn after_spaces(octets: &[u8], from: usize) -> usize
    requires { from ≤ length octets.now }
    ensures within { (from ≤ result) × (result ≤ length octets.now) }
    ensures same { spaced (squeezed (drop from octets.now))
        ≡ spaced (squeezed (drop result octets.now)) }
    ensures stops { result < length octets.now
        → is_space (slice_index octets.now result) ≡ false }
{
    let mut at = from;
    while at < octets.len() && is_space(octets[at]) {
        at += 1;
    }
    at
}

// A space, or one of the controls that become a space (RFC 4518, 2.2).
fn is_space(octet: u8) -> bool
    ensures { result ≡ is_space octet }
{
    octet == b' ' || 8 < octet && octet < 14
}
