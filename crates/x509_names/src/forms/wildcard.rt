//! Host names whose first label is an asterisk.
ghost use Rattle.std.specs.Prelude.{◌≢◌, ◌↔◌, EachIndex, slice_index, IsTrue};
ghost use Rattle.x509_names.specs.Identifiers.{HostMatches};
ghost use Rattle.x509_names.specs.Wildcards.{AreAllBelow, HasAsterisk, HasLabelBefore, IsLabel, IsSomeBelow};

use crate::forms::host::{has_more_labels, is_below_host, is_same_host};
use crate::forms::rest::{front, rest};

/// Whether all names for which the dNSName `name` stands are within the constraint `base` (RFC
/// 5280, 4.2.1.10). An asterisk that is the whole first label stands for exactly one label (RFC
/// 9525, 6.3), which may be any. Any other name stands for itself alone. Names are compared by
/// [`is_below_host`].
pub fn are_all_below_host(base: &[u8], name: &[u8]) -> bool
    ensures { IsTrue result ↔ AreAllBelow base.now name.now }
{
    if has_asterisk(name) {
        return has_more_labels(base, name);
    }
    is_below_host(base, name)
}

/// Whether one or more of the names for which the dNSName `name` stands are within the constraint
/// `base` (RFC 5280, 4.2.1.10). See [`are_all_below_host`]. For example, `*.example.com` stands for
/// `foo.example.com`, but not for `a.foo.example.com`.
pub fn is_some_below_host(base: &[u8], name: &[u8]) -> bool
    ensures { IsTrue result ↔ IsSomeBelow base.now name.now }
{
    if !has_asterisk(name) {
        return is_below_host(base, name);
    }
    has_more_labels(base, name) || has_label_before(rest(name, 1), base)
}

/// Whether the dNSName `presented` of a certificate matches the name `wanted` of a host (RFC 9525,
/// 6.3): whether `wanted` is one of the names for which `presented` stands. The case of letters of
/// ASCII does not matter. It is not checked that `wanted` is the name of a host:
/// [`is_host_of`](crate::matching::is_host_of) does this.
pub fn host_matches(presented: &[u8], wanted: &[u8]) -> bool
    ensures { IsTrue result ↔ HostMatches presented.now wanted.now }
{
    if has_asterisk(presented) {
        return has_label_before(rest(presented, 1), wanted);
    }
    is_same_host(presented, wanted)
}

// Whether the first label is an asterisk, and another label follows.
fn has_asterisk(name: &[u8]) -> bool
    ensures { IsTrue result ↔ HasAsterisk name.now }
{
    name.len() > 1 && name[0] == b'*' && name[1] == b'.'
}

// Whether a name is one label before these octets.
fn has_label_before(end: &[u8], name: &[u8]) -> bool
    ensures { IsTrue result ↔ HasLabelBefore end.now name.now }
{
    if name.len() < end.len() {
        return false;
    }
    let at = name.len() - end.len();
    is_label(front(name, at)) && is_same_host(rest(name, at), end)
}

fn is_label(octets: &[u8]) -> bool
    ensures { IsTrue result ↔ IsLabel octets.now }
{
    !octets.is_empty() && has_no_dot(octets)
}

fn has_no_dot(octets: &[u8]) -> bool
    ensures { IsTrue result
        ↔ EachIndex octets.now (λ k. slice_index octets.now k ≢ 46) }
{
    for at in 0..octets.len() {
        if octets[at] == b'.' {
            return false;
        }
    }
    true
}
