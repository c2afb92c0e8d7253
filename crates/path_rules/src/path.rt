//! The rules for all certificates of a path.
ghost use Rattle.std.specs.Prelude.{◌≡◌, ◌<◌, ◌+◌, drop, length, MatchOption};
ghost use Rattle.path_rules.specs.Path.{IsFault, KeepRules, intermediates, issues};

use crate::facts::Facts;
use crate::fault::Fault;
use crate::keeps::{broken_rule, weight};

/// The first fault of the certificates of a path. The first certificate is the one that the trust
/// anchor issued, and the last the one to be validated. `None` if there is no fault, and also if
/// there are no certificates: [`path_answer`](crate::path_answer) distinguishes these.
pub(crate) fn first_fault(path: &[Facts]) -> Option<Fault>
    ensures { MatchOption result (KeepRules path.now) (λ f. IsFault f path.now) }
{
    let mut left = intermediates(path);
    for (at, facts) in path.iter().enumerate() {
        let issues = is_followed(path, at);
        left -= weight(facts, issues);
        if let Some(rule) = broken_rule(facts, issues, left) {
            return Some(Fault { at, rule });
        }
    }
    None
}

// How many certificates are neither self-issued nor the last (RFC 5280, 4.2.1.9).
fn intermediates(path: &[Facts]) -> usize
    ensures { result ≡ intermediates path.now }
{
    let mut count = 0;
    for (at, facts) in path.iter().enumerate() {
        count += weight(facts, is_followed(path, at));
    }
    count
}

// Whether a certificate follows the one at this place.
fn is_followed(path: &[Facts], at: usize) -> bool
    requires { at < length path.now }
    ensures { result ≡ issues (drop (at + 1) path.now) }
{
    if at + 1 < path.len() {
        return true;
    }
    false
}
