//! The rules for one certificate of a path.
ghost use Rattle.std.specs.Prelude.{◌≡◌, ◌↔◌, ◌⊎◌, ◌≤◌, true, All, MatchOption};
ghost use Rattle.path_rules.specs.Path.{Asks, HasRoom, IsFirstBroken, IsKnownAuthority, KeepsAll, weight};

use crate::facts::Facts;
use crate::rule::Rule;
use crate::rules::RULES;
use crate::version::{is_first, is_third};

/// The first rule of [`RULES`] that a certificate breaks. `issues` says whether another certificate
/// follows, and `left` is how many intermediate certificates follow that are not self-issued.
pub(crate) fn broken_rule(facts: &Facts, issues: bool, left: usize) -> Option<Rule>
    ensures { MatchOption result (KeepsAll facts.now issues left)
        (λ r. IsFirstBroken RULES r facts.now issues left) }
{
    first_broken(&RULES, facts, issues, left)
}

// The first of some rules that a certificate breaks.
fn first_broken(rules: &[Rule], facts: &Facts, issues: bool, left: usize) -> Option<Rule>
    ensures { MatchOption result (All (λ r. Asks r facts.now issues left) rules.now)
        (λ r. IsFirstBroken rules.now r facts.now issues left) }
{
    for rule in rules.iter() {
        if !keeps(*rule, facts, issues, left) {
            return Some(*rule);
        }
    }
    None
}

// Whether a certificate keeps a rule.
fn keeps(rule: Rule, facts: &Facts, issues: bool, left: usize) -> bool
    ensures { (result ≡ true) ↔ Asks rule facts.now issues left }
{
    match rule {
        Rule::SignatureAlgorithm => facts.has_same_algorithms,
        Rule::UniqueIdentifiers => !facts.has_unique_identifiers || !is_first(facts.version),
        Rule::ExtensionVersion => !facts.has_extensions || is_third(facts.version),
        Rule::DistinctExtensions => facts.has_distinct_extensions,
        Rule::Validity => facts.is_current,
        Rule::Chain => facts.is_chained,
        Rule::Names => issues && facts.is_self_issued || facts.is_permitted,
        Rule::Authority => !issues || is_known_authority(facts),
        Rule::PathLength => has_room(facts.path_limit, left),
        Rule::Usage => !issues || facts.may_sign,
        Rule::Extensions => facts.is_understood,
    }
}

// Whether a certificate is that of an authority, by its extension or by other means.
fn is_known_authority(facts: &Facts) -> bool
    ensures { (result ≡ true) ↔ IsKnownAuthority facts.now }
{
    if is_third(facts.version) {
        facts.is_authority
    } else {
        facts.is_known_authority
    }
}

// Whether a pathLenConstraint allows as many certificates.
fn has_room(limit: Option<u64>, left: usize) -> bool
    ensures { (result ≡ true) ↔ HasRoom limit left }
{
    match limit {
        Some(limit) => left as u64 <= limit,
        None => true,
    }
}

/// How much a certificate adds to the number of intermediate certificates: 1 if it is one that is
/// not self-issued, and otherwise 0.
pub(crate) fn weight(facts: &Facts, issues: bool) -> usize
    ensures value { result ≡ weight facts.now issues }
    ensures small { result ≤ 1 }
{
    if issues && !facts.is_self_issued {
        1
    } else {
        0
    }
}
