//! The counters of RFC 5280, 6.1.2 (d) to (f).
ghost use Rattle.std.specs.Prelude.{◌≡◌, ◌<◌, ◌+◌, ◌^◌};
ghost use Rattle.path_rules.specs.Counters.{first_count, first_counters, last_explicit, next_count, next_counters};

use crate::policy_facts::PolicyFacts;
use crate::policy_inputs::PolicyInputs;

/// explicit_policy, policy_mapping and inhibit_anyPolicy. At 0 a policy is required, policies may not
/// be mapped, or anyPolicy is ignored. Above 0, each is one more than the number of certificates that
/// are not self-issued and may come before that.
#[derive(Clone, Copy, Debug, Drop)]
pub(crate) struct Counters {
    pub(crate) explicit: u64,
    pub(crate) mapping: u64,
    pub(crate) any: u64,
}

// The counters before a path of `length` certificates.
pub(crate) fn first_counters(inputs: &PolicyInputs<'_>, length: u64) -> Counters
    requires { length + 1 < 2 ^ 64 }
    ensures { result ≡ first_counters inputs.now length }
{
    Counters {
        explicit: first_count(inputs.requires_explicit, length),
        mapping: first_count(inputs.inhibits_mapping, length),
        any: first_count(inputs.inhibits_any, length),
    }
}

fn first_count(asked: bool, length: u64) -> u64
    requires { length + 1 < 2 ^ 64 }
    ensures { result ≡ first_count asked length }
{
    if asked { 0 } else { length + 1 }
}

// The counters after a certificate.
pub(crate) fn next_counters(facts: &PolicyFacts<'_>, counters: Counters) -> Counters
    ensures { result ≡ next_counters facts.now counters }
{
    let is_self_issued = facts.is_self_issued;
    Counters {
        explicit: next_count(is_self_issued, facts.require_explicit, counters.explicit),
        mapping: next_count(is_self_issued, facts.inhibit_mapping, counters.mapping),
        any: next_count(is_self_issued, facts.inhibit_any, counters.any),
    }
}

fn next_count(is_self_issued: bool, limit: Option<u64>, count: u64) -> u64
    ensures { result ≡ next_count is_self_issued limit count }
{
    let left = if is_self_issued {
        count
    } else {
        count.saturating_sub(1)
    };
    match limit {
        None => left,
        Some(limit) => limit.min(left),
    }
}

// explicit_policy after the last certificate.
pub(crate) fn last_explicit(limit: Option<u64>, count: u64) -> u64
    ensures { result ≡ last_explicit limit count }
{
    match limit {
        None => count.saturating_sub(1),
        Some(limit) => {
            if limit == 0 {
                0
            } else {
                count.saturating_sub(1)
            }
        }
    }
}
