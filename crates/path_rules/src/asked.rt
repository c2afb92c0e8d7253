//! The rules for policies at one certificate.
ghost use Rattle.std.specs.Prelude.{◌≡◌, ◌↔◌, ◌⊎◌, ◌<◌, false, true, Any, IsTrue, MatchOption};
ghost use Rattle.path_rules.specs.Counters.{last_explicit};
ghost use Rattle.path_rules.specs.Nodes.{HasAllowed, HasNode};
ghost use Rattle.path_rules.specs.Policies.{Allows, MapsAny};
ghost use Rattle.path_rules.specs.PolicyRules.{AsksPolicies, Exists, IsFirstOf};
ghost use Rattle.path_rules.specs.declared.policy_rule.PolicyRule.{PolicyRule as APolicyRule};

use crate::counters::last_explicit;
use crate::node::Node;
use crate::policies::maps_any;
use crate::policy_facts::PolicyFacts;
use crate::policy_rule::PolicyRule;

// The first rule for policies that a certificate breaks. `explicit` is explicit_policy before it,
// `has_any` says whether anyPolicy is a node of its depth, and `nodes` are the others.
pub(crate) fn broken_policy(
    facts: &PolicyFacts<'_>,
    is_last: bool,
    explicit: u64,
    has_any: bool,
    nodes: &[Node<'_>],
    allowed: &[&[u8]],
) -> Option<PolicyRule>
    ensures { MatchOption result
        ((r : APolicyRule) → AsksPolicies facts.now is_last explicit (IsTrue has_any)
        (HasNode nodes.now) (HasAllowed nodes.now) (Allows allowed.now) r)
        (λ r. IsFirstOf (AsksPolicies facts.now is_last explicit (IsTrue has_any)
        (HasNode nodes.now) (HasAllowed nodes.now) (Allows allowed.now)) r) }
{
    if !has_policy(explicit, has_any, nodes) {
        return Some(PolicyRule::Explicit);
    }
    if !maps_no_any(facts, is_last) {
        return Some(PolicyRule::Mapping);
    }
    if !has_allowed_end(facts, is_last, explicit, has_any, nodes, allowed) {
        return Some(PolicyRule::Allowed);
    }
    None
}

// Whether the certificate is the last, or does not map anyPolicy.
fn maps_no_any(facts: &PolicyFacts<'_>, is_last: bool) -> bool
    ensures { IsTrue result ↔ (is_last ≡ false → MapsAny facts.now.mappings.now → ⊥) }
{
    is_last || !maps_any(facts.mappings)
}

// Whether the certificate is not the last, or there is a policy that the user allows, or none is
// required.
fn has_allowed_end(
    facts: &PolicyFacts<'_>,
    is_last: bool,
    explicit: u64,
    has_any: bool,
    nodes: &[Node<'_>],
    allowed: &[&[u8]],
) -> bool
    ensures { IsTrue result ↔ (is_last ≡ true
        → (0 < last_explicit facts.now.require_explicit explicit)
        ⊎ (Exists (HasAllowed nodes.now) ⊎ (IsTrue has_any × Exists (Allows allowed.now)))) }
{
    !is_last || has_allowed_policy(facts, explicit, has_any, nodes, allowed)
}

// Whether there is a policy, or none is required.
fn has_policy(explicit: u64, has_any: bool, nodes: &[Node<'_>]) -> bool
    ensures { IsTrue result ↔ ((0 < explicit) ⊎ (IsTrue has_any ⊎ Exists (HasNode nodes.now))) }
{
    explicit > 0 || has_any || has_nodes(nodes)
}

// Whether there is a policy that the user allows at the end, or none is required.
fn has_allowed_policy(
    facts: &PolicyFacts<'_>,
    explicit: u64,
    has_any: bool,
    nodes: &[Node<'_>],
    allowed: &[&[u8]],
) -> bool
    ensures { IsTrue result ↔ ((0 < last_explicit facts.now.require_explicit explicit)
        ⊎ (Exists (HasAllowed nodes.now) ⊎ (IsTrue has_any × Exists (Allows allowed.now)))) }
{
    last_explicit(facts.require_explicit, explicit) > 0
        || has_allowed_nodes(nodes)
        || has_any && allows_some(allowed)
}

fn has_nodes(nodes: &[Node<'_>]) -> bool
    ensures { IsTrue result ↔ Exists (HasNode nodes.now) }
{
    if nodes.len() == 0 {
        return false;
    }
    true
}

// Whether one of the nodes is allowed.
pub(crate) fn has_allowed_nodes(nodes: &[Node<'_>]) -> bool
    ensures { IsTrue result ↔ Exists (HasAllowed nodes.now) }
{
    is_any_allowed(nodes)
}

fn is_any_allowed(nodes: &[Node<'_>]) -> bool
    ensures { IsTrue result ↔ Any (λ n. n.is_allowed ≡ true) nodes.now }
{
    nodes.iter().any(|node| node.is_allowed)
}

// Whether the user allows any policy.
fn allows_some(allowed: &[&[u8]]) -> bool
    ensures { IsTrue result ↔ Exists (Allows allowed.now) }
{
    if allowed.len() == 0 {
        return false;
    }
    true
}
