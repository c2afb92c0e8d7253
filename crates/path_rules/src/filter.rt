//! Which nodes of a depth are kept for the next list of nodes.
ghost use Rattle.std.specs.Prelude.{◌≡◌, ◌↔◌, ◌⊎◌, IsTrue};
ghost use Rattle.path_rules.specs.Growth.{IsKept};
ghost use Rattle.path_rules.specs.Policies.{Asserts, Policy};

use crate::mapping::Mapping;
use crate::policies::{asserts, is_mapped};

// Which nodes are kept.
#[derive(Clone, Copy, Drop)]
pub(crate) enum Filter<'a> {
    // Every node: anyPolicy counts (6.1.3 (d) (2)).
    All,
    // Those with a policy of the list but anyPolicy (6.1.3 (d) (1)).
    Asserted(&'a [&'a [u8]]),
    // Those that are not mapped (6.1.4 (b)).
    Unmapped(&'a [Mapping<'a>]),
}

// Whether a node with this policy is kept.
pub(crate) fn is_kept(filter: &Filter<'_>, policy: &[u8]) -> bool
    ensures { IsTrue result ↔ IsKept filter.now policy.now }
{
    match filter {
        Filter::All => true,
        Filter::Asserted(policies) => asserts(policies, policy),
        Filter::Unmapped(mappings) => !is_mapped(mappings, policy),
    }
}

// The filter for the nodes of a certificate with these policies.
pub(crate) fn node_filter<'a>(any_counts: bool, policies: &'a [&'a [u8]]) -> Filter<'a>
    ensures { (p : Policy) → IsKept result p ↔ (IsTrue any_counts ⊎ Asserts policies.now p) }
{
    if any_counts {
        return Filter::All;
    }
    Filter::Asserted(policies)
}
