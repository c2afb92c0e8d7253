//! Lists of policies and of mappings.
ghost use Rattle.std.specs.Prelude.{◌≡◌, ◌↔◌, IsTrue};
ghost use Rattle.path_rules.specs.Policies.{Allows, Asserts, IsAnyPolicy, IsIn, IsMapped, MapsAny};

use crate::mapping::Mapping;

/// anyPolicy (2.5.29.32.0), as the contents octets of the OBJECT IDENTIFIER (RFC 5280, 4.2.1.4).
pub const ANY_POLICY: [u8; 4] = [0x55, 0x1d, 0x20, 0x00];

// Whether a policy is anyPolicy.
pub(crate) fn is_any_policy(policy: &[u8]) -> bool
    ensures { IsTrue result ↔ IsAnyPolicy policy.now }
{
    policy == ANY_POLICY.as_slice()
}

// Whether a policy is in a list.
pub(crate) fn is_in(policies: &[&[u8]], policy: &[u8]) -> bool
    ensures { IsTrue result ↔ IsIn policies.now policy.now }
{
    policies.iter().any(|one| *one == policy)
}

// Whether a list has anyPolicy.
pub(crate) fn has_any_policy(policies: &[&[u8]]) -> bool
    ensures { IsTrue result ↔ IsIn policies.now ANY_POLICY }
{
    is_in(policies, ANY_POLICY.as_slice())
}

// Whether a list has this policy, and it is not anyPolicy.
pub(crate) fn asserts(policies: &[&[u8]], policy: &[u8]) -> bool
    ensures { IsTrue result ↔ Asserts policies.now policy.now }
{
    !is_any_policy(policy) && is_in(policies, policy)
}

// Whether the user allows a policy.
pub(crate) fn allows(allowed: &[&[u8]], policy: &[u8]) -> bool
    ensures { IsTrue result ↔ Allows allowed.now policy.now }
{
    has_any_policy(allowed) || is_in(allowed, policy)
}

// Whether a policy is mapped.
pub(crate) fn is_mapped(mappings: &[Mapping<'_>], policy: &[u8]) -> bool
    ensures { IsTrue result ↔ IsMapped mappings.now policy.now }
{
    mappings.iter().any(|mapping| mapping.issuer == policy)
}

// Whether anyPolicy is mapped, or something is mapped to it.
pub(crate) fn maps_any(mappings: &[Mapping<'_>]) -> bool
    ensures { IsTrue result ↔ MapsAny mappings.now }
{
    mappings.iter().any(|mapping| is_any_policy(mapping.issuer) || is_any_policy(mapping.subject))
}
