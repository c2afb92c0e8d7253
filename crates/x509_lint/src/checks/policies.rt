//! Checks of certificate policies (RFC 5280, 4.2.1.4).
ghost use Rattle.std.specs.Prelude.{◌≡◌, ◌↔◌, IsTrue};
ghost use Rattle.x509.specs.Firsts.{FirstFailing};
ghost use Rattle.x509_lint.specs.PolicyChecks.{AreDistinctPolicies, ArePolicies, IsOnlyPolicy, policy_instances};

use std::alloc::Global;
use x509::{CertificatePolicies, PolicyInformation};

/// Whether no policy occurs twice (RFC 5280, 4.2.1.4). Decoding does not check this. The function
/// does not use `alloc`.
pub fn has_distinct_policies(alloc: Global, policies: &CertificatePolicies<'_>) -> bool
    ensures { IsTrue result ↔ AreDistinctPolicies policies.now.octets.now }
{
    first_repeated_policy(alloc, policies).is_none()
}

/// The index, counted from 0, of the first policy that occurs again later in the list; `None` if
/// each policy occurs once. The function does not use `alloc`.
pub fn first_repeated_policy(alloc: Global, policies: &CertificatePolicies<'_>) -> Option<usize>
    ensures { (l : ArePolicies policies.now.octets.now)
        → FirstFailing (IsOnlyPolicy l.items) l.items result }
{
    let mut place = 0;
    for policy in policies.iter(alloc) {
        if !is_only(alloc, policies, &policy) {
            return Some(place);
        }
        place += 1;
    }
    None
}

// Whether at most one of the policies has the identifier of this one.
fn is_only(
    alloc: Global,
    policies: &CertificatePolicies<'_>,
    policy: &PolicyInformation<'_>,
) -> bool
    ensures { (l : ArePolicies policies.now.octets.now)
        → (IsTrue result ↔ IsOnlyPolicy l.items policy.now) }
{
    count_of_policy(alloc, policies, policy.policy_identifier.octets()) <= 1
}

// The number of policies with this identifier.
fn count_of_policy(alloc: Global, policies: &CertificatePolicies<'_>, id: &[u8]) -> usize
    ensures { (l : ArePolicies policies.now.octets.now)
        → result ≡ policy_instances id.now l.items }
{
    let mut count = 0;
    for policy in policies.iter(alloc) {
        if policy.policy_identifier.octets() == id {
            count += 1;
        }
    }
    count
}
