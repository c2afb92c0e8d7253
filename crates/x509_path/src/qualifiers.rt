//! The qualifiers of policies (RFC 5280, 4.2.1.4).
ghost use Rattle.std.specs.Prelude.{◌≡◌, ◌↔◌, IsTrue};
ghost use Rattle.x509_path.specs.Qualifiers.{AreUnqualified, HasNoQualifiers, IsUnqualified};

use der_asn1::lawful_from_der;
use std::alloc::Global;
use x509::{CertificatePolicies, PolicyInformation};

// Whether the value is a certificatePolicies in which no policy has qualifiers.
pub(crate) fn has_no_qualifiers<'c>(alloc: Global, value: &'c [u8]) -> bool
    ensures { IsTrue result ↔ HasNoQualifiers value.now }
{
    match lawful_from_der::<CertificatePolicies<'c>>(alloc, value) {
        Ok(policies) => are_unqualified(alloc, &policies),
        Err(_) => false,
    }
}

fn are_unqualified(alloc: Global, policies: &CertificatePolicies<'_>) -> bool
    ensures { IsTrue result ↔ AreUnqualified policies.now.octets.now }
{
    for policy in policies.iter(alloc) {
        if !is_unqualified(&policy) {
            return false;
        }
    }
    true
}

fn is_unqualified(policy: &PolicyInformation<'_>) -> bool
    ensures { IsTrue result ↔ IsUnqualified policy.now }
{
    policy.policy_qualifiers.0.is_none()
}
