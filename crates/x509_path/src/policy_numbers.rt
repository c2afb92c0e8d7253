//! The numbers of a certificate that limit policies (RFC 5280, 4.2.1.11, 4.2.1.14).
ghost use Rattle.std.specs.Prelude.{◌≡◌, ◌↔◌, ℕ, Option, Some, IfSome, IfNone, false, IsTrue};
ghost use Rattle.std.specs.Option.{option_map};
ghost use Rattle.der_asn1.specs.Integer.{is_negative};
ghost use Rattle.x509_path.specs.PathLimits.{limit_number};
ghost use Rattle.x509_path.specs.PolicyFactsOf.{AreSkips, HasAnySkip, HasSkips, explicit_octets, inhibit_octets};

use crate::limit::{is_negative, number_of};
use der_asn1::IntRef;
use std::alloc::Global;
use x509::{PolicyConstraints, TbsCertificate, ext};

// The numbers of a policyConstraints.
#[derive(Clone, Copy, Debug, Drop)]
pub(crate) struct Skips {
    // requireExplicitPolicy.
    pub(crate) explicit: Option<u64>,
    // inhibitPolicyMapping.
    pub(crate) inhibit: Option<u64>,
}

// The numbers of the policyConstraints of a certificate. `None` if they cannot be read.
pub(crate) fn skips_of(alloc: Global, signed: &TbsCertificate<'_>) -> Option<Skips>
    ensures some { IfSome result (λ s. HasSkips s.explicit s.inhibit signed.now) }
    ensures none { IfNone result ((e i : Option ℕ) → HasSkips e i signed.now → ⊥) }
{
    match signed.find_extension::<ext::PolicyConstraints>(alloc) {
        Ok(Some(known)) => counted(&known.value),
        Ok(None) => Some(Skips {
            explicit: None,
            inhibit: None,
        }),
        Err(_) => None,
    }
}

fn counted(constraints: &PolicyConstraints<'_>) -> Option<Skips>
    ensures some { IfSome result (λ s.
        AreSkips (explicit_octets constraints.now) (inhibit_octets constraints.now)
        × (s.explicit ≡ option_map limit_number (explicit_octets constraints.now))
        × (s.inhibit ≡ option_map limit_number (inhibit_octets constraints.now))) }
    ensures none { IfNone result
        (AreSkips (explicit_octets constraints.now) (inhibit_octets constraints.now) → ⊥) }
{
    if !are_skips(constraints) {
        return None;
    }
    Some(Skips {
        explicit: explicit_of(constraints),
        inhibit: inhibit_of(constraints),
    })
}

// Whether there is a number, and none is negative.
fn are_skips(constraints: &PolicyConstraints<'_>) -> bool
    ensures { IsTrue result
        ↔ AreSkips (explicit_octets constraints.now) (inhibit_octets constraints.now) }
{
    match &constraints.require_explicit_policy.0 {
        Some(explicit) => match &constraints.inhibit_policy_mapping.0 {
            Some(inhibit) => are_positive(&explicit.0, &inhibit.0),
            None => is_positive(&explicit.0),
        },
        None => match &constraints.inhibit_policy_mapping.0 {
            Some(inhibit) => is_positive(&inhibit.0),
            None => false,
        },
    }
}

fn are_positive(first: &IntRef<'_>, second: &IntRef<'_>) -> bool
    ensures { IsTrue result ↔ ((is_negative first.now.octets.now ≡ false)
        × (is_negative second.now.octets.now ≡ false)) }
{
    is_positive(first) && is_positive(second)
}

fn is_positive(number: &IntRef<'_>) -> bool
    ensures { IsTrue result ↔ (is_negative number.now.octets.now ≡ false) }
{
    !is_negative(number.octets())
}

fn explicit_of(constraints: &PolicyConstraints<'_>) -> Option<u64>
    ensures { result ≡ option_map limit_number (explicit_octets constraints.now) }
{
    match &constraints.require_explicit_policy.0 {
        Some(number) => Some(number_of(&number.0)),
        None => None,
    }
}

fn inhibit_of(constraints: &PolicyConstraints<'_>) -> Option<u64>
    ensures { result ≡ option_map limit_number (inhibit_octets constraints.now) }
{
    match &constraints.inhibit_policy_mapping.0 {
        Some(number) => Some(number_of(&number.0)),
        None => None,
    }
}

// The number of the inhibitAnyPolicy of a certificate, if it has one. `None` if it cannot be read.
pub(crate) fn any_skip_of(alloc: Global, signed: &TbsCertificate<'_>) -> Option<Option<u64>>
    ensures some { IfSome result (λ n. HasAnySkip n signed.now) }
    ensures none { IfNone result ((n : Option ℕ) → HasAnySkip n signed.now → ⊥) }
{
    match signed.find_extension::<ext::InhibitAnyPolicy>(alloc) {
        Ok(Some(known)) => counted_any(&known.value),
        Ok(None) => Some(None),
        Err(_) => None,
    }
}

fn counted_any(number: &IntRef<'_>) -> Option<Option<u64>>
    ensures some { IfSome result (λ n. (is_negative number.now.octets.now ≡ false)
        × (n ≡ Some (limit_number number.now.octets.now))) }
    ensures none { IfNone result (is_negative number.now.octets.now ≡ false → ⊥) }
{
    if !is_positive(number) {
        return None;
    }
    Some(Some(number_of(number)))
}
