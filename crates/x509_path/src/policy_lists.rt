//! The policies and the mappings of a certificate (RFC 5280, 4.2.1.4, 4.2.1.5).
ghost use Rattle.std.specs.Prelude.{◌≡◌, ◌≤◌, ◌<◌, ◌+◌, ◌∷◌, ◌++◌, [], ℕ, List, length, map, take, IfSome, IfNone};
ghost use Rattle.std.specs.Borrow.{Bor};
ghost use Rattle.path_rules.specs.declared.mapping.Mapping.{Mapping as AMapping};
ghost use Rattle.x509_path.specs.PolicyFactsOf.{ArePairs, HasMappings, HasPolicies, mapping_octets, pair_of, policy_octets, policy_of};
ghost use Rattle.x509_path.specs.Qualifiers.{ArePolicies};
ghost use Rattle.x509_path.specs.PolicyRooms.{Fills, IsWithin, Pushed, Puts, filled};

use crate::filled::Filled;
use path_rules::Mapping;
use std::alloc::Global;
use x509::{CertificatePolicies, PolicyMapping, PolicyMappings, TbsCertificate, ext};

// Puts the policies of a certificate into a room, from a place on.
pub(crate) fn put_policies<'a>(
    alloc: Global,
    signed: &TbsCertificate<'a>,
    room: &mut [&'a [u8]],
    start: usize,
) -> Filled
    requires { start ≤ length room.old }
    ensures { Fills (λ (xs : List (Bor (List ℕ))). HasPolicies xs signed.now) room.old
        room.new start result }
{
    match signed.find_extension::<ext::CertificatePolicies>(alloc) {
        Ok(Some(known)) => filled(put_identifiers(alloc, &known.value, room, start)),
        Ok(None) => Filled::To(start),
        Err(_) => Filled::Unreadable,
    }
}

fn put_identifiers<'a>(
    alloc: Global,
    policies: &CertificatePolicies<'a>,
    room: &mut [&'a [u8]],
    start: usize,
) -> Option<usize>
    requires { start ≤ length room.old }
    ensures { (l : ArePolicies policies.now.octets.now)
        × Puts policy_octets room.old room.new start result (map policy_of l.items) }
{
    let mut end = Some(start);
    'policies: for policy in policies.iter(alloc) {
        end = put_policy(room, end, policy.policy_identifier.octets());
    }
    end
}

// Puts a policy at a place, if there is one, and the room is not full there.
fn put_policy<'a>(room: &mut [&'a [u8]], end: Option<usize>, policy: &'a [u8]) -> Option<usize>
    requires { IsWithin room.old end }
    ensures pushed { Pushed room.old room.new end policy.entry result }
    ensures whole { length room.new ≡ length room.old }
{
    match end {
        Some(at) => push_policy(room, at, policy),
        None => None,
    }
}

fn push_policy<'a>(room: &mut [&'a [u8]], at: usize, policy: &'a [u8]) -> Option<usize>
    requires { at ≤ length room.old }
    ensures some { IfSome result (λ n. (n ≡ at + 1) × (at < length room.old)
        × (take n room.new ≡ take at room.old ++ policy.entry ∷ [])) }
    ensures none { IfNone result (length room.old ≤ at) }
{
    if at == room.len() {
        return None;
    }
    room[at] = policy;
    Some(at + 1)
}

fn filled(end: Option<usize>) -> Filled
    ensures { result ≡ filled end }
{
    match end {
        Some(place) => Filled::To(place),
        None => Filled::NoRoom,
    }
}

// Puts the mappings of a certificate into a room, from a place on.
pub(crate) fn put_mappings<'a>(
    alloc: Global,
    signed: &TbsCertificate<'a>,
    room: &mut [Mapping<'a>],
    start: usize,
) -> Filled
    requires { start ≤ length room.old }
    ensures { Fills (λ (xs : List AMapping). HasMappings xs signed.now) room.old
        room.new start result }
{
    match signed.find_extension::<ext::PolicyMappings>(alloc) {
        Ok(Some(known)) => filled(put_pairs(alloc, &known.value, room, start)),
        Ok(None) => Filled::To(start),
        Err(_) => Filled::Unreadable,
    }
}

fn put_pairs<'a>(
    alloc: Global,
    mappings: &PolicyMappings<'a>,
    room: &mut [Mapping<'a>],
    start: usize,
) -> Option<usize>
    requires { start ≤ length room.old }
    ensures { (l : ArePairs mappings.now.octets.now)
        × Puts mapping_octets room.old room.new start result (map pair_of l.items) }
{
    let mut end = Some(start);
    'mappings: for mapping in mappings.iter(alloc) {
        end = put_mapping(room, end, mapping_from(&mapping));
    }
    end
}

fn mapping_from<'a>(mapping: &PolicyMapping<'a>) -> Mapping<'a>
    ensures { mapping_octets result ≡ pair_of mapping.now }
{
    Mapping {
        issuer: mapping.issuer_domain_policy.octets(),
        subject: mapping.subject_domain_policy.octets(),
    }
}

// Puts a mapping at a place, if there is one, and the room is not full there.
fn put_mapping<'a>(
    room: &mut [Mapping<'a>],
    end: Option<usize>,
    mapping: Mapping<'a>,
) -> Option<usize>
    requires { IsWithin room.old end }
    ensures pushed { Pushed room.old room.new end mapping.entry result }
    ensures whole { length room.new ≡ length room.old }
{
    match end {
        Some(at) => push_mapping(room, at, mapping),
        None => None,
    }
}

fn push_mapping<'a>(room: &mut [Mapping<'a>], at: usize, mapping: Mapping<'a>) -> Option<usize>
    requires { at ≤ length room.old }
    ensures some { IfSome result (λ n. (n ≡ at + 1) × (at < length room.old)
        × (take n room.new ≡ take at room.old ++ mapping.entry ∷ [])) }
    ensures none { IfNone result (length room.old ≤ at) }
{
    if at == room.len() {
        return None;
    }
    room[at] = mapping;
    Some(at + 1)
}
