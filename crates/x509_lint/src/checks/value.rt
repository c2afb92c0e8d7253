//! Checks of the values of extensions (RFC 5280, 4.2.1 and 4.2.2).
ghost use Rattle.std.specs.Prelude.{◌≡◌, ◌↔◌, ◌^◌, ◌<◌, length, false, true, IsTrue};
ghost use Rattle.der.specs.Prelude.{Integer};
ghost use Rattle.der_asn1.specs.ContextSpecific.{context_tag};
ghost use Rattle.x509.specs.ExtensionIdentifiers.{id_ce};
ghost use Rattle.x509_lint.specs.Elements.{EachOfSequence};
ghost use Rattle.x509_lint.specs.ExtensionChecks.{IsAccess};
ghost use Rattle.x509_lint.specs.ExtensionKinds.{IsPoints};
ghost use Rattle.x509_lint.specs.FieldRules.{BasesKeep, PointKeeps, PolicyKeeps};
ghost use Rattle.x509_lint.specs.Groups.{GroupKeeps};
ghost use Rattle.x509_lint.specs.Parts.{PartKeeps};
ghost use Rattle.x509_lint.specs.PolicyChecks.{AreDistinctPolicies};
ghost use Rattle.x509_lint.specs.ValueRules.{HasDistinctPolicies, HasIssuerAndSerial, ValueKeeps};
ghost use Rattle.x509_lint.specs.Values.{HasAuthority, HasPart};

use crate::base_rule::BaseRule;
use crate::checks::extension::is_access;
use crate::checks::fields::{bases_keep, points_keep, policies_keep};
use crate::checks::identifiers::is;
use crate::checks::kinds::{is_alt_names, is_points};
use crate::checks::policies::has_distinct_policies;
use crate::checks::value_types::has_value_of_type;
use crate::elements::{contents_with, each_of_sequence};
use crate::forms::context;
use crate::group_test::GroupTest;
use crate::part_test::PartTest;
use crate::point_rule::PointRule;
use crate::policy_rule::PolicyRule;
use crate::value_rule::ValueRule;
use crate::values::{has_authority, has_part, is_not_negative};
use der::Tag;
use der_asn1::SequenceOf;
use std::alloc::Global;
use x509::PolicyInformation;
use x509::values::{
    id_ce_authority_key_identifier, id_ce_basic_constraints, id_ce_certificate_policies,
    id_ce_inhibit_any_policy, id_ce_name_constraints, id_ce_policy_constraints,
    id_ce_policy_mappings,
};

/// Whether the value of an extension keeps the rule. `id` are the contents octets of the identifier
/// of the extension, and `value` is the octets inside its OCTET STRING. True if the rule is for
/// other extensions. The function does not use `alloc`.
pub fn value_keeps(alloc: Global, id: &[u8], value: &[u8], rule: ValueRule) -> bool
    ensures { IsTrue result ↔ ValueKeeps rule id.now value.now }
{
    let numbers = PartTest::NotNegative;
    match rule {
        ValueRule::Contents => has_value_of_type(alloc, id, value),
        ValueRule::PathLengthOfAuthority => {
            !is(id, &id_ce_basic_constraints()) || is_limited_authority(alloc, value)
        }
        ValueRule::PathLength => {
            !is(id, &id_ce_basic_constraints()) || each_of_sequence(alloc, value, &numbers)
        }
        ValueRule::PolicyNumbers => {
            !is(id, &id_ce_policy_constraints()) || each_of_sequence(alloc, value, &numbers)
        }
        ValueRule::AnyPolicyNumber => {
            !is(id, &id_ce_inhibit_any_policy()) || is_not_negative(alloc, value)
        }
        ValueRule::DistinctPolicies => has_policies_once(alloc, id, value),
        ValueRule::Mappings => {
            !is(id, &id_ce_policy_mappings()) || groups_keep(alloc, value, GroupTest::Mapping)
        }
        ValueRule::Points => has_points(alloc, id, value),
        ValueRule::Subtrees => has_subtrees(alloc, id, value),
        ValueRule::SubtreesPresent => has_subtrees_present(alloc, id, value),
        ValueRule::Locations => has_locations(alloc, id, value),
        ValueRule::IssuerAndSerial => {
            !is(id, &id_ce_authority_key_identifier()) || has_issuer_and_serial(alloc, value)
        }
        ValueRule::Policies(rule) => has_policies_of(alloc, id, value, rule),
        ValueRule::PointFields(rule) => has_points_of(alloc, id, value, rule),
        ValueRule::Bases(rule) => has_bases_of(alloc, id, value, rule),
        ValueRule::Names(form) => {
            !is_alt_names(id) || each_of_sequence(alloc, value, &PartTest::Form(form))
        }
    }
}

// Whether the qualifiers of a certificatePolicies keep the rule.
fn has_policies_of(alloc: Global, id: &[u8], value: &[u8], rule: PolicyRule) -> bool
    ensures { IsTrue result ↔ (id.now ≡ id_ce 32 → PolicyKeeps rule value.now) }
{
    !is(id, &id_ce_certificate_policies()) || policies_keep(alloc, value, rule)
}

// Whether the fields of a list of distribution points keep the rule.
fn has_points_of(alloc: Global, id: &[u8], value: &[u8], rule: PointRule) -> bool
    ensures { IsTrue result ↔ (IsPoints id.now → PointKeeps rule value.now) }
{
    !is_points(id) || points_keep(alloc, value, rule)
}

// Whether the bases of a nameConstraints keep the rule.
fn has_bases_of(alloc: Global, id: &[u8], value: &[u8], rule: BaseRule) -> bool
    ensures { IsTrue result ↔ (id.now ≡ id_ce 30 → BasesKeep rule value.now) }
{
    !is(id, &id_ce_name_constraints()) || bases_keep(alloc, value, rule)
}

// Whether no policy occurs twice, if the value is that of a certificatePolicies.
fn has_policies_once(alloc: Global, id: &[u8], value: &[u8]) -> bool
    ensures { IsTrue result ↔ (id.now ≡ id_ce 32 → HasDistinctPolicies value.now) }
{
    !is(id, &id_ce_certificate_policies()) || are_distinct(alloc, value)
}

// Whether each distribution point has a name or an issuer, if the value is a list of these.
fn has_points(alloc: Global, id: &[u8], value: &[u8]) -> bool
    ensures { IsTrue result
        ↔ (IsPoints id.now → EachOfSequence (GroupKeeps GroupTest.Point) value.now) }
{
    !is_points(id) || groups_keep(alloc, value, GroupTest::Point)
}

// Whether each subtree has a base alone, if the value is that of a nameConstraints.
fn has_subtrees(alloc: Global, id: &[u8], value: &[u8]) -> bool
    ensures { IsTrue result
        ↔ (id.now ≡ id_ce 30 → EachOfSequence (GroupKeeps GroupTest.Subtrees) value.now) }
{
    !is(id, &id_ce_name_constraints()) || groups_keep(alloc, value, GroupTest::Subtrees)
}

// Whether each list of subtrees has an item, if the value is that of a nameConstraints.
fn has_subtrees_present(alloc: Global, id: &[u8], value: &[u8]) -> bool
    ensures { IsTrue result
        ↔ (id.now ≡ id_ce 30 → EachOfSequence (PartKeeps PartTest.NotEmpty) value.now) }
{
    !is(id, &id_ce_name_constraints()) || parts_keep(alloc, value, PartTest::NotEmpty)
}

// Whether each location that is a URI has a scheme, if the value is one of access descriptions.
fn has_locations(alloc: Global, id: &[u8], value: &[u8]) -> bool
    ensures { IsTrue result
        ↔ (IsAccess id.now → EachOfSequence (GroupKeeps GroupTest.Location) value.now) }
{
    !is_access(id) || groups_keep(alloc, value, GroupTest::Location)
}

// Whether a basicConstraints without a cA that is true has no limit of a path.
fn is_limited_authority(alloc: Global, value: &[u8]) -> bool
    ensures { IsTrue result ↔ (HasPart Integer value.now → HasAuthority value.now) }
{
    !has_part(alloc, value, Tag::Integer) || has_authority(alloc, value)
}

fn has_issuer_and_serial(alloc: Global, value: &[u8]) -> bool
    ensures { IsTrue result ↔ HasIssuerAndSerial value.now }
{
    if has_issuer(alloc, value) {
        has_serial(alloc, value)
    } else {
        !has_serial(alloc, value)
    }
}

fn has_issuer(alloc: Global, value: &[u8]) -> bool
    ensures { IsTrue result ↔ HasPart (context_tag true 1) value.now }
{
    has_part(alloc, value, context(true, 1))
}

fn has_serial(alloc: Global, value: &[u8]) -> bool
    ensures { IsTrue result ↔ HasPart (context_tag false 2) value.now }
{
    has_part(alloc, value, context(false, 2))
}

// Whether each element of a value keeps what the test demands.
fn parts_keep(alloc: Global, value: &[u8], test: PartTest) -> bool
    ensures { IsTrue result ↔ EachOfSequence (PartKeeps test) value.now }
{
    each_of_sequence(alloc, value, &test)
}

// Whether each mapping, distribution point or list of subtrees of a value keeps what the test demands.
fn groups_keep(alloc: Global, value: &[u8], test: GroupTest) -> bool
    ensures { IsTrue result ↔ EachOfSequence (GroupKeeps test) value.now }
{
    each_of_sequence(alloc, value, &test)
}

// Whether no policy occurs twice in the value of a certificatePolicies.
fn are_distinct(alloc: Global, value: &[u8]) -> bool
    ensures { IsTrue result ↔ HasDistinctPolicies value.now }
{
    match contents_with(alloc, value, Tag::Sequence) {
        Some(contents) => are_distinct_in(alloc, contents),
        None => true,
    }
}

fn are_distinct_in<'a>(alloc: Global, contents: &'a [u8]) -> bool
    ensures { IsTrue result ↔ (length contents.now < 2 ^ 32 → AreDistinctPolicies contents.now) }
{
    match SequenceOf::<'a, PolicyInformation<'a>>::new(alloc, contents) {
        Ok(policies) => has_distinct_policies(alloc, &policies),
        Err(_) => true,
    }
}
