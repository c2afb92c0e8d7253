//! Whether the value of an extension is an encoding of its type (RFC 5280, 4.2.1 and 4.2.2).
ghost use Rattle.std.specs.Prelude.{◌↔◌, IsTrue};
ghost use Rattle.x509_lint.specs.ValueTypes.{ArePurposes, HasKeys, HasPlaces, HasPolicies, HasPoliciesAndKeys, HasValueOfType, IsIdentifierValue, IsNumberValue, IsPurposesValue, IsUsageValue};

use crate::checks::extension::is_access;
use crate::checks::identifiers::is;
use crate::checks::kinds::{is_alt_names, is_points};
use crate::elements::{contents_with, each_element};
use crate::items::{are_items, is_list_of, is_one_of};
use crate::part_test::PartTest;
use der::Tag;
use der_asn1::{AnyRef, IntRef, NamedBitsRef};
use std::alloc::Global;
use x509::values::{
    id_ce_authority_key_identifier, id_ce_basic_constraints, id_ce_certificate_policies,
    id_ce_ext_key_usage, id_ce_inhibit_any_policy, id_ce_key_usage, id_ce_name_constraints,
    id_ce_policy_constraints, id_ce_policy_mappings, id_ce_subject_directory_attributes,
    id_ce_subject_key_identifier,
};
use x509::{
    AccessDescription, Attribute, AuthorityKeyIdentifier, BasicConstraints, DistributionPoint,
    GeneralName, NameConstraints, PolicyConstraints, PolicyInformation, PolicyMapping,
};

/// Whether the value of an extension is an encoding of the type that RFC 5280 gives to the
/// extension. `id` are the contents octets of the identifier of the extension, and `value` is the
/// octets inside its OCTET STRING. True if RFC 5280 does not define an extension with this
/// identifier. The function does not use `alloc`.
pub fn has_value_of_type<'a>(alloc: Global, id: &[u8], value: &'a [u8]) -> bool
    ensures { IsTrue result ↔ HasValueOfType id.now value.now }
{
    has_places(alloc, id, value) && has_policies_and_keys(alloc, id, value)
}

fn has_policies_and_keys<'a>(alloc: Global, id: &[u8], value: &'a [u8]) -> bool
    ensures { IsTrue result ↔ HasPoliciesAndKeys id.now value.now }
{
    has_policies(alloc, id, value) && has_keys(alloc, id, value)
}

// Names, attributes, and descriptions of places.
fn has_places<'a>(alloc: Global, id: &[u8], value: &'a [u8]) -> bool
    ensures { IsTrue result ↔ HasPlaces id.now value.now }
{
    if is_alt_names(id) {
        return is_list_of::<'a, GeneralName<'a>>(alloc, value);
    }
    if is(id, &id_ce_subject_directory_attributes()) {
        return is_list_of::<'a, Attribute<'a>>(alloc, value);
    }
    if is_points(id) {
        return is_list_of::<'a, DistributionPoint<'a>>(alloc, value);
    }
    !is_access(id) || is_list_of::<'a, AccessDescription<'a>>(alloc, value)
}

// Policies and purposes.
fn has_policies<'a>(alloc: Global, id: &[u8], value: &'a [u8]) -> bool
    ensures { IsTrue result ↔ HasPolicies id.now value.now }
{
    if is(id, &id_ce_certificate_policies()) {
        return is_list_of::<'a, PolicyInformation<'a>>(alloc, value);
    }
    if is(id, &id_ce_policy_mappings()) {
        return is_list_of::<'a, PolicyMapping<'a>>(alloc, value);
    }
    if is(id, &id_ce_policy_constraints()) {
        return is_one_of::<'a, PolicyConstraints<'a>>(alloc, value);
    }
    if is(id, &id_ce_ext_key_usage()) {
        return are_purposes(alloc, value);
    }
    !is(id, &id_ce_inhibit_any_policy()) || is_number(alloc, value)
}

// Keys and constraints.
fn has_keys<'a>(alloc: Global, id: &[u8], value: &'a [u8]) -> bool
    ensures { IsTrue result ↔ HasKeys id.now value.now }
{
    if is(id, &id_ce_authority_key_identifier()) {
        return is_one_of::<'a, AuthorityKeyIdentifier<'a>>(alloc, value);
    }
    if is(id, &id_ce_subject_key_identifier()) {
        return is_identifier(alloc, value);
    }
    if is(id, &id_ce_key_usage()) {
        return is_usage(alloc, value);
    }
    if is(id, &id_ce_basic_constraints()) {
        return is_one_of::<'a, BasicConstraints<'a>>(alloc, value);
    }
    !is(id, &id_ce_name_constraints()) || is_one_of::<'a, NameConstraints<'a>>(alloc, value)
}

fn is_usage(alloc: Global, value: &[u8]) -> bool
    ensures { IsTrue result ↔ IsUsageValue value.now }
{
    match contents_with(alloc, value, Tag::BitString) {
        Some(contents) => NamedBitsRef::new(contents).is_some(),
        None => false,
    }
}

fn is_identifier(alloc: Global, value: &[u8]) -> bool
    ensures { IsTrue result ↔ IsIdentifierValue value.now }
{
    match contents_with(alloc, value, Tag::OctetString) {
        Some(_contents) => true,
        None => false,
    }
}

fn is_number(alloc: Global, value: &[u8]) -> bool
    ensures { IsTrue result ↔ IsNumberValue value.now }
{
    match contents_with(alloc, value, Tag::Integer) {
        Some(contents) => IntRef::new(contents).is_some(),
        None => false,
    }
}

fn are_purposes<'a>(alloc: Global, value: &'a [u8]) -> bool
    ensures { IsTrue result ↔ IsPurposesValue value.now }
{
    match contents_with(alloc, value, Tag::Sequence) {
        Some(contents) => are_identifiers(alloc, contents),
        None => false,
    }
}

fn are_identifiers<'a>(alloc: Global, contents: &'a [u8]) -> bool
    ensures { IsTrue result ↔ ArePurposes contents.now }
{
    are_items::<'a, AnyRef<'a>>(alloc, contents)
        && each_element(alloc, contents, &PartTest::Identifier)
}
