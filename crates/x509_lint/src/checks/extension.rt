//! Checks of one extension (RFC 5280, 4.2).
ghost use Rattle.std.specs.Prelude.{◌↔◌, true, IsTrue};
ghost use Rattle.x509_lint.specs.ExtensionChecks.{HasUsageIfKeyUsage, IsCriticalIfAuthority, IsCriticalIfRequired, IsNotCriticalIfForbidden, IsNotEmpty};
ghost use Rattle.x509_lint.specs.ExtensionChecks.{IsAccess, IsListOfNames, IsListOfPlaces, IsListOfPolicies, MustBeCritical, MustNotBeCritical, MustNotBeEmpty};

use crate::checks::identifiers::is;
use crate::values::{has_authority, has_usage};
use std::alloc::Global;
use x509::Extension;
use x509::values::{
    id_ce_authority_key_identifier, id_ce_basic_constraints, id_ce_c_rl_distribution_points,
    id_ce_certificate_policies, id_ce_ext_key_usage, id_ce_freshest_crl, id_ce_inhibit_any_policy,
    id_ce_issuer_alt_name, id_ce_key_usage, id_ce_name_constraints, id_ce_policy_constraints,
    id_ce_policy_mappings, id_ce_subject_alt_name, id_ce_subject_directory_attributes,
    id_ce_subject_key_identifier, id_pe_authority_info_access, id_pe_subject_info_access,
};

/// False if RFC 5280 requires the extension to be critical, and the extension is not critical.
/// Otherwise true. The requirement is for nameConstraints, policyConstraints and inhibitAnyPolicy
/// (4.2.1.10, 4.2.1.11, 4.2.1.14). Decoding does not check this.
pub fn is_critical_if_required(extension: &Extension<'_>) -> bool
    ensures { IsTrue result ↔ IsCriticalIfRequired extension.now }
{
    extension.is_critical() || !must_be_critical(extension.extn_id.octets())
}

/// False if RFC 5280 requires the extension to be non-critical, and the extension is critical.
/// Otherwise true. Decoding does not check this. The requirement is for these extensions:
///
/// - authorityKeyIdentifier (4.2.1.1) and subjectKeyIdentifier (4.2.1.2);
/// - subjectDirectoryAttributes (4.2.1.8);
/// - freshestCRL (4.2.1.15);
/// - authorityInfoAccess and subjectInfoAccess (4.2.2).
pub fn is_not_critical_if_forbidden(extension: &Extension<'_>) -> bool
    ensures { IsTrue result ↔ IsNotCriticalIfForbidden extension.now }
{
    !extension.is_critical() || !must_not_be_critical(extension.extn_id.octets())
}

/// False if the value is an empty SEQUENCE, and RFC 5280, 4.2, requires that this SEQUENCE has an
/// element. Otherwise true. Decoding does not check this.
pub fn is_not_empty(extension: &Extension<'_>) -> bool
    ensures { IsTrue result ↔ IsNotEmpty extension.now }
{
    extension.extn_value.octets() != [0x30, 0x00].as_slice()
        || !must_not_be_empty(extension.extn_id.octets())
}

/// False if the extension is a keyUsage and none of its bits is one (RFC 5280, 4.2.1.3). Otherwise
/// true. Decoding does not check this. The function does not use `alloc`.
pub fn has_usage_if_key_usage(alloc: Global, extension: &Extension<'_>) -> bool
    ensures { IsTrue result ↔ HasUsageIfKeyUsage extension.now }
{
    !is(extension.extn_id.octets(), &id_ce_key_usage())
        || has_usage(alloc, extension.extn_value.octets())
}

/// False if the extension is a basicConstraints whose cA is true, and the extension is not critical
/// (RFC 5280, 4.2.1.9). Otherwise true. Decoding does not check this. The function does not use
/// `alloc`.
pub fn is_critical_if_authority(alloc: Global, extension: &Extension<'_>) -> bool
    ensures { IsTrue result ↔ IsCriticalIfAuthority extension.now }
{
    extension.is_critical()
        || !is(extension.extn_id.octets(), &id_ce_basic_constraints())
        || !has_authority(alloc, extension.extn_value.octets())
}

fn must_be_critical(id: &[u8]) -> bool
    ensures { IsTrue result ↔ MustBeCritical id.now }
{
    is(id, &id_ce_name_constraints())
        || is(id, &id_ce_policy_constraints())
        || is(id, &id_ce_inhibit_any_policy())
}

fn must_not_be_critical(id: &[u8]) -> bool
    ensures { IsTrue result ↔ MustNotBeCritical id.now }
{
    is(id, &id_ce_authority_key_identifier())
        || is(id, &id_ce_subject_key_identifier())
        || is(id, &id_ce_subject_directory_attributes())
        || is(id, &id_ce_freshest_crl())
        || is_access(id)
}

// Whether the identifier is that of authorityInfoAccess or subjectInfoAccess.
pub(crate) fn is_access(id: &[u8]) -> bool
    ensures { IsTrue result ↔ IsAccess id.now }
{
    is(id, &id_pe_authority_info_access()) || is(id, &id_pe_subject_info_access())
}

fn must_not_be_empty(id: &[u8]) -> bool
    ensures { IsTrue result ↔ MustNotBeEmpty id.now }
{
    is_list_of_names(id) || is_list_of_policies(id) || is_list_of_places(id) || is_access(id)
}

// Whether the identifier is that of a list of names or attributes.
fn is_list_of_names(id: &[u8]) -> bool
    ensures { IsTrue result ↔ IsListOfNames id.now }
{
    is(id, &id_ce_subject_alt_name())
        || is(id, &id_ce_issuer_alt_name())
        || is(id, &id_ce_subject_directory_attributes())
        || is(id, &id_ce_name_constraints())
}

// Whether the identifier is that of a list of policies or purposes.
fn is_list_of_policies(id: &[u8]) -> bool
    ensures { IsTrue result ↔ IsListOfPolicies id.now }
{
    is(id, &id_ce_certificate_policies())
        || is(id, &id_ce_policy_mappings())
        || is(id, &id_ce_policy_constraints())
        || is(id, &id_ce_ext_key_usage())
}

// Whether the identifier is that of a list of places of revocation lists.
fn is_list_of_places(id: &[u8]) -> bool
    ensures { IsTrue result ↔ IsListOfPlaces id.now }
{
    is(id, &id_ce_c_rl_distribution_points()) || is(id, &id_ce_freshest_crl())
}
