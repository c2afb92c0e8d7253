//! Search for extensions of a given kind in a certificate.
ghost use Rattle.std.specs.Prelude.{◌↔◌, IsTrue};
ghost use Rattle.der.specs.Prelude.{Integer};
ghost use Rattle.x509_lint.specs.CertificateChecks.{IsPresent};
ghost use Rattle.x509_lint.specs.ExtensionTests.{HasFound, IsFound, given_of, wanted_of};

use crate::checks::identifiers::is;
use crate::extension_test::ExtensionTest;
use crate::forms::context;
use crate::pair_rule::PairRule;
use crate::values::{has_authority, has_cert_sign, has_mixed_kinds, has_part, is_long_number};
use der::Tag;
use std::alloc::Global;
use x509::values::{
    id_ce_authority_key_identifier, id_ce_basic_constraints, id_ce_c_rl_number,
    id_ce_delta_crl_indicator, id_ce_freshest_crl, id_ce_issuing_distribution_point,
    id_ce_key_usage, id_ce_name_constraints, id_ce_subject_alt_name, id_ce_subject_key_identifier,
    id_pe_authority_info_access,
};
use x509::{Extension, Extensions, TbsCertificate};

/// Whether the certificate keeps the rule, which is about two extensions. The certificate must have
/// the second extension, if it has the first. The function does not use `alloc`.
pub fn has_pair(alloc: Global, signed: &TbsCertificate<'_>, rule: PairRule) -> bool
    ensures { IsTrue result
        ↔ (IsPresent (given_of rule) signed.now → IsPresent (wanted_of rule) signed.now) }
{
    !is_present(alloc, signed, rule.given()) || is_present(alloc, signed, rule.wanted())
}

/// Whether the certificate has an extension of the kind `test`. This does not use `alloc`.
pub fn is_present(alloc: Global, signed: &TbsCertificate<'_>, test: ExtensionTest) -> bool
    ensures { IsTrue result ↔ IsPresent test signed.now }
{
    match &signed.extensions.0 {
        Some(extensions) => has_extension(alloc, &extensions.0, test),
        None => false,
    }
}

/// Whether one of the extensions is of the kind `test`. This does not use `alloc`.
pub fn has_extension(alloc: Global, extensions: &Extensions<'_>, test: ExtensionTest) -> bool
    ensures { IsTrue result ↔ HasFound test extensions.now }
{
    for extension in extensions.items.iter(alloc) {
        if is_found(alloc, &extension, test) {
            return true;
        }
    }
    false
}

// Whether the extension is looked for.
fn is_found(alloc: Global, extension: &Extension<'_>, test: ExtensionTest) -> bool
    ensures { IsTrue result ↔ IsFound test extension.now }
{
    let id = extension.extn_id.octets();
    let value = extension.extn_value.octets();
    match test {
        ExtensionTest::CriticalAltName => {
            is(id, &id_ce_subject_alt_name()) && extension.is_critical()
        }
        ExtensionTest::KeyUsage => is(id, &id_ce_key_usage()),
        ExtensionTest::CertSign => is(id, &id_ce_key_usage()) && has_cert_sign(alloc, value),
        ExtensionTest::SubjectKeyIdentifier => is(id, &id_ce_subject_key_identifier()),
        ExtensionTest::KeyIdentifier => {
            is(id, &id_ce_authority_key_identifier()) && has_part(alloc, value, context(false, 0))
        }
        ExtensionTest::NameConstraints => is(id, &id_ce_name_constraints()),
        ExtensionTest::Authority => {
            is(id, &id_ce_basic_constraints()) && has_authority(alloc, value)
        }
        ExtensionTest::PathLength => {
            is(id, &id_ce_basic_constraints()) && has_part(alloc, value, Tag::Integer)
        }
        ExtensionTest::Number => is(id, &id_ce_c_rl_number()),
        ExtensionTest::CriticalNumber => { is(id, &id_ce_c_rl_number()) && extension.is_critical() }
        ExtensionTest::PlainDelta => {
            is(id, &id_ce_delta_crl_indicator()) && !extension.is_critical()
        }
        ExtensionTest::PlainPoint => {
            is(id, &id_ce_issuing_distribution_point()) && !extension.is_critical()
        }
        ExtensionTest::CriticalFreshest => {
            is(id, &id_ce_freshest_crl()) && extension.is_critical()
        }
        ExtensionTest::Freshest => is(id, &id_ce_freshest_crl()),
        ExtensionTest::Delta => is(id, &id_ce_delta_crl_indicator()),
        ExtensionTest::CriticalAccess => {
            is(id, &id_pe_authority_info_access()) && extension.is_critical()
        }
        ExtensionTest::LongNumber => is(id, &id_ce_c_rl_number()) && is_long_number(alloc, value),
        ExtensionTest::MixedPoint => {
            is(id, &id_ce_issuing_distribution_point()) && has_mixed_kinds(alloc, value)
        }
        ExtensionTest::EmptyPoint => {
            is(id, &id_ce_issuing_distribution_point()) && value == [0x30, 0x00].as_slice()
        }
        ExtensionTest::IndirectPoint => {
            is(id, &id_ce_issuing_distribution_point()) && has_part(alloc, value, context(false, 4))
        }
    }
}
