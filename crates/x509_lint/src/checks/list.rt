//! Checks of revocation lists (RFC 5280, 5.1 to 5.3).
ghost use Rattle.std.specs.Prelude.{◌↔◌, IsTrue};
ghost use Rattle.x509_lint.specs.CertificateChecks.{ExtensionsKeep};
ghost use Rattle.x509_lint.specs.ListRules.{EntriesKeep, HasEntryVersion, HasFreshestOfComplete, HasInList, HasIssuerOfIndirect, HasListExtensionIfPresent, HasListTimes, HasListVersion, HasRemovedInChanges, HasRevokedIfPresent, HasSingleExtensions, ListKeeps};

use crate::checks::extensions::extensions_keep;
use crate::checks::found::has_extension;
use crate::checks::name::name_keeps;
use crate::checks::presence::has_item;
use crate::checks::times::has_form_of_year;
use crate::checks::{is_same_algorithm, number_of};
use crate::entry_test::{EntryTest, entries_keep};
use crate::extension_rule::ExtensionRule;
use crate::extension_test::ExtensionTest;
use crate::identifier::Identifier;
use crate::list_rule::ListRule;
use std::alloc::Global;
use x509::{CertificateList, TbsCertList};

/// Whether the revocation list keeps the rule. This does not use `alloc`.
pub fn list_keeps(alloc: Global, list: &CertificateList<'_>, rule: ListRule) -> bool
    ensures { IsTrue result ↔ ListKeeps rule list.now }
{
    let signed = &list.tbs_cert_list;
    match rule {
        ListRule::SameAlgorithms => {
            is_same_algorithm(&list.signature_algorithm, &signed.signature)
        }
        ListRule::Version => has_list_version(signed),
        ListRule::IssuerPresent => has_item(&signed.issuer.levels),
        ListRule::Issuer(rule) => name_keeps(alloc, &signed.issuer, rule),
        ListRule::TimeForms => has_list_times(signed),
        ListRule::NextUpdate => signed.next_update.0.is_some(),
        ListRule::RevokedPresent => has_revoked_if_present(signed),
        ListRule::ExtensionPresent => has_list_extension_if_present(signed),
        ListRule::Instances => has_single_extensions(alloc, signed),
        ListRule::KeyIdentifier => has_in_list(alloc, signed, ExtensionTest::KeyIdentifier),
        ListRule::Number => has_in_list(alloc, signed, ExtensionTest::Number),
        ListRule::NumberNotCritical => {
            !has_in_list(alloc, signed, ExtensionTest::CriticalNumber)
        }
        ListRule::DeltaCritical => !has_in_list(alloc, signed, ExtensionTest::PlainDelta),
        ListRule::PointCritical => !has_in_list(alloc, signed, ExtensionTest::PlainPoint),
        ListRule::FreshestNotCritical => {
            !has_in_list(alloc, signed, ExtensionTest::CriticalFreshest)
        }
        ListRule::EntryTimes => entries_of_keep(alloc, signed, EntryTest::Times),
        ListRule::EntryVersion => has_entry_version(alloc, signed),
        ListRule::NumberLength => !has_in_list(alloc, signed, ExtensionTest::LongNumber),
        ListRule::PointKinds => !has_in_list(alloc, signed, ExtensionTest::MixedPoint),
        ListRule::PointNotEmpty => !has_in_list(alloc, signed, ExtensionTest::EmptyPoint),
        ListRule::FreshestOfComplete => has_freshest_of_complete(alloc, signed),
        ListRule::AccessNotCritical => {
            !has_in_list(alloc, signed, ExtensionTest::CriticalAccess)
        }
        ListRule::ReasonNotCritical => {
            entries_of_keep(alloc, signed, EntryTest::NotCritical(Identifier::Reason))
        }
        ListRule::RemovedInChanges => has_removed_in_changes(alloc, signed),
        ListRule::DateNotCritical => {
            entries_of_keep(
                alloc,
                signed,
                EntryTest::NotCritical(Identifier::InvalidityDate),
            )
        }
        ListRule::IssuerCritical => entries_of_keep(alloc, signed, EntryTest::IssuerCritical),
        ListRule::IssuerOfIndirect => has_issuer_of_indirect(alloc, signed),
    }
}

// Whether the version is present, if an entry has extensions.
fn has_entry_version(alloc: Global, signed: &TbsCertList<'_>) -> bool
    ensures { IsTrue result ↔ HasEntryVersion signed.now }
{
    entries_of_keep(alloc, signed, EntryTest::NoExtensions) || signed.version.0.is_some()
}

fn has_freshest_of_complete(alloc: Global, signed: &TbsCertList<'_>) -> bool
    ensures { IsTrue result ↔ HasFreshestOfComplete signed.now }
{
    !has_in_list(alloc, signed, ExtensionTest::Freshest)
        || !has_in_list(alloc, signed, ExtensionTest::Delta)
}

fn has_removed_in_changes(alloc: Global, signed: &TbsCertList<'_>) -> bool
    ensures { IsTrue result ↔ HasRemovedInChanges signed.now }
{
    has_in_list(alloc, signed, ExtensionTest::Delta)
        || entries_of_keep(alloc, signed, EntryTest::NotRemoved)
}

fn has_issuer_of_indirect(alloc: Global, signed: &TbsCertList<'_>) -> bool
    ensures { IsTrue result ↔ HasIssuerOfIndirect signed.now }
{
    entries_of_keep(alloc, signed, EntryTest::NoIssuer)
        || has_in_list(alloc, signed, ExtensionTest::IndirectPoint)
}

// Whether all entries keep the test.
fn entries_of_keep(alloc: Global, signed: &TbsCertList<'_>, test: EntryTest) -> bool
    ensures { IsTrue result ↔ EntriesKeep test signed.now }
{
    match &signed.revoked_certificates.0 {
        Some(revoked) => entries_keep(alloc, revoked.octets(), test),
        None => true,
    }
}

// Whether the version is 2, if it is present, and present with extensions.
fn has_list_version(signed: &TbsCertList<'_>) -> bool
    ensures { IsTrue result ↔ HasListVersion signed.now }
{
    match &signed.version.0 {
        Some(version) => number_of(version.octets()) == 1,
        None => signed.crl_extensions.0.is_none(),
    }
}

fn has_list_times(signed: &TbsCertList<'_>) -> bool
    ensures { IsTrue result ↔ HasListTimes signed.now }
{
    match &signed.next_update.0 {
        Some(next) => has_form_of_year(&signed.this_update) && has_form_of_year(next),
        None => has_form_of_year(&signed.this_update),
    }
}

fn has_revoked_if_present(signed: &TbsCertList<'_>) -> bool
    ensures { IsTrue result ↔ HasRevokedIfPresent signed.now }
{
    match &signed.revoked_certificates.0 {
        Some(revoked) => has_item(revoked),
        None => true,
    }
}

fn has_list_extension_if_present(signed: &TbsCertList<'_>) -> bool
    ensures { IsTrue result ↔ HasListExtensionIfPresent signed.now }
{
    match &signed.crl_extensions.0 {
        Some(extensions) => has_item(&extensions.0.items),
        None => true,
    }
}

fn has_single_extensions(alloc: Global, signed: &TbsCertList<'_>) -> bool
    ensures { IsTrue result ↔ HasSingleExtensions signed.now }
{
    match &signed.crl_extensions.0 {
        Some(extensions) => extensions_keep(alloc, &extensions.0, ExtensionRule::Instances),
        None => true,
    }
}

// Whether the list has such an extension.
fn has_in_list(alloc: Global, signed: &TbsCertList<'_>, test: ExtensionTest) -> bool
    ensures { IsTrue result ↔ HasInList test signed.now }
{
    match &signed.crl_extensions.0 {
        Some(extensions) => has_extension(alloc, &extensions.0, test),
        None => false,
    }
}
