//! The extensions of a certificate: none twice (RFC 5280, 4.2), the critical ones processed (6.1.4
//! (o), 6.1.5 (f)), and those that are processed well-formed.
ghost use Rattle.std.specs.Prelude.{◌≡◌, ◌↔◌, false, true, IsTrue};
ghost use Rattle.der_asn1.specs.Forms.{is_false};
ghost use Rattle.x509.specs.ExtensionIdentifiers.{id_ce};
ghost use Rattle.x509_lint.specs.CertificateChecks.{ExtensionsKeepIfPresent};
ghost use Rattle.x509_lint.specs.declared.extension_rule.ExtensionRule.TheVariants as rule;
ghost use Rattle.x509_path.specs.Extensions.{AreUnderstood, AreUnderstoodIfPresent, IsFormed, IsInterpreted, IsKnown, IsPolicyLimit, IsProcessed, IsUnderstood, IsUnderstoodBy};

use crate::qualifiers::has_no_qualifiers;
use der_asn1::ObjectIdentifierRef;
use std::alloc::Global;
use x509::values::{
    id_ce_basic_constraints, id_ce_certificate_policies, id_ce_ext_key_usage,
    id_ce_inhibit_any_policy, id_ce_key_usage, id_ce_name_constraints, id_ce_policy_constraints,
    id_ce_policy_mappings, id_ce_subject_alt_name,
};
use x509::{Extension, Extensions, TbsCertificate};
use x509_lint::checks::extensions::extensions_keep;
use x509_lint::checks::found::has_pair;
use x509_lint::checks::value::value_keeps;
use x509_lint::{ExtensionRule, PairRule, ValueRule};

// Whether no extension occurs twice.
pub(crate) fn has_distinct_extensions(alloc: Global, signed: &TbsCertificate<'_>) -> bool
    ensures { IsTrue result ↔ ExtensionsKeepIfPresent rule.Instances signed.now }
{
    match &signed.extensions.0 {
        Some(extensions) => extensions_keep(alloc, &extensions.0, ExtensionRule::Instances),
        None => true,
    }
}

// Whether all critical extensions are processed, those that are processed are well-formed, and a
// nameConstraints is in the certificate of an authority only. `judges_policies` says whether the
// extensions that limit policies are processed.
pub(crate) fn is_understood(
    alloc: Global,
    signed: &TbsCertificate<'_>,
    judges_policies: bool,
) -> bool
    ensures { IsTrue result ↔ IsUnderstood judges_policies signed.now }
{
    are_understood_if_present(alloc, signed, judges_policies)
        && has_pair(alloc, signed, PairRule::NameConstraintsOfAuthority)
}

fn are_understood_if_present(
    alloc: Global,
    signed: &TbsCertificate<'_>,
    judges_policies: bool,
) -> bool
    ensures { IsTrue result ↔ AreUnderstoodIfPresent judges_policies signed.now }
{
    match &signed.extensions.0 {
        Some(extensions) => are_understood(alloc, &extensions.0, judges_policies),
        None => true,
    }
}

fn are_understood(alloc: Global, extensions: &Extensions<'_>, judges_policies: bool) -> bool
    ensures { IsTrue result ↔ AreUnderstood judges_policies extensions.now }
{
    for extension in extensions.items.iter(alloc) {
        if !is_extension_understood(alloc, &extension, judges_policies) {
            return false;
        }
    }
    true
}

fn is_extension_understood(alloc: Global, extension: &Extension<'_>, judges_policies: bool) -> bool
    ensures { IsTrue result ↔ IsUnderstoodBy judges_policies extension.now }
{
    let id = extension.extn_id.octets();
    if is_processed(id, judges_policies) {
        return is_formed_and_interpreted(alloc, extension);
    }
    !extension.is_critical() && !is_policy_limit(id)
}

// Whether the value is well-formed, and nothing in it has to be interpreted that is not.
fn is_formed_and_interpreted(alloc: Global, extension: &Extension<'_>) -> bool
    ensures { IsTrue result
        ↔ (IsFormed extension.now.extn_id.octets.now extension.now.extn_value.octets.now
        × IsInterpreted extension.now.extn_id.octets.now
        (is_false extension.now.critical.0.octets.now) extension.now.extn_value.octets.now) }
{
    let id = extension.extn_id.octets();
    let value = extension.extn_value.octets();
    is_formed(alloc, id, value) && is_interpreted(alloc, extension)
}

// Whether no policy has qualifiers, if the extension is a critical certificatePolicies.
fn is_interpreted(alloc: Global, extension: &Extension<'_>) -> bool
    ensures { IsTrue result ↔ IsInterpreted extension.now.extn_id.octets.now
        (is_false extension.now.critical.0.octets.now) extension.now.extn_value.octets.now }
{
    !is_critical_policies(extension) || has_no_qualifiers(alloc, extension.extn_value.octets())
}

fn is_critical_policies(extension: &Extension<'_>) -> bool
    ensures { IsTrue result ↔ ((extension.now.extn_id.octets.now ≡ id_ce 32)
        × (is_false extension.now.critical.0.octets.now ≡ false)) }
{
    is(extension.extn_id.octets(), &id_ce_certificate_policies()) && extension.is_critical()
}

// Whether the value is one of the type that the extension has, and no pathLenConstraint is negative.
fn is_formed(alloc: Global, id: &[u8], value: &[u8]) -> bool
    ensures { IsTrue result ↔ IsFormed id.now value.now }
{
    value_keeps(alloc, id, value, ValueRule::Contents)
        && value_keeps(alloc, id, value, ValueRule::PathLength)
}

// Whether the extensions with this identifier are processed.
fn is_processed(id: &[u8], judges_policies: bool) -> bool
    ensures { IsTrue result ↔ IsProcessed judges_policies id.now }
{
    is_known(id) || judges_policies && is_policy_limit(id)
}

fn is_known(id: &[u8]) -> bool
    ensures { IsTrue result ↔ IsKnown id.now }
{
    is(id, &id_ce_key_usage())
        || is(id, &id_ce_subject_alt_name())
        || is(id, &id_ce_basic_constraints())
        || is(id, &id_ce_name_constraints())
        || is(id, &id_ce_certificate_policies())
        || is(id, &id_ce_ext_key_usage())
}

fn is_policy_limit(id: &[u8]) -> bool
    ensures { IsTrue result ↔ IsPolicyLimit id.now }
{
    is(id, &id_ce_policy_mappings())
        || is(id, &id_ce_policy_constraints())
        || is(id, &id_ce_inhibit_any_policy())
}

// Whether the octets are the contents of the identifier.
pub(crate) fn is(id: &[u8], other: &ObjectIdentifierRef<'_>) -> bool
    ensures { IsTrue result ↔ (id.now ≡ other.now.octets.now) }
{
    id == other.octets()
}
