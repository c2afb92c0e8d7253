//! What the nameConstraints of one certificate say of the names of another (RFC 5280, 4.2.1.10).
ghost use Rattle.std.specs.Prelude.{◌≡◌, ◌↔◌, IsTrue, Some, None};
ghost use Rattle.std.specs.Option.{option_map};
ghost use Rattle.x509.specs.ExtensionIdentifiers.{id_ce};
ghost use Rattle.x509_path.specs.Names.{AreNamesJudged, HasAltNameVerdict, HasIssuerVerdict, HasListVerdict, HasNamesVerdict, IsAltNameVerdict, IsExtensionVerdict, IsOccurrenceVerdict, IsSubjectVerdict, IsValueVerdict};

use crate::extensions::is;
use crate::names::first_refusal;
use der_asn1::{SequenceOf, lawful_from_der};
use std::alloc::Global;
use x509::values::{id_ce_name_constraints, id_ce_subject_alt_name};
use x509::{
    Extension, Extensions, GeneralNames, Name, NameConstraints, Occurrence,
    RelativeDistinguishedName, TbsCertificate,
};
use x509_names::{Verdict, names_verdict, subject_verdict};

// The verdict of the nameConstraints of an issuer on the names of a certificate.
pub(crate) fn issuer_verdict(
    alloc: Global,
    issuer: &TbsCertificate<'_>,
    signed: &TbsCertificate<'_>,
) -> Verdict
    ensures { HasIssuerVerdict signed.now issuer.now result }
{
    match &issuer.extensions.0 {
        Some(extensions) => extensions_verdict(alloc, &extensions.0, signed),
        None => Verdict::Permitted,
    }
}

fn extensions_verdict(
    alloc: Global,
    extensions: &Extensions<'_>,
    signed: &TbsCertificate<'_>,
) -> Verdict
    ensures { HasListVerdict signed.now extensions.now result }
{
    let mut verdict = Verdict::Permitted;
    'extensions: for extension in extensions.items.iter(alloc) {
        verdict = first_refusal(verdict, extension_verdict(alloc, &extension, signed));
    }
    verdict
}

fn extension_verdict(
    alloc: Global,
    extension: &Extension<'_>,
    signed: &TbsCertificate<'_>,
) -> Verdict
    ensures { IsExtensionVerdict signed.now extension.now result }
{
    if is_name_constraints(extension) {
        return value_verdict(alloc, extension.extn_value.octets(), signed);
    }
    Verdict::Permitted
}

fn is_name_constraints(extension: &Extension<'_>) -> bool
    ensures { IsTrue result ↔ (extension.now.extn_id.octets.now ≡ id_ce 30) }
{
    is(extension.extn_id.octets(), &id_ce_name_constraints())
}

// A value that is no nameConstraints cannot be compared.
fn value_verdict<'c>(alloc: Global, value: &'c [u8], signed: &TbsCertificate<'_>) -> Verdict
    ensures { IsValueVerdict signed.now value.now result }
{
    match lawful_from_der::<NameConstraints<'c>>(alloc, value) {
        Ok(constraints) => constraints_verdict(alloc, &constraints, signed),
        Err(_) => Verdict::Unclear,
    }
}

fn constraints_verdict(
    alloc: Global,
    constraints: &NameConstraints<'_>,
    signed: &TbsCertificate<'_>,
) -> Verdict
    ensures { HasNamesVerdict signed.now constraints.now result }
{
    let subject = signed.subject.levels.octets();
    match &signed.extensions.0 {
        Some(extensions) => alternatives_verdict(alloc, constraints, subject, &extensions.0),
        None => lone_subject_verdict(alloc, constraints, subject),
    }
}

// A subjectAltName that occurs twice cannot be compared.
fn alternatives_verdict(
    alloc: Global,
    constraints: &NameConstraints<'_>,
    subject: &[u8],
    extensions: &Extensions<'_>,
) -> Verdict
    ensures { HasAltNameVerdict constraints.now subject.now extensions.now result }
{
    match extensions.get(alloc, &id_ce_subject_alt_name()) {
        Occurrence::Absent => lone_subject_verdict(alloc, constraints, subject),
        Occurrence::Once(found) => {
            names_value_verdict(alloc, constraints, subject, found.extn_value.octets())
        }
        Occurrence::Several => Verdict::Unclear,
    }
}

// A value that is no subjectAltName cannot be compared.
fn names_value_verdict<'c>(
    alloc: Global,
    constraints: &NameConstraints<'_>,
    subject: &[u8],
    value: &'c [u8],
) -> Verdict
    ensures { IsAltNameVerdict constraints.now subject.now value.now result }
{
    match lawful_from_der::<GeneralNames<'c>>(alloc, value) {
        Ok(names) => all_names_verdict(alloc, constraints, subject, &names),
        Err(_) => Verdict::Unclear,
    }
}

fn all_names_verdict(
    alloc: Global,
    constraints: &NameConstraints<'_>,
    subject: &[u8],
    names: &GeneralNames<'_>,
) -> Verdict
    ensures { AreNamesJudged constraints.now subject.now names.now.octets.now result }
{
    let first = named_subject_verdict(alloc, constraints, subject, names);
    first_refusal(first, names_verdict(alloc, constraints, names))
}

fn named_subject_verdict(
    alloc: Global,
    constraints: &NameConstraints<'_>,
    subject: &[u8],
    names: &GeneralNames<'_>,
) -> Verdict
    ensures { IsSubjectVerdict constraints.now subject.now (Some names.now.octets.now) result }
{
    octets_verdict(alloc, constraints, subject, Some(names))
}

fn lone_subject_verdict(alloc: Global, constraints: &NameConstraints<'_>, subject: &[u8]) -> Verdict
    ensures { IsSubjectVerdict constraints.now subject.now None result }
{
    octets_verdict(alloc, constraints, subject, None)
}

// The verdict on a subject with these levels.
fn octets_verdict<'s>(
    alloc: Global,
    constraints: &NameConstraints<'_>,
    subject: &'s [u8],
    names: Option<&GeneralNames<'_>>,
) -> Verdict
    ensures { IsSubjectVerdict constraints.now subject.now
        (option_map (λ n. n.now.octets.now) names.entry) result }
{
    match SequenceOf::<'s, RelativeDistinguishedName<'s>>::new(alloc, subject) {
        Ok(levels) => subject_verdict(alloc, constraints, Name { levels }, names),
        Err(_) => Verdict::Unclear,
    }
}
