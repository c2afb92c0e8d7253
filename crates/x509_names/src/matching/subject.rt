//! Comparison of the subject of a certificate with a nameConstraints.
ghost use Rattle.std.specs.Prelude.{◌≡◌, ◌≢◌, ◌↔◌, ◌&&◌, [], IsTrue};
ghost use Rattle.std.specs.Option.{option_map};
ghost use Rattle.x509_names.specs.Subjects.{HasAttributeVerdict, HasDirectoryVerdict, HasEmailsVerdict, HasLevelVerdict, HasMail, HasMailVerdict, HasSubjectVerdict, HaveMail, IsDirectoryVerdict, IsEmailAddress, IsMailVerdict, IsRfc822Name, is_ia5_tag, mailbox_of};

use crate::matching::names::first_refusal;
use crate::matching::verdict::{Verdict, name_verdict};
use der::Tag;
use der_asn1::{AnyRef, Explicit, Ia5StringRef, Implicit};
use std::alloc::Global;
use x509::{
    AttributeTypeAndValue, GeneralName, GeneralNames, Name, NameConstraints,
    RelativeDistinguishedName,
};

/// Compares the subject of a certificate with the subtrees of a nameConstraints (RFC 5280, 4.2.1.10;
/// 6.1.3 (b) and (c)). `names` are the subjectAltName of the same certificate, if it has one. This
/// function does not compare them: call [`names_verdict`](crate::matching::names_verdict) too.
///
/// The subject is compared as a directoryName, unless it is empty. If no name in `names` is an
/// rfc822Name, each attribute of type emailAddress in the subject is compared as an rfc822Name. The
/// RFC demands this for certificates without a subjectAltName. Here it is done too for a
/// subjectAltName with names of other forms alone. An emailAddress that is no IA5String cannot be
/// compared.
///
/// Returns [`Verdict::Permitted`] if all of these are permitted. Otherwise it returns the verdict of
/// the first that is not: the directoryName comes first, and then the attributes in their order.
///
/// RFC 5280 compares no names of a self-issued certificate that is not the last of the path. The
/// caller must decide this. The function does not use `alloc`.
pub fn subject_verdict(
    alloc: Global,
    constraints: &NameConstraints<'_>,
    subject: Name<'_>,
    names: Option<&GeneralNames<'_>>,
) -> Verdict
    ensures { HasSubjectVerdict constraints.now subject.entry
        (option_map (λ n. n.now.octets.now) names.entry) result }
{
    let has_mail = has_mail(alloc, names);
    let mail = mail_verdict(alloc, constraints, &subject, has_mail);
    let directory = directory_verdict(alloc, constraints, subject);
    first_refusal(directory, mail)
}

// The verdict on a subject as a directoryName. One without levels is permitted.
fn directory_verdict(alloc: Global, constraints: &NameConstraints<'_>, subject: Name<'_>) -> Verdict
    ensures { HasDirectoryVerdict constraints.now subject.entry result }
{
    if subject.levels.octets().is_empty() {
        return Verdict::Permitted;
    }
    directory_name_verdict(alloc, constraints, subject)
}

fn directory_name_verdict(
    alloc: Global,
    constraints: &NameConstraints<'_>,
    subject: Name<'_>,
) -> Verdict
    ensures { IsDirectoryVerdict constraints.now subject.entry result }
{
    name_verdict(
        alloc,
        constraints,
        &GeneralName::DirectoryName(Explicit(subject)),
    )
}

// Whether one of the names is an rfc822Name.
fn has_mail(alloc: Global, names: Option<&GeneralNames<'_>>) -> bool
    ensures { HasMail (option_map (λ n. n.now.octets.now) names.entry) result }
{
    match names {
        Some(names) => have_mail(alloc, names),
        None => false,
    }
}

fn have_mail(alloc: Global, names: &GeneralNames<'_>) -> bool
    ensures { HaveMail names.now.octets.now result }
{
    let mut found = false;
    'names: for name in names.iter(alloc) {
        found = found | is_rfc822_name(&name);
    }
    found
}

fn is_rfc822_name(name: &GeneralName<'_>) -> bool
    ensures { IsTrue result ↔ IsRfc822Name name.now }
{
    match name {
        GeneralName::Rfc822Name(_) => true,
        _ => false,
    }
}

// The verdict on the mailboxes of a subject, which count only if no other name is one.
fn mail_verdict(
    alloc: Global,
    constraints: &NameConstraints<'_>,
    subject: &Name<'_>,
    has_mail: bool,
) -> Verdict
    ensures { HasMailVerdict constraints.now subject.now has_mail result }
{
    if has_mail {
        return Verdict::Permitted;
    }
    emails_verdict(alloc, constraints, subject)
}

fn emails_verdict(alloc: Global, constraints: &NameConstraints<'_>, subject: &Name<'_>) -> Verdict
    ensures { HasEmailsVerdict constraints.now subject.now result }
{
    let mut verdict = Verdict::Permitted;
    'levels: for level in subject.levels.iter(alloc) {
        verdict = first_refusal(verdict, level_verdict(alloc, constraints, &level));
    }
    verdict
}

fn level_verdict(
    alloc: Global,
    constraints: &NameConstraints<'_>,
    level: &RelativeDistinguishedName<'_>,
) -> Verdict
    ensures { HasLevelVerdict constraints.now level.now result }
{
    let mut verdict = Verdict::Permitted;
    'attributes: for attribute in level.attributes.iter(alloc) {
        verdict = first_refusal(verdict, attribute_verdict(alloc, constraints, &attribute));
    }
    verdict
}

fn attribute_verdict(
    alloc: Global,
    constraints: &NameConstraints<'_>,
    attribute: &AttributeTypeAndValue<'_>,
) -> Verdict
    ensures { HasAttributeVerdict constraints.now attribute.now result }
{
    if !is_email_address(attribute) {
        return Verdict::Permitted;
    }
    mailbox_verdict(alloc, constraints, mailbox_of(&attribute.value))
}

// Whether an attribute has the type emailAddress, 1.2.840.113549.1.9.1.
fn is_email_address(attribute: &AttributeTypeAndValue<'_>) -> bool
    ensures { IsTrue result ↔ IsEmailAddress attribute.now }
{
    attribute.oid.octets() == [0x2A, 0x86, 0x48, 0x86, 0xF7, 0x0D, 0x01, 0x09, 0x01].as_slice()
}

// The mailbox that a value is; one without octets, if it is no IA5String.
fn mailbox_of<'a>(value: &AnyRef<'a>) -> Ia5StringRef<'a>
    ensures { result.octets.now ≡ mailbox_of value.now }
{
    if !is_ia5_tag(value.tag) {
        return Ia5StringRef::formed(&[]);
    }
    match Ia5StringRef::new(value.contents) {
        Some(mailbox) => mailbox,
        None => Ia5StringRef::formed(&[]),
    }
}

fn is_ia5_tag(tag: Tag) -> bool
    ensures { result ≡ is_ia5_tag tag }
{
    matches!(tag, Tag::Ia5String)
}

fn mailbox_verdict(
    alloc: Global,
    constraints: &NameConstraints<'_>,
    mailbox: Ia5StringRef<'_>,
) -> Verdict
    ensures { IsMailVerdict constraints.now mailbox.entry.octets.now result }
{
    name_verdict(
        alloc,
        constraints,
        &GeneralName::Rfc822Name(Implicit(mailbox)),
    )
}
