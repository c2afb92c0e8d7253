//! Where a certificate breaks a rule.
ghost use Rattle.std.specs.Prelude.{◌≡◌, IfNone, IfSome, Option, Some, None, if◌then◌else◌};
ghost use Rattle.x509_lint.specs.CertificateChecks.{ExtensionsKeepIfPresent};
ghost use Rattle.x509_lint.specs.Lint.{FindsPlace, IsExtensionPlace, IsNamePlace};
ghost use Rattle.x509_lint.specs.NameChecks.{NameKeeps};

use crate::checks::extensions::first_failing_extension;
use crate::checks::found::has_pair;
use crate::checks::name::{first_failing_attribute, first_failing_level};
use crate::checks::presence::{has_extension_if_present, has_issuer, has_no_unique_identifier};
use crate::checks::serial_number::has_valid_serial_number;
use crate::checks::subject::{has_authority_subject, has_key_identifier, has_subject};
use crate::checks::times::{has_forms_of_years, is_ordered};
use crate::checks::{has_fields_of_version, has_same_algorithms};
use crate::extension_rule::ExtensionRule;
use crate::name_rule::NameRule;
use crate::place::Place;
use crate::rule::Rule;
use std::alloc::Global;
use x509::{Certificate, Name, TbsCertificate};

// Where the certificate breaks the rule first; `None` if it keeps the rule.
pub(crate) fn broken_at(alloc: Global, certificate: &Certificate<'_>, rule: Rule) -> Option<Place>
    ensures { FindsPlace rule certificate.now result }
{
    let fields = &certificate.tbs_certificate;
    match rule {
        Rule::VersionFields => whole(has_fields_of_version(fields)),
        Rule::SameAlgorithms => whole(has_same_algorithms(certificate)),
        Rule::SerialNumber => whole(has_valid_serial_number(fields)),
        Rule::IssuerPresent => whole(has_issuer(fields)),
        Rule::SubjectPresent => whole(has_subject(alloc, fields)),
        Rule::UniqueIdentifiers => whole(has_no_unique_identifier(fields)),
        Rule::AuthoritySubject => whole(has_authority_subject(alloc, fields)),
        Rule::KeyIdentifier => whole(has_key_identifier(alloc, fields)),
        Rule::TimeForms => whole(has_forms_of_years(&fields.validity)),
        Rule::TimeOrder => whole(is_ordered(&fields.validity)),
        Rule::Issuer(rule) => name_place(alloc, &fields.issuer, rule),
        Rule::Subject(rule) => name_place(alloc, &fields.subject, rule),
        Rule::ExtensionPresent => whole(has_extension_if_present(fields)),
        Rule::Extension(rule) => extension_place(alloc, fields, rule),
        Rule::Pair(rule) => whole(has_pair(alloc, fields, rule)),
    }
}

// The certificate as a whole, if it breaks a rule.
fn whole(keeps: bool) -> Option<Place>
    ensures { result ≡ (if keeps then None else Some Place.Certificate) }
{
    if keeps {
        None
    } else {
        Some(Place::Certificate)
    }
}

// The first level of the name, or the first attribute, that breaks the rule.
fn name_place(alloc: Global, name: &Name<'_>, rule: NameRule) -> Option<Place>
    ensures none { IfNone result (NameKeeps rule name.now) }
    ensures some { IfSome result (λ place. (NameKeeps rule name.now → ⊥)
        × IsNamePlace rule name.now place) }
{
    match rule {
        NameRule::Levels => match first_failing_level(alloc, name, rule) {
            Some(level) => Some(Place::Level(level)),
            None => None,
        },
        NameRule::Attributes(rule) => match first_failing_attribute(alloc, name, rule) {
            Some((level, attribute)) => Some(Place::Attribute(level, attribute)),
            None => None,
        },
    }
}

// The first extension that breaks the rule.
fn extension_place(alloc: Global, fields: &TbsCertificate<'_>, rule: ExtensionRule) -> Option<Place>
    ensures none { IfNone result (ExtensionsKeepIfPresent rule fields.now) }
    ensures some { IfSome result (λ place. (ExtensionsKeepIfPresent rule fields.now → ⊥)
        × IsExtensionPlace rule fields.now place) }
{
    match &fields.extensions.0 {
        Some(extensions) => match first_failing_extension(alloc, &extensions.0, rule) {
            Some(place) => Some(Place::Extension(place)),
            None => None,
        },
        None => None,
    }
}
