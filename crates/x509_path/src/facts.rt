//! What `path_rules` asks of a certificate of a path.
ghost use Rattle.std.specs.Prelude.{◌≡◌, ◌↔◌, IsTrue};
ghost use Rattle.x509_names.specs.NameMatching.{NamesMatch};
ghost use Rattle.x509_path.specs.CertificateFacts.{AreFacts, IsPermittedAs, issuer_name, part};

use crate::authority::{is_authority, may_sign};
use crate::certificate::PathCertificate;
use crate::extensions::{has_distinct_extensions, is_understood};
use crate::fields::{has_extensions, has_unique_identifiers, version_of};
use crate::inputs::Inputs;
use crate::limit::path_limit;
use crate::names::{is_permitted, issuers_verdict};
use crate::validity::is_current;
use path_rules::{Facts, Version};
use std::alloc::Global;
use x509::{Name, TbsCertificate};
use x509_lint::checks::has_same_algorithms;
use x509_names::names_match;

/// The facts of a certificate after those before it in a path, which are in the order of the path.
/// The function does not use `alloc`.
pub fn facts_of<'r, 'a>(
    alloc: Global,
    inputs: &'r Inputs<'a>,
    before: &'r [PathCertificate<'a>],
    certificate: &PathCertificate<'_>,
) -> Facts
    ensures { AreFacts inputs.now before.now certificate.now result }
{
    let signed = &certificate.certificate.tbs_certificate;
    Facts {
        has_same_algorithms: has_same_algorithms(&certificate.certificate),
        version: version_of(signed),
        has_unique_identifiers: has_unique_identifiers(signed),
        has_extensions: has_extensions(signed),
        has_distinct_extensions: has_distinct_extensions(alloc, signed),
        is_current: is_current(&signed.validity, inputs.time),
        is_chained: is_chained(alloc, inputs, before, signed),
        is_permitted: is_permitted_by(alloc, before, signed),
        is_self_issued: names_match(alloc, &signed.issuer, &signed.subject),
        is_authority: is_authority(alloc, signed),
        is_known_authority: false,
        path_limit: path_limit(alloc, signed),
        may_sign: may_sign(alloc, signed),
        is_understood: is_understood(alloc, signed, inputs.judges_policies),
    }
}

// Whether the issuer is the subject of the last certificate before, or the name of the trust anchor.
fn is_chained<'r, 'a>(
    alloc: Global,
    inputs: &'r Inputs<'a>,
    before: &'r [PathCertificate<'a>],
    signed: &TbsCertificate<'_>,
) -> bool
    ensures { IsTrue result ↔ NamesMatch signed.now.issuer (issuer_name inputs.now before.now) }
{
    names_match(alloc, &signed.issuer, issuer_name(inputs, before))
}

// Whether the certificates before permit the names.
fn is_permitted_by(
    alloc: Global,
    before: &[PathCertificate<'_>],
    signed: &TbsCertificate<'_>,
) -> bool
    ensures { IsPermittedAs result signed.now before.now }
{
    is_permitted(issuers_verdict(alloc, before, signed))
}

// The name with which the certificate after these is issued.
fn issuer_name<'r, 'a>(inputs: &'r Inputs<'a>, before: &'r [PathCertificate<'a>]) -> &'r Name<'a>
    ensures { result.now ≡ issuer_name inputs.now before.now }
{
    if before.len() == 0 {
        return &inputs.anchor.name;
    }
    &before[before.len() - 1].certificate.tbs_certificate.subject
}

/// Facts that no rule accepts, to fill a room with.
pub fn no_facts() -> Facts {
    Facts {
        has_same_algorithms: false,
        version: Version::V1,
        has_unique_identifiers: false,
        has_extensions: false,
        has_distinct_extensions: false,
        is_current: false,
        is_chained: false,
        is_permitted: false,
        is_self_issued: false,
        is_authority: false,
        is_known_authority: false,
        path_limit: Some(0),
        may_sign: false,
        is_understood: false,
    }
}
