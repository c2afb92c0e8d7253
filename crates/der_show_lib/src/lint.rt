//! Prints the rules of RFC 5280 that a certificate or a revocation list breaks.

use crate::rewritten::rewritten;
use der::DecodeBytes;
use der_print::{Output, Page, long_name};
use schema_cursor::Cursor;
use schema_kinds::{Kind, read_as};
use std::alloc::Global;
use std::fmt::Write;
use x509::{Certificate, CertificateList};
use x509_lint::checks::value_types::has_value_of_type;
use x509_lint::{Finding, LIST_RULES, Place, RULES, Rule, findings, list_keeps};

/// Checks a certificate against those rules of RFC 5280 that decoding does not check. Prints a line
/// for each rule that is broken, and a line with the number of broken rules. Returns true if no
/// rule is broken. If the certificate is not DER, checks its DER encoding, prints a line that says
/// this, and returns false. `octets` are the octets of the certificate in the file.
pub fn put_lint(page: &mut Page<'_>, value: Cursor<'_>, octets: &[u8]) -> bool {
    match Certificate::from_der(page.alloc, value.octets()) {
        Ok(certificate) => {
            let base = page.base;
            put_findings(page, value, base, &certificate)
        }
        Err(_) => {
            put_lint_of_der(page, octets);
            false
        }
    }
}

// Checks the DER encoding of a certificate in BER. Offsets are those in the encoding.
fn put_lint_of_der(page: &mut Page<'_>, octets: &[u8]) {
    let (alloc, schema, node) = (page.alloc, page.schema, Kind::Certificate.node());
    if let Ok(written) = rewritten(alloc, schema, node, octets) {
        let octets = written.octets.as_slice();
        let certificate = Certificate::from_der(alloc, octets);
        if let (Ok(certificate), Ok(tree)) = (certificate, read_as(alloc, schema, node, octets)) {
            if let Some(root) = Cursor::root(octets, schema, &tree) {
                page.line_beside(
                    "Lint: the certificate is not DER; offsets are in its encoding in DER",
                );
                put_findings(page, root, 0, &certificate);
                return;
            }
        }
    }
    page.line_beside("Lint: no rule is checked, since the certificate cannot be written in DER");
}

// Prints the rules that a certificate breaks, with its elements at `root`, and returns whether there are none.
fn put_findings(
    page: &mut Page<'_>,
    root: Cursor<'_>,
    base: usize,
    certificate: &Certificate<'_>,
) -> bool {
    let mut count = 0usize;
    for finding in findings(page.alloc, certificate) {
        page.beside();
        page.put("Lint: ");
        put_finding(&mut page.out, root, base, &finding);
        page.end();
        count = count.saturating_add(1);
    }
    page.beside();
    let _ = write!(
        page.out,
        "Lint: {count} of {} rules are broken",
        RULES.len()
    );
    let malformed = malformed_count(page.alloc, certificate);
    if malformed > 0 {
        let _ = write!(
            page.out,
            "; the values of {malformed} extensions are not decoded"
        );
    }
    page.end();
    count == 0
}

/// Checks a revocation list against those rules of RFC 5280 that decoding does not check. Prints a
/// line for each rule that is broken, and a line with the number of broken rules. Returns true if
/// no rule is broken. If the list is not DER, checks nothing, prints a line that says this, and
/// returns false.
pub fn put_list_lint(page: &mut Page<'_>, value: Cursor<'_>) -> bool {
    let Ok(list) = CertificateList::from_der(page.alloc, value.octets()) else {
        page.line_beside("Lint: no rule is checked, since the list is not DER");
        return false;
    };
    let mut count = 0usize;
    for rule in LIST_RULES.iter() {
        if !list_keeps(page.alloc, &list, *rule) {
            page.beside();
            let _ = write!(page.out, "Lint: list: {rule}");
            page.end();
            count = count.saturating_add(1);
        }
    }
    page.beside();
    let _ = write!(
        page.out,
        "Lint: {count} of {} rules are broken",
        LIST_RULES.len()
    );
    page.end();
    count == 0
}

// How many extensions have values that are not of their types. Rules for what is in these are not checked.
fn malformed_count(alloc: Global, certificate: &Certificate<'_>) -> usize {
    let Some(extensions) = &certificate.tbs_certificate.extensions.0 else {
        return 0;
    };
    let mut count = 0usize;
    for extension in extensions.0.items.iter(alloc) {
        let (id, value) = (extension.extn_id.octets(), extension.extn_value.octets());
        if !has_value_of_type(alloc, id, value) {
            count = count.saturating_add(1);
        }
    }
    count
}

/// Prints the rule that is broken, after the element that breaks it. The element is given by its
/// path, its name and its offset, to which `base` is added.
pub fn put_finding(out: &mut Output, root: Cursor<'_>, base: usize, finding: &Finding) {
    match element_of(root, finding) {
        Some(element) => {
            let _ = write!(out, "{}", element.place());
            put_object_name(out, element);
            let offset = base.saturating_add(element.entry().offset);
            let _ = write!(out, " at offset {offset}");
        }
        None => out.put("certificate"),
    }
    let _ = write!(out, ": {}", finding.rule);
}

// The element that breaks the rule, if it is not the whole certificate.
fn element_of<'a>(root: Cursor<'a>, finding: &Finding) -> Option<Cursor<'a>> {
    let signed = root.at("tbsCertificate")?;
    match finding.place {
        Place::Extension(at) => return signed.at("extensions")?.untagged().item(at),
        Place::Level(level) => return name_of(signed, finding.rule)?.item(level),
        Place::Attribute(level, at) => return name_of(signed, finding.rule)?.item(level)?.item(at),
        Place::Certificate => {}
    }
    match finding.rule {
        Rule::SerialNumber => signed.at("serialNumber"),
        Rule::TimeForms | Rule::TimeOrder => signed.at("validity"),
        Rule::IssuerPresent => signed.at("issuer"),
        Rule::SubjectPresent | Rule::AuthoritySubject => signed.at("subject"),
        Rule::SameAlgorithms => root.at("signatureAlgorithm"),
        Rule::VersionFields => signed.at("version"),
        _ => None,
    }
}

// The name that a rule is about.
fn name_of<'a>(signed: Cursor<'a>, rule: Rule) -> Option<Cursor<'a>> {
    match rule {
        Rule::Issuer(_) => signed.at("issuer"),
        _ => signed.at("subject"),
    }
}

// Prints the name of the extension or the attribute.
fn put_object_name(out: &mut Output, element: Cursor<'_>) {
    let identifier = match element.at("extnID") {
        Some(identifier) => Some(identifier),
        None => element.at("type"),
    };
    let Some(identifier) = identifier else {
        return;
    };
    if let Some(name) = long_name(identifier.contents()) {
        let _ = write!(out, " ({name})");
    }
}

/// Prints a warning for each of these rules of RFC 5280 that the certificate breaks:
///
/// - Unique identifiers need version 2 or 3, and extensions need version 3.
/// - The certificate names the algorithm of its signature twice, and both must be equal.
pub fn put_warnings(page: &mut Page<'_>, certificate: Cursor<'_>) {
    let Some(signed) = certificate.at("tbsCertificate") else {
        return;
    };
    if !has_fields_of_version(signed) {
        page.line_beside("Warning: fields of a later version (RFC 5280, 4.1.2.8 and 4.1.2.9)");
    }
    let (inner, outer) = (signed.at("signature"), certificate.at("signatureAlgorithm"));
    if let (Some(inner), Some(outer)) = (inner, outer) {
        if inner.octets() != outer.octets() {
            page.line_beside("Warning: two signature algorithms (RFC 5280, 4.1.1.2)");
        }
    }
}

// Whether unique identifiers stand in version 2 or 3 alone, and extensions in version 3.
fn has_fields_of_version(signed: Cursor<'_>) -> bool {
    let version = match signed.at("version") {
        Some(version) => version.number().unwrap_or(0),
        None => 0,
    };
    let has_identifiers = signed.at("issuerUniqueID").is_some()
        || signed.at("subjectUniqueID").is_some();
    (version >= 1 || !has_identifiers) && (version >= 2 || signed.at("extensions").is_none())
}
