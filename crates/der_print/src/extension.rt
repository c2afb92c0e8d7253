//! Prints the value of an extension.

use crate::access::put_access;
use crate::constraints::{put_basic_constraints, put_name_constraints, put_policy_constraints};
use crate::distribution::{put_distribution_points, put_issuing_point};
use crate::elements::put_element_line;
use crate::fields::put_field_lines;
use crate::flags::{put_key_usage, put_netscape_type, put_reason_line};
use crate::general_name::put_general_names;
use crate::page::Page;
use crate::policies::{put_mappings, put_policies};
use crate::text::put_time;
use crate::timestamps::put_timestamps;
use crate::title::{colons_line, decimal_line, name_line, text_line, time_line};
use crate::values::{contents, digits_of, items, put_colons, put_long, put_small};
use ber::Universal;
use der::Tag;
use schema_cursor::Cursor;

/// Prints the value of an extension on lines of its own. `value` is the OCTET STRING that contains
/// the value.
///
/// - A value of a well-known extension is printed in the words of openssl.
/// - Any other value whose type is in the table of types is printed with the names of its fields,
///   if it is constructed.
/// - Any other value is printed as a primitive element, or in hexadecimal.
pub fn put_extension(page: &mut Page<'_>, value: Cursor<'_>) {
    match value.inner() {
        Some(element) => match element.type_name() {
            Some(name) if put_known(page, name, element) => {}
            Some(_) if element.is_constructed() => put_field_lines(page, element),
            _ => put_element_line(page, value),
        },
        None => put_element_line(page, value),
    }
}

// Prints a value of a type with this name, and returns true if there is such a type.
fn put_known(page: &mut Page<'_>, name: &str, element: Cursor<'_>) -> bool {
    match name {
        "KeyUsage" => put_key_usage(page, element),
        "GeneralNames" => put_names(page, element),
        "BasicConstraints" => put_basic_constraints(page, element),
        "NameConstraints" => put_name_constraints(page, element),
        "PolicyConstraints" => put_policy_constraints(page, element),
        "IssuingDistributionPoint" => put_issuing_point(page, element),
        "CRLDistributionPoints" => put_distribution_points(page, element),
        "CertificatePolicies" => put_policies(page, element),
        "PolicyMappings" => put_mappings(page, element),
        "AuthorityKeyIdentifier" => put_authority_key(page, element),
        "ExtKeyUsageSyntax" => put_purposes(page, element),
        "AuthorityInfoAccessSyntax" => put_access(page, element),
        "PrivateKeyUsagePeriod" => put_usage_period(page, element),
        "Features" => put_features(page, element),
        "SignedCertificateTimestampList" => put_timestamps(page, element),
        "CRLReason" => put_reason_line(page, element),
        "NetscapeCertType" => put_netscape_type(page, element),
        _ => return put_short_value(page, name, element),
    }
    true
}

// The same for values of one line.
fn put_short_value(page: &mut Page<'_>, name: &str, element: Cursor<'_>) -> bool {
    match name {
        "KeyIdentifier" | "Nonce" => colons_line(page, "", Some(element)),
        "CRLNumber" | "SkipCerts" => decimal_line(page, "", Some(element)),
        "InvalidityDate" | "ArchiveCutoff" => time_line(page, "", Some(element)),
        "HoldInstructionCode" => name_line(page, "", Some(element)),
        "NoCheck" => page.line(element, "NULL"),
        "NetscapeText" => text_line(page, "", Some(element)),
        _ => return false,
    }
    true
}

fn put_names(page: &mut Page<'_>, element: Cursor<'_>) {
    page.at(element);
    put_general_names(page, element);
    page.end();
}

// The key identifier, and the issuer and serial number of the issuer's certificate.
fn put_authority_key(page: &mut Page<'_>, element: Cursor<'_>) {
    let issuer = element.at("authorityCertIssuer");
    let number = element.at("authorityCertSerialNumber");
    if let Some(key) = element.at("keyIdentifier") {
        page.at(key);
        if issuer.is_some() || number.is_some() {
            page.put("keyid:");
        }
        put_colons(page, contents(key));
        page.end();
    }
    if let Some(issuer) = issuer {
        put_names(page, issuer);
    }
    if let Some(number) = number {
        page.at(number);
        page.put("serial:");
        put_colons(page, digits_of(contents(number)));
        page.end();
    }
}

// When a private key may be used.
fn put_usage_period(page: &mut Page<'_>, element: Cursor<'_>) {
    page.at(element);
    let first = element.at("notBefore");
    if let Some(time) = first {
        page.put("Not Before: ");
        put_general_time(page, time);
    }
    if let Some(time) = element.at("notAfter") {
        page.put(if first.is_some() {
            ", Not After: "
        } else {
            "Not After: "
        });
        put_general_time(page, time);
    }
    page.end();
}

// A GeneralizedTime under another tag.
fn put_general_time(page: &mut Page<'_>, time: Cursor<'_>) {
    if time.universal() != Some(Universal::GeneralizedTime)
        || !put_time(&mut page.out, Tag::GeneralizedTime, contents(time))
    {
        put_colons(page, contents(time));
    }
}

fn put_purposes(page: &mut Page<'_>, list: Cursor<'_>) {
    page.at(list);
    let mut is_first = true;
    for item in items(list) {
        if !is_first {
            page.put(", ");
        }
        is_first = false;
        put_long(page, contents(item));
    }
    page.end();
}

// The extensions of TLS that the server must send.
fn put_features(page: &mut Page<'_>, list: Cursor<'_>) {
    page.at(list);
    let mut is_first = true;
    for item in items(list) {
        if !is_first {
            page.put(", ");
        }
        is_first = false;
        match contents(item) {
            [5] => page.put("status_request"),
            [17] => page.put("status_request_v2"),
            _ => put_small(page, item),
        }
    }
    page.end();
}
