//! Prints the extensions certificatePolicies and policyMappings.

use crate::page::Page;
use crate::text::{put_arcs, put_octets};
use crate::title::text_line;
use crate::values::{contents, items, put_decimal, put_long, put_text_or_octets};
use schema_cursor::Cursor;

/// Prints the policies of `list`. The qualifiers of a policy are printed below the policy.
pub fn put_policies(page: &mut Page<'_>, list: Cursor<'_>) {
    for policy in items(list) {
        if let Some(identifier) = policy.at("policyIdentifier") {
            page.at(policy);
            page.put("Policy: ");
            put_long(page, contents(identifier));
            page.end();
        }
        if let Some(qualifiers) = policy.at("policyQualifiers") {
            page.indent = page.indent.saturating_add(2);
            put_qualifiers(page, qualifiers);
            page.indent = page.indent.saturating_sub(2);
        }
    }
}

fn put_qualifiers(page: &mut Page<'_>, qualifiers: Cursor<'_>) {
    for item in items(qualifiers) {
        let (Some(kind), Some(value)) = (item.at("policyQualifierId"), item.at("qualifier")) else {
            continue;
        };
        page.at(item);
        match value.type_name() {
            Some("CPSuri") => {
                page.put("CPS: ");
                put_text_or_octets(page, value);
                page.end();
            }
            Some("UserNotice") => {
                page.put("User Notice:");
                page.end();
                put_notice(page, value);
            }
            _ => {
                page.put("Unknown Qualifier: ");
                put_long(page, contents(kind));
                page.put(" ");
                put_octets(&mut page.out, value.octets());
                page.end();
            }
        }
    }
}

fn put_notice(page: &mut Page<'_>, notice: Cursor<'_>) {
    page.indent = page.indent.saturating_add(2);
    let organization = notice.at("noticeRef.organization");
    text_line(page, "Organization: ", organization);
    if let Some(numbers) = notice.at("noticeRef.noticeNumbers") {
        page.at(numbers);
        page.put("Numbers: ");
        put_notice_numbers(page, numbers);
        page.end();
    }
    text_line(page, "Explicit Text: ", notice.at("explicitText"));
    page.indent = page.indent.saturating_sub(2);
}

fn put_notice_numbers(page: &mut Page<'_>, numbers: Cursor<'_>) {
    let mut is_first = true;
    for item in items(numbers) {
        if !is_first {
            page.put(", ");
        }
        is_first = false;
        put_decimal(page, item);
    }
}

/// Prints a line for each pair of `list`: the arcs of a policy of the issuer, `:`, and the arcs of
/// the policy of the subject that is equivalent to it.
pub fn put_mappings(page: &mut Page<'_>, list: Cursor<'_>) {
    for item in items(list) {
        page.at(item);
        if let Some(issuer) = item.at("issuerDomainPolicy") {
            put_arcs(&mut page.out, contents(issuer));
        }
        page.put(":");
        if let Some(subject) = item.at("subjectDomainPolicy") {
            put_arcs(&mut page.out, contents(subject));
        }
        page.end();
    }
}
