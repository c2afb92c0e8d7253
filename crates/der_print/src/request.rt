//! Prints certification requests.

use crate::certificate::put_signature;
use crate::extensions::put_extensions;
use crate::keys::first_of;
use crate::name::put_name_line;
use crate::page::Page;
use crate::public_key::put_public_key;
use crate::text::put_octets;
use crate::title::version_line;
use crate::values::{items, put_identifier_of, put_text_or_octets};
use schema_cursor::Cursor;

/// Prints a line for each field of a certification request, in the words of `openssl req -text`.
pub fn put_request(page: &mut Page<'_>, request: Cursor<'_>) {
    if let Some(info) = request.at("certificationRequestInfo") {
        version_line(page, info.at("version"));
        put_name_line(page, "Subject: ", info.at("subject"));
        if let Some(key) = info.at("subjectPKInfo") {
            put_public_key(page, key);
        }
        if let Some(attributes) = info.at("attributes") {
            put_attributes(page, attributes);
        }
    }
    put_signature(page, request);
}

/// Prints the heading `Attributes:`, and below it the attributes of a request with their values.
pub fn put_attributes(page: &mut Page<'_>, attributes: Cursor<'_>) {
    page.line(attributes, "Attributes:");
    put_attribute_list(page, attributes);
}

/// Prints each attribute of a list with its values, without a heading.
pub fn put_attribute_list(page: &mut Page<'_>, attributes: Cursor<'_>) {
    page.deeper();
    for attribute in items(attributes) {
        put_attribute(page, attribute);
    }
    page.higher();
}

fn put_attribute(page: &mut Page<'_>, attribute: Cursor<'_>) {
    let kind = first_of(attribute, "type", "attrType");
    let values = first_of(attribute, "values", "attrValues");
    let (Some(kind), Some(values)) = (kind, values) else {
        return;
    };
    if let Some(first) = values.item(0) {
        if first.type_name() == Some("Extensions") {
            put_extensions(page, "Requested Extensions:", Some(first));
            return;
        }
    }
    page.at(attribute);
    put_identifier_of(page, kind);
    page.put(":");
    put_values(page, values);
    page.end();
}

// The values, each after a space.
fn put_values(page: &mut Page<'_>, values: Cursor<'_>) {
    for value in items(values) {
        page.put(" ");
        if value.is_constructed() {
            put_octets(&mut page.out, value.octets());
        } else {
            put_text_or_octets(page, value);
        }
    }
}
