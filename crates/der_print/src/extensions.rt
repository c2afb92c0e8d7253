//! Prints lists of extensions.

use crate::extension::put_extension;
use crate::page::Page;
use crate::values::{items, put_identifier_of};
use schema_cursor::Cursor;

/// Prints the heading `title`, and below it each extension of the list with its value. Prints
/// nothing if there is no list.
pub fn put_extensions(page: &mut Page<'_>, title: &str, extensions: Option<Cursor<'_>>) {
    let Some(list) = extensions else {
        return;
    };
    page.line(list.untagged(), title);
    page.deeper();
    for item in items(list) {
        put_item(page, item);
    }
    page.higher();
}

fn put_item(page: &mut Page<'_>, item: Cursor<'_>) {
    let Some(identifier) = item.at("extnID") else {
        return;
    };
    page.at(item);
    put_identifier_of(page, identifier);
    page.put(":");
    if let Some(critical) = item.at("critical") {
        if critical.boolean() == Some(true) {
            page.put(" critical");
        }
    }
    page.end();
    page.deeper();
    if let Some(value) = item.at("extnValue") {
        put_extension(page, value);
    }
    page.higher();
}
