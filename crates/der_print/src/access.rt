//! Prints the extension authorityInfoAccess.

use crate::general_name::put_general_name;
use crate::page::Page;
use crate::values::{contents, items, put_long};
use schema_cursor::Cursor;

/// Prints a line for each AccessDescription of `list` (RFC 5280, 4.2.2.1): the name of the access
/// method, and the access location.
pub fn put_access(page: &mut Page<'_>, list: Cursor<'_>) {
    for item in items(list) {
        page.at(item);
        if let Some(method) = item.at("accessMethod") {
            put_long(page, contents(method));
        }
        page.put(" - ");
        if let Some(place) = item.at("accessLocation") {
            put_general_name(page, place);
        }
        page.end();
    }
}
