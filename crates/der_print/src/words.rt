//! Printing of values that have words of their own, also when they are inside another value.

use crate::general_name::put_general_names;
use crate::name::put_name;
use crate::page::Page;
use crate::public_key::put_public_key;
use schema_cursor::Cursor;

/// Prints a value in words of its own, and returns true, if its type has such words. A Name or a
/// GeneralNames is printed on the current line, and a SubjectPublicKeyInfo on the lines below. For
/// a value of any other type, prints nothing and returns false.
pub fn put_words(page: &mut Page<'_>, value: Cursor<'_>) -> bool {
    match value.type_name() {
        Some("Name") => {
            page.put(" ");
            put_name(&mut page.out, value);
            page.end();
        }
        Some("GeneralNames") => {
            page.put(" ");
            put_general_names(page, value);
            page.end();
        }
        Some("SubjectPublicKeyInfo") => {
            page.end();
            page.deeper();
            put_public_key(page, value);
            page.higher();
        }
        _ => return false,
    }
    true
}
