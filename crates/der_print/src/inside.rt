//! Reading of values inside a BIT STRING or an OCTET STRING, if the table of types does not say
//! their type.

use crate::page::Page;
use ber::Universal;
use schema_cursor::Cursor;
use schema_kinds::{is_encoding, read_as};
use schema_read::Tree;

/// The octets that a primitive BIT STRING or OCTET STRING contains. These are the contents octets,
/// for a BIT STRING without the first one, which counts unused bits. Empty for any other element.
pub fn held(string: Cursor<'_>) -> &[u8] {
    let value = string.untagged();
    match value.universal() {
        _ if value.is_constructed() => &[],
        Some(Universal::BitString) => value.contents().get(1..).unwrap_or(&[]),
        Some(Universal::OctetString) => value.contents(),
        _ => &[],
    }
}

/// The position at which the octets of [`held`] begin. It is counted from the start of the file or
/// of the PEM block.
pub fn held_base(page: &Page<'_>, string: Cursor<'_>) -> usize {
    let value = string.untagged();
    let skipped = if value.universal() == Some(Universal::BitString) {
        1
    } else {
        0
    };
    let entry = value.entry();
    page.base
        .saturating_add(entry.offset)
        .saturating_add(entry.header_len as usize)
        .saturating_add(skipped)
}

/// Reads `octets` as a value of a type. `node` is the index of the type in the table of types.
/// Returns `None` if `octets` are not an encoding of a value of this type. Also returns `None` if
/// an allocation fails, and then marks the output of `page` as failed.
pub fn read_held(page: &mut Page<'_>, node: u32, octets: &[u8]) -> Option<Tree> {
    match is_encoding(page.alloc, page.schema, node, octets) {
        Ok(true) => {}
        Ok(false) => return None,
        Err(_) => {
            page.out.has_failed = true;
            return None;
        }
    }
    match read_as(page.alloc, page.schema, node, octets) {
        Ok(tree) => Some(tree),
        Err(_) => {
            page.out.has_failed = true;
            None
        }
    }
}
