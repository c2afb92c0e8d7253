//! Prints the signed timestamps of a certificate (RFC 6962, 3.3).

use crate::page::Page;
use crate::text::{put_octets_with, put_unix_time};
use crate::values::contents;
use schema_cursor::Cursor;

/// Prints the timestamps in the OCTET STRING `element`, the value of the extension. Its contents
/// are a list of timestamps. The list begins with two octets for its length, and each timestamp
/// with two octets for its own length. Octets that do not belong to a timestamp are printed in
/// hexadecimal.
pub fn put_timestamps(page: &mut Page<'_>, element: Cursor<'_>) {
    let mut rest = match contents(element) {
        [_, _, items @ ..] => items,
        all => all,
    };
    for _ in 0..contents(element).len() {
        let Some((item, after)) = split_vector(rest) else {
            break;
        };
        put_timestamp(page, element, item);
        rest = after;
    }
    if !rest.is_empty() {
        page.at(element);
        page.put("Octets: ");
        put_octets_with(&mut page.out, rest, true);
        page.end();
    }
}

// Its version, its log, when it was made, its extensions and its signature, in the words of openssl. Octets of
// another version, or that end too early, are printed in hexadecimal.
fn put_timestamp(page: &mut Page<'_>, element: Cursor<'_>, item: &[u8]) {
    page.line(element, "Signed Certificate Timestamp:");
    page.deeper();
    if put_fields(page, item).is_none() {
        put_titled(page, "Octets    : ", item);
    }
    page.higher();
}

fn put_fields(page: &mut Page<'_>, item: &[u8]) -> Option<()> {
    let (log, moment) = (item.get(1..33)?, item.get(33..41)?);
    let (extensions, rest) = split_vector(item.get(41..)?)?;
    let (signature, after) = split_vector(rest.get(2..)?)?;
    if item.first() != Some(&0) || !after.is_empty() {
        return None;
    }
    page.line_beside("Version   : v1 (0x0)");
    put_titled(page, "Log ID    : ", log);
    page.beside();
    page.put("Timestamp : ");
    put_unix_time(&mut page.out, milliseconds(moment));
    page.end();
    if extensions.is_empty() {
        page.line_beside("Extensions: none");
    } else {
        put_titled(page, "Extensions: ", extensions);
    }
    page.beside();
    page.put("Signature : ");
    match rest {
        [4, 3, ..] => page.put("ecdsa-with-SHA256"),
        [4, 1, ..] => page.put("sha256WithRSAEncryption"),
        _ => put_octets_with(&mut page.out, rest.get(..2).unwrap_or(&[]), true),
    }
    page.end();
    put_titled(page, "            ", signature);
    Some(())
}

fn put_titled(page: &mut Page<'_>, title: &str, octets: &[u8]) {
    page.beside();
    page.put(title);
    put_octets_with(&mut page.out, octets, true);
    page.end();
}

// Octets after their count, which has two octets, and what follows them.
fn split_vector(octets: &[u8]) -> Option<(&[u8], &[u8])> {
    let [high, low, after @ ..] = octets else {
        return None;
    };
    let len = usize::from(u16::from_be_bytes([*high, *low]));
    Some((after.get(..len)?, after.get(len..)?))
}

// Milliseconds since 1970.
fn milliseconds(octets: &[u8]) -> u64 {
    let mut number = 0u64;
    for octet in octets {
        number = number.wrapping_mul(256).wrapping_add(u64::from(*octet));
    }
    number
}
