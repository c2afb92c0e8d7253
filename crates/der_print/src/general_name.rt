//! Prints general names (RFC 5280, 4.2.1.6).

use crate::name::put_name;
use crate::page::Page;
use crate::text::{Characters, Style, is_text, put_octets, put_text};
use crate::values::{contents, items, put_long, put_text_of};
use schema_cursor::Cursor;
use std::fmt::Write;

/// Prints general names on one line, with commas between them.
pub fn put_general_names(page: &mut Page<'_>, names: Cursor<'_>) {
    let mut is_first = true;
    for item in items(names) {
        if !is_first {
            page.put(", ");
        }
        is_first = false;
        put_general_name(page, item);
    }
}

/// Prints each general name on a line of its own.
pub fn put_name_lines(page: &mut Page<'_>, names: Cursor<'_>) {
    for item in items(names) {
        page.at(item);
        put_general_name(page, item);
        page.end();
    }
}

/// Prints a general name, such as `DNS:example.org`. Does not end the line.
pub fn put_general_name(page: &mut Page<'_>, name: Cursor<'_>) {
    match name.alternative() {
        Some("otherName") => put_other_name(page, name),
        Some("rfc822Name") => put_string(page, "email:", name),
        Some("dNSName") => put_string(page, "DNS:", name),
        Some("x400Address") => put_unread(page, "X400Name:", name),
        Some("directoryName") => {
            page.put("DirName:");
            put_name(&mut page.out, name);
        }
        Some("ediPartyName") => put_unread(page, "EdiPartyName:", name),
        Some("uniformResourceIdentifier") => put_string(page, "URI:", name),
        Some("iPAddress") => {
            page.put("IP Address:");
            put_address(page, contents(name));
        }
        Some("registeredID") => {
            page.put("Registered ID:");
            put_long(page, contents(name));
        }
        _ => {
            page.put("#");
            put_octets(&mut page.out, name.octets());
        }
    }
}

fn put_string(page: &mut Page<'_>, kind: &str, name: Cursor<'_>) {
    page.put(kind);
    if is_text(contents(name), Characters::Utf8) && !name.is_constructed() {
        put_text(&mut page.out, contents(name), Characters::Utf8, Style::List);
    } else {
        page.put("#");
        put_octets(&mut page.out, contents(name));
    }
}

fn put_unread(page: &mut Page<'_>, kind: &str, name: Cursor<'_>) {
    page.put(kind);
    page.put("#");
    put_octets(&mut page.out, name.octets());
}

// The form of the name, two colons, and the text of the value.
fn put_other_name(page: &mut Page<'_>, name: Cursor<'_>) {
    page.put("othername: ");
    let (Some(kind), Some(value)) = (name.at("type-id"), name.at("value")) else {
        return;
    };
    put_form(page, contents(kind));
    page.put("::");
    if !put_text_of(&mut page.out, value, Style::List) {
        page.put("#");
        put_octets(&mut page.out, value.untagged().octets());
    }
}

// The words of openssl for the form of a name.
fn put_form(page: &mut Page<'_>, identifier: &[u8]) {
    match identifier {
        [0x2b, 0x06, 0x01, 0x04, 0x01, 0x82, 0x37, 0x14, 0x02, 0x03] => page.put("UPN"),
        [0x2b, 0x06, 0x01, 0x05, 0x05, 0x07, 0x08, 0x05] => page.put("XmppAddr"),
        [0x2b, 0x06, 0x01, 0x05, 0x05, 0x07, 0x08, 0x07] => page.put("SRVName"),
        [0x2b, 0x06, 0x01, 0x05, 0x05, 0x07, 0x08, 0x08] => page.put("NAIRealm"),
        [0x2b, 0x06, 0x01, 0x05, 0x05, 0x07, 0x08, 0x09] => page.put("SmtpUTF8Mailbox"),
        _ => put_long(page, identifier),
    }
}
/// Prints an IP address of 4 or 16 octets. A mask of the same length may follow the address, and is
/// then printed too. If `octets` have another length, prints them in hexadecimal.
pub fn put_address(page: &mut Page<'_>, octets: &[u8]) {
    match octets.len() {
        4 => put_version_4(page, octets),
        16 => put_version_6(page, octets),
        8 | 32 => {
            let half = octets.len() / 2;
            put_half(page, octets.get(..half).unwrap_or(&[]));
            page.put("/");
            put_half(page, octets.get(half..).unwrap_or(&[]));
        }
        _ => {
            page.put("#");
            put_octets(&mut page.out, octets);
        }
    }
}

fn put_half(page: &mut Page<'_>, octets: &[u8]) {
    if octets.len() == 4 {
        put_version_4(page, octets);
    } else {
        put_version_6(page, octets);
    }
}

fn put_version_4(page: &mut Page<'_>, octets: &[u8]) {
    let mut is_first = true;
    for octet in octets {
        if !is_first {
            page.put(".");
        }
        is_first = false;
        page.number(u64::from(*octet));
    }
}

// Eight groups in hexadecimal, without leading zeros, as openssl prints them.
fn put_version_6(page: &mut Page<'_>, octets: &[u8]) {
    let mut rest = octets;
    for at in 0..8 {
        let [high, low, after @ ..] = rest else {
            return;
        };
        if at > 0 {
            page.put(":");
        }
        let group = u16::from_be_bytes([*high, *low]);
        let _ = write!(page.out, "{group:X}");
        rest = after;
    }
}
