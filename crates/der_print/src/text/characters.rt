//! Prints characters, and the escapes of those that are escaped.

use crate::text::output::Output;
use crate::text::style::Style;
use crate::text::target::Target;
use hidden_characters::is_hidden;

/// Prints a character. `style` says which characters are escaped, and how.
pub fn put_escaped<T: Target>(out: &mut Output<T>, c: char, style: Style) {
    if is_hidden(c) {
        match style {
            Style::Json => put_json_code(out, c as u32),
            _ => put_code_octets(out, c),
        }
        return;
    }
    let is_special = match style {
        Style::Line => c == '\\',
        Style::List => matches!(c, '\\' | ','),
        Style::Name => matches!(c, ',' | '+' | '"' | '\\' | '<' | '>' | ';'),
        Style::Json => matches!(c, '"' | '\\'),
    };
    if is_special {
        out.put("\\");
    }
    out.put_char(c);
}

// A backslash and two hexadecimal digits for each octet of the character in UTF-8 (RFC 4514, 2.4).
fn put_code_octets<T: Target>(out: &mut Output<T>, c: char) {
    let mut octets = [0u8; 4];
    let text = c.encode_utf8(&mut octets);
    for octet in text.as_bytes() {
        out.put("\\");
        out.put_hex(*octet, true);
    }
}

// The escape `\u` with four hexadecimal digits, twice for a character above U+FFFF (RFC 8259, 7).
fn put_json_code<T: Target>(out: &mut Output<T>, code: u32) {
    if code > 0xFFFF {
        let rest = code.wrapping_sub(0x10000);
        put_json_unit(out, 0xD800 | (rest >> 10) & 0x3FF);
        put_json_unit(out, 0xDC00 | rest & 0x3FF);
    } else {
        put_json_unit(out, code);
    }
}

fn put_json_unit<T: Target>(out: &mut Output<T>, unit: u32) {
    out.put("\\u");
    let [_, _, high, low] = unit.to_be_bytes();
    out.put_hex(high, false);
    out.put_hex(low, false);
}
