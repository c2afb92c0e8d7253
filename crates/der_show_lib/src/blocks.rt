//! Shows the PEM blocks of a text.

use crate::json::put_json_encrypted;
use crate::options::Shown;
use crate::place::Place;
use crate::show::{Show, put_place, put_plain};
use crate::values::show_values;
use der_print::{Characters, Style, put_text};
use pem::{Block, Blocks};
use std::fmt::Write;

/// The error for keys of OpenSSH and of OpenPGP.
const NO_ASN1: &str = "not ASN.1";

/// The octets at the front of a private key of OpenSSH, without base64.
const OPENSSH: &[u8] = b"openssh-key-v1\0";

// Whether a block with this label holds no ASN.1: those of OpenSSH and of OpenPGP (RFC 9580, 6.2).
fn is_other_label(label: &str) -> bool {
    label == "OPENSSH PRIVATE KEY" || label.starts_with("PGP ")
}

/// Shows the values in each PEM block of `text`. If a block is not valid PEM, prints an error and
/// stops there.
pub fn show_blocks(show: &mut Show<'_>, place: &Place<'_>, text: &[u8]) {
    let mut is_first = true;
    for found in Blocks::new(text) {
        match found {
            Ok(block) => {
                if !is_first && show.options.shown == Shown::Text {
                    show.page.put("\n");
                }
                is_first = false;
                show_block(show, place, &block);
            }
            Err(error) => {
                show.begin_error(place);
                let _ = write!(show.errors, "{error}\n");
                show.errors.flush();
                return;
            }
        }
    }
}

// Shows the block under its label.
fn show_block(show: &mut Show<'_>, around: &Place<'_>, block: &Block<'_>) {
    let place = Place {
        file: around.file,
        label: Some(block.label()),
        line: block.begin().line,
    };
    if show.options.shown == Shown::Text {
        put_plain(&mut show.page.out, block.label());
        show.page.put(" (line ");
        show.page.number(place.line as u64);
        show.page.put("):\n");
    }
    if is_other_label(block.label()) {
        show.error(&place, NO_ASN1);
        return;
    }
    if block.is_encrypted() {
        show_encrypted(show, &place, block);
        return;
    }
    let mut octets = Vec::new(show.page.alloc);
    if octets.resize(block.decoded_len(), 0).is_err() {
        show.memory_error(&place);
        return;
    }
    match block.decode_into(&mut octets) {
        Ok(count) => {
            octets.truncate(count);
            show_decoded(show, &place, octets.as_slice());
        }
        Err(error) => {
            show.begin_error(&place);
            let _ = write!(show.errors, "{error}\n");
            show.errors.flush();
        }
    }
}

/// Shows the values in `octets`, the contents of a PEM block or of a file. Octets that are no ASN.1
/// are refused.
pub fn show_decoded(show: &mut Show<'_>, place: &Place<'_>, octets: &[u8]) {
    if octets.is_empty() {
        show.error(place, "the block is empty");
    } else if octets.starts_with(OPENSSH) {
        show.error(place, NO_ASN1);
    } else {
        show_values(show, place, octets);
    }
}

// A block whose octets are encrypted as RFC 1421 says: only how is known.
fn show_encrypted(show: &mut Show<'_>, place: &Place<'_>, block: &Block<'_>) {
    let info = block.header(b"DEK-Info").unwrap_or(&[]);
    match show.options.shown {
        Shown::Text => {
            show.page.put("Encrypted (RFC 1421), DEK-Info: ");
            put_text(&mut show.page.out, info, Characters::Utf8, Style::Line);
            show.page.end();
        }
        Shown::Json => put_json_encrypted(show, place, info),
        Shown::Departures => {}
        Shown::Short => {
            put_place(&mut show.page.out, place);
            show.page.put("encrypted (RFC 1421)\n");
        }
        _ => show.error(place, "the block is encrypted, and cannot be converted"),
    }
}
