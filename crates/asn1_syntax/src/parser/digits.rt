//! Checks of the digits in lexical items.

use super::refused;
use crate::failure::Failure;
use crate::item::Item;
use crate::item_kind::ItemKind;
use crate::octet_class::{is_digit, is_space};

/// Checks that no number has a leading zero (X.680, 12.8), and that binary and hexadecimal strings
/// have only digits of their kind and white space (12.10 and 12.12).
pub fn check_digits<'a>(items: &Vec<Item<'a>>) -> Result<(), Failure<'a>> {
    for item in items.iter() {
        match item.kind {
            ItemKind::Number if item.text.len() > 1 && item.text.starts_with("0") => {
                return Err(refused(*item, "a number without a zero in front of it"));
            }
            ItemKind::BinaryString if !has_digits(item.text, false) => {
                return Err(refused(*item, "the digits 0 and 1 between quotation marks"));
            }
            ItemKind::HexString if !has_digits(item.text, true) => {
                return Err(refused(
                    *item,
                    "digits and the letters A to F between quotation marks",
                ));
            }
            _ => {}
        }
    }
    Ok(())
}

// Whether only digits and white space are between the quotation marks.
fn has_digits(text: &str, is_hexadecimal: bool) -> bool {
    let inside = text.get(1..text.len().saturating_sub(2)).unwrap_or("");
    for octet in inside.as_bytes() {
        if !is_space(*octet) && !is_digit_of(*octet, is_hexadecimal) {
            return false;
        }
    }
    true
}

fn is_digit_of(octet: u8, is_hexadecimal: bool) -> bool {
    if is_hexadecimal {
        return is_digit(octet) || (b'A' <= octet && octet <= b'F');
    }
    octet == b'0' || octet == b'1'
}
