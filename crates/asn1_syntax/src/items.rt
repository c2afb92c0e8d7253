//! The lexical items of a text.
ghost use Rattle.std.specs.Prelude.{◌≡◌, ◌<◌, ◌≤◌, length, IfOk};

use crate::failure::Failure;
use crate::item::Item;
use crate::item_kind::ItemKind;
use crate::octet_class::{is_digit, is_lower, is_upper};
use crate::refusal::Refusal;
use crate::scan::{
    end_of_block_comment, end_of_line_comment, end_of_name, end_of_number, end_of_quoted,
    end_of_space, symbol_len,
};
use std::alloc::Global;

const NO_END: &str = "the end of what begins here";

const NO_CHARACTER: &str = "a character of the notation";

const SYMBOLS: &[u8] = b"{}[]()<>,;:.|-@!^*&";

/// Returns the lexical items of a text in their order. The last item has the kind `End`. A comment
/// is no item of its own: it is in the field `comments` of the item after it. Fails where no
/// lexical item begins, and where a string or a comment is not closed.
pub fn items_of<'a>(alloc: Global, text: &'a str) -> Result<Vec<Item<'a>>, Failure<'a>> {
    let octets = text.as_bytes();
    let mut items = Vec::new(alloc);
    let mut at = start_of(octets);
    let mut comments_start = at;
    for _ in 0..octets.len() {
        at = end_of_space(octets, at);
        if at == octets.len() {
            break;
        }
        let Ok((kind, end)) = item_at(octets, at) else {
            return Err(Failure::Refused(bad_item(text, at)));
        };
        if kind != ItemKind::Comment {
            items.push(Item {
                kind,
                text: text.get(at..end).unwrap_or(""),
                offset: at,
                comments: text.get(comments_start..at).unwrap_or(""),
            })?;
            comments_start = end;
        }
        at = end;
    }
    items.push(Item {
        kind: ItemKind::End,
        text: "",
        offset: at,
        comments: text.get(comments_start..).unwrap_or(""),
    })?;
    Ok(items)
}

// The index after the mark of UTF-8 that a text may begin with.
fn start_of(octets: &[u8]) -> usize
    ensures { result ≤ length octets.now }
{
    match octets {
        [0xEF, 0xBB, 0xBF, ..] => 3,
        _ => 0,
    }
}

fn bad_item<'a>(text: &'a str, offset: usize) -> Refusal<'a> {
    let rest = text.get(offset..).unwrap_or("");
    let found = rest.get(..1).unwrap_or("this character");
    let expected = match found {
        "\"" | "'" | "/" => NO_END,
        _ => NO_CHARACTER,
    };
    Refusal {
        offset,
        found,
        expected,
    }
}

// The kind of the item at `at`, and the index after it; `Err` if none begins there.
fn item_at(text: &[u8], at: usize) -> Result<(ItemKind, usize), ()>
    requires { at < length text.now }
    ensures { IfOk result (λ r. (at < r.1) × (r.1 ≤ length text.now)) }
{
    let octet = text[at];
    if is_upper(octet) {
        return Ok((ItemKind::UpperName, end_of_name(text, at + 1)));
    }
    if is_lower(octet) {
        return Ok((ItemKind::LowerName, end_of_name(text, at + 1)));
    }
    if is_digit(octet) {
        return Ok((ItemKind::Number, end_of_number(text, at + 1)));
    }
    match octet {
        b'\'' => digits_at(text, at),
        b'"' => match end_of_quoted(text, at + 1, b'"') {
            Some(end) => Ok((ItemKind::CharacterString, end)),
            None => Err(()),
        },
        _ => mark_at(text, at),
    }
}

// The string of binary or hexadecimal digits at `at`.
fn digits_at(text: &[u8], at: usize) -> Result<(ItemKind, usize), ()>
    requires { at < length text.now }
    ensures { IfOk result (λ r. (at < r.1) × (r.1 ≤ length text.now)) }
{
    let Some(end) = end_of_quoted(text, at + 1, b'\'') else {
        return Err(());
    };
    if end < text.len() && text[end] == b'B' {
        return Ok((ItemKind::BinaryString, end + 1));
    }
    if end < text.len() && text[end] == b'H' {
        return Ok((ItemKind::HexString, end + 1));
    }
    Err(())
}

// The comment or the symbol at `at`.
fn mark_at(text: &[u8], at: usize) -> Result<(ItemKind, usize), ()>
    requires { at < length text.now }
    ensures { IfOk result (λ r. (at < r.1) × (r.1 ≤ length text.now)) }
{
    if at + 1 < text.len() && text[at] == b'-' && text[at + 1] == b'-' {
        return Ok((ItemKind::Comment, end_of_line_comment(text, at + 2)));
    }
    if at + 1 < text.len() && text[at] == b'/' && text[at + 1] == b'*' {
        return match end_of_block_comment(text, at) {
            Some(end) => Ok((ItemKind::Comment, end)),
            None => Err(()),
        };
    }
    if !SYMBOLS.contains(&text[at]) {
        return Err(());
    }
    Ok((ItemKind::Symbol, at + symbol_len(text, at)))
}
