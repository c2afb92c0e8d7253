//! Where a lexical item ends.
ghost use Rattle.std.specs.Prelude.{◌≡◌, ◌<◌, ◌≤◌, ◌+◌, length, IfSome};

use crate::octet_class::{is_digit, is_name_octet, is_space};

/// The index of the first octet, at or after `from`, that is not white space; the length of `text`
/// if there is none.
pub fn end_of_space(text: &[u8], from: usize) -> usize
    requires { from ≤ length text.now }
    ensures low { from ≤ result }
    ensures high { result ≤ length text.now }
{
    for at in from..text.len() {
        if !is_space(text[at]) {
            return at;
        }
    }
    text.len()
}

/// The index of the first octet, at or after `from`, that is not a digit; the length of `text` if
/// there is none.
pub fn end_of_number(text: &[u8], from: usize) -> usize
    requires { from ≤ length text.now }
    ensures low { from ≤ result }
    ensures high { result ≤ length text.now }
{
    for at in from..text.len() {
        if !is_digit(text[at]) {
            return at;
        }
    }
    text.len()
}

/// The index after the last octet of a name. The octet before `from` belongs to the name. Two
/// hyphens in a row, and a hyphen at the end, do not belong to the name, since two hyphens begin a
/// comment (X.680, 12.2).
pub fn end_of_name(text: &[u8], from: usize) -> usize
    requires { from ≤ length text.now }
    ensures low { from ≤ result }
    ensures high { result ≤ length text.now }
{
    for at in from..text.len() {
        if !is_name_octet(text[at]) || (text[at] == b'-' && !is_name_after(text, at)) {
            return at;
        }
    }
    text.len()
}

// Whether a letter or a digit is after the hyphen at this index.
fn is_name_after(text: &[u8], at: usize) -> bool
    requires { at < length text.now }
{
    match text.get(at + 1) {
        Some(octet) => *octet != b'-' && is_name_octet(*octet),
        None => false,
    }
}

/// The index after a comment that begins with two hyphens. The comment ends at the end of its line
/// or after the next two hyphens, whichever comes first (X.680, 12.6.3). `from` is the index after
/// the first two hyphens.
pub fn end_of_line_comment(text: &[u8], from: usize) -> usize
    requires { from ≤ length text.now }
    ensures low { from ≤ result }
    ensures high { result ≤ length text.now }
{
    for at in from..text.len() {
        if 10 <= text[at] && text[at] <= 13 {
            return at;
        }
        if at + 1 < text.len() && text[at] == b'-' && text[at + 1] == b'-' {
            return at + 2;
        }
    }
    text.len()
}

/// The index after the comment that begins with `/*` at `from`. Such comments may be nested (X.680,
/// 12.6.4). `None` if the comment is not closed.
pub fn end_of_block_comment(text: &[u8], from: usize) -> Option<usize>
    requires { from ≤ length text.now }
    ensures { IfSome result (λ end. (from < end) × (end ≤ length text.now)) }
{
    let mut depth = 0usize;
    let mut free = from;
    for at in from..text.len() {
        if free <= at && at + 1 < text.len() {
            if text[at] == b'/' && text[at + 1] == b'*' {
                depth = depth.saturating_add(1);
                free = at + 2;
            } else if text[at] == b'*' && text[at + 1] == b'/' {
                if depth <= 1 {
                    return Some(at + 2);
                }
                depth -= 1;
                free = at + 2;
            }
        }
    }
    None
}

/// The index after the first octet, at or after `from`, that is `mark`. `None` if there is none.
pub fn end_of_quoted(text: &[u8], from: usize, mark: u8) -> Option<usize>
    requires { from ≤ length text.now }
    ensures { IfSome result (λ end. (from < end) × (end ≤ length text.now)) }
{
    for at in from..text.len() {
        if text[at] == mark {
            return Some(at + 1);
        }
    }
    None
}

/// The number of octets of the symbol that begins at the index `at`: 3 for `::=` and `...`, 2 for
/// `..`, `[[` and `]]`, and 1 for any other symbol.
pub fn symbol_len(text: &[u8], at: usize) -> usize
    requires { at < length text.now }
    ensures low { 0 < result }
    ensures high { at + result ≤ length text.now }
{
    match &text[at..] {
        [b':', b':', b'=', ..] | [b'.', b'.', b'.', ..] => 3,
        [b'.', b'.', ..] | [b'[', b'[', ..] | [b']', b']', ..] => 2,
        _ => 1,
    }
}
