//! Makes Rust names of ASN.1 names.

use asn1_syntax::{is_digit, is_line_of, is_lower, is_upper};
use std::alloc::{AllocError, Global};

// The keywords of Rust, and of its contracts.
const KEYWORDS: &str = "as
async
await
box
break
const
continue
crate
dyn
else
ensures
enum
extern
false
final
fn
for
ghost
if
impl
in
let
loop
macro
match
mod
move
mut
pub
ref
requires
result
return
self
static
struct
super
trait
true
try
type
unsafe
use
where
while
yield";

/// The name in lower case with `_` between its words: `tbsCertificate` becomes `tbs_certificate`. A
/// Rust keyword gets a `_` at its end.
pub fn snake_name(alloc: Global, name: &str) -> Result<String, AllocError> {
    let mut text = String::new(alloc);
    let octets = name.as_bytes();
    for at in 0..octets.len() {
        if octets[at] == b'-' {
            text.push('_')?;
            continue;
        }
        if begins_word(octets, at) && at > 0 && octets[at - 1] != b'-' {
            text.push('_')?;
        }
        text.push(char::from(octets[at].to_ascii_lowercase()))?;
    }
    if is_line_of(KEYWORDS, text.as_str()) {
        text.push('_')?;
    }
    Ok(text)
}

/// The name in which each word begins with an upper-case letter: `TBSCertificate` becomes
/// `TbsCertificate`.
pub fn pascal_name(alloc: Global, name: &str) -> Result<String, AllocError> {
    let mut text = String::new(alloc);
    let octets = name.as_bytes();
    for at in 0..octets.len() {
        if octets[at] == b'-' {
            continue;
        }
        let letter = if begins_word(octets, at) {
            octets[at].to_ascii_uppercase()
        } else {
            octets[at].to_ascii_lowercase()
        };
        text.push(char::from(letter))?;
    }
    Ok(text)
}

// Whether a word begins at this index: after a hyphen; at a capital after a small letter or a
// digit, but for a single small letter in front of several capitals, as in `dNSName`; and at a
// capital in front of a small letter.
fn begins_word(octets: &[u8], at: usize) -> bool {
    if at == 0 || at >= octets.len() || octets[at - 1] == b'-' {
        return true;
    }
    if !is_upper(octets[at]) {
        return false;
    }
    let is_after_small = is_lower(octets[at - 1]) || is_digit(octets[at - 1]);
    if is_after_small && at > 1 {
        return true;
    }
    at + 1 < octets.len() && is_lower(octets[at + 1])
}
