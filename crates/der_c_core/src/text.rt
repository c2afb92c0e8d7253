//! The texts of errors, for C.
ghost use Rattle.std.specs.Prelude.{◌≡◌, ◌≢◌, ◌≤◌, None, IfSome, length};
ghost use Rattle.der_c_core.specs.ErrorText.{AppendsText, IsSeenAs, NamesNone, HasText, IsCut, WritesErrorText};

mod cut;

use crate::error::{DerError, known_error};
use crate::text::cut::Text;
use der_base::Error;
use std::fmt;
use std::fmt::Write;

impl fmt::Write for Text<'_> {
    ghost write_str_gives = { AppendsText };

    fn write_str(&mut self, s: &str) -> fmt::Result {
        self.append(s);
        Ok(())
    }
}

/// Writes the text of `error` to the start of `text`, and a zero octet after it. If `text` is too
/// short, truncates the text of `error` so that the zero octet still fits. Writes nothing if `text`
/// has no octets. Returns the number of octets written, without the zero octet.
///
/// The text is `no error` if the kind of `error` is 0 or `Utf8` (20). The text is also `no error`
/// if no function of this library can return `error`.
#[inline(always)]
pub fn der_error_text(error: DerError, text: &mut [u8]) -> usize
    ensures { WritesErrorText error text.old result text.new }
{
    let capacity = text.len();
    if capacity == 0 {
        return 0;
    }
    let count = write_text(error, &mut text[..capacity - 1]);
    text[count] = 0;
    count
}

// Writes the text of `error`, without a zero octet.
fn write_text(error: DerError, text: &mut [u8]) -> usize
    ensures size { length text.new ≡ length text.old }
    ensures fits { result ≤ length text.old }
    ensures written { HasText error (λ t. IsCut t text.old result text.new) (result ≡ 0) }
{
    let mut out = Text {
        octets: text,
        count: 0,
    };
    if error.kind == 23 {
        let position = error.position;
        return match write!(
            out,
            "element not ended, or ended out of order at DER byte {position}"
        ) {
            Ok(()) => out.count,
            Err(_) => 0,
        };
    }
    match seen_error(error) {
        Some(known) => match write!(out, "{known}") {
            Ok(()) => out.count,
            Err(_) => 0,
        },
        None => {
            out.append("no error");
            out.count
        }
    }
}

// The error with this C form, with the tag that was expected, or else without it.
fn seen_error(code: DerError) -> Option<Error>
    ensures some { IfSome result (λ e. IsSeenAs e code × (code.kind ≢ 20)) }
    ensures none { result ≡ None → NamesNone code }
{
    match known_error(code) {
        Some(error) => Some(error),
        None => known_error(DerError {
            expected: 0,
            first: 0,
            ..code
        }),
    }
}
