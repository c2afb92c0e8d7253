//! Texts of errors, for C.
//!
//! Written by tools/c_interface: change the crates that der_c uses instead.
ghost use Rattle.der_c_core.specs.ErrorText.{WritesErrorText};

use der_c_core::DerError;

/// Writes the text of `error` to the start of `text`, and a zero octet after it. If `text` is too
/// short, truncates the text of `error` so that the zero octet still fits. Writes nothing if `text`
/// has no octets. Returns the number of octets written, without the zero octet.
///
/// The text is `no error` if the kind of `error` is 0 or `Utf8` (20). The text is also `no error`
/// if no function of this library can return `error`.
#[unsafe(no_mangle)]
pub extern "C" fn der_error_text(error: DerError, text: &mut [u8]) -> usize
    ensures { WritesErrorText error text.old result text.new }
{
    der_c_core::der_error_text(error, text)
}
