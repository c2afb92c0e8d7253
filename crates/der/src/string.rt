//! Texts in UTF-8 of at most 4294967295 octets, borrowed or owned.
ghost use Rattle.std.specs.Prelude.{◌≡◌, true, IfOk, IfErr, false};
ghost use Rattle.std.specs.Str.{is_utf8};
ghost use Rattle.der_base.specs.Error.{error_of_kind};
ghost use Rattle.der_base.specs.declared.error.ErrorKind.TheVariants.{Utf8 as NotUtf8};
ghost use Rattle.der.specs.Octets.{utf8_fault};

use der_base::Error;

mod cow;
mod owned;
mod reference;

pub use cow::StringCow;
pub use owned::StringOwned;
pub use reference::StringRef;

// The octets as a text; `Utf8` without a position if they are not UTF-8.
pub(crate) fn text_of(bytes: &[u8]) -> Result<&str, Error>
    ensures ok { IfOk result (λ text. (text.now ≡ bytes.now) × (is_utf8 bytes.now ≡ true)) }
    ensures refused { IfErr result (λ e. (is_utf8 bytes.now ≡ false)
        × (e ≡ error_of_kind (NotUtf8 (utf8_fault bytes.now)))) }
{
    match std::str::from_utf8(bytes) {
        Ok(text) => Ok(text),
        Err(fault) => Err(Error::from(fault)),
    }
}
