//! What `Clone` returns: a clone has the same octets as the original. Cloning allocates nothing.
ghost use Rattle.std.specs.Prelude.{◌≡◌, Ok};
ghost use Rattle.der_core.specs.Outcome.{map_ok};
ghost use Rattle.der.specs.BytesRef.{reference_octets};
ghost use Rattle.der.specs.StringRef.{reference_text};

use crate::bytes::BytesRef;
use crate::string::StringRef;
use std::alloc::AllocError;

/// Calls `Clone::clone`. The contract of this function states that cloning succeeds and that the
/// clone has the octets of `bytes`.
fn bytes_ref_clone<'a>(bytes: &BytesRef<'a>) -> Result<BytesRef<'a>, AllocError>
    ensures { map_ok reference_octets result ≡ Ok (reference_octets bytes.now) }
{
    bytes.clone()
}

/// Calls `Clone::clone`. The contract of this function states that cloning succeeds and that the
/// clone has the text of `text`.
fn string_ref_clone<'a>(text: &StringRef<'a>) -> Result<StringRef<'a>, AllocError>
    ensures { map_ok reference_text result ≡ Ok (reference_text text.now) }
{
    text.clone()
}
