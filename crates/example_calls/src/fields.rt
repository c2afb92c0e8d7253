//! An example of a value that borrows from the input, and of a value that owns its memory.
ghost use Rattle.std.specs.Prelude.{◌≡◌, IfOk};
ghost use Rattle.der.specs.Prelude.{OctetString, Utf8String, element_octets};
ghost use Rattle.der.specs.BytesRef.{reference_octets};
ghost use Rattle.der.specs.StringOwned.{owned_text};

use der::example::{BorrowedOctets, OwnedText};
use der::{BytesRef, DecodeBytes, Error, StringOwned};
use std::alloc::Global;

/// Reads exactly one OCTET STRING under DER, and returns its contents, which are borrowed from the
/// input.
pub fn borrowed_octets_of(alloc: Global, octets: &[u8]) -> Result<BytesRef<'_>, Error>
    ensures { IfOk result (λ b. octets.now ≡ element_octets OctetString (reference_octets b)) }
{
    let field = BorrowedOctets::from_der(alloc, octets)?;
    Ok(field.octets)
}

/// Reads exactly one UTF8String under DER, and returns a copy of its text, which outlives the
/// input.
pub fn kept_text(alloc: Global, octets: &[u8]) -> Result<StringOwned, Error>
    ensures { IfOk result (λ t. octets.now ≡ element_octets Utf8String (owned_text t)) }
{
    let field = OwnedText::from_der(alloc, octets)?;
    Ok(field.text)
}
