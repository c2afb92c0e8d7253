//! The values of constants. Each function here returns a constant, and its contract states the
//! value of the constant. Nothing calls the functions of this module.
ghost use Rattle.std.specs.Prelude.{◌≡◌, []};
ghost use Rattle.der.specs.BytesRef.{reference_octets};

use crate::bytes::BytesRef;

/// Returns [`BytesRef::EMPTY`]. The contract of this function states that it has no octets.
fn empty() -> BytesRef<'static>
    ensures { reference_octets result ≡ [] }
{
    BytesRef::EMPTY
}
