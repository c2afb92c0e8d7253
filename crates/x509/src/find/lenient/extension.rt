//! The extensions whose contents need not be DER.

use crate::{BasicConstraints, KnownExtension, ext};
use der::Lawful;
use der_asn1::BitStringRef;

/// A type of extension that [`find_lenient`](crate::find_lenient) can find. The contents of the
/// extension are DER, or have one of the three forms that [`find_lenient`](crate::find_lenient)
/// names.
pub trait LenientExtension<'a>: KnownExtension<'a> {
    /// The type of value that the contents are decoded to, by `from_ber`.
    type Lenient: Lawful;
}

/// The named bits of a keyUsage may have zero bits after them, which DER forbids (X.690 11.2.2). So
/// a keyUsage is decoded as a BIT STRING without this restriction.
impl<'a> LenientExtension<'a> for ext::KeyUsage {
    type Lenient = BitStringRef<'a>;
}

/// A basicConstraints may contain `cA FALSE`, which is the default, and its own length may be
/// indefinite. DER forbids both (X.690 11.5, 10.1).
impl<'a> LenientExtension<'a> for ext::BasicConstraints {
    type Lenient = BasicConstraints<'a>;
}
