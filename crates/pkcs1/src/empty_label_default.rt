//! The default of the field pSourceAlgorithm of RSAES-OAEP-params.
ghost use Rattle.std.specs.Prelude.{[], ◌∷◌};

use der::{IsValue, Tag};
use der_asn1::{AnyRef, Checked, DefaultEncoding, DefaultOf, Explicit, Optional, has_contents};
use spki::AlgorithmIdentifierRef;

/// The default of the field pSourceAlgorithm, with the tag \[2\], of RSAES-OAEP-params (RFC 8017,
/// A.2.1): the empty label.
#[derive(Clone, Copy)]
pub struct EmptyLabelDefault;

impl<'a> DefaultOf<Explicit<AlgorithmIdentifierRef<'a>, 2>> for EmptyLabelDefault {
    // SEQUENCE { OBJECT IDENTIFIER 1.2.840.113549.1.1.9, OCTET STRING of no octets }
    ghost default_contents = { 48 ∷ 13 ∷ 6 ∷ 9 ∷ 42 ∷ 134 ∷ 72 ∷ 134 ∷ 247 ∷ 13 ∷ 1 ∷ 1 ∷ 9 ∷ 4 ∷ 0
        ∷ [] };

    fn default_value() -> Explicit<AlgorithmIdentifierRef<'a>, 2> {
        Explicit(AlgorithmIdentifierRef {
            oid: Checked::formed(&[0x2A, 0x86, 0x48, 0x86, 0xF7, 0x0D, 0x01, 0x01, 0x09]),
            parameters: Optional(Some(AnyRef {
                tag: Tag::OctetString,
                contents: &[],
            })),
        })
    }
}

impl<'a> DefaultEncoding<Explicit<AlgorithmIdentifierRef<'a>, 2>> for EmptyLabelDefault {
    fn is_default(value: &Explicit<AlgorithmIdentifierRef<'a>, 2>) -> bool {
        value.is_value();
        let octets = [
            0x30, 0x0D, 0x06, 0x09, 0x2A, 0x86, 0x48, 0x86, 0xF7, 0x0D, 0x01, 0x01, 0x09, 0x04,
            0x00,
        ];
        has_contents(value, &octets, &mut [0; 15])
    }
}
