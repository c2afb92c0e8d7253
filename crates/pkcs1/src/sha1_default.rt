//! The default of the field hashAlgorithm of RSAES-OAEP-params and RSASSA-PSS-params.
ghost use Rattle.std.specs.Prelude.{[], ◌∷◌};

use der::{IsValue, Tag};
use der_asn1::{AnyRef, Checked, DefaultEncoding, DefaultOf, Explicit, Optional, has_contents};
use spki::AlgorithmIdentifierRef;

/// The default of the field hashAlgorithm, with the tag \[0\], of RSAES-OAEP-params and
/// RSASSA-PSS-params (RFC 8017, A.2.1 and A.2.3): SHA-1 with parameters NULL.
#[derive(Clone, Copy)]
pub struct Sha1Default;

impl<'a> DefaultOf<Explicit<AlgorithmIdentifierRef<'a>, 0>> for Sha1Default {
    // SEQUENCE { OBJECT IDENTIFIER 1.3.14.3.2.26, NULL }
    ghost default_contents = { 48 ∷ 9 ∷ 6 ∷ 5 ∷ 43 ∷ 14 ∷ 3 ∷ 2 ∷ 26 ∷ 5 ∷ 0 ∷ [] };

    fn default_value() -> Explicit<AlgorithmIdentifierRef<'a>, 0> {
        Explicit(AlgorithmIdentifierRef {
            oid: Checked::formed(&[0x2B, 0x0E, 0x03, 0x02, 0x1A]),
            parameters: Optional(Some(AnyRef {
                tag: Tag::Null,
                contents: &[],
            })),
        })
    }
}

impl<'a> DefaultEncoding<Explicit<AlgorithmIdentifierRef<'a>, 0>> for Sha1Default {
    fn is_default(value: &Explicit<AlgorithmIdentifierRef<'a>, 0>) -> bool {
        value.is_value();
        let octets = [
            0x30, 0x09, 0x06, 0x05, 0x2B, 0x0E, 0x03, 0x02, 0x1A, 0x05, 0x00,
        ];
        has_contents(value, &octets, &mut [0; 11])
    }
}
