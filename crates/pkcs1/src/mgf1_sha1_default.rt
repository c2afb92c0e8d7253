//! The default of the field maskGenAlgorithm of RSAES-OAEP-params and RSASSA-PSS-params.
ghost use Rattle.std.specs.Prelude.{[], ◌∷◌};

use der::{IsValue, Tag};
use der_asn1::{AnyRef, Checked, DefaultEncoding, DefaultOf, Explicit, Optional, has_contents};
use spki::AlgorithmIdentifierRef;

/// The default of the field maskGenAlgorithm, with the tag \[1\], of RSAES-OAEP-params and
/// RSASSA-PSS-params (RFC 8017, A.2.1 and A.2.3): MGF1 with SHA-1.
#[derive(Clone, Copy)]
pub struct Mgf1Sha1Default;

impl<'a> DefaultOf<Explicit<AlgorithmIdentifierRef<'a>, 1>> for Mgf1Sha1Default {
    // SEQUENCE { OBJECT IDENTIFIER 1.2.840.113549.1.1.8, SEQUENCE { OBJECT IDENTIFIER 1.3.14.3.2.26,
    // NULL } }
    ghost default_contents = { 48 ∷ 22 ∷ 6 ∷ 9 ∷ 42 ∷ 134 ∷ 72 ∷ 134 ∷ 247 ∷ 13 ∷ 1 ∷ 1 ∷ 8 ∷ 48 ∷ 9
        ∷ 6 ∷ 5 ∷ 43 ∷ 14 ∷ 3 ∷ 2 ∷ 26 ∷ 5 ∷ 0 ∷ [] };

    fn default_value() -> Explicit<AlgorithmIdentifierRef<'a>, 1> {
        Explicit(AlgorithmIdentifierRef {
            oid: Checked::formed(&[0x2A, 0x86, 0x48, 0x86, 0xF7, 0x0D, 0x01, 0x01, 0x08]),
            parameters: Optional(Some(AnyRef {
                tag: Tag::Sequence,
                contents: &[0x06, 0x05, 0x2B, 0x0E, 0x03, 0x02, 0x1A, 0x05, 0x00],
            })),
        })
    }
}

impl<'a> DefaultEncoding<Explicit<AlgorithmIdentifierRef<'a>, 1>> for Mgf1Sha1Default {
    fn is_default(value: &Explicit<AlgorithmIdentifierRef<'a>, 1>) -> bool {
        value.is_value();
        let octets = [
            0x30, 0x16, 0x06, 0x09, 0x2A, 0x86, 0x48, 0x86, 0xF7, 0x0D, 0x01, 0x01, 0x08, 0x30,
            0x09, 0x06, 0x05, 0x2B, 0x0E, 0x03, 0x02, 0x1A, 0x05, 0x00,
        ];
        has_contents(value, &octets, &mut [0; 24])
    }
}
