//! The default of the field prf of PBKDF2-params.
ghost use Rattle.std.specs.Prelude.{[], ◌∷◌};

use der::{IsValue, Tag};
use der_asn1::{AnyRef, Checked, DefaultEncoding, DefaultOf, Optional, has_contents};
use spki::AlgorithmIdentifierRef;

/// The default of the field prf, the pseudorandom function, of PBKDF2-params (RFC 8018, A.2): HMAC
/// with SHA-1 and parameters NULL.
#[derive(Clone, Copy)]
pub struct HmacWithSha1Default;

impl<'a> DefaultOf<AlgorithmIdentifierRef<'a>> for HmacWithSha1Default {
    // OBJECT IDENTIFIER 1.2.840.113549.2.7, NULL
    ghost default_contents = { 6 ∷ 8 ∷ 42 ∷ 134 ∷ 72 ∷ 134 ∷ 247 ∷ 13 ∷ 2 ∷ 7 ∷ 5 ∷ 0 ∷ [] };

    fn default_value() -> AlgorithmIdentifierRef<'a> {
        AlgorithmIdentifierRef {
            oid: Checked::formed(&[0x2A, 0x86, 0x48, 0x86, 0xF7, 0x0D, 0x02, 0x07]),
            parameters: Optional(Some(AnyRef {
                tag: Tag::Null,
                contents: &[],
            })),
        }
    }
}

impl<'a> DefaultEncoding<AlgorithmIdentifierRef<'a>> for HmacWithSha1Default {
    fn is_default(value: &AlgorithmIdentifierRef<'a>) -> bool {
        value.is_value();
        let octets = [
            0x06, 0x08, 0x2A, 0x86, 0x48, 0x86, 0xF7, 0x0D, 0x02, 0x07, 0x05, 0x00,
        ];
        has_contents(value, &octets, &mut [0; 12])
    }
}
