//! The default hash algorithm of an ESSCertIDv2.
ghost use Rattle.std.specs.Prelude.{[], ◌∷◌};

use der::IsValue;
use der_asn1::{Checked, DefaultEncoding, DefaultOf, Optional, has_contents};
use spki::AlgorithmIdentifierRef;

/// The default hash algorithm of an ESSCertIDv2 (RFC 5035, 4): SHA-256 without parameters.
#[derive(Clone, Copy)]
pub struct Sha256Default;

impl<'a> DefaultOf<AlgorithmIdentifierRef<'a>> for Sha256Default {
    // OBJECT IDENTIFIER 2.16.840.1.101.3.4.2.1
    ghost default_contents = { 6 ∷ 9 ∷ 96 ∷ 134 ∷ 72 ∷ 1 ∷ 101 ∷ 3 ∷ 4 ∷ 2 ∷ 1 ∷ [] };

    fn default_value() -> AlgorithmIdentifierRef<'a> {
        AlgorithmIdentifierRef {
            oid: Checked::formed(&[0x60, 0x86, 0x48, 0x01, 0x65, 0x03, 0x04, 0x02, 0x01]),
            parameters: Optional(None),
        }
    }
}

impl<'a> DefaultEncoding<AlgorithmIdentifierRef<'a>> for Sha256Default {
    fn is_default(value: &AlgorithmIdentifierRef<'a>) -> bool {
        value.is_value();
        let octets = [
            0x06, 0x09, 0x60, 0x86, 0x48, 0x01, 0x65, 0x03, 0x04, 0x02, 0x01,
        ];
        has_contents(value, &octets, &mut [0; 11])
    }
}
