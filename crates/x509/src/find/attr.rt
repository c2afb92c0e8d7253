//! Types of attributes of certification requests, for
//! [`find_attribute`](crate::CertReqInfo::find_attribute).
ghost use Rattle.std.specs.Prelude.{◌≡◌, ◌∷◌, []};
ghost use Rattle.der_asn1.specs.Arcs.{oid_octets};

use super::known_attribute::KnownAttribute;
use crate::asn1::Extensions;
use crate::asn1::values::id_extension_request;
use der_asn1::ObjectIdentifierRef;

/// extensionRequest (RFC 2985, 5.4.2): the extensions that the certificate should have.
pub struct ExtensionRequest;

impl<'a> KnownAttribute<'a> for ExtensionRequest {
    type Value = Extensions<'a>;

    ghost id_octets = { oid_octets (1 ∷ 2 ∷ 840 ∷ 113549 ∷ 1 ∷ 9 ∷ 14 ∷ []) };

    fn identifier() -> ObjectIdentifierRef<'static>
        ensures { result.octets.now ≡ oid_octets (1 ∷ 2 ∷ 840 ∷ 113549 ∷ 1 ∷ 9 ∷ 14 ∷ []) }
    {
        id_extension_request()
    }
}
