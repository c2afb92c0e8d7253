//! Items with an object identifier for their type.
ghost use Rattle.std.specs.Prelude.{◌≡◌, ℕ, List};

use crate::asn1::{Attribute, AttributeTypeAndValue, Extension};

/// Items of a list that have a type, such as extensions and attributes. The type is given by an
/// object identifier.
///
/// Ghost member (for proofs only): `type_octets` is the contents octets of that object identifier.
pub trait Typed {
    ghost type_octets: { Self → List ℕ };

    /// The contents octets of the object identifier of the item's type.
    fn type_octets(&self) -> &[u8]
        ensures { result.now ≡ type_octets self.now };
}

impl Typed for Extension<'_> {
    ghost type_octets = { λ v. v.extn_id.octets.now };

    fn type_octets(&self) -> &[u8] {
        self.extn_id.octets()
    }
}

impl Typed for Attribute<'_> {
    ghost type_octets = { λ v. v.oid.octets.now };

    fn type_octets(&self) -> &[u8] {
        self.oid.octets()
    }
}

impl Typed for AttributeTypeAndValue<'_> {
    ghost type_octets = { λ v. v.oid.octets.now };

    fn type_octets(&self) -> &[u8] {
        self.oid.octets()
    }
}
