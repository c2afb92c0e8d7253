//! Written by asn1_compile from the module Parcels: change the module instead.
//!
//! The values of the module.
ghost use Rattle.std.specs.Prelude.{◌≡◌, ◌∷◌, []};
ghost use Rattle.der_asn1.specs.Arcs.{oid_octets};

use der_asn1::ObjectIdentifierRef;

/// The greatest weight of a parcel, in grams.
pub const MAX_WEIGHT: u64 = 30000;

/// Whether a parcel was opened, if nothing is known of it.
pub const IS_OPENED: bool = false;

/// The arc of the OBJECT IDENTIFIERs of this module.
pub fn id_parcels() -> ObjectIdentifierRef<'static>
    ensures { result.octets.now ≡ oid_octets (1 ∷ 2 ∷ 999 ∷ 1 ∷ []) }
{
    let Some(value) = ObjectIdentifierRef::new(&[0x2A, 0x87, 0x67, 0x01]) else {
        unreachable!()
    };
    value
}

/// The kind of a property that says that the parcel is insured.
pub fn id_insured() -> ObjectIdentifierRef<'static>
    ensures { result.octets.now ≡ oid_octets (1 ∷ 2 ∷ 999 ∷ 1 ∷ 1 ∷ []) }
{
    let Some(value) = ObjectIdentifierRef::new(&[0x2A, 0x87, 0x67, 0x01, 0x01]) else {
        unreachable!()
    };
    value
}

/// The kind of a property that says that the parcel is fragile.
pub fn id_fragile() -> ObjectIdentifierRef<'static>
    ensures { result.octets.now ≡ oid_octets (1 ∷ 2 ∷ 999 ∷ 1 ∷ 2 ∷ []) }
{
    let Some(value) = ObjectIdentifierRef::new(&[0x2A, 0x87, 0x67, 0x01, 0x02]) else {
        unreachable!()
    };
    value
}

/// The name of an OBJECT IDENTIFIER in the ASN.1 module, or the first of several; `None` if it
/// has no name there.
pub fn name_of(oid: &ObjectIdentifierRef<'_>) -> Option<&'static str> {
    match oid.octets() {
        [0x2A, 0x87, 0x67, 0x01] => Some("id-parcels"),
        [0x2A, 0x87, 0x67, 0x01, 0x01] => Some("id-insured"),
        [0x2A, 0x87, 0x67, 0x01, 0x02] => Some("id-fragile"),
        _ => None,
    }
}
