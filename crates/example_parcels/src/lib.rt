//! Examples of types that are compiled from ASN.1 modules: parcels on their way to a recipient, and
//! visits to a museum.
#![tactic(auto)]

pub mod asn1;
pub mod visits;

pub use asn1::{
    Address, AddressFields, Delivery, Handling, HandlingBit, Journey, JourneyFields, Label,
    LabelFields, Packing, Parcel, ParcelFields, ParcelPackingDefault, ParcelVersionDefault, Plan,
    Property, PropertyFields, PropertyKnown, Seal, SealFields, Stop, StopFields, Text, TextTagged,
    TextTaggedFields, Time, Version,
};
pub use visits::{Visit, VisitFields};
