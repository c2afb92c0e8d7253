//! Written by asn1_compile from the module Parcels: change the module instead.
//!
//! The types of the module.

mod address;
mod delivery;
mod handling;
mod journey;
mod label;
mod packing;
mod parcel;
mod parcel_part1;
mod parcel_part2;
mod parcel_part3;
mod parcel_part4;
mod plan;
mod property;
mod property_known;
mod seal;
mod stop;
mod text;
mod text_part1;
mod text_part2;
mod text_tagged;
mod time;
mod time_part1;
mod time_part2;
pub mod values;
mod version;

pub use address::{Address, AddressFields};
pub use delivery::Delivery;
pub use handling::{Handling, HandlingBit};
pub use journey::{Journey, JourneyFields};
pub use label::{Label, LabelFields};
pub use packing::Packing;
pub use parcel::{Parcel, ParcelFields, ParcelPackingDefault, ParcelVersionDefault};
pub use plan::Plan;
pub use property::{Property, PropertyFields};
pub use property_known::PropertyKnown;
pub use seal::{Seal, SealFields};
pub use stop::{Stop, StopFields};
pub use text::Text;
pub use text_tagged::{TextTagged, TextTaggedFields};
pub use time::Time;
pub use version::Version;
