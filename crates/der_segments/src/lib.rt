//! An OCTET STRING (X.690 8.7) that is borrowed from the input, even if BER encodes it in segments.
//! Nothing is allocated: a message in segments needs no second copy.
#![tactic(auto)]

mod constructed_segmented;
mod implicit_segmented;
mod measure;
mod segmented;
mod segments;

pub use implicit_segmented::ImplicitSegmented;
pub use segmented::Segmented;
pub use segments::Segments;
