//! Certificates of certification paths (RFC 5280, 6.1): their facts, and their signatures as
//! obligations.
//!
//! [`judge_path`] says whether a path keeps the rules of `path_rules`. If it does, the answer is a
//! path [`IfSigned`]: it names the signatures that have to verify, and the keys, as this crate has no
//! cryptography. Only from a true verdict on each does it make a [`ValidPath`]. Such a path is valid
//! if its policies hold, too, which [`judge_policies`] says of what [`read_policies`] reads, and no
//! certificate is revoked. [`purpose_allows`] says whether the key of a certificate may be used for a
//! purpose, such as that of a server of TLS.
//!
//! [`facts_of`] says of one certificate, after those before it in a path, what `path_rules` asks of
//! it, and [`obligation_of`] which signature has to verify.
//!
//! Nothing is allocated, no clock is read, and no certificate is trusted that the caller does not
//! name as [`Anchor`]. What cannot be compared or understood is refused.
#![tactic(auto)]

mod authority;
mod certificate;
mod extensions;
mod facts;
mod fields;
mod filled;
mod if_signed;
mod inputs;
mod judged_policies;
mod judgement;
mod laws;
mod limit;
mod names;
mod obligation;
mod path;
mod policy_lists;
mod policy_note;
mod policy_numbers;
mod purpose;
mod qualifiers;
mod reading;
mod refusal;
mod unsigned;
mod valid_path;
mod validity;
mod verdicts;

pub use certificate::PathCertificate;
pub use facts::{facts_of, no_facts};
pub use if_signed::IfSigned;
pub use inputs::{Anchor, Inputs};
pub use judged_policies::{judge_policies, no_policy_facts};
pub use judgement::Judgement;
pub use obligation::{Obligation, obligation_of};
pub use path::{judge, judge_path};
pub use policy_note::PolicyNote;
pub use purpose::{Purpose, purpose_allows};
pub use reading::{PolicyReading, read_policies};
pub use refusal::Refusal;
pub use unsigned::Unsigned;
pub use valid_path::ValidPath;
