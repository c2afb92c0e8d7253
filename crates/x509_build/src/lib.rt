//! Certification paths from certificates in any order (RFC 5280, 6.1).
//!
//! A [`Pool`] has the certificate to be validated, certificates that may be in a path, and trust
//! anchors. By the names it says to the search of `path_search` which of them may issue a
//! certificate. [`next_path`] returns one path after the other that keeps the rules of `x509_path`,
//! shorter ones first. The caller verifies its signatures, and puts a [`Link`] whose signature fails
//! into the pool: no later path has it. [`judge_chain`] says why a single chain is no such path.
//!
//! Certificates are tried in the order in which they are given. Key identifiers decide nothing: a
//! caller may put first the certificates whose identifiers fit. A certificate that is given twice is
//! tried twice.
//!
//! Nothing is allocated: the rooms are those of the caller. The number of chains may be exponential,
//! so the steps of the search limit how long a call takes. Signatures, policies and revocation are
//! not judged.
#![tactic(auto)]

mod built;
mod issuing;
mod judged;
mod laws;
mod link;
mod next;
mod pool;
mod room;

pub use built::Built;
pub use judged::judge_chain;
pub use link::{Link, link_at};
pub use next::next_path;
pub use pool::Pool;
