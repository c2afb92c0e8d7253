//! The texts of `der_show --verify`: how a certificate is judged (RFC 5280, 6.1; RFC 9525).
//!
//! [`put_judgement`] searches the paths from trust anchors to a certificate. It prints each path, with
//! the certificate and the rule that it breaks, or with the signatures that have to verify. So what it
//! says is "valid if these signatures verify": it verifies none, and judges no policies and no
//! revocation.
#![tactic(auto)]

mod asked;
mod judgement;
mod paths;
mod signatures;

pub use asked::Asked;
pub use judgement::{Judgement, put_judgement};
