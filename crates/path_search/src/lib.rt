//! Search for chains among candidates, shorter ones first.
//!
//! [`Search`] finds the paths from a certificate to a trust anchor. The candidates are numbers; a
//! caller that knows the certificates says which candidate may follow a chain, and which chain
//! reaches an anchor ([`Candidates`]). [`Search::next`] returns one path after the other. The caller
//! may change its mind between two calls: a candidate that no longer may follow a chain, since a
//! signature has failed, is left out with every chain that has it at that place.
//!
//! The chain goes into a room of the caller. A call takes as many steps as the caller allows at most,
//! since the number of chains may be exponential.
//!
//! It is proved that each path is found, and found once, and that shorter ones are found first. This
//! crate allocates nothing and uses std alone.
#![tactic(auto)]

mod candidates;
mod chain;
mod laws;
mod place;
mod search;
mod step;
mod turn;

pub use candidates::Candidates;
pub use search::Search;
pub use step::Step;
