//! The rules of RFC 5280 for certification paths (6.1), over facts of certificates.
//!
//! [`path_answer`] takes what is to be known of each certificate of a path, as [`Facts`], and says
//! whether the path keeps all [`RULES`], or the first certificate that breaks one, and which.
//! [`policies_answer`] takes the policies of each certificate, as [`PolicyFacts`], and what the
//! caller asks, as [`PolicyInputs`], and says the same of [`POLICY_RULES`]. A path is valid if both
//! answers are `Valid`, each certificate is signed with the key of the one before or of the trust
//! anchor, and none is revoked. The last two are for the caller: this crate has no cryptography, and
//! knows no revocation lists.
//!
//! Policies are decided over the graph of RFC 9618, so a path whose policy tree is exponential takes
//! time for the product of two numbers: the nodes of a depth, and the policies and mappings of a
//! certificate. The nodes go into a room of the caller. [`is_authority_policy`] says for
//! which policies a path is valid.
//!
//! The facts come from a caller that reads certificates. So this crate knows no DER, allocates
//! nothing and uses std alone. Each answer is proved to be exactly what the definitions in `specs/`
//! say, in the terms of the RFC; laws say that the steps of the RFC with max_path_length accept the
//! same paths, and that its valid_policy_tree has the same policies at each depth.
#![tactic(auto)]

mod answer;
mod asked;
mod counters;
mod depth;
mod facts;
mod fault;
mod filter;
mod fresh;
mod keeps;
mod laws;
mod mapping;
mod node;
mod nodes;
mod passed;
mod path;
mod policies;
mod policy_answer;
mod policy_facts;
mod policy_fault;
mod policy_inputs;
mod policy_path;
mod policy_rule;
mod policy_sets;
mod reach;
mod rule;
mod rules;
mod state;
mod steps;
mod targets;
mod valid_policies;
mod version;

pub use answer::{Answer, path_answer};
pub use facts::Facts;
pub use fault::Fault;
pub use mapping::Mapping;
pub use node::Node;
pub use policies::ANY_POLICY;
pub use policy_answer::PolicyAnswer;
pub use policy_facts::PolicyFacts;
pub use policy_fault::PolicyFault;
pub use policy_inputs::PolicyInputs;
pub use policy_path::policies_answer;
pub use policy_rule::{POLICY_RULES, PolicyRule};
pub use policy_sets::is_authority_policy;
pub use rule::Rule;
pub use rules::RULES;
pub use valid_policies::ValidPolicies;
pub use version::Version;
