//! The list of all rules for paths.

use crate::rule::Rule;

/// All rules for paths, in the order in which they are checked for each certificate.
pub const RULES: [Rule; 11] = [
    Rule::SignatureAlgorithm,
    Rule::UniqueIdentifiers,
    Rule::ExtensionVersion,
    Rule::DistinctExtensions,
    Rule::Validity,
    Rule::Chain,
    Rule::Names,
    Rule::Authority,
    Rule::PathLength,
    Rule::Usage,
    Rule::Extensions,
];
