//! The rules of RFC 5280 for certificates and revocation lists that decoding does not check.
//! [`findings`] returns the rules that a certificate breaks. [`list_keeps`] says whether a
//! revocation list keeps a rule.
#![tactic(auto)]

mod attribute_rule;
mod base_rule;
mod broken;
pub mod checks;
mod element_test;
mod elements;
mod entry_test;
mod extension_rule;
mod extension_test;
mod finding;
mod form_rule;
mod forms;
mod group_test;
mod identifier;
mod inside_test;
mod items;
mod laws;
mod lint;
mod list_rule;
mod name_rule;
mod pair_rule;
mod part_test;
mod place;
mod point_rule;
mod policy_rule;
mod rule;
mod rules;
mod value_rule;
mod values;

pub use attribute_rule::AttributeRule;
pub use base_rule::BaseRule;
pub use checks::list::list_keeps;
pub use entry_test::EntryTest;
pub use extension_rule::ExtensionRule;
pub use extension_test::ExtensionTest;
pub use finding::Finding;
pub use form_rule::FormRule;
pub use identifier::Identifier;
pub use lint::{Lint, findings, keeps_all_rules};
pub use list_rule::{LIST_RULES, ListRule};
pub use name_rule::NameRule;
pub use pair_rule::PairRule;
pub use place::Place;
pub use point_rule::PointRule;
pub use policy_rule::PolicyRule;
pub use rule::Rule;
pub use rules::RULES;
pub use value_rule::ValueRule;
