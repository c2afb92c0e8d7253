//! Written by asn1_compile from the module Lightweight-Directory-Access-Protocol-V3: change the module instead.
//!
//! The types of the module.

mod assertion_value;
mod attribute_description;
mod attribute_value_assertion;
mod filter;
mod filter_known;
mod filter_part1;
mod filter_part2;
mod filter_part3;
mod filter_part4;
mod ldap_result;
mod ldap_result_result_code;
mod ldap_string;
mod ldapdn;
mod matching_rule_assertion;
mod matching_rule_id;
mod referral;
mod substring_filter;
mod substring_filter_substrings_item;
mod substring_filter_substrings_item_part1;
mod substring_filter_substrings_item_part2;
mod uri;

pub use assertion_value::AssertionValue;
pub use attribute_description::AttributeDescription;
pub use attribute_value_assertion::{AttributeValueAssertion, AttributeValueAssertionFields};
pub use filter::Filter;
pub use filter_known::FilterKnown;
pub use ldap_result::{LdapResult, LdapResultFields};
pub use ldap_result_result_code::LdapResultResultCode;
pub use ldap_string::LdapString;
pub use ldapdn::Ldapdn;
pub use matching_rule_assertion::{MatchingRuleAssertion, MatchingRuleAssertionFields};
pub use matching_rule_id::MatchingRuleId;
pub use referral::Referral;
pub use substring_filter::{SubstringFilter, SubstringFilterFields};
pub use substring_filter_substrings_item::SubstringFilterSubstringsItem;
pub use uri::Uri;
