//! Filters and results of LDAP (RFC 4511), borrowed from the input. Each type is lawful: decoding
//! succeeds if and only if the octets are the encoding of a value. Nothing is allocated. The types
//! are compiled from `asn1/ldap.asn1`. A filter inside another filter is kept as an `AnyRef`, which
//! holds an element of any tag. It is decoded only when the caller asks for it.
#![tactic(auto)]

pub mod asn1;

pub use asn1::{
    AssertionValue, AttributeDescription, AttributeValueAssertion, AttributeValueAssertionFields,
    Filter, FilterKnown, LdapResult, LdapResultFields, LdapResultResultCode, LdapString, Ldapdn,
    MatchingRuleAssertion, MatchingRuleAssertionFields, MatchingRuleId, Referral, SubstringFilter,
    SubstringFilterFields, SubstringFilterSubstringsItem, Uri,
};
