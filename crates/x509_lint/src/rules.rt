//! The list of all rules for certificates.
use crate::attribute_rule::AttributeRule;
use crate::base_rule::BaseRule;
use crate::extension_rule::ExtensionRule;
use crate::form_rule::FormRule;
use crate::name_rule::NameRule;
use crate::pair_rule::PairRule;
use crate::point_rule::PointRule;
use crate::policy_rule::PolicyRule;
use crate::rule::Rule;
use crate::value_rule::ValueRule;

/// All rules for certificates, in the order in which [`Lint`](crate::Lint) checks them.
pub const RULES: [Rule; 58] = [
    Rule::VersionFields,
    Rule::SameAlgorithms,
    Rule::SerialNumber,
    Rule::IssuerPresent,
    Rule::SubjectPresent,
    Rule::UniqueIdentifiers,
    Rule::AuthoritySubject,
    Rule::KeyIdentifier,
    Rule::TimeForms,
    Rule::TimeOrder,
    Rule::Issuer(NameRule::Levels),
    Rule::Issuer(NameRule::Attributes(AttributeRule::Length)),
    Rule::Issuer(NameRule::Attributes(AttributeRule::Characters)),
    Rule::Issuer(NameRule::Attributes(AttributeRule::StringType)),
    Rule::Subject(NameRule::Levels),
    Rule::Subject(NameRule::Attributes(AttributeRule::Length)),
    Rule::Subject(NameRule::Attributes(AttributeRule::Characters)),
    Rule::Subject(NameRule::Attributes(AttributeRule::StringType)),
    Rule::ExtensionPresent,
    Rule::Extension(ExtensionRule::Instances),
    Rule::Extension(ExtensionRule::Critical),
    Rule::Extension(ExtensionRule::NotCritical),
    Rule::Extension(ExtensionRule::NotEmpty),
    Rule::Extension(ExtensionRule::Usage),
    Rule::Extension(ExtensionRule::AuthorityCritical),
    Rule::Extension(ExtensionRule::Value(ValueRule::Contents)),
    Rule::Extension(ExtensionRule::Value(ValueRule::PathLengthOfAuthority)),
    Rule::Extension(ExtensionRule::Value(ValueRule::PathLength)),
    Rule::Extension(ExtensionRule::Value(ValueRule::PolicyNumbers)),
    Rule::Extension(ExtensionRule::Value(ValueRule::AnyPolicyNumber)),
    Rule::Extension(ExtensionRule::Value(ValueRule::DistinctPolicies)),
    Rule::Extension(ExtensionRule::Value(ValueRule::Mappings)),
    Rule::Extension(ExtensionRule::Value(ValueRule::Points)),
    Rule::Extension(ExtensionRule::Value(ValueRule::Subtrees)),
    Rule::Extension(ExtensionRule::Value(ValueRule::SubtreesPresent)),
    Rule::Extension(ExtensionRule::Value(ValueRule::Locations)),
    Rule::Extension(ExtensionRule::Value(ValueRule::IssuerAndSerial)),
    Rule::Extension(ExtensionRule::Value(ValueRule::Policies(PolicyRule::Qualifiers))),
    Rule::Extension(ExtensionRule::Value(ValueRule::Policies(PolicyRule::TextTypes))),
    Rule::Extension(ExtensionRule::Value(ValueRule::Policies(PolicyRule::TextLengths))),
    Rule::Extension(ExtensionRule::Value(ValueRule::Policies(PolicyRule::Pointers))),
    Rule::Extension(ExtensionRule::Value(ValueRule::PointFields(PointRule::Scheme))),
    Rule::Extension(ExtensionRule::Value(ValueRule::PointFields(PointRule::IssuerName))),
    Rule::Extension(ExtensionRule::Value(ValueRule::PointFields(PointRule::OneIssuer))),
    Rule::Extension(ExtensionRule::Value(ValueRule::Bases(BaseRule::Domain))),
    Rule::Extension(ExtensionRule::Value(ValueRule::Bases(BaseRule::Range))),
    Rule::Extension(ExtensionRule::Value(ValueRule::Names(FormRule::Mail))),
    Rule::Extension(ExtensionRule::Value(ValueRule::Names(FormRule::Host))),
    Rule::Extension(ExtensionRule::Value(ValueRule::Names(FormRule::Scheme))),
    Rule::Extension(ExtensionRule::Value(ValueRule::Names(FormRule::Uri))),
    Rule::Extension(ExtensionRule::Value(ValueRule::Names(FormRule::Authority))),
    Rule::Extension(ExtensionRule::Value(ValueRule::Names(FormRule::Address))),
    Rule::Extension(ExtensionRule::Value(ValueRule::Names(FormRule::Directory))),
    Rule::Pair(PairRule::CertSignOfAuthority),
    Rule::Pair(PairRule::UsageOfAuthority),
    Rule::Pair(PairRule::KeyIdentifierOfAuthority),
    Rule::Pair(PairRule::NameConstraintsOfAuthority),
    Rule::Pair(PairRule::PathLengthOfCertSign),
];
