//! Rules for revocation lists.
use crate::attribute_rule::AttributeRule;
use crate::name_rule::NameRule;
use std::fmt;

/// A rule for revocation lists that decoding does not check (RFC 5280, 5.1 to 5.3).
#[derive(Clone, Copy, Debug, PartialEq, Eq)]
pub enum ListRule {
    /// The fields signatureAlgorithm and signature must be the same (RFC 5280, 5.1.1.2, 5.1.2.2).
    SameAlgorithms,
    /// The version must be 2, if it is present. It must be present, if the list has extensions (RFC
    /// 5280, 5.1.2.1).
    Version,
    /// The name of the issuer must not be empty (RFC 5280, 5.1.2.3).
    IssuerPresent,
    /// The name of the issuer must keep this rule for names (RFC 5280, 5.1.2.3).
    Issuer(NameRule),
    /// thisUpdate and nextUpdate must have the forms that their years require: UTCTime through
    /// 2049, and GeneralizedTime from 2050 on (RFC 5280, 5.1.2.4, 5.1.2.5).
    TimeForms,
    /// nextUpdate must be present (RFC 5280, 5.1.2.5).
    NextUpdate,
    /// The field revokedCertificates must have an entry, if it is present (RFC 5280, 5.1.2.6).
    RevokedPresent,
    /// The field crlExtensions must have an extension, if it is present (RFC 5280, 5.1.2.7).
    ExtensionPresent,
    /// No two extensions of the list may have the same identifier (RFC 5280, 5.2).
    Instances,
    /// The list must have an authorityKeyIdentifier with a keyIdentifier (RFC 5280, 5.2.1).
    KeyIdentifier,
    /// The list must have a cRLNumber (RFC 5280, 5.2.3).
    Number,
    /// A cRLNumber must not be critical (RFC 5280, 5.2.3).
    NumberNotCritical,
    /// A deltaCRLIndicator must be critical (RFC 5280, 5.2.4).
    DeltaCritical,
    /// An issuingDistributionPoint must be critical (RFC 5280, 5.2.5).
    PointCritical,
    /// A freshestCRL must not be critical (RFC 5280, 5.2.6).
    FreshestNotCritical,
    /// The revocation dates of entries must have the forms that their years require (RFC 5280,
    /// 5.1.2.6).
    EntryTimes,
    /// The version must be present, if an entry has extensions (RFC 5280, 5.1.2.1).
    EntryVersion,
    /// The INTEGER of a cRLNumber must have at most 20 contents octets (RFC 5280, 5.2.3).
    NumberLength,
    /// An issuingDistributionPoint must have at most one of the fields onlyContainsUserCerts,
    /// onlyContainsCACerts and onlyContainsAttributeCerts (RFC 5280, 5.2.5).
    PointKinds,
    /// An issuingDistributionPoint must not be an empty SEQUENCE (RFC 5280, 5.2.5).
    PointNotEmpty,
    /// A delta revocation list must not have a freshestCRL (RFC 5280, 5.2.6).
    FreshestOfComplete,
    /// An authorityInfoAccess must not be critical (RFC 5280, 5.2.7).
    AccessNotCritical,
    /// A reasonCode must not be critical (RFC 5280, 5.3.1).
    ReasonNotCritical,
    /// The reason removeFromCRL may occur only in delta revocation lists (RFC 5280, 5.3.1).
    RemovedInChanges,
    /// An invalidityDate must not be critical (RFC 5280, 5.3.2).
    DateNotCritical,
    /// A certificateIssuer must be critical (RFC 5280, 5.3.3).
    IssuerCritical,
    /// A certificateIssuer may occur only in a list whose issuingDistributionPoint has the field
    /// indirectCRL (RFC 5280, 5.3.3).
    IssuerOfIndirect,
}

/// All rules for revocation lists.
pub const LIST_RULES: [ListRule; 30] = [
    ListRule::SameAlgorithms,
    ListRule::Version,
    ListRule::IssuerPresent,
    ListRule::Issuer(NameRule::Levels),
    ListRule::Issuer(NameRule::Attributes(AttributeRule::Length)),
    ListRule::Issuer(NameRule::Attributes(AttributeRule::Characters)),
    ListRule::Issuer(NameRule::Attributes(AttributeRule::StringType)),
    ListRule::TimeForms,
    ListRule::NextUpdate,
    ListRule::RevokedPresent,
    ListRule::ExtensionPresent,
    ListRule::Instances,
    ListRule::KeyIdentifier,
    ListRule::Number,
    ListRule::NumberNotCritical,
    ListRule::DeltaCritical,
    ListRule::PointCritical,
    ListRule::FreshestNotCritical,
    ListRule::EntryTimes,
    ListRule::EntryVersion,
    ListRule::NumberLength,
    ListRule::PointKinds,
    ListRule::PointNotEmpty,
    ListRule::FreshestOfComplete,
    ListRule::AccessNotCritical,
    ListRule::ReasonNotCritical,
    ListRule::RemovedInChanges,
    ListRule::DateNotCritical,
    ListRule::IssuerCritical,
    ListRule::IssuerOfIndirect,
];

impl fmt::Display for ListRule {
    fn fmt<W: fmt::Write>(&self, f: &mut fmt::Formatter<W>) -> fmt::Result {
        f.write_str(match self {
            ListRule::SameAlgorithms => {
                "the two signature algorithms are not the same (RFC 5280, 5.1.1.2)"
            }
            ListRule::Version => "the version is not 2 (RFC 5280, 5.1.2.1)",
            ListRule::IssuerPresent => "the name of the issuer is empty (RFC 5280, 5.1.2.3)",
            ListRule::Issuer(rule) => {
                return write!(f, "in the name of the issuer, {rule}");
            }
            ListRule::TimeForms => {
                "a time does not have the form that its year requires (RFC 5280, 5.1.2.4)"
            }
            ListRule::NextUpdate => "nextUpdate is absent (RFC 5280, 5.1.2.5)",
            ListRule::RevokedPresent => {
                "the list of revoked certificates is empty (RFC 5280, 5.1.2.6)"
            }
            ListRule::ExtensionPresent => "the list of extensions is empty (RFC 5280, 5.1.2.7)",
            ListRule::Instances => "two extensions have the same identifier (RFC 5280, 5.2)",
            ListRule::KeyIdentifier => {
                "no authorityKeyIdentifier has a keyIdentifier (RFC 5280, 5.2.1)"
            }
            ListRule::Number => "there is no cRLNumber (RFC 5280, 5.2.3)",
            ListRule::NumberNotCritical => "a cRLNumber is critical (RFC 5280, 5.2.3)",
            ListRule::DeltaCritical => "a deltaCRLIndicator is not critical (RFC 5280, 5.2.4)",
            ListRule::PointCritical => {
                "an issuingDistributionPoint is not critical (RFC 5280, 5.2.5)"
            }
            ListRule::FreshestNotCritical => "a freshestCRL is critical (RFC 5280, 5.2.6)",
            ListRule::EntryTimes => {
                "the time of an entry does not have the form that its year requires (RFC 5280, 5.1.2.6)"
            }
            ListRule::EntryVersion => {
                "an entry has extensions, but the version is not 2 (RFC 5280, 5.1.2.1)"
            }
            ListRule::NumberLength => { "a cRLNumber has more than 20 octets (RFC 5280, 5.2.3)" }
            ListRule::PointKinds => {
                "an issuingDistributionPoint is for more than one kind of certificates (RFC 5280, 5.2.5)"
            }
            ListRule::PointNotEmpty => { "an issuingDistributionPoint is empty (RFC 5280, 5.2.5)" }
            ListRule::FreshestOfComplete => {
                "a freshestCRL is in a list of changes (RFC 5280, 5.2.6)"
            }
            ListRule::AccessNotCritical => {
                "an authorityInfoAccess is critical (RFC 5280, 5.2.7)"
            }
            ListRule::ReasonNotCritical => { "a reasonCode is critical (RFC 5280, 5.3.1)" }
            ListRule::RemovedInChanges => {
                "the reason removeFromCRL is in a complete list (RFC 5280, 5.3.1)"
            }
            ListRule::DateNotCritical => { "an invalidityDate is critical (RFC 5280, 5.3.2)" }
            ListRule::IssuerCritical => { "a certificateIssuer is not critical (RFC 5280, 5.3.3)" }
            ListRule::IssuerOfIndirect => {
                "a certificateIssuer is in a list that is not indirect (RFC 5280, 5.3.3)"
            }
        })
    }
}
