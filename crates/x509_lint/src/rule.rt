//! Rules for certificates.
use crate::extension_rule::ExtensionRule;
use crate::name_rule::NameRule;
use crate::pair_rule::PairRule;
use std::fmt;

/// A rule for certificates that decoding does not check (RFC 5280, 4.1 and 4.2).
#[derive(Clone, Copy, Debug, PartialEq, Eq)]
pub enum Rule {
    /// Only the fields that the version allows may be present (RFC 5280, 4.1.2.1, 4.1.2.8,
    /// 4.1.2.9).
    VersionFields,
    /// The fields signatureAlgorithm and signature must be the same (RFC 5280, 4.1.1.2).
    SameAlgorithms,
    /// The serial number must be positive, and must have at most 20 octets (RFC 5280, 4.1.2.2).
    SerialNumber,
    /// The name of the issuer must not be empty (RFC 5280, 4.1.2.4).
    IssuerPresent,
    /// The subject must have a name: its name is not empty, or there is a critical subjectAltName
    /// (RFC 5280, 4.1.2.6, 4.2.1.6).
    SubjectPresent,
    /// The certificate must have neither an issuerUniqueID nor a subjectUniqueID (RFC 5280,
    /// 4.1.2.8).
    UniqueIdentifiers,
    /// The name of the subject must not be empty, if the cA of the basicConstraints is true (RFC
    /// 5280, 4.1.2.6).
    AuthoritySubject,
    /// The certificate must have an authorityKeyIdentifier with a keyIdentifier, unless its issuer
    /// and its subject have the same name (RFC 5280, 4.2.1.1).
    KeyIdentifier,
    /// Each time must have the form that its year requires: UTCTime through 2049, and
    /// GeneralizedTime from 2050 on (RFC 5280, 4.1.2.5).
    TimeForms,
    /// The period of validity must not end before it begins (RFC 5280, 4.1.2.5).
    TimeOrder,
    /// The name of the issuer must keep this rule for names (RFC 5280, 4.1.2.4).
    Issuer(NameRule),
    /// The name of the subject must keep this rule for names (RFC 5280, 4.1.2.6).
    Subject(NameRule),
    /// The field `extensions` must have an extension, if it is present (RFC 5280, 4.1).
    ExtensionPresent,
    /// Each extension must keep this rule for extensions (RFC 5280, 4.2).
    Extension(ExtensionRule),
    /// If the certificate has the first extension of this rule, it must also have the second one
    /// (RFC 5280, 4.2.1).
    Pair(PairRule),
}

/// Prints how a certificate breaks the rule, and the section of RFC 5280 with the rule.
impl fmt::Display for Rule {
    fn fmt<W: fmt::Write>(&self, f: &mut fmt::Formatter<W>) -> fmt::Result {
        match self {
            Rule::VersionFields => {
                f.write_str(
                    "the version does not allow a field that is present (RFC 5280, 4.1.2.1)",
                )
            }
            Rule::SameAlgorithms => {
                f.write_str("the two signature algorithms are not the same (RFC 5280, 4.1.1.2)")
            }
            Rule::SerialNumber => f.write_str(
                "the serial number is not positive, or has more than 20 octets (RFC 5280, 4.1.2.2)",
            ),
            Rule::IssuerPresent => {
                f.write_str("the name of the issuer is empty (RFC 5280, 4.1.2.4)")
            }
            Rule::SubjectPresent => f.write_str(
                "the subject has no name, and no critical subjectAltName (RFC 5280, 4.1.2.6)",
            ),
            Rule::TimeForms => f.write_str(
                "a time does not have the form that its year requires (RFC 5280, 4.1.2.5)",
            ),
            Rule::TimeOrder => {
                f.write_str("the validity ends before it begins (RFC 5280, 4.1.2.5)")
            }
            Rule::Issuer(rule) => write!(f, "in the name of the issuer, {rule}"),
            Rule::Subject(rule) => write!(f, "in the name of the subject, {rule}"),
            Rule::ExtensionPresent => f.write_str(
                "the list of extensions is empty (RFC 5280, 4.1)",
            ),
            Rule::Extension(rule) => write!(f, "{rule}"),
            Rule::Pair(rule) => write!(f, "{rule}"),
            Rule::UniqueIdentifiers => {
                f.write_str("a unique identifier is present (RFC 5280, 4.1.2.8)")
            }
            Rule::AuthoritySubject => {
                f.write_str("the subject is an authority without a name (RFC 5280, 4.1.2.6)")
            }
            Rule::KeyIdentifier => f.write_str(
                "no authorityKeyIdentifier has a keyIdentifier, though issuer and subject differ (RFC 5280, 4.2.1.1)",
            ),
        }
    }
}
