//! The rules for paths.

use std::fmt;

/// A rule of RFC 5280 for the certificates of a path. `Display` writes what a certificate that
/// breaks it lacks, and the section.
#[derive(Clone, Copy, Debug, Drop, PartialEq, Eq)]
pub enum Rule {
    /// signatureAlgorithm is the signature of the tbsCertificate (4.1.1.2).
    SignatureAlgorithm,
    /// A certificate with unique identifiers has version 2 or 3 (4.1.2.8).
    UniqueIdentifiers,
    /// A certificate with extensions has version 3 (4.1.2.1, 4.1.2.9).
    ExtensionVersion,
    /// No extension occurs twice (4.2).
    DistinctExtensions,
    /// The time is within the validity period (6.1.3 (a) (2)).
    Validity,
    /// The issuer is the subject of the certificate before (6.1.3 (a) (4)).
    Chain,
    /// The name constraints permit all names. A self-issued certificate but the last is excepted
    /// (6.1.3 (b), (c)).
    Names,
    /// A certificate that issues another is that of an authority (6.1.4 (k)).
    Authority,
    /// The path has no more intermediate certificates than a pathLenConstraint allows (6.1.4 (l),
    /// (m)).
    PathLength,
    /// A certificate that issues another may sign certificates (6.1.4 (n)).
    Usage,
    /// All critical extensions are processed (6.1.4 (o), 6.1.5 (f)).
    Extensions,
}

impl Rule {
    /// The section of RFC 5280 that has the rule.
    pub fn section(self) -> &'static str {
        match self {
            Rule::SignatureAlgorithm => "4.1.1.2",
            Rule::UniqueIdentifiers => "4.1.2.8",
            Rule::ExtensionVersion => "4.1.2.9",
            Rule::DistinctExtensions => "4.2",
            Rule::Validity => "6.1.3 (a) (2)",
            Rule::Chain => "6.1.3 (a) (4)",
            Rule::Names => "6.1.3 (b), (c)",
            Rule::Authority => "6.1.4 (k)",
            Rule::PathLength => "6.1.4 (m)",
            Rule::Usage => "6.1.4 (n)",
            Rule::Extensions => "6.1.4 (o)",
        }
    }

    // What a certificate that breaks the rule lacks.
    fn refusal(self) -> &'static str {
        match self {
            Rule::SignatureAlgorithm => "signatureAlgorithm differs from the signature field",
            Rule::UniqueIdentifiers => "unique identifiers in a certificate of version 1",
            Rule::ExtensionVersion => "extensions in a certificate that is not of version 3",
            Rule::DistinctExtensions => "an extension occurs twice",
            Rule::Validity => "the time is outside the validity period",
            Rule::Chain => "the issuer is not the subject of the certificate before",
            Rule::Names => "a name is not permitted by the name constraints",
            Rule::Authority => "it issues a certificate, but is not that of an authority",
            Rule::PathLength =>
                "more intermediate certificates follow than pathLenConstraint allows",
            Rule::Usage => "it issues a certificate, but its keyUsage has no keyCertSign",
            Rule::Extensions => "a critical extension is not processed",
        }
    }
}

impl fmt::Display for Rule {
    fn fmt<W: fmt::Write>(&self, f: &mut fmt::Formatter<W>) -> fmt::Result {
        let rule = *self;
        f.write_str(rule.refusal())?;
        f.write_str(" (RFC 5280, ")?;
        f.write_str(rule.section())?;
        f.write_str(")")
    }
}
