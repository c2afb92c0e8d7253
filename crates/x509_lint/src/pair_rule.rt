//! Rules for two extensions.
ghost use Rattle.std.specs.Prelude.{◌≡◌};
ghost use Rattle.x509_lint.specs.ExtensionTests.{given_of, wanted_of};

use crate::extension_test::ExtensionTest;
use std::fmt;

/// A rule for two extensions: a certificate that has the first extension must also have the second.
#[derive(Clone, Copy, Debug, PartialEq, Eq)]
pub enum PairRule {
    /// A certificate whose keyUsage has keyCertSign must have a basicConstraints whose cA is true
    /// (RFC 5280, 4.2.1.3).
    CertSignOfAuthority,
    /// A certificate with a basicConstraints whose cA is true must have a keyUsage (RFC 5280,
    /// 4.2.1.3).
    UsageOfAuthority,
    /// A certificate with a basicConstraints whose cA is true must have a subjectKeyIdentifier (RFC
    /// 5280, 4.2.1.2).
    KeyIdentifierOfAuthority,
    /// A certificate with a nameConstraints must have a basicConstraints whose cA is true (RFC
    /// 5280, 4.2.1.10).
    NameConstraintsOfAuthority,
    /// A certificate with a pathLenConstraint must have a keyUsage with keyCertSign (RFC 5280,
    /// 4.2.1.9).
    PathLengthOfCertSign,
}

impl PairRule {
    // With which extension a certificate must have the other.
    pub(crate) fn given(self) -> ExtensionTest
        ensures { result ≡ given_of self }
    {
        match self {
            PairRule::CertSignOfAuthority => ExtensionTest::CertSign,
            PairRule::UsageOfAuthority => ExtensionTest::Authority,
            PairRule::KeyIdentifierOfAuthority => ExtensionTest::Authority,
            PairRule::NameConstraintsOfAuthority => ExtensionTest::NameConstraints,
            PairRule::PathLengthOfCertSign => ExtensionTest::PathLength,
        }
    }

    // Which extension the certificate must have then.
    pub(crate) fn wanted(self) -> ExtensionTest
        ensures { result ≡ wanted_of self }
    {
        match self {
            PairRule::CertSignOfAuthority => ExtensionTest::Authority,
            PairRule::UsageOfAuthority => ExtensionTest::KeyUsage,
            PairRule::KeyIdentifierOfAuthority => ExtensionTest::SubjectKeyIdentifier,
            PairRule::NameConstraintsOfAuthority => ExtensionTest::Authority,
            PairRule::PathLengthOfCertSign => ExtensionTest::CertSign,
        }
    }
}

impl fmt::Display for PairRule {
    fn fmt<W: fmt::Write>(&self, f: &mut fmt::Formatter<W>) -> fmt::Result {
        f.write_str(match self {
            PairRule::CertSignOfAuthority => {
                "the keyUsage has keyCertSign, but cA is not true (RFC 5280, 4.2.1.9)"
            }
            PairRule::UsageOfAuthority => {
                "the certificate of an authority has no keyUsage (RFC 5280, 4.2.1.3)"
            }
            PairRule::KeyIdentifierOfAuthority => {
                "the certificate of an authority has no subjectKeyIdentifier (RFC 5280, 4.2.1.2)"
            }
            PairRule::NameConstraintsOfAuthority => {
                "a nameConstraints is present, but cA is not true (RFC 5280, 4.2.1.10)"
            }
            PairRule::PathLengthOfCertSign => {
                "a pathLenConstraint is present, but not keyCertSign (RFC 5280, 4.2.1.9)"
            }
        })
    }
}
