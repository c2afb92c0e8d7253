//! Rules for the fields of distribution points.
use std::fmt;

/// A rule for the fields of distribution points (RFC 5280, 4.2.1.13).
#[derive(Clone, Copy, Debug, PartialEq, Eq)]
pub enum PointRule {
    /// A URI in the name of a distribution point must have a scheme.
    Scheme,
    /// The names in cRLIssuer must be directory names.
    IssuerName,
    /// If a distribution point has a nameRelativeToCRLIssuer and a cRLIssuer, its cRLIssuer must
    /// have exactly one name.
    OneIssuer,
}

impl fmt::Display for PointRule {
    fn fmt<W: fmt::Write>(&self, f: &mut fmt::Formatter<W>) -> fmt::Result {
        f.write_str(match self {
            PointRule::Scheme => {
                "the URI of a distribution point has no scheme (RFC 5280, 4.2.1.13)"
            }
            PointRule::IssuerName => "a cRLIssuer is no directory name (RFC 5280, 4.2.1.13)",
            PointRule::OneIssuer => {
                "a relative name stands beside several cRLIssuers (RFC 5280, 4.2.1.13)"
            }
        })
    }
}
