//! Rules for the bases of the subtrees of a nameConstraints. A base is a GeneralName.
ghost use Rattle.std.specs.Prelude.{◌↔◌, IsTrue};
ghost use Rattle.x509_lint.specs.Bases.{BaseKeeps};

use crate::forms::is_context;
use der::Tag;
use std::fmt;
use x509_names::{is_range, is_uri_constraint};

/// A rule for the bases of the subtrees of a nameConstraints (RFC 5280, 4.2.1.10).
#[derive(Clone, Copy, Debug, PartialEq, Eq)]
pub enum BaseRule {
    /// The base must be a host name, or a dot and a host name, if it is a URI constraint. A host
    /// name stands for one host, and a dot and a host name stand for a domain. The host name has
    /// no asterisk, and it is no IP address.
    Domain,
    /// The base must have 8 or 32 octets, if it is an iPAddress constraint: an address and a mask.
    Range,
}

impl fmt::Display for BaseRule {
    fn fmt<W: fmt::Write>(&self, f: &mut fmt::Formatter<W>) -> fmt::Result {
        f.write_str(match self {
            BaseRule::Domain => {
                "the constraint of a URI is no host name and no domain (RFC 5280, 4.2.1.10)"
            }
            BaseRule::Range => {
                "the constraint of an iPAddress has neither 8 nor 32 octets (RFC 5280, 4.2.1.10)"
            }
        })
    }
}

/// Whether the base of a subtree keeps the rule. The base is a GeneralName with the tag `tag` and
/// the contents octets `contents`. True if the rule is for names of another form.
pub fn base_keeps(tag: Tag, contents: &[u8], rule: BaseRule) -> bool
    ensures { IsTrue result ↔ BaseKeeps rule tag contents.now }
{
    match rule {
        BaseRule::Domain => !is_context(tag, false, 6) || is_uri_constraint(contents),
        BaseRule::Range => !is_context(tag, false, 7) || is_range(contents),
    }
}
