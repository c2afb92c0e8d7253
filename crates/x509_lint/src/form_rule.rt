//! Rules for the forms of alternative names.
use std::fmt;

/// A rule for the names in a subjectAltName or an issuerAltName (RFC 5280, 4.2.1.6 and 4.2.1.7).
/// The names are GeneralNames. Each rule is for names of one form.
#[derive(Clone, Copy, Debug, PartialEq, Eq)]
pub enum FormRule {
    /// An rfc822Name must be a mailbox: a local part, an @, and a domain.
    Mail,
    /// A dNSName must be a host name in the preferred syntax. The first label may be an asterisk.
    Host,
    /// A uniformResourceIdentifier must have a scheme, a colon, and at least one more octet.
    Scheme,
    /// A uniformResourceIdentifier must have the syntax of RFC 3986.
    Uri,
    /// The authority of a uniformResourceIdentifier (RFC 3986, 3.2) must have a host name or an
    /// address. A uniformResourceIdentifier without an authority keeps the rule.
    Authority,
    /// An iPAddress must have 4 or 16 octets.
    Address,
    /// A directoryName must not be empty.
    Directory,
}

impl fmt::Display for FormRule {
    fn fmt<W: fmt::Write>(&self, f: &mut fmt::Formatter<W>) -> fmt::Result {
        f.write_str(match self {
            FormRule::Mail => "an rfc822Name is no mailbox (RFC 5280, 4.2.1.6)",
            FormRule::Host => {
                "a dNSName is not in the preferred syntax of host names (RFC 5280, 4.2.1.6)"
            }
            FormRule::Scheme => "a uniformResourceIdentifier has no scheme (RFC 5280, 4.2.1.6)",
            FormRule::Uri => {
                "a uniformResourceIdentifier has not the syntax of a URI (RFC 5280, 4.2.1.6)"
            }
            FormRule::Authority => {
                "the authority of a uniformResourceIdentifier has no host (RFC 5280, 4.2.1.6)"
            }
            FormRule::Address => "an iPAddress has neither 4 nor 16 octets (RFC 5280, 4.2.1.6)",
            FormRule::Directory => "a directoryName is empty (RFC 5280, 4.2.1.6)",
        })
    }
}
