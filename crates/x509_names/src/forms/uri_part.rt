//! Parts of URIs.

/// A part of a URI (RFC 3986, 3). The part decides which octets are allowed in it.
#[derive(Clone, Copy, Debug, PartialEq, Eq)]
pub enum UriPart {
    /// The userinfo of an authority (RFC 3986, 3.2.1).
    User,
    /// The name of a host.
    Name,
    /// The IP address of a host, inside square brackets.
    Literal,
    /// The port of a host.
    Port,
    /// A path, a query or a fragment.
    Path,
}
