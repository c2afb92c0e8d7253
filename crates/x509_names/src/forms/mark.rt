//! Octets at which a part of a URI ends.

/// An octet at which a part of a URI ends (RFC 3986, 3).
#[derive(Clone, Copy, Debug, PartialEq, Eq)]
pub enum Mark {
    /// The @ after the userinfo.
    At,
    /// The closing bracket after an IP address.
    Close,
    /// The colon after a scheme, or before a port.
    Colon,
    /// The `/`, `?` or `#` after an authority.
    End,
    /// The # before a fragment.
    Hash,
}
