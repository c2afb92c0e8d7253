//! The versions of certificates.
ghost use Rattle.std.specs.Prelude.{◌≡◌, ◌↔◌, true};

/// The version of a certificate (RFC 5280, 4.1.2.1).
#[derive(Clone, Copy, Debug, Drop, PartialEq, Eq)]
pub enum Version {
    /// Version 1: the field is absent.
    V1,
    /// Version 2: the number 1.
    V2,
    /// Version 3: the number 2.
    V3,
}

pub(crate) fn is_first(version: Version) -> bool
    ensures { (result ≡ true) ↔ (version ≡ Version.V1) }
{
    match version {
        Version::V1 => true,
        Version::V2 => false,
        Version::V3 => false,
    }
}

pub(crate) fn is_third(version: Version) -> bool
    ensures { (result ≡ true) ↔ (version ≡ Version.V3) }
{
    match version {
        Version::V1 => false,
        Version::V2 => false,
        Version::V3 => true,
    }
}
