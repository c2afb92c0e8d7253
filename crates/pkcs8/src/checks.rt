//! Checks of a private key that decoding does not make.
ghost use Rattle.std.specs.Prelude.{◌↔◌, IsTrue};
ghost use Rattle.pkcs8.specs.PrivateKeyInfo.{MatchesPrivateKeyVersion};

use crate::asn1::{PrivateKeyInfo, Version};

impl PrivateKeyInfo<'_> {
    /// Whether the version allows the fields that are present (RFC 5958, 2). The public key must be
    /// absent in version 1, which is encoded as 0. Decoding does not check this.
    pub fn has_fields_of_version(&self) -> bool
        ensures { IsTrue result ↔ MatchesPrivateKeyVersion self.now }
    {
        match self.version.item() {
            Version::V2 => true,
            Version::V1 => self.public_key.0.is_none(),
        }
    }
}
