//! Checks of a private key that decoding does not make.
ghost use Rattle.std.specs.Prelude.{◌↔◌, IsTrue};
ghost use Rattle.pkcs1.specs.RsaPrivateKey.{MatchesRsaVersion};

use crate::asn1::RsaPrivateKey;

impl RsaPrivateKey<'_> {
    /// Whether the version agrees with the number of primes (RFC 8017, A.1.2). The version must be
    /// 0 for a key with two primes, and 1 for a key with more than two primes. Decoding does not
    /// check this.
    pub fn has_version_of_primes(&self) -> bool
        ensures { IsTrue result ↔ MatchesRsaVersion self.now }
    {
        match self.other_prime_infos.0 {
            None => self.version.octets() == [0].as_slice(),
            Some(_) => self.version.octets() == [1].as_slice(),
        }
    }
}
