//! The version of a certificate (RFC 5280, 4.1.2.1).
ghost use Rattle.std.specs.Prelude.{◌≡◌};
ghost use Rattle.std.proofs.Common.{arith};
ghost use Rattle.der.specs.Prelude.{Integer};
ghost use Rattle.x509.specs.CertificateVersion.{is_version_1, is_certificate_version};

use der::Tag;
use der_asn1::{Checked, ContentsGrammar, DefaultContents};

/// Describes the contents of a [`Version`]: one octet, which is 0 for version 1, 1 for version 2,
/// and 2 for version 3.
pub struct CertificateVersionGrammar;

/// The version of a certificate, borrowed from the input; version 1 is the default.
pub type Version<'a> = Checked<'a, CertificateVersionGrammar>;

impl ContentsGrammar for CertificateVersionGrammar {
    ghost tag_is = { Integer };

    const TAG: Tag = Tag::Integer;

    fn fixed_tag() -> Tag {
        Tag::Integer
    }

    ghost grammar = { is_certificate_version };

    fn matches_grammar(octets: &[u8]) -> bool {
        match octets {
            [octet] => *octet < 3,
            _ => false,
        }
    }

    ghost numbered = { Prim.omega arith };
}

impl DefaultContents for CertificateVersionGrammar {
    ghost default_contents = { is_version_1 };

    fn default_octets() -> &'static [u8] {
        &[0]
    }

    fn is_default(octets: &[u8]) -> bool {
        match octets {
            [octet, ..] => *octet == 0,
            [] => false,
        }
    }
}
