//! Object identifiers that occur inside extensions and entries.
ghost use Rattle.std.specs.Prelude.{◌≡◌, ◌↔◌, IsTrue};
ghost use Rattle.x509_lint.specs.Identifiers.{identifier_octets};

use crate::checks::identifiers::is;
use der_asn1::ObjectIdentifierRef;
use x509::values::{
    id_ce_c_rl_reasons, id_ce_certificate_issuer, id_ce_invalidity_date, id_qt_cps, id_qt_unotice,
};

/// An object identifier that occurs inside an extension, or in an entry of a revocation list.
#[derive(Clone, Copy, Debug, PartialEq, Eq)]
pub enum Identifier {
    /// Identifies a policy qualifier that is a CPS pointer (RFC 5280, 4.2.1.4).
    CpsPointer,
    /// Identifies a policy qualifier that is a user notice (RFC 5280, 4.2.1.4).
    UserNotice,
    /// Identifies the extension reasonCode of an entry (RFC 5280, 5.3.1).
    Reason,
    /// Identifies the extension invalidityDate of an entry (RFC 5280, 5.3.2).
    InvalidityDate,
    /// Identifies the extension certificateIssuer of an entry (RFC 5280, 5.3.3).
    CertificateIssuer,
}

/// Whether `octets` are the contents octets of the object identifier `identifier`.
pub fn is_identifier_of(octets: &[u8], identifier: Identifier) -> bool
    ensures { IsTrue result ↔ (octets.now ≡ identifier_octets identifier) }
{
    is(octets, &value_of(identifier))
}

fn value_of(identifier: Identifier) -> ObjectIdentifierRef<'static>
    ensures { result.octets.now ≡ identifier_octets identifier }
{
    match identifier {
        Identifier::CpsPointer => id_qt_cps(),
        Identifier::UserNotice => id_qt_unotice(),
        Identifier::Reason => id_ce_c_rl_reasons(),
        Identifier::InvalidityDate => id_ce_invalidity_date(),
        Identifier::CertificateIssuer => id_ce_certificate_issuer(),
    }
}
