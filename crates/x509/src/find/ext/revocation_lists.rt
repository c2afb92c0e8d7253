//! Extensions of certificate revocation lists and their entries (RFC 5280, 5.2, 5.3).
ghost use Rattle.std.specs.Prelude.{◌≡◌, ◌∷◌, []};
ghost use Rattle.der_asn1.specs.Arcs.{oid_octets};

use crate::asn1::{self, values};
use crate::find::KnownExtension;
use der_asn1::{Enumerated, ObjectIdentifierRef};

/// cRLNumber (RFC 5280, 5.2.3): the number of the list.
pub struct CrlNumber;

impl<'a> KnownExtension<'a> for CrlNumber {
    type Value = asn1::CrlNumber<'a>;

    ghost id_octets = { oid_octets (2 ∷ 5 ∷ 29 ∷ 20 ∷ []) };

    fn identifier() -> ObjectIdentifierRef<'static>
        ensures { result.octets.now ≡ oid_octets (2 ∷ 5 ∷ 29 ∷ 20 ∷ []) }
    {
        values::id_ce_c_rl_number()
    }
}

/// deltaCRLIndicator (RFC 5280, 5.2.4): the list is a delta revocation list, which contains only
/// changes. The value is the number of the complete list to which the changes apply.
pub struct DeltaCrlIndicator;

impl<'a> KnownExtension<'a> for DeltaCrlIndicator {
    type Value = asn1::BaseCrlNumber<'a>;

    ghost id_octets = { oid_octets (2 ∷ 5 ∷ 29 ∷ 27 ∷ []) };

    fn identifier() -> ObjectIdentifierRef<'static>
        ensures { result.octets.now ≡ oid_octets (2 ∷ 5 ∷ 29 ∷ 27 ∷ []) }
    {
        values::id_ce_delta_crl_indicator()
    }
}

/// issuingDistributionPoint (RFC 5280, 5.2.5): which certificates the list covers.
pub struct IssuingDistributionPoint;

impl<'a> KnownExtension<'a> for IssuingDistributionPoint {
    type Value = asn1::IssuingDistributionPoint<'a>;

    ghost id_octets = { oid_octets (2 ∷ 5 ∷ 29 ∷ 28 ∷ []) };

    fn identifier() -> ObjectIdentifierRef<'static>
        ensures { result.octets.now ≡ oid_octets (2 ∷ 5 ∷ 29 ∷ 28 ∷ []) }
    {
        values::id_ce_issuing_distribution_point()
    }
}

/// reasonCode (RFC 5280, 5.3.1): why a certificate was revoked.
pub struct ReasonCode;

impl<'a> KnownExtension<'a> for ReasonCode {
    type Value = Enumerated<asn1::CrlReason>;

    ghost id_octets = { oid_octets (2 ∷ 5 ∷ 29 ∷ 21 ∷ []) };

    fn identifier() -> ObjectIdentifierRef<'static>
        ensures { result.octets.now ≡ oid_octets (2 ∷ 5 ∷ 29 ∷ 21 ∷ []) }
    {
        values::id_ce_c_rl_reasons()
    }
}

/// invalidityDate (RFC 5280, 5.3.2): when the private key was compromised, or the certificate
/// became invalid for another reason.
pub struct InvalidityDate;

impl<'a> KnownExtension<'a> for InvalidityDate {
    type Value = asn1::InvalidityDate;

    ghost id_octets = { oid_octets (2 ∷ 5 ∷ 29 ∷ 24 ∷ []) };

    fn identifier() -> ObjectIdentifierRef<'static>
        ensures { result.octets.now ≡ oid_octets (2 ∷ 5 ∷ 29 ∷ 24 ∷ []) }
    {
        values::id_ce_invalidity_date()
    }
}

/// certificateIssuer (RFC 5280, 5.3.3): who issued the revoked certificate that an entry names.
pub struct CertificateIssuer;

impl<'a> KnownExtension<'a> for CertificateIssuer {
    type Value = asn1::CertificateIssuer<'a>;

    ghost id_octets = { oid_octets (2 ∷ 5 ∷ 29 ∷ 29 ∷ []) };

    fn identifier() -> ObjectIdentifierRef<'static>
        ensures { result.octets.now ≡ oid_octets (2 ∷ 5 ∷ 29 ∷ 29 ∷ []) }
    {
        values::id_ce_certificate_issuer()
    }
}
