//! Written by asn1_compile from the module OCSP: change the module instead.
//!
//! The values of the module.
ghost use Rattle.std.specs.Prelude.{◌≡◌, ◌∷◌, []};
ghost use Rattle.der_asn1.specs.Arcs.{oid_octets};

use der_asn1::ObjectIdentifierRef;

/// The purpose of a key that signs responses (RFC 6960, 4.2.2.2).
pub fn id_kp_ocsp_signing() -> ObjectIdentifierRef<'static>
    ensures { result.octets.now ≡ oid_octets (1 ∷ 3 ∷ 6 ∷ 1 ∷ 5 ∷ 5 ∷ 7 ∷ 3 ∷ 9 ∷ []) }
{
    let Some(value) = ObjectIdentifierRef::new(&[0x2B, 0x06, 0x01, 0x05, 0x05, 0x07, 0x03, 0x09])
    else {
        unreachable!()
    };
    value
}

/// The arc of the types of responses and of the extensions (RFC 6960, B.1).
pub fn id_pkix_ocsp() -> ObjectIdentifierRef<'static>
    ensures { result.octets.now ≡ oid_octets (1 ∷ 3 ∷ 6 ∷ 1 ∷ 5 ∷ 5 ∷ 7 ∷ 48 ∷ 1 ∷ []) }
{
    let Some(value) = ObjectIdentifierRef::new(&[0x2B, 0x06, 0x01, 0x05, 0x05, 0x07, 0x30, 0x01])
    else {
        unreachable!()
    };
    value
}

/// The type of a response that is a BasicOCSPResponse (RFC 6960, 4.2.1).
pub fn id_pkix_ocsp_basic() -> ObjectIdentifierRef<'static>
    ensures { result.octets.now ≡ oid_octets (1 ∷ 3 ∷ 6 ∷ 1 ∷ 5 ∷ 5 ∷ 7 ∷ 48 ∷ 1 ∷ 1 ∷ []) }
{
    let Some(value) = ObjectIdentifierRef::new(&[
        0x2B, 0x06, 0x01, 0x05, 0x05, 0x07, 0x30, 0x01, 0x01,
    ]) else {
        unreachable!()
    };
    value
}

/// The extension nonce, whose value is a Nonce (RFC 6960, 4.4.1).
pub fn id_pkix_ocsp_nonce() -> ObjectIdentifierRef<'static>
    ensures { result.octets.now ≡ oid_octets (1 ∷ 3 ∷ 6 ∷ 1 ∷ 5 ∷ 5 ∷ 7 ∷ 48 ∷ 1 ∷ 2 ∷ []) }
{
    let Some(value) = ObjectIdentifierRef::new(&[
        0x2B, 0x06, 0x01, 0x05, 0x05, 0x07, 0x30, 0x01, 0x02,
    ]) else {
        unreachable!()
    };
    value
}

/// The extension with the revocation list of a certificate. Its value is a CrlID (RFC 6960, 4.4.2).
pub fn id_pkix_ocsp_crl() -> ObjectIdentifierRef<'static>
    ensures { result.octets.now ≡ oid_octets (1 ∷ 3 ∷ 6 ∷ 1 ∷ 5 ∷ 5 ∷ 7 ∷ 48 ∷ 1 ∷ 3 ∷ []) }
{
    let Some(value) = ObjectIdentifierRef::new(&[
        0x2B, 0x06, 0x01, 0x05, 0x05, 0x07, 0x30, 0x01, 0x03,
    ]) else {
        unreachable!()
    };
    value
}

/// The extension with the types of responses that a client accepts. Its value is
/// AcceptableResponses (RFC 6960, 4.4.3).
pub fn id_pkix_ocsp_response() -> ObjectIdentifierRef<'static>
    ensures { result.octets.now ≡ oid_octets (1 ∷ 3 ∷ 6 ∷ 1 ∷ 5 ∷ 5 ∷ 7 ∷ 48 ∷ 1 ∷ 4 ∷ []) }
{
    let Some(value) = ObjectIdentifierRef::new(&[
        0x2B, 0x06, 0x01, 0x05, 0x05, 0x07, 0x30, 0x01, 0x04,
    ]) else {
        unreachable!()
    };
    value
}

/// The extension of a responder's certificate which says that its status need not be requested. Its
/// value is NULL (RFC 6960, 4.2.2.2.1).
pub fn id_pkix_ocsp_nocheck() -> ObjectIdentifierRef<'static>
    ensures { result.octets.now ≡ oid_octets (1 ∷ 3 ∷ 6 ∷ 1 ∷ 5 ∷ 5 ∷ 7 ∷ 48 ∷ 1 ∷ 5 ∷ []) }
{
    let Some(value) = ObjectIdentifierRef::new(&[
        0x2B, 0x06, 0x01, 0x05, 0x05, 0x07, 0x30, 0x01, 0x05,
    ]) else {
        unreachable!()
    };
    value
}

/// The extension with the time since when a responder keeps statuses. Its value is an ArchiveCutoff
/// (RFC 6960, 4.4.4).
pub fn id_pkix_ocsp_archive_cutoff() -> ObjectIdentifierRef<'static>
    ensures { result.octets.now ≡ oid_octets (1 ∷ 3 ∷ 6 ∷ 1 ∷ 5 ∷ 5 ∷ 7 ∷ 48 ∷ 1 ∷ 6 ∷ []) }
{
    let Some(value) = ObjectIdentifierRef::new(&[
        0x2B, 0x06, 0x01, 0x05, 0x05, 0x07, 0x30, 0x01, 0x06,
    ]) else {
        unreachable!()
    };
    value
}

/// The extension with the issuer of a certificate and its responder. Its value is a ServiceLocator
/// (RFC 6960, 4.4.6).
pub fn id_pkix_ocsp_service_locator() -> ObjectIdentifierRef<'static>
    ensures { result.octets.now ≡ oid_octets (1 ∷ 3 ∷ 6 ∷ 1 ∷ 5 ∷ 5 ∷ 7 ∷ 48 ∷ 1 ∷ 7 ∷ []) }
{
    let Some(value) = ObjectIdentifierRef::new(&[
        0x2B, 0x06, 0x01, 0x05, 0x05, 0x07, 0x30, 0x01, 0x07,
    ]) else {
        unreachable!()
    };
    value
}

/// The extension with the signature algorithms that a client prefers. Its value is
/// PreferredSignatureAlgorithms (RFC 6960, 4.4.7).
pub fn id_pkix_ocsp_pref_sig_algs() -> ObjectIdentifierRef<'static>
    ensures { result.octets.now ≡ oid_octets (1 ∷ 3 ∷ 6 ∷ 1 ∷ 5 ∷ 5 ∷ 7 ∷ 48 ∷ 1 ∷ 8 ∷ []) }
{
    let Some(value) = ObjectIdentifierRef::new(&[
        0x2B, 0x06, 0x01, 0x05, 0x05, 0x07, 0x30, 0x01, 0x08,
    ]) else {
        unreachable!()
    };
    value
}

/// The extension which says that a responder also reports a certificate as revoked if it was never
/// issued. Its value is NULL (RFC 6960, 4.4.8).
pub fn id_pkix_ocsp_extended_revoke() -> ObjectIdentifierRef<'static>
    ensures { result.octets.now ≡ oid_octets (1 ∷ 3 ∷ 6 ∷ 1 ∷ 5 ∷ 5 ∷ 7 ∷ 48 ∷ 1 ∷ 9 ∷ []) }
{
    let Some(value) = ObjectIdentifierRef::new(&[
        0x2B, 0x06, 0x01, 0x05, 0x05, 0x07, 0x30, 0x01, 0x09,
    ]) else {
        unreachable!()
    };
    value
}

/// The name of an OBJECT IDENTIFIER in the ASN.1 module, or the first of several; `None` if it
/// has no name there.
pub fn name_of(oid: &ObjectIdentifierRef<'_>) -> Option<&'static str> {
    match oid.octets() {
        [0x2B, 0x06, 0x01, 0x05, 0x05, 0x07, 0x03, 0x09] => Some("id-kp-OCSPSigning"),
        [0x2B, 0x06, 0x01, 0x05, 0x05, 0x07, 0x30, 0x01] => Some("id-pkix-ocsp"),
        [0x2B, 0x06, 0x01, 0x05, 0x05, 0x07, 0x30, 0x01, 0x01] => Some("id-pkix-ocsp-basic"),
        [0x2B, 0x06, 0x01, 0x05, 0x05, 0x07, 0x30, 0x01, 0x02] => Some("id-pkix-ocsp-nonce"),
        [0x2B, 0x06, 0x01, 0x05, 0x05, 0x07, 0x30, 0x01, 0x03] => Some("id-pkix-ocsp-crl"),
        [0x2B, 0x06, 0x01, 0x05, 0x05, 0x07, 0x30, 0x01, 0x04] => Some("id-pkix-ocsp-response"),
        [0x2B, 0x06, 0x01, 0x05, 0x05, 0x07, 0x30, 0x01, 0x05] => Some("id-pkix-ocsp-nocheck"),
        [0x2B, 0x06, 0x01, 0x05, 0x05, 0x07, 0x30, 0x01, 0x06] => Some(
            "id-pkix-ocsp-archive-cutoff",
        ),
        [0x2B, 0x06, 0x01, 0x05, 0x05, 0x07, 0x30, 0x01, 0x07] => Some(
            "id-pkix-ocsp-service-locator",
        ),
        [0x2B, 0x06, 0x01, 0x05, 0x05, 0x07, 0x30, 0x01, 0x08] => Some(
            "id-pkix-ocsp-pref-sig-algs",
        ),
        [0x2B, 0x06, 0x01, 0x05, 0x05, 0x07, 0x30, 0x01, 0x09] => Some(
            "id-pkix-ocsp-extended-revoke",
        ),
        _ => None,
    }
}
