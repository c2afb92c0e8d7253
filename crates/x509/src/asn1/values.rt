//! Written by asn1_compile from the module X509: change the module instead.
//!
//! The values of the module.
ghost use Rattle.std.specs.Prelude.{◌≡◌, ◌∷◌, []};
ghost use Rattle.der_asn1.specs.Arcs.{oid_octets};

use der_asn1::ObjectIdentifierRef;

/// The arc of the object identifiers of RFC 5280 (appendix A).
pub fn id_pkix() -> ObjectIdentifierRef<'static>
    ensures { result.octets.now ≡ oid_octets (1 ∷ 3 ∷ 6 ∷ 1 ∷ 5 ∷ 5 ∷ 7 ∷ []) }
{
    let Some(value) = ObjectIdentifierRef::new(&[0x2B, 0x06, 0x01, 0x05, 0x05, 0x07]) else {
        unreachable!()
    };
    value
}

/// The arc of private extensions (RFC 5280, 4.2.2).
pub fn id_pe() -> ObjectIdentifierRef<'static>
    ensures { result.octets.now ≡ oid_octets (1 ∷ 3 ∷ 6 ∷ 1 ∷ 5 ∷ 5 ∷ 7 ∷ 1 ∷ []) }
{
    let Some(value) = ObjectIdentifierRef::new(&[0x2B, 0x06, 0x01, 0x05, 0x05, 0x07, 0x01]) else {
        unreachable!()
    };
    value
}

/// The extension authorityInfoAccess (RFC 5280, 4.2.2.1).
pub fn id_pe_authority_info_access() -> ObjectIdentifierRef<'static>
    ensures { result.octets.now ≡ oid_octets (1 ∷ 3 ∷ 6 ∷ 1 ∷ 5 ∷ 5 ∷ 7 ∷ 1 ∷ 1 ∷ []) }
{
    let Some(value) = ObjectIdentifierRef::new(&[0x2B, 0x06, 0x01, 0x05, 0x05, 0x07, 0x01, 0x01])
    else {
        unreachable!()
    };
    value
}

/// The extension subjectInfoAccess (RFC 5280, 4.2.2.2).
pub fn id_pe_subject_info_access() -> ObjectIdentifierRef<'static>
    ensures { result.octets.now ≡ oid_octets (1 ∷ 3 ∷ 6 ∷ 1 ∷ 5 ∷ 5 ∷ 7 ∷ 1 ∷ 11 ∷ []) }
{
    let Some(value) = ObjectIdentifierRef::new(&[0x2B, 0x06, 0x01, 0x05, 0x05, 0x07, 0x01, 0x0B])
    else {
        unreachable!()
    };
    value
}

/// The arc of the kinds of policy qualifiers (RFC 5280, 4.2.1.4).
pub fn id_qt() -> ObjectIdentifierRef<'static>
    ensures { result.octets.now ≡ oid_octets (1 ∷ 3 ∷ 6 ∷ 1 ∷ 5 ∷ 5 ∷ 7 ∷ 2 ∷ []) }
{
    let Some(value) = ObjectIdentifierRef::new(&[0x2B, 0x06, 0x01, 0x05, 0x05, 0x07, 0x02]) else {
        unreachable!()
    };
    value
}

/// The kind of a policy qualifier that is a CPSuri (RFC 5280, 4.2.1.4).
pub fn id_qt_cps() -> ObjectIdentifierRef<'static>
    ensures { result.octets.now ≡ oid_octets (1 ∷ 3 ∷ 6 ∷ 1 ∷ 5 ∷ 5 ∷ 7 ∷ 2 ∷ 1 ∷ []) }
{
    let Some(value) = ObjectIdentifierRef::new(&[0x2B, 0x06, 0x01, 0x05, 0x05, 0x07, 0x02, 0x01])
    else {
        unreachable!()
    };
    value
}

/// The kind of a policy qualifier that is a UserNotice (RFC 5280, 4.2.1.4).
pub fn id_qt_unotice() -> ObjectIdentifierRef<'static>
    ensures { result.octets.now ≡ oid_octets (1 ∷ 3 ∷ 6 ∷ 1 ∷ 5 ∷ 5 ∷ 7 ∷ 2 ∷ 2 ∷ []) }
{
    let Some(value) = ObjectIdentifierRef::new(&[0x2B, 0x06, 0x01, 0x05, 0x05, 0x07, 0x02, 0x02])
    else {
        unreachable!()
    };
    value
}

/// The arc of key purposes (RFC 5280, 4.2.1.12).
pub fn id_kp() -> ObjectIdentifierRef<'static>
    ensures { result.octets.now ≡ oid_octets (1 ∷ 3 ∷ 6 ∷ 1 ∷ 5 ∷ 5 ∷ 7 ∷ 3 ∷ []) }
{
    let Some(value) = ObjectIdentifierRef::new(&[0x2B, 0x06, 0x01, 0x05, 0x05, 0x07, 0x03]) else {
        unreachable!()
    };
    value
}

/// The purpose of a key with which a TLS server authenticates itself (RFC 5280, 4.2.1.12).
pub fn id_kp_server_auth() -> ObjectIdentifierRef<'static>
    ensures { result.octets.now ≡ oid_octets (1 ∷ 3 ∷ 6 ∷ 1 ∷ 5 ∷ 5 ∷ 7 ∷ 3 ∷ 1 ∷ []) }
{
    let Some(value) = ObjectIdentifierRef::new(&[0x2B, 0x06, 0x01, 0x05, 0x05, 0x07, 0x03, 0x01])
    else {
        unreachable!()
    };
    value
}

/// The purpose of a key with which a TLS client authenticates itself (RFC 5280, 4.2.1.12).
pub fn id_kp_client_auth() -> ObjectIdentifierRef<'static>
    ensures { result.octets.now ≡ oid_octets (1 ∷ 3 ∷ 6 ∷ 1 ∷ 5 ∷ 5 ∷ 7 ∷ 3 ∷ 2 ∷ []) }
{
    let Some(value) = ObjectIdentifierRef::new(&[0x2B, 0x06, 0x01, 0x05, 0x05, 0x07, 0x03, 0x02])
    else {
        unreachable!()
    };
    value
}

/// The purpose of a key that signs programs (RFC 5280, 4.2.1.12).
pub fn id_kp_code_signing() -> ObjectIdentifierRef<'static>
    ensures { result.octets.now ≡ oid_octets (1 ∷ 3 ∷ 6 ∷ 1 ∷ 5 ∷ 5 ∷ 7 ∷ 3 ∷ 3 ∷ []) }
{
    let Some(value) = ObjectIdentifierRef::new(&[0x2B, 0x06, 0x01, 0x05, 0x05, 0x07, 0x03, 0x03])
    else {
        unreachable!()
    };
    value
}

/// The purpose of a key that protects e-mail (RFC 5280, 4.2.1.12).
pub fn id_kp_email_protection() -> ObjectIdentifierRef<'static>
    ensures { result.octets.now ≡ oid_octets (1 ∷ 3 ∷ 6 ∷ 1 ∷ 5 ∷ 5 ∷ 7 ∷ 3 ∷ 4 ∷ []) }
{
    let Some(value) = ObjectIdentifierRef::new(&[0x2B, 0x06, 0x01, 0x05, 0x05, 0x07, 0x03, 0x04])
    else {
        unreachable!()
    };
    value
}

/// The purpose of a key that signs timestamps (RFC 5280, 4.2.1.12).
pub fn id_kp_time_stamping() -> ObjectIdentifierRef<'static>
    ensures { result.octets.now ≡ oid_octets (1 ∷ 3 ∷ 6 ∷ 1 ∷ 5 ∷ 5 ∷ 7 ∷ 3 ∷ 8 ∷ []) }
{
    let Some(value) = ObjectIdentifierRef::new(&[0x2B, 0x06, 0x01, 0x05, 0x05, 0x07, 0x03, 0x08])
    else {
        unreachable!()
    };
    value
}

/// The purpose of a key that signs OCSP responses (RFC 5280, 4.2.1.12).
pub fn id_kp_ocsp_signing() -> ObjectIdentifierRef<'static>
    ensures { result.octets.now ≡ oid_octets (1 ∷ 3 ∷ 6 ∷ 1 ∷ 5 ∷ 5 ∷ 7 ∷ 3 ∷ 9 ∷ []) }
{
    let Some(value) = ObjectIdentifierRef::new(&[0x2B, 0x06, 0x01, 0x05, 0x05, 0x07, 0x03, 0x09])
    else {
        unreachable!()
    };
    value
}

/// The arc of access methods: of the kinds of information in an AccessDescription (RFC 5280,
/// 4.2.2).
pub fn id_ad() -> ObjectIdentifierRef<'static>
    ensures { result.octets.now ≡ oid_octets (1 ∷ 3 ∷ 6 ∷ 1 ∷ 5 ∷ 5 ∷ 7 ∷ 48 ∷ []) }
{
    let Some(value) = ObjectIdentifierRef::new(&[0x2B, 0x06, 0x01, 0x05, 0x05, 0x07, 0x30]) else {
        unreachable!()
    };
    value
}

/// The access method for an OCSP responder (RFC 5280, 4.2.2.1).
pub fn id_ad_ocsp() -> ObjectIdentifierRef<'static>
    ensures { result.octets.now ≡ oid_octets (1 ∷ 3 ∷ 6 ∷ 1 ∷ 5 ∷ 5 ∷ 7 ∷ 48 ∷ 1 ∷ []) }
{
    let Some(value) = ObjectIdentifierRef::new(&[0x2B, 0x06, 0x01, 0x05, 0x05, 0x07, 0x30, 0x01])
    else {
        unreachable!()
    };
    value
}

/// The access method for certificates of the issuer (RFC 5280, 4.2.2.1).
pub fn id_ad_ca_issuers() -> ObjectIdentifierRef<'static>
    ensures { result.octets.now ≡ oid_octets (1 ∷ 3 ∷ 6 ∷ 1 ∷ 5 ∷ 5 ∷ 7 ∷ 48 ∷ 2 ∷ []) }
{
    let Some(value) = ObjectIdentifierRef::new(&[0x2B, 0x06, 0x01, 0x05, 0x05, 0x07, 0x30, 0x02])
    else {
        unreachable!()
    };
    value
}

/// The access method for a timestamp authority (RFC 5280, 4.2.2.2).
pub fn id_ad_time_stamping() -> ObjectIdentifierRef<'static>
    ensures { result.octets.now ≡ oid_octets (1 ∷ 3 ∷ 6 ∷ 1 ∷ 5 ∷ 5 ∷ 7 ∷ 48 ∷ 3 ∷ []) }
{
    let Some(value) = ObjectIdentifierRef::new(&[0x2B, 0x06, 0x01, 0x05, 0x05, 0x07, 0x30, 0x03])
    else {
        unreachable!()
    };
    value
}

/// The access method for the repository of a certification authority (RFC 5280, 4.2.2.2).
pub fn id_ad_ca_repository() -> ObjectIdentifierRef<'static>
    ensures { result.octets.now ≡ oid_octets (1 ∷ 3 ∷ 6 ∷ 1 ∷ 5 ∷ 5 ∷ 7 ∷ 48 ∷ 5 ∷ []) }
{
    let Some(value) = ObjectIdentifierRef::new(&[0x2B, 0x06, 0x01, 0x05, 0x05, 0x07, 0x30, 0x05])
    else {
        unreachable!()
    };
    value
}

/// The arc of the extensions of certificates and lists (RFC 5280, 4.2.1).
pub fn id_ce() -> ObjectIdentifierRef<'static>
    ensures { result.octets.now ≡ oid_octets (2 ∷ 5 ∷ 29 ∷ []) }
{
    let Some(value) = ObjectIdentifierRef::new(&[0x55, 0x1D]) else {
        unreachable!()
    };
    value
}

/// The extension subjectDirectoryAttributes (RFC 5280, 4.2.1.8).
pub fn id_ce_subject_directory_attributes() -> ObjectIdentifierRef<'static>
    ensures { result.octets.now ≡ oid_octets (2 ∷ 5 ∷ 29 ∷ 9 ∷ []) }
{
    let Some(value) = ObjectIdentifierRef::new(&[0x55, 0x1D, 0x09]) else {
        unreachable!()
    };
    value
}

/// The extension subjectKeyIdentifier (RFC 5280, 4.2.1.2).
pub fn id_ce_subject_key_identifier() -> ObjectIdentifierRef<'static>
    ensures { result.octets.now ≡ oid_octets (2 ∷ 5 ∷ 29 ∷ 14 ∷ []) }
{
    let Some(value) = ObjectIdentifierRef::new(&[0x55, 0x1D, 0x0E]) else {
        unreachable!()
    };
    value
}

/// The extension keyUsage (RFC 5280, 4.2.1.3).
pub fn id_ce_key_usage() -> ObjectIdentifierRef<'static>
    ensures { result.octets.now ≡ oid_octets (2 ∷ 5 ∷ 29 ∷ 15 ∷ []) }
{
    let Some(value) = ObjectIdentifierRef::new(&[0x55, 0x1D, 0x0F]) else {
        unreachable!()
    };
    value
}

/// The extension subjectAltName (RFC 5280, 4.2.1.6).
pub fn id_ce_subject_alt_name() -> ObjectIdentifierRef<'static>
    ensures { result.octets.now ≡ oid_octets (2 ∷ 5 ∷ 29 ∷ 17 ∷ []) }
{
    let Some(value) = ObjectIdentifierRef::new(&[0x55, 0x1D, 0x11]) else {
        unreachable!()
    };
    value
}

/// The extension issuerAltName (RFC 5280, 4.2.1.7 and 5.2.2).
pub fn id_ce_issuer_alt_name() -> ObjectIdentifierRef<'static>
    ensures { result.octets.now ≡ oid_octets (2 ∷ 5 ∷ 29 ∷ 18 ∷ []) }
{
    let Some(value) = ObjectIdentifierRef::new(&[0x55, 0x1D, 0x12]) else {
        unreachable!()
    };
    value
}

/// The extension basicConstraints (RFC 5280, 4.2.1.9).
pub fn id_ce_basic_constraints() -> ObjectIdentifierRef<'static>
    ensures { result.octets.now ≡ oid_octets (2 ∷ 5 ∷ 29 ∷ 19 ∷ []) }
{
    let Some(value) = ObjectIdentifierRef::new(&[0x55, 0x1D, 0x13]) else {
        unreachable!()
    };
    value
}

/// The extension cRLNumber of a revocation list (RFC 5280, 5.2.3).
pub fn id_ce_c_rl_number() -> ObjectIdentifierRef<'static>
    ensures { result.octets.now ≡ oid_octets (2 ∷ 5 ∷ 29 ∷ 20 ∷ []) }
{
    let Some(value) = ObjectIdentifierRef::new(&[0x55, 0x1D, 0x14]) else {
        unreachable!()
    };
    value
}

/// The extension reasonCode of an entry of a revocation list (RFC 5280, 5.3.1).
pub fn id_ce_c_rl_reasons() -> ObjectIdentifierRef<'static>
    ensures { result.octets.now ≡ oid_octets (2 ∷ 5 ∷ 29 ∷ 21 ∷ []) }
{
    let Some(value) = ObjectIdentifierRef::new(&[0x55, 0x1D, 0x15]) else {
        unreachable!()
    };
    value
}

/// The extension invalidityDate of an entry of a revocation list (RFC 5280, 5.3.2).
pub fn id_ce_invalidity_date() -> ObjectIdentifierRef<'static>
    ensures { result.octets.now ≡ oid_octets (2 ∷ 5 ∷ 29 ∷ 24 ∷ []) }
{
    let Some(value) = ObjectIdentifierRef::new(&[0x55, 0x1D, 0x18]) else {
        unreachable!()
    };
    value
}

/// The extension deltaCRLIndicator of a revocation list (RFC 5280, 5.2.4).
pub fn id_ce_delta_crl_indicator() -> ObjectIdentifierRef<'static>
    ensures { result.octets.now ≡ oid_octets (2 ∷ 5 ∷ 29 ∷ 27 ∷ []) }
{
    let Some(value) = ObjectIdentifierRef::new(&[0x55, 0x1D, 0x1B]) else {
        unreachable!()
    };
    value
}

/// The extension issuingDistributionPoint of a revocation list (RFC 5280, 5.2.5).
pub fn id_ce_issuing_distribution_point() -> ObjectIdentifierRef<'static>
    ensures { result.octets.now ≡ oid_octets (2 ∷ 5 ∷ 29 ∷ 28 ∷ []) }
{
    let Some(value) = ObjectIdentifierRef::new(&[0x55, 0x1D, 0x1C]) else {
        unreachable!()
    };
    value
}

/// The extension certificateIssuer of an entry of a revocation list (RFC 5280, 5.3.3).
pub fn id_ce_certificate_issuer() -> ObjectIdentifierRef<'static>
    ensures { result.octets.now ≡ oid_octets (2 ∷ 5 ∷ 29 ∷ 29 ∷ []) }
{
    let Some(value) = ObjectIdentifierRef::new(&[0x55, 0x1D, 0x1D]) else {
        unreachable!()
    };
    value
}

/// The extension nameConstraints (RFC 5280, 4.2.1.10).
pub fn id_ce_name_constraints() -> ObjectIdentifierRef<'static>
    ensures { result.octets.now ≡ oid_octets (2 ∷ 5 ∷ 29 ∷ 30 ∷ []) }
{
    let Some(value) = ObjectIdentifierRef::new(&[0x55, 0x1D, 0x1E]) else {
        unreachable!()
    };
    value
}

/// The extension cRLDistributionPoints (RFC 5280, 4.2.1.13).
pub fn id_ce_c_rl_distribution_points() -> ObjectIdentifierRef<'static>
    ensures { result.octets.now ≡ oid_octets (2 ∷ 5 ∷ 29 ∷ 31 ∷ []) }
{
    let Some(value) = ObjectIdentifierRef::new(&[0x55, 0x1D, 0x1F]) else {
        unreachable!()
    };
    value
}

/// The extension certificatePolicies (RFC 5280, 4.2.1.4).
pub fn id_ce_certificate_policies() -> ObjectIdentifierRef<'static>
    ensures { result.octets.now ≡ oid_octets (2 ∷ 5 ∷ 29 ∷ 32 ∷ []) }
{
    let Some(value) = ObjectIdentifierRef::new(&[0x55, 0x1D, 0x20]) else {
        unreachable!()
    };
    value
}

/// The policy anyPolicy, which stands for all policies (RFC 5280, 4.2.1.4).
pub fn any_policy() -> ObjectIdentifierRef<'static>
    ensures { result.octets.now ≡ oid_octets (2 ∷ 5 ∷ 29 ∷ 32 ∷ 0 ∷ []) }
{
    let Some(value) = ObjectIdentifierRef::new(&[0x55, 0x1D, 0x20, 0x00]) else {
        unreachable!()
    };
    value
}

/// The extension policyMappings (RFC 5280, 4.2.1.5).
pub fn id_ce_policy_mappings() -> ObjectIdentifierRef<'static>
    ensures { result.octets.now ≡ oid_octets (2 ∷ 5 ∷ 29 ∷ 33 ∷ []) }
{
    let Some(value) = ObjectIdentifierRef::new(&[0x55, 0x1D, 0x21]) else {
        unreachable!()
    };
    value
}

/// The extension authorityKeyIdentifier (RFC 5280, 4.2.1.1 and 5.2.1).
pub fn id_ce_authority_key_identifier() -> ObjectIdentifierRef<'static>
    ensures { result.octets.now ≡ oid_octets (2 ∷ 5 ∷ 29 ∷ 35 ∷ []) }
{
    let Some(value) = ObjectIdentifierRef::new(&[0x55, 0x1D, 0x23]) else {
        unreachable!()
    };
    value
}

/// The extension policyConstraints (RFC 5280, 4.2.1.11).
pub fn id_ce_policy_constraints() -> ObjectIdentifierRef<'static>
    ensures { result.octets.now ≡ oid_octets (2 ∷ 5 ∷ 29 ∷ 36 ∷ []) }
{
    let Some(value) = ObjectIdentifierRef::new(&[0x55, 0x1D, 0x24]) else {
        unreachable!()
    };
    value
}

/// The extension extKeyUsage (RFC 5280, 4.2.1.12).
pub fn id_ce_ext_key_usage() -> ObjectIdentifierRef<'static>
    ensures { result.octets.now ≡ oid_octets (2 ∷ 5 ∷ 29 ∷ 37 ∷ []) }
{
    let Some(value) = ObjectIdentifierRef::new(&[0x55, 0x1D, 0x25]) else {
        unreachable!()
    };
    value
}

/// The purpose of a key that may be used for all purposes (RFC 5280, 4.2.1.12).
pub fn any_extended_key_usage() -> ObjectIdentifierRef<'static>
    ensures { result.octets.now ≡ oid_octets (2 ∷ 5 ∷ 29 ∷ 37 ∷ 0 ∷ []) }
{
    let Some(value) = ObjectIdentifierRef::new(&[0x55, 0x1D, 0x25, 0x00]) else {
        unreachable!()
    };
    value
}

/// The extension freshestCRL (RFC 5280, 4.2.1.15 and 5.2.6).
pub fn id_ce_freshest_crl() -> ObjectIdentifierRef<'static>
    ensures { result.octets.now ≡ oid_octets (2 ∷ 5 ∷ 29 ∷ 46 ∷ []) }
{
    let Some(value) = ObjectIdentifierRef::new(&[0x55, 0x1D, 0x2E]) else {
        unreachable!()
    };
    value
}

/// The extension inhibitAnyPolicy (RFC 5280, 4.2.1.14).
pub fn id_ce_inhibit_any_policy() -> ObjectIdentifierRef<'static>
    ensures { result.octets.now ≡ oid_octets (2 ∷ 5 ∷ 29 ∷ 54 ∷ []) }
{
    let Some(value) = ObjectIdentifierRef::new(&[0x55, 0x1D, 0x36]) else {
        unreachable!()
    };
    value
}

/// The extension with the signed certificate timestamps of a certificate (RFC 6962, 3.3).
pub fn id_sct_list() -> ObjectIdentifierRef<'static>
    ensures { result.octets.now ≡ oid_octets (1 ∷ 3 ∷ 6 ∷ 1 ∷ 4 ∷ 1 ∷ 11129 ∷ 2 ∷ 4 ∷ 2 ∷ []) }
{
    let Some(value) = ObjectIdentifierRef::new(&[
        0x2B, 0x06, 0x01, 0x04, 0x01, 0xD6, 0x79, 0x02, 0x04, 0x02,
    ]) else {
        unreachable!()
    };
    value
}

/// The attribute with the extensions that a certificate should have (RFC 2985, 5.4.2).
pub fn id_extension_request() -> ObjectIdentifierRef<'static>
    ensures { result.octets.now ≡ oid_octets (1 ∷ 2 ∷ 840 ∷ 113549 ∷ 1 ∷ 9 ∷ 14 ∷ []) }
{
    let Some(value) = ObjectIdentifierRef::new(&[
        0x2A, 0x86, 0x48, 0x86, 0xF7, 0x0D, 0x01, 0x09, 0x0E,
    ]) else {
        unreachable!()
    };
    value
}

/// The arc of the types of attributes of names (RFC 5280, appendix A).
pub fn id_at() -> ObjectIdentifierRef<'static>
    ensures { result.octets.now ≡ oid_octets (2 ∷ 5 ∷ 4 ∷ []) }
{
    let Some(value) = ObjectIdentifierRef::new(&[0x55, 0x04]) else {
        unreachable!()
    };
    value
}

/// The attribute with the common name (RFC 5280, appendix A).
pub fn id_at_common_name() -> ObjectIdentifierRef<'static>
    ensures { result.octets.now ≡ oid_octets (2 ∷ 5 ∷ 4 ∷ 3 ∷ []) }
{
    let Some(value) = ObjectIdentifierRef::new(&[0x55, 0x04, 0x03]) else {
        unreachable!()
    };
    value
}

/// The attribute with the surname (RFC 5280, appendix A).
pub fn id_at_surname() -> ObjectIdentifierRef<'static>
    ensures { result.octets.now ≡ oid_octets (2 ∷ 5 ∷ 4 ∷ 4 ∷ []) }
{
    let Some(value) = ObjectIdentifierRef::new(&[0x55, 0x04, 0x04]) else {
        unreachable!()
    };
    value
}

/// The attribute with the serial number of a device (RFC 5280, appendix A).
pub fn id_at_serial_number() -> ObjectIdentifierRef<'static>
    ensures { result.octets.now ≡ oid_octets (2 ∷ 5 ∷ 4 ∷ 5 ∷ []) }
{
    let Some(value) = ObjectIdentifierRef::new(&[0x55, 0x04, 0x05]) else {
        unreachable!()
    };
    value
}

/// The attribute with the country (RFC 5280, appendix A).
pub fn id_at_country_name() -> ObjectIdentifierRef<'static>
    ensures { result.octets.now ≡ oid_octets (2 ∷ 5 ∷ 4 ∷ 6 ∷ []) }
{
    let Some(value) = ObjectIdentifierRef::new(&[0x55, 0x04, 0x06]) else {
        unreachable!()
    };
    value
}

/// The attribute with the locality (RFC 5280, appendix A).
pub fn id_at_locality_name() -> ObjectIdentifierRef<'static>
    ensures { result.octets.now ≡ oid_octets (2 ∷ 5 ∷ 4 ∷ 7 ∷ []) }
{
    let Some(value) = ObjectIdentifierRef::new(&[0x55, 0x04, 0x07]) else {
        unreachable!()
    };
    value
}

/// The attribute with the state or province (RFC 5280, appendix A).
pub fn id_at_state_or_province_name() -> ObjectIdentifierRef<'static>
    ensures { result.octets.now ≡ oid_octets (2 ∷ 5 ∷ 4 ∷ 8 ∷ []) }
{
    let Some(value) = ObjectIdentifierRef::new(&[0x55, 0x04, 0x08]) else {
        unreachable!()
    };
    value
}

/// The attribute with the organization (RFC 5280, appendix A).
pub fn id_at_organization_name() -> ObjectIdentifierRef<'static>
    ensures { result.octets.now ≡ oid_octets (2 ∷ 5 ∷ 4 ∷ 10 ∷ []) }
{
    let Some(value) = ObjectIdentifierRef::new(&[0x55, 0x04, 0x0A]) else {
        unreachable!()
    };
    value
}

/// The attribute with the organizational unit (RFC 5280, appendix A).
pub fn id_at_organizational_unit_name() -> ObjectIdentifierRef<'static>
    ensures { result.octets.now ≡ oid_octets (2 ∷ 5 ∷ 4 ∷ 11 ∷ []) }
{
    let Some(value) = ObjectIdentifierRef::new(&[0x55, 0x04, 0x0B]) else {
        unreachable!()
    };
    value
}

/// The attribute with the title (RFC 5280, appendix A).
pub fn id_at_title() -> ObjectIdentifierRef<'static>
    ensures { result.octets.now ≡ oid_octets (2 ∷ 5 ∷ 4 ∷ 12 ∷ []) }
{
    let Some(value) = ObjectIdentifierRef::new(&[0x55, 0x04, 0x0C]) else {
        unreachable!()
    };
    value
}

/// The attribute with the name (RFC 5280, appendix A).
pub fn id_at_name() -> ObjectIdentifierRef<'static>
    ensures { result.octets.now ≡ oid_octets (2 ∷ 5 ∷ 4 ∷ 41 ∷ []) }
{
    let Some(value) = ObjectIdentifierRef::new(&[0x55, 0x04, 0x29]) else {
        unreachable!()
    };
    value
}

/// The attribute with the given name (RFC 5280, appendix A).
pub fn id_at_given_name() -> ObjectIdentifierRef<'static>
    ensures { result.octets.now ≡ oid_octets (2 ∷ 5 ∷ 4 ∷ 42 ∷ []) }
{
    let Some(value) = ObjectIdentifierRef::new(&[0x55, 0x04, 0x2A]) else {
        unreachable!()
    };
    value
}

/// The attribute with the initials (RFC 5280, appendix A).
pub fn id_at_initials() -> ObjectIdentifierRef<'static>
    ensures { result.octets.now ≡ oid_octets (2 ∷ 5 ∷ 4 ∷ 43 ∷ []) }
{
    let Some(value) = ObjectIdentifierRef::new(&[0x55, 0x04, 0x2B]) else {
        unreachable!()
    };
    value
}

/// The attribute with the generation qualifier (RFC 5280, appendix A).
pub fn id_at_generation_qualifier() -> ObjectIdentifierRef<'static>
    ensures { result.octets.now ≡ oid_octets (2 ∷ 5 ∷ 4 ∷ 44 ∷ []) }
{
    let Some(value) = ObjectIdentifierRef::new(&[0x55, 0x04, 0x2C]) else {
        unreachable!()
    };
    value
}

/// The attribute with the qualifier of a distinguished name (RFC 5280, appendix A).
pub fn id_at_dn_qualifier() -> ObjectIdentifierRef<'static>
    ensures { result.octets.now ≡ oid_octets (2 ∷ 5 ∷ 4 ∷ 46 ∷ []) }
{
    let Some(value) = ObjectIdentifierRef::new(&[0x55, 0x04, 0x2E]) else {
        unreachable!()
    };
    value
}

/// The attribute with the pseudonym (RFC 5280, appendix A).
pub fn id_at_pseudonym() -> ObjectIdentifierRef<'static>
    ensures { result.octets.now ≡ oid_octets (2 ∷ 5 ∷ 4 ∷ 65 ∷ []) }
{
    let Some(value) = ObjectIdentifierRef::new(&[0x55, 0x04, 0x41]) else {
        unreachable!()
    };
    value
}

/// The attribute with a label of a domain (RFC 4519, 2.4).
pub fn id_domain_component() -> ObjectIdentifierRef<'static>
    ensures { result.octets.now ≡ 9 ∷ 146 ∷ 38 ∷ 137 ∷ 147 ∷ 242 ∷ 44 ∷ 100 ∷ 1 ∷ 25 ∷ [] }
{
    let Some(value) = ObjectIdentifierRef::new(&[
        0x09, 0x92, 0x26, 0x89, 0x93, 0xF2, 0x2C, 0x64, 0x01, 0x19,
    ]) else {
        unreachable!()
    };
    value
}

/// The attribute with an e-mail address (RFC 2985, 5.2.1).
pub fn id_email_address() -> ObjectIdentifierRef<'static>
    ensures { result.octets.now ≡ oid_octets (1 ∷ 2 ∷ 840 ∷ 113549 ∷ 1 ∷ 9 ∷ 1 ∷ []) }
{
    let Some(value) = ObjectIdentifierRef::new(&[
        0x2A, 0x86, 0x48, 0x86, 0xF7, 0x0D, 0x01, 0x09, 0x01,
    ]) else {
        unreachable!()
    };
    value
}

/// The name of an OBJECT IDENTIFIER in the ASN.1 module, or the first of several; `None` if it
/// has no name there.
pub fn name_of(oid: &ObjectIdentifierRef<'_>) -> Option<&'static str> {
    match oid.octets() {
        [0x2B, 0x06, 0x01, 0x05, 0x05, 0x07] => Some("id-pkix"),
        [0x2B, 0x06, 0x01, 0x05, 0x05, 0x07, 0x01] => Some("id-pe"),
        [0x2B, 0x06, 0x01, 0x05, 0x05, 0x07, 0x01, 0x01] => Some("id-pe-authorityInfoAccess"),
        [0x2B, 0x06, 0x01, 0x05, 0x05, 0x07, 0x01, 0x0B] => Some("id-pe-subjectInfoAccess"),
        [0x2B, 0x06, 0x01, 0x05, 0x05, 0x07, 0x02] => Some("id-qt"),
        [0x2B, 0x06, 0x01, 0x05, 0x05, 0x07, 0x02, 0x01] => Some("id-qt-cps"),
        [0x2B, 0x06, 0x01, 0x05, 0x05, 0x07, 0x02, 0x02] => Some("id-qt-unotice"),
        [0x2B, 0x06, 0x01, 0x05, 0x05, 0x07, 0x03] => Some("id-kp"),
        [0x2B, 0x06, 0x01, 0x05, 0x05, 0x07, 0x03, 0x01] => Some("id-kp-serverAuth"),
        [0x2B, 0x06, 0x01, 0x05, 0x05, 0x07, 0x03, 0x02] => Some("id-kp-clientAuth"),
        [0x2B, 0x06, 0x01, 0x05, 0x05, 0x07, 0x03, 0x03] => Some("id-kp-codeSigning"),
        [0x2B, 0x06, 0x01, 0x05, 0x05, 0x07, 0x03, 0x04] => Some("id-kp-emailProtection"),
        [0x2B, 0x06, 0x01, 0x05, 0x05, 0x07, 0x03, 0x08] => Some("id-kp-timeStamping"),
        [0x2B, 0x06, 0x01, 0x05, 0x05, 0x07, 0x03, 0x09] => Some("id-kp-OCSPSigning"),
        [0x2B, 0x06, 0x01, 0x05, 0x05, 0x07, 0x30] => Some("id-ad"),
        [0x2B, 0x06, 0x01, 0x05, 0x05, 0x07, 0x30, 0x01] => Some("id-ad-ocsp"),
        [0x2B, 0x06, 0x01, 0x05, 0x05, 0x07, 0x30, 0x02] => Some("id-ad-caIssuers"),
        [0x2B, 0x06, 0x01, 0x05, 0x05, 0x07, 0x30, 0x03] => Some("id-ad-timeStamping"),
        [0x2B, 0x06, 0x01, 0x05, 0x05, 0x07, 0x30, 0x05] => Some("id-ad-caRepository"),
        [0x55, 0x1D] => Some("id-ce"),
        [0x55, 0x1D, 0x09] => Some("id-ce-subjectDirectoryAttributes"),
        [0x55, 0x1D, 0x0E] => Some("id-ce-subjectKeyIdentifier"),
        [0x55, 0x1D, 0x0F] => Some("id-ce-keyUsage"),
        [0x55, 0x1D, 0x11] => Some("id-ce-subjectAltName"),
        [0x55, 0x1D, 0x12] => Some("id-ce-issuerAltName"),
        [0x55, 0x1D, 0x13] => Some("id-ce-basicConstraints"),
        [0x55, 0x1D, 0x14] => Some("id-ce-cRLNumber"),
        [0x55, 0x1D, 0x15] => Some("id-ce-cRLReasons"),
        [0x55, 0x1D, 0x18] => Some("id-ce-invalidityDate"),
        [0x55, 0x1D, 0x1B] => Some("id-ce-deltaCRLIndicator"),
        [0x55, 0x1D, 0x1C] => Some("id-ce-issuingDistributionPoint"),
        [0x55, 0x1D, 0x1D] => Some("id-ce-certificateIssuer"),
        [0x55, 0x1D, 0x1E] => Some("id-ce-nameConstraints"),
        [0x55, 0x1D, 0x1F] => Some("id-ce-cRLDistributionPoints"),
        [0x55, 0x1D, 0x20] => Some("id-ce-certificatePolicies"),
        [0x55, 0x1D, 0x20, 0x00] => Some("anyPolicy"),
        [0x55, 0x1D, 0x21] => Some("id-ce-policyMappings"),
        [0x55, 0x1D, 0x23] => Some("id-ce-authorityKeyIdentifier"),
        [0x55, 0x1D, 0x24] => Some("id-ce-policyConstraints"),
        [0x55, 0x1D, 0x25] => Some("id-ce-extKeyUsage"),
        [0x55, 0x1D, 0x25, 0x00] => Some("anyExtendedKeyUsage"),
        [0x55, 0x1D, 0x2E] => Some("id-ce-freshestCRL"),
        [0x55, 0x1D, 0x36] => Some("id-ce-inhibitAnyPolicy"),
        [0x2B, 0x06, 0x01, 0x04, 0x01, 0xD6, 0x79, 0x02, 0x04, 0x02] => Some("id-sct-list"),
        [0x2A, 0x86, 0x48, 0x86, 0xF7, 0x0D, 0x01, 0x09, 0x0E] => Some("id-extensionRequest"),
        [0x55, 0x04] => Some("id-at"),
        [0x55, 0x04, 0x03] => Some("id-at-commonName"),
        [0x55, 0x04, 0x04] => Some("id-at-surname"),
        [0x55, 0x04, 0x05] => Some("id-at-serialNumber"),
        [0x55, 0x04, 0x06] => Some("id-at-countryName"),
        [0x55, 0x04, 0x07] => Some("id-at-localityName"),
        [0x55, 0x04, 0x08] => Some("id-at-stateOrProvinceName"),
        [0x55, 0x04, 0x0A] => Some("id-at-organizationName"),
        [0x55, 0x04, 0x0B] => Some("id-at-organizationalUnitName"),
        [0x55, 0x04, 0x0C] => Some("id-at-title"),
        [0x55, 0x04, 0x29] => Some("id-at-name"),
        [0x55, 0x04, 0x2A] => Some("id-at-givenName"),
        [0x55, 0x04, 0x2B] => Some("id-at-initials"),
        [0x55, 0x04, 0x2C] => Some("id-at-generationQualifier"),
        [0x55, 0x04, 0x2E] => Some("id-at-dnQualifier"),
        [0x55, 0x04, 0x41] => Some("id-at-pseudonym"),
        [0x09, 0x92, 0x26, 0x89, 0x93, 0xF2, 0x2C, 0x64, 0x01, 0x19] => Some("id-domainComponent"),
        [0x2A, 0x86, 0x48, 0x86, 0xF7, 0x0D, 0x01, 0x09, 0x01] => Some("id-emailAddress"),
        _ => None,
    }
}
