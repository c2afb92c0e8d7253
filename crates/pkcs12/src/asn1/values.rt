//! Written by asn1_compile from the module PKCS-12: change the module instead.
//!
//! The values of the module.
ghost use Rattle.std.specs.Prelude.{◌≡◌, ◌∷◌, []};
ghost use Rattle.der_asn1.specs.Arcs.{oid_octets};

use der_asn1::ObjectIdentifierRef;

/// The arc of PKCS #12 (RFC 7292, D).
pub fn pkcs_12() -> ObjectIdentifierRef<'static>
    ensures { result.octets.now ≡ oid_octets (1 ∷ 2 ∷ 840 ∷ 113549 ∷ 1 ∷ 12 ∷ []) }
{
    let Some(value) = ObjectIdentifierRef::new(&[0x2A, 0x86, 0x48, 0x86, 0xF7, 0x0D, 0x01, 0x0C])
    else {
        unreachable!()
    };
    value
}

/// Encryption with a password, by RC4 of 128 bits and SHA-1 (RFC 7292, C). The parameters are
/// Pkcs-12PbeParams.
pub fn pbe_with_sha_and128_bit_rc4() -> ObjectIdentifierRef<'static>
    ensures { result.octets.now ≡ oid_octets (1 ∷ 2 ∷ 840 ∷ 113549 ∷ 1 ∷ 12 ∷ 1 ∷ 1 ∷ []) }
{
    let Some(value) = ObjectIdentifierRef::new(&[
        0x2A, 0x86, 0x48, 0x86, 0xF7, 0x0D, 0x01, 0x0C, 0x01, 0x01,
    ]) else {
        unreachable!()
    };
    value
}

/// Encryption with a password, by RC4 of 40 bits and SHA-1 (RFC 7292, C). The parameters are
/// Pkcs-12PbeParams.
pub fn pbe_with_sha_and40_bit_rc4() -> ObjectIdentifierRef<'static>
    ensures { result.octets.now ≡ oid_octets (1 ∷ 2 ∷ 840 ∷ 113549 ∷ 1 ∷ 12 ∷ 1 ∷ 2 ∷ []) }
{
    let Some(value) = ObjectIdentifierRef::new(&[
        0x2A, 0x86, 0x48, 0x86, 0xF7, 0x0D, 0x01, 0x0C, 0x01, 0x02,
    ]) else {
        unreachable!()
    };
    value
}

/// Encryption with a password, by triple DES of three keys and SHA-1 (RFC 7292, C). The parameters
/// are Pkcs-12PbeParams.
pub fn pbe_with_sha_and3_key_triple_des_cbc() -> ObjectIdentifierRef<'static>
    ensures { result.octets.now ≡ oid_octets (1 ∷ 2 ∷ 840 ∷ 113549 ∷ 1 ∷ 12 ∷ 1 ∷ 3 ∷ []) }
{
    let Some(value) = ObjectIdentifierRef::new(&[
        0x2A, 0x86, 0x48, 0x86, 0xF7, 0x0D, 0x01, 0x0C, 0x01, 0x03,
    ]) else {
        unreachable!()
    };
    value
}

/// Encryption with a password, by triple DES of two keys and SHA-1 (RFC 7292, C). The parameters
/// are Pkcs-12PbeParams.
pub fn pbe_with_sha_and2_key_triple_des_cbc() -> ObjectIdentifierRef<'static>
    ensures { result.octets.now ≡ oid_octets (1 ∷ 2 ∷ 840 ∷ 113549 ∷ 1 ∷ 12 ∷ 1 ∷ 4 ∷ []) }
{
    let Some(value) = ObjectIdentifierRef::new(&[
        0x2A, 0x86, 0x48, 0x86, 0xF7, 0x0D, 0x01, 0x0C, 0x01, 0x04,
    ]) else {
        unreachable!()
    };
    value
}

/// Encryption with a password, by RC2 of 128 bits and SHA-1 (RFC 7292, C). The parameters are
/// Pkcs-12PbeParams.
pub fn pbe_with_sha_and128_bit_rc2_cbc() -> ObjectIdentifierRef<'static>
    ensures { result.octets.now ≡ oid_octets (1 ∷ 2 ∷ 840 ∷ 113549 ∷ 1 ∷ 12 ∷ 1 ∷ 5 ∷ []) }
{
    let Some(value) = ObjectIdentifierRef::new(&[
        0x2A, 0x86, 0x48, 0x86, 0xF7, 0x0D, 0x01, 0x0C, 0x01, 0x05,
    ]) else {
        unreachable!()
    };
    value
}

/// Encryption with a password, by RC2 of 40 bits and SHA-1 (RFC 7292, C). The parameters are
/// Pkcs-12PbeParams.
pub fn pbewith_sha_and40_bit_rc2_cbc() -> ObjectIdentifierRef<'static>
    ensures { result.octets.now ≡ oid_octets (1 ∷ 2 ∷ 840 ∷ 113549 ∷ 1 ∷ 12 ∷ 1 ∷ 6 ∷ []) }
{
    let Some(value) = ObjectIdentifierRef::new(&[
        0x2A, 0x86, 0x48, 0x86, 0xF7, 0x0D, 0x01, 0x0C, 0x01, 0x06,
    ]) else {
        unreachable!()
    };
    value
}

/// The type of a bag that contains a KeyBag (RFC 7292, 4.2).
pub fn key_bag() -> ObjectIdentifierRef<'static>
    ensures { result.octets.now ≡ oid_octets (1 ∷ 2 ∷ 840 ∷ 113549 ∷ 1 ∷ 12 ∷ 10 ∷ 1 ∷ 1 ∷ []) }
{
    let Some(value) = ObjectIdentifierRef::new(&[
        0x2A, 0x86, 0x48, 0x86, 0xF7, 0x0D, 0x01, 0x0C, 0x0A, 0x01, 0x01,
    ]) else {
        unreachable!()
    };
    value
}

/// The type of a bag that contains a PKCS8ShroudedKeyBag (RFC 7292, 4.2).
pub fn pkcs8_shrouded_key_bag() -> ObjectIdentifierRef<'static>
    ensures { result.octets.now ≡ oid_octets (1 ∷ 2 ∷ 840 ∷ 113549 ∷ 1 ∷ 12 ∷ 10 ∷ 1 ∷ 2 ∷ []) }
{
    let Some(value) = ObjectIdentifierRef::new(&[
        0x2A, 0x86, 0x48, 0x86, 0xF7, 0x0D, 0x01, 0x0C, 0x0A, 0x01, 0x02,
    ]) else {
        unreachable!()
    };
    value
}

/// The type of a bag that contains a CertBag (RFC 7292, 4.2).
pub fn cert_bag() -> ObjectIdentifierRef<'static>
    ensures { result.octets.now ≡ oid_octets (1 ∷ 2 ∷ 840 ∷ 113549 ∷ 1 ∷ 12 ∷ 10 ∷ 1 ∷ 3 ∷ []) }
{
    let Some(value) = ObjectIdentifierRef::new(&[
        0x2A, 0x86, 0x48, 0x86, 0xF7, 0x0D, 0x01, 0x0C, 0x0A, 0x01, 0x03,
    ]) else {
        unreachable!()
    };
    value
}

/// The type of a bag that contains a CRLBag (RFC 7292, 4.2).
pub fn crl_bag() -> ObjectIdentifierRef<'static>
    ensures { result.octets.now ≡ oid_octets (1 ∷ 2 ∷ 840 ∷ 113549 ∷ 1 ∷ 12 ∷ 10 ∷ 1 ∷ 4 ∷ []) }
{
    let Some(value) = ObjectIdentifierRef::new(&[
        0x2A, 0x86, 0x48, 0x86, 0xF7, 0x0D, 0x01, 0x0C, 0x0A, 0x01, 0x04,
    ]) else {
        unreachable!()
    };
    value
}

/// The type of a bag that contains a SecretBag (RFC 7292, 4.2).
pub fn secret_bag() -> ObjectIdentifierRef<'static>
    ensures { result.octets.now ≡ oid_octets (1 ∷ 2 ∷ 840 ∷ 113549 ∷ 1 ∷ 12 ∷ 10 ∷ 1 ∷ 5 ∷ []) }
{
    let Some(value) = ObjectIdentifierRef::new(&[
        0x2A, 0x86, 0x48, 0x86, 0xF7, 0x0D, 0x01, 0x0C, 0x0A, 0x01, 0x05,
    ]) else {
        unreachable!()
    };
    value
}

/// The type of a bag that contains a SafeContents (RFC 7292, 4.2).
pub fn safe_contents_bag() -> ObjectIdentifierRef<'static>
    ensures { result.octets.now ≡ oid_octets (1 ∷ 2 ∷ 840 ∷ 113549 ∷ 1 ∷ 12 ∷ 10 ∷ 1 ∷ 6 ∷ []) }
{
    let Some(value) = ObjectIdentifierRef::new(&[
        0x2A, 0x86, 0x48, 0x86, 0xF7, 0x0D, 0x01, 0x0C, 0x0A, 0x01, 0x06,
    ]) else {
        unreachable!()
    };
    value
}

/// The attribute friendlyName: a name for users. Its value is a FriendlyName (RFC 2985, 5.5.1).
pub fn friendly_name() -> ObjectIdentifierRef<'static>
    ensures { result.octets.now ≡ oid_octets (1 ∷ 2 ∷ 840 ∷ 113549 ∷ 1 ∷ 9 ∷ 20 ∷ []) }
{
    let Some(value) = ObjectIdentifierRef::new(&[
        0x2A, 0x86, 0x48, 0x86, 0xF7, 0x0D, 0x01, 0x09, 0x14,
    ]) else {
        unreachable!()
    };
    value
}

/// The attribute localKeyId, which is the same for a key and its certificate. Its value is a
/// LocalKeyId (RFC 2985, 5.5.2).
pub fn local_key_id() -> ObjectIdentifierRef<'static>
    ensures { result.octets.now ≡ oid_octets (1 ∷ 2 ∷ 840 ∷ 113549 ∷ 1 ∷ 9 ∷ 21 ∷ []) }
{
    let Some(value) = ObjectIdentifierRef::new(&[
        0x2A, 0x86, 0x48, 0x86, 0xF7, 0x0D, 0x01, 0x09, 0x15,
    ]) else {
        unreachable!()
    };
    value
}

/// The type of an X.509 certificate. The value is an OCTET STRING that contains its DER encoding
/// (RFC 7292, 4.2.3).
pub fn x509_certificate() -> ObjectIdentifierRef<'static>
    ensures { result.octets.now ≡ oid_octets (1 ∷ 2 ∷ 840 ∷ 113549 ∷ 1 ∷ 9 ∷ 22 ∷ 1 ∷ []) }
{
    let Some(value) = ObjectIdentifierRef::new(&[
        0x2A, 0x86, 0x48, 0x86, 0xF7, 0x0D, 0x01, 0x09, 0x16, 0x01,
    ]) else {
        unreachable!()
    };
    value
}

/// The type of an SDSI certificate. The value is an IA5String with its Base64 text (RFC 7292,
/// 4.2.3).
pub fn sdsi_certificate() -> ObjectIdentifierRef<'static>
    ensures { result.octets.now ≡ oid_octets (1 ∷ 2 ∷ 840 ∷ 113549 ∷ 1 ∷ 9 ∷ 22 ∷ 2 ∷ []) }
{
    let Some(value) = ObjectIdentifierRef::new(&[
        0x2A, 0x86, 0x48, 0x86, 0xF7, 0x0D, 0x01, 0x09, 0x16, 0x02,
    ]) else {
        unreachable!()
    };
    value
}

/// The type of an X.509 revocation list. The value is an OCTET STRING that contains its DER
/// encoding (RFC 7292, 4.2.4).
pub fn x509_crl() -> ObjectIdentifierRef<'static>
    ensures { result.octets.now ≡ oid_octets (1 ∷ 2 ∷ 840 ∷ 113549 ∷ 1 ∷ 9 ∷ 23 ∷ 1 ∷ []) }
{
    let Some(value) = ObjectIdentifierRef::new(&[
        0x2A, 0x86, 0x48, 0x86, 0xF7, 0x0D, 0x01, 0x09, 0x17, 0x01,
    ]) else {
        unreachable!()
    };
    value
}

/// The name of an OBJECT IDENTIFIER in the ASN.1 module, or the first of several; `None` if it
/// has no name there.
pub fn name_of(oid: &ObjectIdentifierRef<'_>) -> Option<&'static str> {
    match oid.octets() {
        [0x2A, 0x86, 0x48, 0x86, 0xF7, 0x0D, 0x01, 0x0C] => Some("pkcs-12"),
        [0x2A, 0x86, 0x48, 0x86, 0xF7, 0x0D, 0x01, 0x0C, 0x01, 0x01] => Some(
            "pbeWithSHAAnd128BitRC4",
        ),
        [0x2A, 0x86, 0x48, 0x86, 0xF7, 0x0D, 0x01, 0x0C, 0x01, 0x02] => Some(
            "pbeWithSHAAnd40BitRC4",
        ),
        [0x2A, 0x86, 0x48, 0x86, 0xF7, 0x0D, 0x01, 0x0C, 0x01, 0x03] => Some(
            "pbeWithSHAAnd3-KeyTripleDES-CBC",
        ),
        [0x2A, 0x86, 0x48, 0x86, 0xF7, 0x0D, 0x01, 0x0C, 0x01, 0x04] => Some(
            "pbeWithSHAAnd2-KeyTripleDES-CBC",
        ),
        [0x2A, 0x86, 0x48, 0x86, 0xF7, 0x0D, 0x01, 0x0C, 0x01, 0x05] => Some(
            "pbeWithSHAAnd128BitRC2-CBC",
        ),
        [0x2A, 0x86, 0x48, 0x86, 0xF7, 0x0D, 0x01, 0x0C, 0x01, 0x06] => Some(
            "pbewithSHAAnd40BitRC2-CBC",
        ),
        [
            0x2A,
            0x86,
            0x48,
            0x86,
            0xF7,
            0x0D,
            0x01,
            0x0C,
            0x0A,
            0x01,
            0x01,
        ] => Some("keyBag"),
        [
            0x2A,
            0x86,
            0x48,
            0x86,
            0xF7,
            0x0D,
            0x01,
            0x0C,
            0x0A,
            0x01,
            0x02,
        ] => Some("pkcs8ShroudedKeyBag"),
        [
            0x2A,
            0x86,
            0x48,
            0x86,
            0xF7,
            0x0D,
            0x01,
            0x0C,
            0x0A,
            0x01,
            0x03,
        ] => Some("certBag"),
        [
            0x2A,
            0x86,
            0x48,
            0x86,
            0xF7,
            0x0D,
            0x01,
            0x0C,
            0x0A,
            0x01,
            0x04,
        ] => Some("crlBag"),
        [
            0x2A,
            0x86,
            0x48,
            0x86,
            0xF7,
            0x0D,
            0x01,
            0x0C,
            0x0A,
            0x01,
            0x05,
        ] => Some("secretBag"),
        [
            0x2A,
            0x86,
            0x48,
            0x86,
            0xF7,
            0x0D,
            0x01,
            0x0C,
            0x0A,
            0x01,
            0x06,
        ] => Some("safeContentsBag"),
        [0x2A, 0x86, 0x48, 0x86, 0xF7, 0x0D, 0x01, 0x09, 0x14] => Some("friendlyName"),
        [0x2A, 0x86, 0x48, 0x86, 0xF7, 0x0D, 0x01, 0x09, 0x15] => Some("localKeyId"),
        [0x2A, 0x86, 0x48, 0x86, 0xF7, 0x0D, 0x01, 0x09, 0x16, 0x01] => Some("x509Certificate"),
        [0x2A, 0x86, 0x48, 0x86, 0xF7, 0x0D, 0x01, 0x09, 0x16, 0x02] => Some("sdsiCertificate"),
        [0x2A, 0x86, 0x48, 0x86, 0xF7, 0x0D, 0x01, 0x09, 0x17, 0x01] => Some("x509CRL"),
        _ => None,
    }
}
