//! Written by asn1_compile from the module PrivateKeys: change the module instead.
//!
//! The values of the module.
ghost use Rattle.std.specs.Prelude.{◌≡◌, ◌∷◌, []};
ghost use Rattle.der_asn1.specs.Arcs.{oid_octets};

use der_asn1::ObjectIdentifierRef;

/// The arc of RSA Data Security (RFC 8018, C).
pub fn rsadsi() -> ObjectIdentifierRef<'static>
    ensures { result.octets.now ≡ oid_octets (1 ∷ 2 ∷ 840 ∷ 113549 ∷ []) }
{
    let Some(value) = ObjectIdentifierRef::new(&[0x2A, 0x86, 0x48, 0x86, 0xF7, 0x0D]) else {
        unreachable!()
    };
    value
}

/// The arc of PKCS #5 (RFC 8018, C).
pub fn pkcs_5() -> ObjectIdentifierRef<'static>
    ensures { result.octets.now ≡ oid_octets (1 ∷ 2 ∷ 840 ∷ 113549 ∷ 1 ∷ 5 ∷ []) }
{
    let Some(value) = ObjectIdentifierRef::new(&[0x2A, 0x86, 0x48, 0x86, 0xF7, 0x0D, 0x01, 0x05])
    else {
        unreachable!()
    };
    value
}

/// The key derivation function PBKDF2 (RFC 8018, A.2). The parameters are PBKDF2-params.
pub fn id_pbkdf2() -> ObjectIdentifierRef<'static>
    ensures { result.octets.now ≡ oid_octets (1 ∷ 2 ∷ 840 ∷ 113549 ∷ 1 ∷ 5 ∷ 12 ∷ []) }
{
    let Some(value) = ObjectIdentifierRef::new(&[
        0x2A, 0x86, 0x48, 0x86, 0xF7, 0x0D, 0x01, 0x05, 0x0C,
    ]) else {
        unreachable!()
    };
    value
}

/// Encryption with a password by PBES2 (RFC 8018, A.4). The parameters are PBES2-params.
pub fn id_pbes2() -> ObjectIdentifierRef<'static>
    ensures { result.octets.now ≡ oid_octets (1 ∷ 2 ∷ 840 ∷ 113549 ∷ 1 ∷ 5 ∷ 13 ∷ []) }
{
    let Some(value) = ObjectIdentifierRef::new(&[
        0x2A, 0x86, 0x48, 0x86, 0xF7, 0x0D, 0x01, 0x05, 0x0D,
    ]) else {
        unreachable!()
    };
    value
}

/// The message authentication code PBMAC1, with a key from a password (RFC 8018, A.5).
pub fn id_pbmac1() -> ObjectIdentifierRef<'static>
    ensures { result.octets.now ≡ oid_octets (1 ∷ 2 ∷ 840 ∷ 113549 ∷ 1 ∷ 5 ∷ 14 ∷ []) }
{
    let Some(value) = ObjectIdentifierRef::new(&[
        0x2A, 0x86, 0x48, 0x86, 0xF7, 0x0D, 0x01, 0x05, 0x0E,
    ]) else {
        unreachable!()
    };
    value
}

/// The key derivation function scrypt (RFC 7914, 7). The parameters are Scrypt-params.
pub fn id_scrypt() -> ObjectIdentifierRef<'static>
    ensures { result.octets.now ≡ oid_octets (1 ∷ 3 ∷ 6 ∷ 1 ∷ 4 ∷ 1 ∷ 11591 ∷ 4 ∷ 11 ∷ []) }
{
    let Some(value) = ObjectIdentifierRef::new(&[
        0x2B, 0x06, 0x01, 0x04, 0x01, 0xDA, 0x47, 0x04, 0x0B,
    ]) else {
        unreachable!()
    };
    value
}

/// Encryption with a password by PBES1, with DES and MD2 (RFC 8018, A.3). The parameters are a
/// PBEParameter.
pub fn pbe_with_md2_and_des_cbc() -> ObjectIdentifierRef<'static>
    ensures { result.octets.now ≡ oid_octets (1 ∷ 2 ∷ 840 ∷ 113549 ∷ 1 ∷ 5 ∷ 1 ∷ []) }
{
    let Some(value) = ObjectIdentifierRef::new(&[
        0x2A, 0x86, 0x48, 0x86, 0xF7, 0x0D, 0x01, 0x05, 0x01,
    ]) else {
        unreachable!()
    };
    value
}

/// Encryption with a password by PBES1, with RC2 and MD2 (RFC 8018, A.3). The parameters are a
/// PBEParameter.
pub fn pbe_with_md2_and_rc2_cbc() -> ObjectIdentifierRef<'static>
    ensures { result.octets.now ≡ oid_octets (1 ∷ 2 ∷ 840 ∷ 113549 ∷ 1 ∷ 5 ∷ 4 ∷ []) }
{
    let Some(value) = ObjectIdentifierRef::new(&[
        0x2A, 0x86, 0x48, 0x86, 0xF7, 0x0D, 0x01, 0x05, 0x04,
    ]) else {
        unreachable!()
    };
    value
}

/// Encryption with a password by PBES1, with DES and MD5 (RFC 8018, A.3). The parameters are a
/// PBEParameter.
pub fn pbe_with_md5_and_des_cbc() -> ObjectIdentifierRef<'static>
    ensures { result.octets.now ≡ oid_octets (1 ∷ 2 ∷ 840 ∷ 113549 ∷ 1 ∷ 5 ∷ 3 ∷ []) }
{
    let Some(value) = ObjectIdentifierRef::new(&[
        0x2A, 0x86, 0x48, 0x86, 0xF7, 0x0D, 0x01, 0x05, 0x03,
    ]) else {
        unreachable!()
    };
    value
}

/// Encryption with a password by PBES1, with RC2 and MD5 (RFC 8018, A.3). The parameters are a
/// PBEParameter.
pub fn pbe_with_md5_and_rc2_cbc() -> ObjectIdentifierRef<'static>
    ensures { result.octets.now ≡ oid_octets (1 ∷ 2 ∷ 840 ∷ 113549 ∷ 1 ∷ 5 ∷ 6 ∷ []) }
{
    let Some(value) = ObjectIdentifierRef::new(&[
        0x2A, 0x86, 0x48, 0x86, 0xF7, 0x0D, 0x01, 0x05, 0x06,
    ]) else {
        unreachable!()
    };
    value
}

/// Encryption with a password by PBES1, with DES and SHA-1 (RFC 8018, A.3). The parameters are a
/// PBEParameter.
pub fn pbe_with_sha1_and_des_cbc() -> ObjectIdentifierRef<'static>
    ensures { result.octets.now ≡ oid_octets (1 ∷ 2 ∷ 840 ∷ 113549 ∷ 1 ∷ 5 ∷ 10 ∷ []) }
{
    let Some(value) = ObjectIdentifierRef::new(&[
        0x2A, 0x86, 0x48, 0x86, 0xF7, 0x0D, 0x01, 0x05, 0x0A,
    ]) else {
        unreachable!()
    };
    value
}

/// Encryption with a password by PBES1, with RC2 and SHA-1 (RFC 8018, A.3). The parameters are a
/// PBEParameter.
pub fn pbe_with_sha1_and_rc2_cbc() -> ObjectIdentifierRef<'static>
    ensures { result.octets.now ≡ oid_octets (1 ∷ 2 ∷ 840 ∷ 113549 ∷ 1 ∷ 5 ∷ 11 ∷ []) }
{
    let Some(value) = ObjectIdentifierRef::new(&[
        0x2A, 0x86, 0x48, 0x86, 0xF7, 0x0D, 0x01, 0x05, 0x0B,
    ]) else {
        unreachable!()
    };
    value
}

/// The arc of the digest algorithms of RSA Data Security (RFC 8018, C).
pub fn digest_algorithm() -> ObjectIdentifierRef<'static>
    ensures { result.octets.now ≡ oid_octets (1 ∷ 2 ∷ 840 ∷ 113549 ∷ 2 ∷ []) }
{
    let Some(value) = ObjectIdentifierRef::new(&[0x2A, 0x86, 0x48, 0x86, 0xF7, 0x0D, 0x02]) else {
        unreachable!()
    };
    value
}

/// HMAC with SHA-1 (RFC 8018, B.1.1). The parameters are NULL.
pub fn id_hmac_with_sha1() -> ObjectIdentifierRef<'static>
    ensures { result.octets.now ≡ oid_octets (1 ∷ 2 ∷ 840 ∷ 113549 ∷ 2 ∷ 7 ∷ []) }
{
    let Some(value) = ObjectIdentifierRef::new(&[0x2A, 0x86, 0x48, 0x86, 0xF7, 0x0D, 0x02, 0x07])
    else {
        unreachable!()
    };
    value
}

/// HMAC with SHA-224 (RFC 8018, B.1.2). The parameters are NULL.
pub fn id_hmac_with_sha224() -> ObjectIdentifierRef<'static>
    ensures { result.octets.now ≡ oid_octets (1 ∷ 2 ∷ 840 ∷ 113549 ∷ 2 ∷ 8 ∷ []) }
{
    let Some(value) = ObjectIdentifierRef::new(&[0x2A, 0x86, 0x48, 0x86, 0xF7, 0x0D, 0x02, 0x08])
    else {
        unreachable!()
    };
    value
}

/// HMAC with SHA-256 (RFC 8018, B.1.2). The parameters are NULL.
pub fn id_hmac_with_sha256() -> ObjectIdentifierRef<'static>
    ensures { result.octets.now ≡ oid_octets (1 ∷ 2 ∷ 840 ∷ 113549 ∷ 2 ∷ 9 ∷ []) }
{
    let Some(value) = ObjectIdentifierRef::new(&[0x2A, 0x86, 0x48, 0x86, 0xF7, 0x0D, 0x02, 0x09])
    else {
        unreachable!()
    };
    value
}

/// HMAC with SHA-384 (RFC 8018, B.1.2). The parameters are NULL.
pub fn id_hmac_with_sha384() -> ObjectIdentifierRef<'static>
    ensures { result.octets.now ≡ oid_octets (1 ∷ 2 ∷ 840 ∷ 113549 ∷ 2 ∷ 10 ∷ []) }
{
    let Some(value) = ObjectIdentifierRef::new(&[0x2A, 0x86, 0x48, 0x86, 0xF7, 0x0D, 0x02, 0x0A])
    else {
        unreachable!()
    };
    value
}

/// HMAC with SHA-512 (RFC 8018, B.1.2). The parameters are NULL.
pub fn id_hmac_with_sha512() -> ObjectIdentifierRef<'static>
    ensures { result.octets.now ≡ oid_octets (1 ∷ 2 ∷ 840 ∷ 113549 ∷ 2 ∷ 11 ∷ []) }
{
    let Some(value) = ObjectIdentifierRef::new(&[0x2A, 0x86, 0x48, 0x86, 0xF7, 0x0D, 0x02, 0x0B])
    else {
        unreachable!()
    };
    value
}

/// HMAC with SHA-512/224 (RFC 8018, B.1.2). The parameters are NULL.
pub fn id_hmac_with_sha512_224() -> ObjectIdentifierRef<'static>
    ensures { result.octets.now ≡ oid_octets (1 ∷ 2 ∷ 840 ∷ 113549 ∷ 2 ∷ 12 ∷ []) }
{
    let Some(value) = ObjectIdentifierRef::new(&[0x2A, 0x86, 0x48, 0x86, 0xF7, 0x0D, 0x02, 0x0C])
    else {
        unreachable!()
    };
    value
}

/// HMAC with SHA-512/256 (RFC 8018, B.1.2). The parameters are NULL.
pub fn id_hmac_with_sha512_256() -> ObjectIdentifierRef<'static>
    ensures { result.octets.now ≡ oid_octets (1 ∷ 2 ∷ 840 ∷ 113549 ∷ 2 ∷ 13 ∷ []) }
{
    let Some(value) = ObjectIdentifierRef::new(&[0x2A, 0x86, 0x48, 0x86, 0xF7, 0x0D, 0x02, 0x0D])
    else {
        unreachable!()
    };
    value
}

/// DES in CBC mode (RFC 8018, B.2.1). The parameters are an OCTET STRING, the initialization
/// vector.
pub fn des_cbc() -> ObjectIdentifierRef<'static>
    ensures { result.octets.now ≡ oid_octets (1 ∷ 3 ∷ 14 ∷ 3 ∷ 2 ∷ 7 ∷ []) }
{
    let Some(value) = ObjectIdentifierRef::new(&[0x2B, 0x0E, 0x03, 0x02, 0x07]) else {
        unreachable!()
    };
    value
}

/// The arc of the encryption algorithms of RSA Data Security (RFC 8018, C).
pub fn encryption_algorithm() -> ObjectIdentifierRef<'static>
    ensures { result.octets.now ≡ oid_octets (1 ∷ 2 ∷ 840 ∷ 113549 ∷ 3 ∷ []) }
{
    let Some(value) = ObjectIdentifierRef::new(&[0x2A, 0x86, 0x48, 0x86, 0xF7, 0x0D, 0x03]) else {
        unreachable!()
    };
    value
}

/// Triple DES in CBC mode (RFC 8018, B.2.2). The parameters are an OCTET STRING, the initialization
/// vector.
pub fn des_ede3_cbc() -> ObjectIdentifierRef<'static>
    ensures { result.octets.now ≡ oid_octets (1 ∷ 2 ∷ 840 ∷ 113549 ∷ 3 ∷ 7 ∷ []) }
{
    let Some(value) = ObjectIdentifierRef::new(&[0x2A, 0x86, 0x48, 0x86, 0xF7, 0x0D, 0x03, 0x07])
    else {
        unreachable!()
    };
    value
}

/// RC2 in CBC mode (RFC 8018, B.2.3).
pub fn rc2_cbc() -> ObjectIdentifierRef<'static>
    ensures { result.octets.now ≡ oid_octets (1 ∷ 2 ∷ 840 ∷ 113549 ∷ 3 ∷ 2 ∷ []) }
{
    let Some(value) = ObjectIdentifierRef::new(&[0x2A, 0x86, 0x48, 0x86, 0xF7, 0x0D, 0x03, 0x02])
    else {
        unreachable!()
    };
    value
}

/// RC5 in CBC mode (RFC 8018, B.2.4).
pub fn rc5_cbc_pad() -> ObjectIdentifierRef<'static>
    ensures { result.octets.now ≡ oid_octets (1 ∷ 2 ∷ 840 ∷ 113549 ∷ 3 ∷ 9 ∷ []) }
{
    let Some(value) = ObjectIdentifierRef::new(&[0x2A, 0x86, 0x48, 0x86, 0xF7, 0x0D, 0x03, 0x09])
    else {
        unreachable!()
    };
    value
}

/// The arc of the AES algorithms (RFC 8018, C).
pub fn aes() -> ObjectIdentifierRef<'static>
    ensures { result.octets.now ≡ oid_octets (2 ∷ 16 ∷ 840 ∷ 1 ∷ 101 ∷ 3 ∷ 4 ∷ 1 ∷ []) }
{
    let Some(value) = ObjectIdentifierRef::new(&[0x60, 0x86, 0x48, 0x01, 0x65, 0x03, 0x04, 0x01])
    else {
        unreachable!()
    };
    value
}

/// AES in CBC mode with a key of 128 bits (RFC 8018, B.2.5). The parameters are an OCTET STRING,
/// the initialization vector.
pub fn aes128_cbc_pad() -> ObjectIdentifierRef<'static>
    ensures { result.octets.now ≡ oid_octets (2 ∷ 16 ∷ 840 ∷ 1 ∷ 101 ∷ 3 ∷ 4 ∷ 1 ∷ 2 ∷ []) }
{
    let Some(value) = ObjectIdentifierRef::new(&[
        0x60, 0x86, 0x48, 0x01, 0x65, 0x03, 0x04, 0x01, 0x02,
    ]) else {
        unreachable!()
    };
    value
}

/// AES in CBC mode with a key of 192 bits (RFC 8018, B.2.5). The parameters are an OCTET STRING,
/// the initialization vector.
pub fn aes192_cbc_pad() -> ObjectIdentifierRef<'static>
    ensures { result.octets.now ≡ oid_octets (2 ∷ 16 ∷ 840 ∷ 1 ∷ 101 ∷ 3 ∷ 4 ∷ 1 ∷ 22 ∷ []) }
{
    let Some(value) = ObjectIdentifierRef::new(&[
        0x60, 0x86, 0x48, 0x01, 0x65, 0x03, 0x04, 0x01, 0x16,
    ]) else {
        unreachable!()
    };
    value
}

/// AES in CBC mode with a key of 256 bits (RFC 8018, B.2.5). The parameters are an OCTET STRING,
/// the initialization vector.
pub fn aes256_cbc_pad() -> ObjectIdentifierRef<'static>
    ensures { result.octets.now ≡ oid_octets (2 ∷ 16 ∷ 840 ∷ 1 ∷ 101 ∷ 3 ∷ 4 ∷ 1 ∷ 42 ∷ []) }
{
    let Some(value) = ObjectIdentifierRef::new(&[
        0x60, 0x86, 0x48, 0x01, 0x65, 0x03, 0x04, 0x01, 0x2A,
    ]) else {
        unreachable!()
    };
    value
}

/// The name of an OBJECT IDENTIFIER in the ASN.1 module, or the first of several; `None` if it
/// has no name there.
pub fn name_of(oid: &ObjectIdentifierRef<'_>) -> Option<&'static str> {
    match oid.octets() {
        [0x2A, 0x86, 0x48, 0x86, 0xF7, 0x0D] => Some("rsadsi"),
        [0x2A, 0x86, 0x48, 0x86, 0xF7, 0x0D, 0x01, 0x05] => Some("pkcs-5"),
        [0x2A, 0x86, 0x48, 0x86, 0xF7, 0x0D, 0x01, 0x05, 0x0C] => Some("id-PBKDF2"),
        [0x2A, 0x86, 0x48, 0x86, 0xF7, 0x0D, 0x01, 0x05, 0x0D] => Some("id-PBES2"),
        [0x2A, 0x86, 0x48, 0x86, 0xF7, 0x0D, 0x01, 0x05, 0x0E] => Some("id-PBMAC1"),
        [0x2B, 0x06, 0x01, 0x04, 0x01, 0xDA, 0x47, 0x04, 0x0B] => Some("id-scrypt"),
        [0x2A, 0x86, 0x48, 0x86, 0xF7, 0x0D, 0x01, 0x05, 0x01] => Some("pbeWithMD2AndDES-CBC"),
        [0x2A, 0x86, 0x48, 0x86, 0xF7, 0x0D, 0x01, 0x05, 0x04] => Some("pbeWithMD2AndRC2-CBC"),
        [0x2A, 0x86, 0x48, 0x86, 0xF7, 0x0D, 0x01, 0x05, 0x03] => Some("pbeWithMD5AndDES-CBC"),
        [0x2A, 0x86, 0x48, 0x86, 0xF7, 0x0D, 0x01, 0x05, 0x06] => Some("pbeWithMD5AndRC2-CBC"),
        [0x2A, 0x86, 0x48, 0x86, 0xF7, 0x0D, 0x01, 0x05, 0x0A] => Some("pbeWithSHA1AndDES-CBC"),
        [0x2A, 0x86, 0x48, 0x86, 0xF7, 0x0D, 0x01, 0x05, 0x0B] => Some("pbeWithSHA1AndRC2-CBC"),
        [0x2A, 0x86, 0x48, 0x86, 0xF7, 0x0D, 0x02] => Some("digestAlgorithm"),
        [0x2A, 0x86, 0x48, 0x86, 0xF7, 0x0D, 0x02, 0x07] => Some("id-hmacWithSHA1"),
        [0x2A, 0x86, 0x48, 0x86, 0xF7, 0x0D, 0x02, 0x08] => Some("id-hmacWithSHA224"),
        [0x2A, 0x86, 0x48, 0x86, 0xF7, 0x0D, 0x02, 0x09] => Some("id-hmacWithSHA256"),
        [0x2A, 0x86, 0x48, 0x86, 0xF7, 0x0D, 0x02, 0x0A] => Some("id-hmacWithSHA384"),
        [0x2A, 0x86, 0x48, 0x86, 0xF7, 0x0D, 0x02, 0x0B] => Some("id-hmacWithSHA512"),
        [0x2A, 0x86, 0x48, 0x86, 0xF7, 0x0D, 0x02, 0x0C] => Some("id-hmacWithSHA512-224"),
        [0x2A, 0x86, 0x48, 0x86, 0xF7, 0x0D, 0x02, 0x0D] => Some("id-hmacWithSHA512-256"),
        [0x2B, 0x0E, 0x03, 0x02, 0x07] => Some("desCBC"),
        [0x2A, 0x86, 0x48, 0x86, 0xF7, 0x0D, 0x03] => Some("encryptionAlgorithm"),
        [0x2A, 0x86, 0x48, 0x86, 0xF7, 0x0D, 0x03, 0x07] => Some("des-EDE3-CBC"),
        [0x2A, 0x86, 0x48, 0x86, 0xF7, 0x0D, 0x03, 0x02] => Some("rc2CBC"),
        [0x2A, 0x86, 0x48, 0x86, 0xF7, 0x0D, 0x03, 0x09] => Some("rc5-CBC-PAD"),
        [0x60, 0x86, 0x48, 0x01, 0x65, 0x03, 0x04, 0x01] => Some("aes"),
        [0x60, 0x86, 0x48, 0x01, 0x65, 0x03, 0x04, 0x01, 0x02] => Some("aes128-CBC-PAD"),
        [0x60, 0x86, 0x48, 0x01, 0x65, 0x03, 0x04, 0x01, 0x16] => Some("aes192-CBC-PAD"),
        [0x60, 0x86, 0x48, 0x01, 0x65, 0x03, 0x04, 0x01, 0x2A] => Some("aes256-CBC-PAD"),
        _ => None,
    }
}
