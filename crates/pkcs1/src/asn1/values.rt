//! Written by asn1_compile from the module PKCS-1: change the module instead.
//!
//! The values of the module.
ghost use Rattle.std.specs.Prelude.{◌≡◌, ◌∷◌, []};
ghost use Rattle.der_asn1.specs.Arcs.{oid_octets};

use der_asn1::ObjectIdentifierRef;

/// The version of a private key with two primes (RFC 8017, A.1.2).
pub const TWO_PRIME: u64 = 0;

/// The version of a private key with more than two primes (RFC 8017, A.1.2).
pub const MULTI: u64 = 1;

/// The arc of PKCS #1 (RFC 8017, C).
pub fn pkcs_1() -> ObjectIdentifierRef<'static>
    ensures { result.octets.now ≡ oid_octets (1 ∷ 2 ∷ 840 ∷ 113549 ∷ 1 ∷ 1 ∷ []) }
{
    let Some(value) = ObjectIdentifierRef::new(&[0x2A, 0x86, 0x48, 0x86, 0xF7, 0x0D, 0x01, 0x01])
    else {
        unreachable!()
    };
    value
}

/// RSA keys (RFC 8017, A.1). The parameters are NULL.
pub fn rsa_encryption() -> ObjectIdentifierRef<'static>
    ensures { result.octets.now ≡ oid_octets (1 ∷ 2 ∷ 840 ∷ 113549 ∷ 1 ∷ 1 ∷ 1 ∷ []) }
{
    let Some(value) = ObjectIdentifierRef::new(&[
        0x2A, 0x86, 0x48, 0x86, 0xF7, 0x0D, 0x01, 0x01, 0x01,
    ]) else {
        unreachable!()
    };
    value
}

/// Encryption with RSA by OAEP (RFC 8017, A.2.1). The parameters are RSAES-OAEP-params.
pub fn id_rsaes_oaep() -> ObjectIdentifierRef<'static>
    ensures { result.octets.now ≡ oid_octets (1 ∷ 2 ∷ 840 ∷ 113549 ∷ 1 ∷ 1 ∷ 7 ∷ []) }
{
    let Some(value) = ObjectIdentifierRef::new(&[
        0x2A, 0x86, 0x48, 0x86, 0xF7, 0x0D, 0x01, 0x01, 0x07,
    ]) else {
        unreachable!()
    };
    value
}

/// The mask generation function MGF1 (RFC 8017, B.2.1). The parameters are the hash algorithm.
pub fn id_mgf1() -> ObjectIdentifierRef<'static>
    ensures { result.octets.now ≡ oid_octets (1 ∷ 2 ∷ 840 ∷ 113549 ∷ 1 ∷ 1 ∷ 8 ∷ []) }
{
    let Some(value) = ObjectIdentifierRef::new(&[
        0x2A, 0x86, 0x48, 0x86, 0xF7, 0x0D, 0x01, 0x01, 0x08,
    ]) else {
        unreachable!()
    };
    value
}

/// The source of a label that is given by its octets (RFC 8017, A.2.1): the parameters are an OCTET
/// STRING with these octets.
pub fn id_p_specified() -> ObjectIdentifierRef<'static>
    ensures { result.octets.now ≡ oid_octets (1 ∷ 2 ∷ 840 ∷ 113549 ∷ 1 ∷ 1 ∷ 9 ∷ []) }
{
    let Some(value) = ObjectIdentifierRef::new(&[
        0x2A, 0x86, 0x48, 0x86, 0xF7, 0x0D, 0x01, 0x01, 0x09,
    ]) else {
        unreachable!()
    };
    value
}

/// Signatures with RSA by PSS (RFC 8017, A.2.3). The parameters are RSASSA-PSS-params.
pub fn id_rsassa_pss() -> ObjectIdentifierRef<'static>
    ensures { result.octets.now ≡ oid_octets (1 ∷ 2 ∷ 840 ∷ 113549 ∷ 1 ∷ 1 ∷ 10 ∷ []) }
{
    let Some(value) = ObjectIdentifierRef::new(&[
        0x2A, 0x86, 0x48, 0x86, 0xF7, 0x0D, 0x01, 0x01, 0x0A,
    ]) else {
        unreachable!()
    };
    value
}

/// Signatures of PKCS #1 v1.5 with MD2 (RFC 8017, A.2.4).
pub fn md2_with_rsa_encryption() -> ObjectIdentifierRef<'static>
    ensures { result.octets.now ≡ oid_octets (1 ∷ 2 ∷ 840 ∷ 113549 ∷ 1 ∷ 1 ∷ 2 ∷ []) }
{
    let Some(value) = ObjectIdentifierRef::new(&[
        0x2A, 0x86, 0x48, 0x86, 0xF7, 0x0D, 0x01, 0x01, 0x02,
    ]) else {
        unreachable!()
    };
    value
}

/// Signatures of PKCS #1 v1.5 with MD5 (RFC 8017, A.2.4).
pub fn md5_with_rsa_encryption() -> ObjectIdentifierRef<'static>
    ensures { result.octets.now ≡ oid_octets (1 ∷ 2 ∷ 840 ∷ 113549 ∷ 1 ∷ 1 ∷ 4 ∷ []) }
{
    let Some(value) = ObjectIdentifierRef::new(&[
        0x2A, 0x86, 0x48, 0x86, 0xF7, 0x0D, 0x01, 0x01, 0x04,
    ]) else {
        unreachable!()
    };
    value
}

/// Signatures of PKCS #1 v1.5 with SHA-1 (RFC 8017, A.2.4).
pub fn sha1_with_rsa_encryption() -> ObjectIdentifierRef<'static>
    ensures { result.octets.now ≡ oid_octets (1 ∷ 2 ∷ 840 ∷ 113549 ∷ 1 ∷ 1 ∷ 5 ∷ []) }
{
    let Some(value) = ObjectIdentifierRef::new(&[
        0x2A, 0x86, 0x48, 0x86, 0xF7, 0x0D, 0x01, 0x01, 0x05,
    ]) else {
        unreachable!()
    };
    value
}

/// Signatures of PKCS #1 v1.5 with SHA-224 (RFC 8017, A.2.4).
pub fn sha224_with_rsa_encryption() -> ObjectIdentifierRef<'static>
    ensures { result.octets.now ≡ oid_octets (1 ∷ 2 ∷ 840 ∷ 113549 ∷ 1 ∷ 1 ∷ 14 ∷ []) }
{
    let Some(value) = ObjectIdentifierRef::new(&[
        0x2A, 0x86, 0x48, 0x86, 0xF7, 0x0D, 0x01, 0x01, 0x0E,
    ]) else {
        unreachable!()
    };
    value
}

/// Signatures of PKCS #1 v1.5 with SHA-256 (RFC 8017, A.2.4).
pub fn sha256_with_rsa_encryption() -> ObjectIdentifierRef<'static>
    ensures { result.octets.now ≡ oid_octets (1 ∷ 2 ∷ 840 ∷ 113549 ∷ 1 ∷ 1 ∷ 11 ∷ []) }
{
    let Some(value) = ObjectIdentifierRef::new(&[
        0x2A, 0x86, 0x48, 0x86, 0xF7, 0x0D, 0x01, 0x01, 0x0B,
    ]) else {
        unreachable!()
    };
    value
}

/// Signatures of PKCS #1 v1.5 with SHA-384 (RFC 8017, A.2.4).
pub fn sha384_with_rsa_encryption() -> ObjectIdentifierRef<'static>
    ensures { result.octets.now ≡ oid_octets (1 ∷ 2 ∷ 840 ∷ 113549 ∷ 1 ∷ 1 ∷ 12 ∷ []) }
{
    let Some(value) = ObjectIdentifierRef::new(&[
        0x2A, 0x86, 0x48, 0x86, 0xF7, 0x0D, 0x01, 0x01, 0x0C,
    ]) else {
        unreachable!()
    };
    value
}

/// Signatures of PKCS #1 v1.5 with SHA-512 (RFC 8017, A.2.4).
pub fn sha512_with_rsa_encryption() -> ObjectIdentifierRef<'static>
    ensures { result.octets.now ≡ oid_octets (1 ∷ 2 ∷ 840 ∷ 113549 ∷ 1 ∷ 1 ∷ 13 ∷ []) }
{
    let Some(value) = ObjectIdentifierRef::new(&[
        0x2A, 0x86, 0x48, 0x86, 0xF7, 0x0D, 0x01, 0x01, 0x0D,
    ]) else {
        unreachable!()
    };
    value
}

/// Signatures of PKCS #1 v1.5 with SHA-512/224 (RFC 8017, A.2.4).
pub fn sha512_224_with_rsa_encryption() -> ObjectIdentifierRef<'static>
    ensures { result.octets.now ≡ oid_octets (1 ∷ 2 ∷ 840 ∷ 113549 ∷ 1 ∷ 1 ∷ 15 ∷ []) }
{
    let Some(value) = ObjectIdentifierRef::new(&[
        0x2A, 0x86, 0x48, 0x86, 0xF7, 0x0D, 0x01, 0x01, 0x0F,
    ]) else {
        unreachable!()
    };
    value
}

/// Signatures of PKCS #1 v1.5 with SHA-512/256 (RFC 8017, A.2.4).
pub fn sha512_256_with_rsa_encryption() -> ObjectIdentifierRef<'static>
    ensures { result.octets.now ≡ oid_octets (1 ∷ 2 ∷ 840 ∷ 113549 ∷ 1 ∷ 1 ∷ 16 ∷ []) }
{
    let Some(value) = ObjectIdentifierRef::new(&[
        0x2A, 0x86, 0x48, 0x86, 0xF7, 0x0D, 0x01, 0x01, 0x10,
    ]) else {
        unreachable!()
    };
    value
}

/// The hash algorithm MD2 (RFC 8017, A.2.4).
pub fn id_md2() -> ObjectIdentifierRef<'static>
    ensures { result.octets.now ≡ oid_octets (1 ∷ 2 ∷ 840 ∷ 113549 ∷ 2 ∷ 2 ∷ []) }
{
    let Some(value) = ObjectIdentifierRef::new(&[0x2A, 0x86, 0x48, 0x86, 0xF7, 0x0D, 0x02, 0x02])
    else {
        unreachable!()
    };
    value
}

/// The hash algorithm MD5 (RFC 8017, A.2.4).
pub fn id_md5() -> ObjectIdentifierRef<'static>
    ensures { result.octets.now ≡ oid_octets (1 ∷ 2 ∷ 840 ∷ 113549 ∷ 2 ∷ 5 ∷ []) }
{
    let Some(value) = ObjectIdentifierRef::new(&[0x2A, 0x86, 0x48, 0x86, 0xF7, 0x0D, 0x02, 0x05])
    else {
        unreachable!()
    };
    value
}

/// The hash algorithm SHA-1 (RFC 8017, A.2.4).
pub fn id_sha1() -> ObjectIdentifierRef<'static>
    ensures { result.octets.now ≡ oid_octets (1 ∷ 3 ∷ 14 ∷ 3 ∷ 2 ∷ 26 ∷ []) }
{
    let Some(value) = ObjectIdentifierRef::new(&[0x2B, 0x0E, 0x03, 0x02, 0x1A]) else {
        unreachable!()
    };
    value
}

/// The arc of the hash algorithms of NIST (RFC 8017, C).
pub fn nist_hashes() -> ObjectIdentifierRef<'static>
    ensures { result.octets.now ≡ oid_octets (2 ∷ 16 ∷ 840 ∷ 1 ∷ 101 ∷ 3 ∷ 4 ∷ 2 ∷ []) }
{
    let Some(value) = ObjectIdentifierRef::new(&[0x60, 0x86, 0x48, 0x01, 0x65, 0x03, 0x04, 0x02])
    else {
        unreachable!()
    };
    value
}

/// The hash algorithm SHA-224 (RFC 8017, A.2.4).
pub fn id_sha224() -> ObjectIdentifierRef<'static>
    ensures { result.octets.now ≡ oid_octets (2 ∷ 16 ∷ 840 ∷ 1 ∷ 101 ∷ 3 ∷ 4 ∷ 2 ∷ 4 ∷ []) }
{
    let Some(value) = ObjectIdentifierRef::new(&[
        0x60, 0x86, 0x48, 0x01, 0x65, 0x03, 0x04, 0x02, 0x04,
    ]) else {
        unreachable!()
    };
    value
}

/// The hash algorithm SHA-256 (RFC 8017, A.2.4).
pub fn id_sha256() -> ObjectIdentifierRef<'static>
    ensures { result.octets.now ≡ oid_octets (2 ∷ 16 ∷ 840 ∷ 1 ∷ 101 ∷ 3 ∷ 4 ∷ 2 ∷ 1 ∷ []) }
{
    let Some(value) = ObjectIdentifierRef::new(&[
        0x60, 0x86, 0x48, 0x01, 0x65, 0x03, 0x04, 0x02, 0x01,
    ]) else {
        unreachable!()
    };
    value
}

/// The hash algorithm SHA-384 (RFC 8017, A.2.4).
pub fn id_sha384() -> ObjectIdentifierRef<'static>
    ensures { result.octets.now ≡ oid_octets (2 ∷ 16 ∷ 840 ∷ 1 ∷ 101 ∷ 3 ∷ 4 ∷ 2 ∷ 2 ∷ []) }
{
    let Some(value) = ObjectIdentifierRef::new(&[
        0x60, 0x86, 0x48, 0x01, 0x65, 0x03, 0x04, 0x02, 0x02,
    ]) else {
        unreachable!()
    };
    value
}

/// The hash algorithm SHA-512 (RFC 8017, A.2.4).
pub fn id_sha512() -> ObjectIdentifierRef<'static>
    ensures { result.octets.now ≡ oid_octets (2 ∷ 16 ∷ 840 ∷ 1 ∷ 101 ∷ 3 ∷ 4 ∷ 2 ∷ 3 ∷ []) }
{
    let Some(value) = ObjectIdentifierRef::new(&[
        0x60, 0x86, 0x48, 0x01, 0x65, 0x03, 0x04, 0x02, 0x03,
    ]) else {
        unreachable!()
    };
    value
}

/// The hash algorithm SHA-512/224 (RFC 8017, A.2.4).
pub fn id_sha512_224() -> ObjectIdentifierRef<'static>
    ensures { result.octets.now ≡ oid_octets (2 ∷ 16 ∷ 840 ∷ 1 ∷ 101 ∷ 3 ∷ 4 ∷ 2 ∷ 5 ∷ []) }
{
    let Some(value) = ObjectIdentifierRef::new(&[
        0x60, 0x86, 0x48, 0x01, 0x65, 0x03, 0x04, 0x02, 0x05,
    ]) else {
        unreachable!()
    };
    value
}

/// The hash algorithm SHA-512/256 (RFC 8017, A.2.4).
pub fn id_sha512_256() -> ObjectIdentifierRef<'static>
    ensures { result.octets.now ≡ oid_octets (2 ∷ 16 ∷ 840 ∷ 1 ∷ 101 ∷ 3 ∷ 4 ∷ 2 ∷ 6 ∷ []) }
{
    let Some(value) = ObjectIdentifierRef::new(&[
        0x60, 0x86, 0x48, 0x01, 0x65, 0x03, 0x04, 0x02, 0x06,
    ]) else {
        unreachable!()
    };
    value
}

/// The name of an OBJECT IDENTIFIER in the ASN.1 module, or the first of several; `None` if it
/// has no name there.
pub fn name_of(oid: &ObjectIdentifierRef<'_>) -> Option<&'static str> {
    match oid.octets() {
        [0x2A, 0x86, 0x48, 0x86, 0xF7, 0x0D, 0x01, 0x01] => Some("pkcs-1"),
        [0x2A, 0x86, 0x48, 0x86, 0xF7, 0x0D, 0x01, 0x01, 0x01] => Some("rsaEncryption"),
        [0x2A, 0x86, 0x48, 0x86, 0xF7, 0x0D, 0x01, 0x01, 0x07] => Some("id-RSAES-OAEP"),
        [0x2A, 0x86, 0x48, 0x86, 0xF7, 0x0D, 0x01, 0x01, 0x08] => Some("id-mgf1"),
        [0x2A, 0x86, 0x48, 0x86, 0xF7, 0x0D, 0x01, 0x01, 0x09] => Some("id-pSpecified"),
        [0x2A, 0x86, 0x48, 0x86, 0xF7, 0x0D, 0x01, 0x01, 0x0A] => Some("id-RSASSA-PSS"),
        [0x2A, 0x86, 0x48, 0x86, 0xF7, 0x0D, 0x01, 0x01, 0x02] => Some("md2WithRSAEncryption"),
        [0x2A, 0x86, 0x48, 0x86, 0xF7, 0x0D, 0x01, 0x01, 0x04] => Some("md5WithRSAEncryption"),
        [0x2A, 0x86, 0x48, 0x86, 0xF7, 0x0D, 0x01, 0x01, 0x05] => Some("sha1WithRSAEncryption"),
        [0x2A, 0x86, 0x48, 0x86, 0xF7, 0x0D, 0x01, 0x01, 0x0E] => Some("sha224WithRSAEncryption"),
        [0x2A, 0x86, 0x48, 0x86, 0xF7, 0x0D, 0x01, 0x01, 0x0B] => Some("sha256WithRSAEncryption"),
        [0x2A, 0x86, 0x48, 0x86, 0xF7, 0x0D, 0x01, 0x01, 0x0C] => Some("sha384WithRSAEncryption"),
        [0x2A, 0x86, 0x48, 0x86, 0xF7, 0x0D, 0x01, 0x01, 0x0D] => Some("sha512WithRSAEncryption"),
        [0x2A, 0x86, 0x48, 0x86, 0xF7, 0x0D, 0x01, 0x01, 0x0F] => Some(
            "sha512-224WithRSAEncryption",
        ),
        [0x2A, 0x86, 0x48, 0x86, 0xF7, 0x0D, 0x01, 0x01, 0x10] => Some(
            "sha512-256WithRSAEncryption",
        ),
        [0x2A, 0x86, 0x48, 0x86, 0xF7, 0x0D, 0x02, 0x02] => Some("id-md2"),
        [0x2A, 0x86, 0x48, 0x86, 0xF7, 0x0D, 0x02, 0x05] => Some("id-md5"),
        [0x2B, 0x0E, 0x03, 0x02, 0x1A] => Some("id-sha1"),
        [0x60, 0x86, 0x48, 0x01, 0x65, 0x03, 0x04, 0x02] => Some("nist-hashes"),
        [0x60, 0x86, 0x48, 0x01, 0x65, 0x03, 0x04, 0x02, 0x04] => Some("id-sha224"),
        [0x60, 0x86, 0x48, 0x01, 0x65, 0x03, 0x04, 0x02, 0x01] => Some("id-sha256"),
        [0x60, 0x86, 0x48, 0x01, 0x65, 0x03, 0x04, 0x02, 0x02] => Some("id-sha384"),
        [0x60, 0x86, 0x48, 0x01, 0x65, 0x03, 0x04, 0x02, 0x03] => Some("id-sha512"),
        [0x60, 0x86, 0x48, 0x01, 0x65, 0x03, 0x04, 0x02, 0x05] => Some("id-sha512-224"),
        [0x60, 0x86, 0x48, 0x01, 0x65, 0x03, 0x04, 0x02, 0x06] => Some("id-sha512-256"),
        _ => None,
    }
}
