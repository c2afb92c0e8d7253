//! Written by asn1_compile from the module SEC1: change the module instead.
//!
//! The values of the module.
ghost use Rattle.std.specs.Prelude.{◌≡◌, ◌∷◌, []};
ghost use Rattle.der_asn1.specs.Arcs.{oid_octets};

use der_asn1::ObjectIdentifierRef;

/// The version of the format of a private key (RFC 5915, 3).
pub const EC_PRIVKEY_VER1: u64 = 1;

/// The arc of ANSI X9.62 (RFC 3279, 2.3.5).
pub fn ansi_x9_62() -> ObjectIdentifierRef<'static>
    ensures { result.octets.now ≡ oid_octets (1 ∷ 2 ∷ 840 ∷ 10045 ∷ []) }
{
    let Some(value) = ObjectIdentifierRef::new(&[0x2A, 0x86, 0x48, 0xCE, 0x3D]) else {
        unreachable!()
    };
    value
}

/// Public keys of elliptic curves (RFC 5480, 2.1.1). The parameters are ECParameters.
pub fn id_ec_public_key() -> ObjectIdentifierRef<'static>
    ensures { result.octets.now ≡ oid_octets (1 ∷ 2 ∷ 840 ∷ 10045 ∷ 2 ∷ 1 ∷ []) }
{
    let Some(value) = ObjectIdentifierRef::new(&[0x2A, 0x86, 0x48, 0xCE, 0x3D, 0x02, 0x01]) else {
        unreachable!()
    };
    value
}

/// The arc of Certicom (RFC 5480, 2.1.1.1).
pub fn certicom() -> ObjectIdentifierRef<'static>
    ensures { result.octets.now ≡ oid_octets (1 ∷ 3 ∷ 132 ∷ []) }
{
    let Some(value) = ObjectIdentifierRef::new(&[0x2B, 0x81, 0x04]) else {
        unreachable!()
    };
    value
}

/// Public keys that are for ECDH only (RFC 5480, 2.1.2).
pub fn id_ec_dh() -> ObjectIdentifierRef<'static>
    ensures { result.octets.now ≡ oid_octets (1 ∷ 3 ∷ 132 ∷ 1 ∷ 12 ∷ []) }
{
    let Some(value) = ObjectIdentifierRef::new(&[0x2B, 0x81, 0x04, 0x01, 0x0C]) else {
        unreachable!()
    };
    value
}

/// Public keys that are for ECMQV only (RFC 5480, 2.1.2).
pub fn id_ec_mqv() -> ObjectIdentifierRef<'static>
    ensures { result.octets.now ≡ oid_octets (1 ∷ 3 ∷ 132 ∷ 1 ∷ 13 ∷ []) }
{
    let Some(value) = ObjectIdentifierRef::new(&[0x2B, 0x81, 0x04, 0x01, 0x0D]) else {
        unreachable!()
    };
    value
}

/// The curve P-192 (RFC 5480, 2.1.1.1).
pub fn secp192r1() -> ObjectIdentifierRef<'static>
    ensures { result.octets.now ≡ oid_octets (1 ∷ 2 ∷ 840 ∷ 10045 ∷ 3 ∷ 1 ∷ 1 ∷ []) }
{
    let Some(value) = ObjectIdentifierRef::new(&[0x2A, 0x86, 0x48, 0xCE, 0x3D, 0x03, 0x01, 0x01])
    else {
        unreachable!()
    };
    value
}

/// The curve P-224 (RFC 5480, 2.1.1.1).
pub fn secp224r1() -> ObjectIdentifierRef<'static>
    ensures { result.octets.now ≡ oid_octets (1 ∷ 3 ∷ 132 ∷ 0 ∷ 33 ∷ []) }
{
    let Some(value) = ObjectIdentifierRef::new(&[0x2B, 0x81, 0x04, 0x00, 0x21]) else {
        unreachable!()
    };
    value
}

/// The curve P-256 (RFC 5480, 2.1.1.1).
pub fn secp256r1() -> ObjectIdentifierRef<'static>
    ensures { result.octets.now ≡ oid_octets (1 ∷ 2 ∷ 840 ∷ 10045 ∷ 3 ∷ 1 ∷ 7 ∷ []) }
{
    let Some(value) = ObjectIdentifierRef::new(&[0x2A, 0x86, 0x48, 0xCE, 0x3D, 0x03, 0x01, 0x07])
    else {
        unreachable!()
    };
    value
}

/// The curve P-384 (RFC 5480, 2.1.1.1).
pub fn secp384r1() -> ObjectIdentifierRef<'static>
    ensures { result.octets.now ≡ oid_octets (1 ∷ 3 ∷ 132 ∷ 0 ∷ 34 ∷ []) }
{
    let Some(value) = ObjectIdentifierRef::new(&[0x2B, 0x81, 0x04, 0x00, 0x22]) else {
        unreachable!()
    };
    value
}

/// The curve P-521 (RFC 5480, 2.1.1.1).
pub fn secp521r1() -> ObjectIdentifierRef<'static>
    ensures { result.octets.now ≡ oid_octets (1 ∷ 3 ∷ 132 ∷ 0 ∷ 35 ∷ []) }
{
    let Some(value) = ObjectIdentifierRef::new(&[0x2B, 0x81, 0x04, 0x00, 0x23]) else {
        unreachable!()
    };
    value
}

/// The curve K-163 (RFC 5480, 2.1.1.1).
pub fn sect163k1() -> ObjectIdentifierRef<'static>
    ensures { result.octets.now ≡ oid_octets (1 ∷ 3 ∷ 132 ∷ 0 ∷ 1 ∷ []) }
{
    let Some(value) = ObjectIdentifierRef::new(&[0x2B, 0x81, 0x04, 0x00, 0x01]) else {
        unreachable!()
    };
    value
}

/// The curve B-163 (RFC 5480, 2.1.1.1).
pub fn sect163r2() -> ObjectIdentifierRef<'static>
    ensures { result.octets.now ≡ oid_octets (1 ∷ 3 ∷ 132 ∷ 0 ∷ 15 ∷ []) }
{
    let Some(value) = ObjectIdentifierRef::new(&[0x2B, 0x81, 0x04, 0x00, 0x0F]) else {
        unreachable!()
    };
    value
}

/// The curve K-233 (RFC 5480, 2.1.1.1).
pub fn sect233k1() -> ObjectIdentifierRef<'static>
    ensures { result.octets.now ≡ oid_octets (1 ∷ 3 ∷ 132 ∷ 0 ∷ 26 ∷ []) }
{
    let Some(value) = ObjectIdentifierRef::new(&[0x2B, 0x81, 0x04, 0x00, 0x1A]) else {
        unreachable!()
    };
    value
}

/// The curve B-233 (RFC 5480, 2.1.1.1).
pub fn sect233r1() -> ObjectIdentifierRef<'static>
    ensures { result.octets.now ≡ oid_octets (1 ∷ 3 ∷ 132 ∷ 0 ∷ 27 ∷ []) }
{
    let Some(value) = ObjectIdentifierRef::new(&[0x2B, 0x81, 0x04, 0x00, 0x1B]) else {
        unreachable!()
    };
    value
}

/// The curve K-283 (RFC 5480, 2.1.1.1).
pub fn sect283k1() -> ObjectIdentifierRef<'static>
    ensures { result.octets.now ≡ oid_octets (1 ∷ 3 ∷ 132 ∷ 0 ∷ 16 ∷ []) }
{
    let Some(value) = ObjectIdentifierRef::new(&[0x2B, 0x81, 0x04, 0x00, 0x10]) else {
        unreachable!()
    };
    value
}

/// The curve B-283 (RFC 5480, 2.1.1.1).
pub fn sect283r1() -> ObjectIdentifierRef<'static>
    ensures { result.octets.now ≡ oid_octets (1 ∷ 3 ∷ 132 ∷ 0 ∷ 17 ∷ []) }
{
    let Some(value) = ObjectIdentifierRef::new(&[0x2B, 0x81, 0x04, 0x00, 0x11]) else {
        unreachable!()
    };
    value
}

/// The curve K-409 (RFC 5480, 2.1.1.1).
pub fn sect409k1() -> ObjectIdentifierRef<'static>
    ensures { result.octets.now ≡ oid_octets (1 ∷ 3 ∷ 132 ∷ 0 ∷ 36 ∷ []) }
{
    let Some(value) = ObjectIdentifierRef::new(&[0x2B, 0x81, 0x04, 0x00, 0x24]) else {
        unreachable!()
    };
    value
}

/// The curve B-409 (RFC 5480, 2.1.1.1).
pub fn sect409r1() -> ObjectIdentifierRef<'static>
    ensures { result.octets.now ≡ oid_octets (1 ∷ 3 ∷ 132 ∷ 0 ∷ 37 ∷ []) }
{
    let Some(value) = ObjectIdentifierRef::new(&[0x2B, 0x81, 0x04, 0x00, 0x25]) else {
        unreachable!()
    };
    value
}

/// The curve K-571 (RFC 5480, 2.1.1.1).
pub fn sect571k1() -> ObjectIdentifierRef<'static>
    ensures { result.octets.now ≡ oid_octets (1 ∷ 3 ∷ 132 ∷ 0 ∷ 38 ∷ []) }
{
    let Some(value) = ObjectIdentifierRef::new(&[0x2B, 0x81, 0x04, 0x00, 0x26]) else {
        unreachable!()
    };
    value
}

/// The curve B-571 (RFC 5480, 2.1.1.1).
pub fn sect571r1() -> ObjectIdentifierRef<'static>
    ensures { result.octets.now ≡ oid_octets (1 ∷ 3 ∷ 132 ∷ 0 ∷ 39 ∷ []) }
{
    let Some(value) = ObjectIdentifierRef::new(&[0x2B, 0x81, 0x04, 0x00, 0x27]) else {
        unreachable!()
    };
    value
}

/// The curve secp256k1 (SEC 2, 2.4.1).
pub fn secp256k1() -> ObjectIdentifierRef<'static>
    ensures { result.octets.now ≡ oid_octets (1 ∷ 3 ∷ 132 ∷ 0 ∷ 10 ∷ []) }
{
    let Some(value) = ObjectIdentifierRef::new(&[0x2B, 0x81, 0x04, 0x00, 0x0A]) else {
        unreachable!()
    };
    value
}

/// ECDSA with SHA-1 (RFC 3279, 2.2.3).
pub fn ecdsa_with_sha1() -> ObjectIdentifierRef<'static>
    ensures { result.octets.now ≡ oid_octets (1 ∷ 2 ∷ 840 ∷ 10045 ∷ 4 ∷ 1 ∷ []) }
{
    let Some(value) = ObjectIdentifierRef::new(&[0x2A, 0x86, 0x48, 0xCE, 0x3D, 0x04, 0x01]) else {
        unreachable!()
    };
    value
}

/// ECDSA with SHA-224 (RFC 5758, 3.2).
pub fn ecdsa_with_sha224() -> ObjectIdentifierRef<'static>
    ensures { result.octets.now ≡ oid_octets (1 ∷ 2 ∷ 840 ∷ 10045 ∷ 4 ∷ 3 ∷ 1 ∷ []) }
{
    let Some(value) = ObjectIdentifierRef::new(&[0x2A, 0x86, 0x48, 0xCE, 0x3D, 0x04, 0x03, 0x01])
    else {
        unreachable!()
    };
    value
}

/// ECDSA with SHA-256 (RFC 5758, 3.2).
pub fn ecdsa_with_sha256() -> ObjectIdentifierRef<'static>
    ensures { result.octets.now ≡ oid_octets (1 ∷ 2 ∷ 840 ∷ 10045 ∷ 4 ∷ 3 ∷ 2 ∷ []) }
{
    let Some(value) = ObjectIdentifierRef::new(&[0x2A, 0x86, 0x48, 0xCE, 0x3D, 0x04, 0x03, 0x02])
    else {
        unreachable!()
    };
    value
}

/// ECDSA with SHA-384 (RFC 5758, 3.2).
pub fn ecdsa_with_sha384() -> ObjectIdentifierRef<'static>
    ensures { result.octets.now ≡ oid_octets (1 ∷ 2 ∷ 840 ∷ 10045 ∷ 4 ∷ 3 ∷ 3 ∷ []) }
{
    let Some(value) = ObjectIdentifierRef::new(&[0x2A, 0x86, 0x48, 0xCE, 0x3D, 0x04, 0x03, 0x03])
    else {
        unreachable!()
    };
    value
}

/// ECDSA with SHA-512 (RFC 5758, 3.2).
pub fn ecdsa_with_sha512() -> ObjectIdentifierRef<'static>
    ensures { result.octets.now ≡ oid_octets (1 ∷ 2 ∷ 840 ∷ 10045 ∷ 4 ∷ 3 ∷ 4 ∷ []) }
{
    let Some(value) = ObjectIdentifierRef::new(&[0x2A, 0x86, 0x48, 0xCE, 0x3D, 0x04, 0x03, 0x04])
    else {
        unreachable!()
    };
    value
}

/// The type of a field with a prime number of elements (RFC 3279, 2.3.5). The parameter is a
/// Prime-p.
pub fn prime_field() -> ObjectIdentifierRef<'static>
    ensures { result.octets.now ≡ oid_octets (1 ∷ 2 ∷ 840 ∷ 10045 ∷ 1 ∷ 1 ∷ []) }
{
    let Some(value) = ObjectIdentifierRef::new(&[0x2A, 0x86, 0x48, 0xCE, 0x3D, 0x01, 0x01]) else {
        unreachable!()
    };
    value
}

/// The type of a field with 2^m elements (RFC 3279, 2.3.5). The parameter is a Characteristic-two.
pub fn characteristic_two_field() -> ObjectIdentifierRef<'static>
    ensures { result.octets.now ≡ oid_octets (1 ∷ 2 ∷ 840 ∷ 10045 ∷ 1 ∷ 2 ∷ []) }
{
    let Some(value) = ObjectIdentifierRef::new(&[0x2A, 0x86, 0x48, 0xCE, 0x3D, 0x01, 0x02]) else {
        unreachable!()
    };
    value
}

/// The kind of a normal basis (RFC 3279, 2.3.5). The parameters are NULL.
pub fn gn_basis() -> ObjectIdentifierRef<'static>
    ensures { result.octets.now ≡ oid_octets (1 ∷ 2 ∷ 840 ∷ 10045 ∷ 1 ∷ 2 ∷ 3 ∷ 1 ∷ []) }
{
    let Some(value) = ObjectIdentifierRef::new(&[
        0x2A, 0x86, 0x48, 0xCE, 0x3D, 0x01, 0x02, 0x03, 0x01,
    ]) else {
        unreachable!()
    };
    value
}

/// The kind of a basis that a trinomial gives (RFC 3279, 2.3.5). The parameter is a Trinomial.
pub fn tp_basis() -> ObjectIdentifierRef<'static>
    ensures { result.octets.now ≡ oid_octets (1 ∷ 2 ∷ 840 ∷ 10045 ∷ 1 ∷ 2 ∷ 3 ∷ 2 ∷ []) }
{
    let Some(value) = ObjectIdentifierRef::new(&[
        0x2A, 0x86, 0x48, 0xCE, 0x3D, 0x01, 0x02, 0x03, 0x02,
    ]) else {
        unreachable!()
    };
    value
}

/// The kind of a basis that a pentanomial gives (RFC 3279, 2.3.5). The parameter is a Pentanomial.
pub fn pp_basis() -> ObjectIdentifierRef<'static>
    ensures { result.octets.now ≡ oid_octets (1 ∷ 2 ∷ 840 ∷ 10045 ∷ 1 ∷ 2 ∷ 3 ∷ 3 ∷ []) }
{
    let Some(value) = ObjectIdentifierRef::new(&[
        0x2A, 0x86, 0x48, 0xCE, 0x3D, 0x01, 0x02, 0x03, 0x03,
    ]) else {
        unreachable!()
    };
    value
}

/// DSA keys (RFC 3279, 2.3.2). The parameters are Dss-Parms.
pub fn id_dsa() -> ObjectIdentifierRef<'static>
    ensures { result.octets.now ≡ oid_octets (1 ∷ 2 ∷ 840 ∷ 10040 ∷ 4 ∷ 1 ∷ []) }
{
    let Some(value) = ObjectIdentifierRef::new(&[0x2A, 0x86, 0x48, 0xCE, 0x38, 0x04, 0x01]) else {
        unreachable!()
    };
    value
}

/// DSA with SHA-1 (RFC 3279, 2.2.2).
pub fn id_dsa_with_sha1() -> ObjectIdentifierRef<'static>
    ensures { result.octets.now ≡ oid_octets (1 ∷ 2 ∷ 840 ∷ 10040 ∷ 4 ∷ 3 ∷ []) }
{
    let Some(value) = ObjectIdentifierRef::new(&[0x2A, 0x86, 0x48, 0xCE, 0x38, 0x04, 0x03]) else {
        unreachable!()
    };
    value
}

/// The arc of the signature algorithms of NIST (RFC 5758, 3.1).
pub fn nist_signatures() -> ObjectIdentifierRef<'static>
    ensures { result.octets.now ≡ oid_octets (2 ∷ 16 ∷ 840 ∷ 1 ∷ 101 ∷ 3 ∷ 4 ∷ 3 ∷ []) }
{
    let Some(value) = ObjectIdentifierRef::new(&[0x60, 0x86, 0x48, 0x01, 0x65, 0x03, 0x04, 0x03])
    else {
        unreachable!()
    };
    value
}

/// DSA with SHA-224 (RFC 5758, 3.1).
pub fn id_dsa_with_sha224() -> ObjectIdentifierRef<'static>
    ensures { result.octets.now ≡ oid_octets (2 ∷ 16 ∷ 840 ∷ 1 ∷ 101 ∷ 3 ∷ 4 ∷ 3 ∷ 1 ∷ []) }
{
    let Some(value) = ObjectIdentifierRef::new(&[
        0x60, 0x86, 0x48, 0x01, 0x65, 0x03, 0x04, 0x03, 0x01,
    ]) else {
        unreachable!()
    };
    value
}

/// DSA with SHA-256 (RFC 5758, 3.1).
pub fn id_dsa_with_sha256() -> ObjectIdentifierRef<'static>
    ensures { result.octets.now ≡ oid_octets (2 ∷ 16 ∷ 840 ∷ 1 ∷ 101 ∷ 3 ∷ 4 ∷ 3 ∷ 2 ∷ []) }
{
    let Some(value) = ObjectIdentifierRef::new(&[
        0x60, 0x86, 0x48, 0x01, 0x65, 0x03, 0x04, 0x03, 0x02,
    ]) else {
        unreachable!()
    };
    value
}

/// The name of an OBJECT IDENTIFIER in the ASN.1 module, or the first of several; `None` if it
/// has no name there.
pub fn name_of(oid: &ObjectIdentifierRef<'_>) -> Option<&'static str> {
    match oid.octets() {
        [0x2A, 0x86, 0x48, 0xCE, 0x3D] => Some("ansi-X9-62"),
        [0x2A, 0x86, 0x48, 0xCE, 0x3D, 0x02, 0x01] => Some("id-ecPublicKey"),
        [0x2B, 0x81, 0x04] => Some("certicom"),
        [0x2B, 0x81, 0x04, 0x01, 0x0C] => Some("id-ecDH"),
        [0x2B, 0x81, 0x04, 0x01, 0x0D] => Some("id-ecMQV"),
        [0x2A, 0x86, 0x48, 0xCE, 0x3D, 0x03, 0x01, 0x01] => Some("secp192r1"),
        [0x2B, 0x81, 0x04, 0x00, 0x21] => Some("secp224r1"),
        [0x2A, 0x86, 0x48, 0xCE, 0x3D, 0x03, 0x01, 0x07] => Some("secp256r1"),
        [0x2B, 0x81, 0x04, 0x00, 0x22] => Some("secp384r1"),
        [0x2B, 0x81, 0x04, 0x00, 0x23] => Some("secp521r1"),
        [0x2B, 0x81, 0x04, 0x00, 0x01] => Some("sect163k1"),
        [0x2B, 0x81, 0x04, 0x00, 0x0F] => Some("sect163r2"),
        [0x2B, 0x81, 0x04, 0x00, 0x1A] => Some("sect233k1"),
        [0x2B, 0x81, 0x04, 0x00, 0x1B] => Some("sect233r1"),
        [0x2B, 0x81, 0x04, 0x00, 0x10] => Some("sect283k1"),
        [0x2B, 0x81, 0x04, 0x00, 0x11] => Some("sect283r1"),
        [0x2B, 0x81, 0x04, 0x00, 0x24] => Some("sect409k1"),
        [0x2B, 0x81, 0x04, 0x00, 0x25] => Some("sect409r1"),
        [0x2B, 0x81, 0x04, 0x00, 0x26] => Some("sect571k1"),
        [0x2B, 0x81, 0x04, 0x00, 0x27] => Some("sect571r1"),
        [0x2B, 0x81, 0x04, 0x00, 0x0A] => Some("secp256k1"),
        [0x2A, 0x86, 0x48, 0xCE, 0x3D, 0x04, 0x01] => Some("ecdsa-with-SHA1"),
        [0x2A, 0x86, 0x48, 0xCE, 0x3D, 0x04, 0x03, 0x01] => Some("ecdsa-with-SHA224"),
        [0x2A, 0x86, 0x48, 0xCE, 0x3D, 0x04, 0x03, 0x02] => Some("ecdsa-with-SHA256"),
        [0x2A, 0x86, 0x48, 0xCE, 0x3D, 0x04, 0x03, 0x03] => Some("ecdsa-with-SHA384"),
        [0x2A, 0x86, 0x48, 0xCE, 0x3D, 0x04, 0x03, 0x04] => Some("ecdsa-with-SHA512"),
        [0x2A, 0x86, 0x48, 0xCE, 0x3D, 0x01, 0x01] => Some("prime-field"),
        [0x2A, 0x86, 0x48, 0xCE, 0x3D, 0x01, 0x02] => Some("characteristic-two-field"),
        [0x2A, 0x86, 0x48, 0xCE, 0x3D, 0x01, 0x02, 0x03, 0x01] => Some("gnBasis"),
        [0x2A, 0x86, 0x48, 0xCE, 0x3D, 0x01, 0x02, 0x03, 0x02] => Some("tpBasis"),
        [0x2A, 0x86, 0x48, 0xCE, 0x3D, 0x01, 0x02, 0x03, 0x03] => Some("ppBasis"),
        [0x2A, 0x86, 0x48, 0xCE, 0x38, 0x04, 0x01] => Some("id-dsa"),
        [0x2A, 0x86, 0x48, 0xCE, 0x38, 0x04, 0x03] => Some("id-dsa-with-sha1"),
        [0x60, 0x86, 0x48, 0x01, 0x65, 0x03, 0x04, 0x03] => Some("nist-signatures"),
        [0x60, 0x86, 0x48, 0x01, 0x65, 0x03, 0x04, 0x03, 0x01] => Some("id-dsa-with-sha224"),
        [0x60, 0x86, 0x48, 0x01, 0x65, 0x03, 0x04, 0x03, 0x02] => Some("id-dsa-with-sha256"),
        _ => None,
    }
}
