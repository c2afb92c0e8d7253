//! Looks at the contents of a value if its tags do not show its kind.

use crate::kind::Kind;
use ber::read_element;

/// The first contents octets of every OBJECT IDENTIFIER of PKCS #5.
const PKCS5: &[u8] = &[0x2a, 0x86, 0x48, 0x86, 0xf7, 0x0d, 0x01, 0x05];

/// The first contents octets of every OBJECT IDENTIFIER of an algorithm of PKCS #12.
const PKCS12: &[u8] = &[0x2a, 0x86, 0x48, 0x86, 0xf7, 0x0d, 0x01, 0x0c, 0x01];

/// The first contents octets of every OBJECT IDENTIFIER of a content type: one item for the content
/// types of PKCS #7, and one for the content types that CMS has added.
const CONTENTS: [&[u8]; 2] = [
    &[0x2a, 0x86, 0x48, 0x86, 0xf7, 0x0d, 0x01, 0x07],
    &[0x2a, 0x86, 0x48, 0x86, 0xf7, 0x0d, 0x01, 0x09, 0x10, 0x01],
];

/// The least number of contents octets of the modulus of an RSA public key. A value with a shorter
/// modulus is not taken for an RSA public key.
const MODULUS: usize = 32;

/// The least number of contents octets of the prime in parameters of DSA or Diffie-Hellman. A value
/// with a shorter prime is not taken for parameters.
const PRIME: usize = 64;

/// The least number of contents octets of the OCTET STRING with the key in a private key of an
/// elliptic curve. A value with a shorter OCTET STRING is not taken for a private key.
const SECRET: usize = 14;

/// Whether a value, whose elements have the tags of `kind`, is likely of this kind. Several kinds
/// have the same tags, therefore this function looks at the contents. Among other rules:
///
/// - Two INTEGERs are an RSA public key if the first one is large, and if the second one is an odd
///   number from 3 on. The second one must not be 5, since 5 is a usual generator of
///   Diffie-Hellman.
/// - Two INTEGERs are Diffie-Hellman parameters if the first one is a large odd number, and if the
///   second one is a usual generator, 2 or 5.
/// - INTEGERs are DSA parameters if the first one is a large odd number, and if the second one has
///   the size of the order of a group. In X9.42 parameters, the third one has this size.
pub fn is_plausible(kind: Kind, octets: &[u8]) -> bool {
    let inside = contents(octets);
    match kind {
        Kind::RsaPublicKey => is_public_exponent(contents(second(inside)))
            && contents(inside).len() >= MODULUS,
        Kind::EcPrivateKey => contents(inside) == [1].as_slice()
            && contents(second(inside)).len() >= SECRET,
        Kind::EncryptedPrivateKey => is_encryption(contents(contents(inside))),
        Kind::TimestampResponse => matches!(contents(contents(inside)), [0..=5]),
        Kind::EcParameters => matches!(octets, [0x30, ..]),
        Kind::DsaPrivateKey => contents(inside) == [0].as_slice(),
        Kind::DsaParameters => has_prime(inside) && has_group_len(contents(second(inside))),
        Kind::X942Parameters => has_prime(inside)
            && has_group_len(contents(second(second(inside)))),
        Kind::DhParameters => has_prime(inside) && matches!(contents(second(inside)), [2 | 5]),
        _ => true,
    }
}

/// Whether an OBJECT IDENTIFIER at the front of a value shows for certain that the value is of this
/// kind. The rest of the value may be damaged.
pub fn is_certain(kind: Kind, octets: &[u8]) -> bool {
    let identifier = contents(contents(octets));
    let [own, smime] = CONTENTS;
    kind == Kind::Message && (identifier.starts_with(own) || identifier.starts_with(smime))
}

// Whether the first number is large, positive and odd.
fn has_prime(inside: &[u8]) -> bool {
    let prime = contents(inside);
    prime.len() >= PRIME
        && prime.last().copied().unwrap_or(0) % 2 == 1
        && !matches!(prime, [0x80..=0xFF, ..])
}

// Whether a number has the size of the order of a group.
fn has_group_len(number: &[u8]) -> bool {
    number.len() >= 20 && number.len() <= 65
}

// Whether these are the contents of an odd number from 3 on, but for 5, in 8 octets at most.
fn is_public_exponent(number: &[u8]) -> bool {
    let is_odd = number.last().copied().unwrap_or(0) % 2 == 1;
    is_odd && number.len() <= 8 && !matches!(number, [0 | 1 | 5 | 0x80..=0xFF] | [0x80..=0xFF, ..])
}

fn is_encryption(identifier: &[u8]) -> bool {
    identifier.starts_with(PKCS5) || identifier.starts_with(PKCS12)
}

// The contents of the element at the front; none if there is none.
fn contents(octets: &[u8]) -> &[u8] {
    match read_element(octets) {
        Ok(element) => element.contents,
        Err(_) => &[],
    }
}

// The octets after the element at the front.
fn second(octets: &[u8]) -> &[u8] {
    crate::outline::after_element(octets)
}
