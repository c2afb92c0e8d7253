//! Prints public keys.

use crate::algorithm::put_parameters;
use crate::fingerprint::put_fingerprints;
use crate::inside::{held, held_base, read_held};
use crate::keys::{
    curve_bits, first_of, put_dh_numbers, put_dsa_numbers, put_ec_parameters, put_rsa_numbers,
};
use crate::page::Page;
use crate::text::{bit_count, put_octets_with};
use crate::values::{bit_octets, contents, put_identifier_of, put_long};
use ber::{Universal, read_element};
use schema_cursor::Cursor;
use schema_kinds::RSA_PUBLIC_KEY;

/// The algorithms of public keys. The program can find the size of a key for all of them but
/// `Other`.
#[derive(Clone, Copy, PartialEq, Eq)]
pub enum KeyKind {
    /// RSA. The algorithms RSASSA-PSS and RSAES-OAEP have RSA keys too.
    Rsa,
    /// A key on an elliptic curve. The parameters give the curve.
    Ec,
    /// DSA. The parameters are the numbers p, q and g.
    Dsa,
    /// Diffie-Hellman. The parameters begin with a prime.
    Dh,
    /// Any other algorithm. The size of its keys is not known.
    Other,
}

/// The kind of key that an algorithm has. `identifier` are the contents octets of the OBJECT
/// IDENTIFIER of the algorithm.
pub fn kind_of(identifier: &[u8]) -> KeyKind {
    match identifier {
        [0x2a, 0x86, 0x48, 0x86, 0xf7, 0x0d, 0x01, 0x01, 1 | 7 | 10] => KeyKind::Rsa,
        [0x2a, 0x86, 0x48, 0xce, 0x3d, 0x02, 0x01] => KeyKind::Ec,
        [0x2b, 0x81, 0x04, 0x01, 12 | 13] => KeyKind::Ec,
        [0x2a, 0x86, 0x48, 0xce, 0x38, 0x04, 0x01] => KeyKind::Dsa,
        [0x2a, 0x86, 0x48, 0x86, 0xf7, 0x0d, 0x01, 0x03, 0x01] => KeyKind::Dh,
        [0x2a, 0x86, 0x48, 0xce, 0x3e, 0x02, 0x01] => KeyKind::Dh,
        _ => KeyKind::Other,
    }
}

/// Prints the lines of a SubjectPublicKeyInfo: the algorithm, the size of the key, the curve or the
/// parameters, the key itself, and its fingerprints.
pub fn put_public_key(page: &mut Page<'_>, key: Cursor<'_>) {
    put_key_fields(page, key);
    put_fingerprints(page, "Key ", key);
}

fn put_key_fields(page: &mut Page<'_>, key: Cursor<'_>) {
    let (Some(algorithm), Some(bits)) = (key.at("algorithm"), key.at("subjectPublicKey")) else {
        return;
    };
    let Some(identifier) = algorithm.at("algorithm") else {
        return;
    };
    page.at(algorithm);
    page.put("Public Key Algorithm: ");
    put_identifier_of(page, identifier);
    page.end();
    let parameters = algorithm.at("parameters");
    let kind = kind_of(contents(identifier));
    if kind == KeyKind::Rsa {
        put_parameters(page, algorithm);
        put_rsa_bits(page, bits);
        return;
    }
    put_size(page, kind, parameters, bits);
    match (kind, read_element(held(bits))) {
        (KeyKind::Dsa | KeyKind::Dh, Ok(number))
            if number.header.universal() == Some(Universal::Integer) => {
            put_key_octets(page, bits, number.contents);
        }
        _ => put_key_octets(page, bits, bit_octets(bits)),
    }
    put_key_parameters(page, kind, parameters);
}

/// Prints `; ` and the algorithm of a SubjectPublicKeyInfo. If the size of the key is known, prints
/// it in bits. Does not end the line.
pub fn put_short_key(page: &mut Page<'_>, key: Cursor<'_>) {
    let Some(identifier) = key.at("algorithm.algorithm") else {
        return;
    };
    page.put("; ");
    put_long(page, contents(identifier));
    let kind = kind_of(contents(identifier));
    let size = match kind {
        KeyKind::Rsa => modulus_bits(page, key),
        _ => size_of(kind, key.at("algorithm.parameters")),
    };
    if let Some(size) = size {
        page.put(" ");
        page.number(size);
        page.put(" bit");
    }
}

// The bits of the modulus of a key of RSA.
fn modulus_bits(page: &mut Page<'_>, key: Cursor<'_>) -> Option<u64> {
    let octets = held(key.at("subjectPublicKey")?);
    let tree = read_held(page, RSA_PUBLIC_KEY, octets)?;
    let root = Cursor::root(octets, page.schema, &tree)?;
    Some(bit_count(contents(root.at("modulus")?)))
}

// The line with the size of a key: the bits of the curve's order or of the prime p, or the octets of the key.
fn put_size(page: &mut Page<'_>, kind: KeyKind, parameters: Option<Cursor<'_>>, bits: Cursor<'_>) {
    page.at(bits);
    page.put("Public-Key");
    match size_of(kind, parameters) {
        Some(size) => {
            page.put(": (");
            page.number(size);
            page.put(" bit)");
        }
        None => {
            page.put(": ");
            page.number(bit_octets(bits).len() as u64);
            page.put(" octets");
        }
    }
    page.end();
}

/// The size of a key in bits, if the parameters of its algorithm give it. For an elliptic curve, it
/// is the size of the order of the curve. For DSA and Diffie-Hellman, it is the size of the prime
/// p. `None` if the parameters do not give the size. `None` for any other algorithm, also for RSA.
pub fn size_of(kind: KeyKind, parameters: Option<Cursor<'_>>) -> Option<u64> {
    let parameters = parameters?;
    match kind {
        KeyKind::Ec => curve_bits(parameters),
        KeyKind::Dsa | KeyKind::Dh => {
            let prime = first_of(parameters, "prime", "p")?;
            Some(bit_count(contents(prime)))
        }
        _ => None,
    }
}

/// Prints the lines of the parameters of a key: the curve, or the numbers of DSA or Diffie-Hellman.
pub fn put_key_parameters(page: &mut Page<'_>, kind: KeyKind, parameters: Option<Cursor<'_>>) {
    if let Some(parameters) = parameters {
        match kind {
            KeyKind::Ec => put_ec_parameters(page, parameters),
            KeyKind::Dsa => put_dsa_numbers(page, parameters),
            KeyKind::Dh => put_dh_numbers(page, parameters),
            _ => {}
        }
    }
}

// The octets of a key.
fn put_key_octets(page: &mut Page<'_>, bits: Cursor<'_>, octets: &[u8]) {
    page.at(bits);
    page.put("pub: ");
    put_octets_with(&mut page.out, octets, false);
    page.end();
}

// The numbers of an RSAPublicKey in a BIT STRING, or the octets if it holds none.
fn put_rsa_bits(page: &mut Page<'_>, bits: Cursor<'_>) {
    let octets = held(bits);
    if let Some(tree) = read_held(page, RSA_PUBLIC_KEY, octets) {
        if let Some(key) = Cursor::root(octets, page.schema, &tree) {
            page.at(bits);
            let kept = page.base;
            page.base = held_base(page, bits);
            put_rsa_numbers(page, key);
            page.base = kept;
            return;
        }
    }
    put_size(page, KeyKind::Other, None, bits);
    put_key_octets(page, bits, bit_octets(bits));
}
