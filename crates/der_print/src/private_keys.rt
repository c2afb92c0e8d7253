//! Prints private keys. The secret octets of a key are not printed.

use crate::inside::{held, held_base, read_held};
use crate::keys::{put_dsa_numbers, put_exponent, put_number};
use crate::page::Page;
use crate::public_key::{KeyKind, kind_of, put_key_parameters, size_of};
use crate::request::put_attributes;
use crate::text::{bit_count, put_octets_with};
use crate::title::version_line;
use crate::values::{bit_octets, contents, items, put_identifier_of, small};
use ber::{Universal, read_element};
use schema_cursor::Cursor;
use schema_kinds::{EC_PRIVATE_KEY, RSA_PRIVATE_KEY};

/// Prints the lines of a PrivateKeyInfo (RFC 5958, 2).
pub fn put_private_key(page: &mut Page<'_>, key: Cursor<'_>) {
    let version = key.at("version");
    if version.is_some() {
        version_line(page, version);
    }
    let (Some(algorithm), Some(secret)) = (key.at("privateKeyAlgorithm"), key.at("privateKey"))
    else {
        return;
    };
    let Some(identifier) = algorithm.at("algorithm") else {
        return;
    };
    page.at(algorithm);
    page.put("Private Key Algorithm: ");
    put_identifier_of(page, identifier);
    page.end();
    let kind = kind_of(contents(identifier));
    put_secret(page, kind, algorithm.at("parameters"), secret);
    if let Some(attributes) = key.at("attributes") {
        put_attributes(page, attributes);
    }
    if let Some(bits) = key.at("publicKey") {
        put_public_octets(page, bits);
        if version.is_some_and(|number| small(number) == Some(0)) {
            page.line_beside("Warning: a public key in version 1 (RFC 5958, 2)");
        }
    }
}

// The size of a key, its parameters, and what of it is public.
fn put_secret(
    page: &mut Page<'_>,
    kind: KeyKind,
    parameters: Option<Cursor<'_>>,
    secret: Cursor<'_>,
) {
    let node = match kind {
        KeyKind::Rsa => Some(RSA_PRIVATE_KEY),
        KeyKind::Ec => Some(EC_PRIVATE_KEY),
        _ => None,
    };
    if let Some(node) = node {
        if put_held_key(page, node, parameters, secret) {
            return;
        }
    }
    put_hidden(page, kind, parameters, secret, secret_len(kind, secret));
    put_key_parameters(page, kind, parameters);
}

// How many octets a key has. By RFC 8410, 7 the octets of a key are those of an OCTET STRING inside.
fn secret_len(kind: KeyKind, secret: Cursor<'_>) -> usize {
    match read_element(held(secret)) {
        Ok(inner)
            if kind == KeyKind::Other
                && inner.header.universal() == Some(Universal::OctetString)
                && !inner.header.constructed
                && inner.rest.is_empty() => { inner.contents.len() }
        _ => contents(secret).len(),
    }
}

// Prints the key that an OCTET STRING holds, and returns true if it holds one of this type.
fn put_held_key(
    page: &mut Page<'_>,
    node: u32,
    parameters: Option<Cursor<'_>>,
    secret: Cursor<'_>,
) -> bool {
    let octets = held(secret);
    let Some(tree) = read_held(page, node, octets) else {
        return false;
    };
    let Some(key) = Cursor::root(octets, page.schema, &tree) else {
        return false;
    };
    let (kept, base) = (page.base, held_base(page, secret));
    if node == RSA_PRIVATE_KEY {
        page.base = base;
        put_rsa_private_key(page, key);
        page.base = kept;
    } else {
        put_ec_secret(page, parameters, key, base);
    }
    true
}

// The line of a key of which nothing is printed but the size.
fn put_hidden(
    page: &mut Page<'_>,
    kind: KeyKind,
    parameters: Option<Cursor<'_>>,
    secret: Cursor<'_>,
    len: usize,
) {
    page.at(secret);
    page.put("Private-Key: ");
    match size_of(kind, parameters) {
        Some(bits) => {
            page.put("(");
            page.number(bits);
            page.put(" bit), not shown");
        }
        None => {
            page.number(len as u64);
            page.put(" octets, not shown");
        }
    }
    page.end();
}

// How many values a list has.
fn count(list: Cursor<'_>) -> u64 {
    let mut count = 0u64;
    for _ in items(list) {
        count = count.saturating_add(1);
    }
    count
}

/// Prints the lines of an RSAPrivateKey (RFC 8017, A.1.2): the modulus and the public exponent. The
/// secret numbers are not printed.
pub fn put_rsa_private_key(page: &mut Page<'_>, key: Cursor<'_>) {
    let (Some(version), Some(modulus)) = (key.at("version"), key.at("modulus")) else {
        return;
    };
    let more = match key.at("otherPrimeInfos") {
        Some(primes) => count(primes),
        None => 0,
    };
    page.at(key);
    page.put("Private-Key: (");
    page.number(bit_count(contents(modulus)));
    page.put(" bit, ");
    page.number(more.saturating_add(2));
    page.put(" primes), not shown");
    page.end();
    if small(version) != Some(0) {
        page.at(version);
        page.put("Version: ");
        page.number(small(version).unwrap_or(0));
        page.end();
    }
    put_number(page, "modulus: ", Some(modulus));
    put_exponent(page, "publicExponent: ", key.at("publicExponent"));
}

/// Prints the lines of an ECPrivateKey (RFC 5915, 3).
pub fn put_ec_private_key(page: &mut Page<'_>, key: Cursor<'_>) {
    let base = page.base;
    put_ec_secret(page, None, key, base);
}

// `parameters` are those of the algorithm of the key, which the key itself may repeat. The octets of the key
// begin at `base`.
fn put_ec_secret(
    page: &mut Page<'_>,
    parameters: Option<Cursor<'_>>,
    key: Cursor<'_>,
    base: usize,
) {
    let Some(secret) = key.at("privateKey") else {
        return;
    };
    let own = key.at("parameters");
    let curve = if own.is_some() { own } else { parameters };
    let kept = page.base;
    page.base = base;
    put_hidden(page, KeyKind::Ec, curve, secret, contents(secret).len());
    if let Some(bits) = key.at("publicKey") {
        put_public_octets(page, bits);
    }
    if own.is_none() {
        page.base = kept;
    }
    put_key_parameters(page, KeyKind::Ec, curve);
    page.base = kept;
}

fn put_public_octets(page: &mut Page<'_>, bits: Cursor<'_>) {
    page.at(bits.untagged());
    page.put("pub: ");
    put_octets_with(&mut page.out, bit_octets(bits), false);
    page.end();
}

/// Prints the lines of a DSA private key that is in the format of openssl. The secret number is not
/// printed.
pub fn put_dsa_private_key(page: &mut Page<'_>, key: Cursor<'_>) {
    if let Some(secret) = key.at("privateKey") {
        put_hidden(
            page,
            KeyKind::Dsa,
            Some(key),
            secret,
            contents(secret).len(),
        );
    }
    put_number(page, "pub: ", key.at("publicKey"));
    put_dsa_numbers(page, key);
}
