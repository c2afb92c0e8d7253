//! Prints the numbers and the parameters of keys.

use crate::curves::CURVES;
use crate::page::Page;
use crate::text::{bit_count, is_hexadecimal_of, put_integer, put_octets_with};
use crate::values::{contents, is_of, put_identifier_of, put_long, small};
use ber::Universal;
use schema_cursor::Cursor;
use std::fmt::Write;

/// Prints the size, the modulus and the exponent of an RSAPublicKey (RFC 8017, A.1.1). The caller
/// has already begun the first line.
pub fn put_rsa_numbers(page: &mut Page<'_>, key: Cursor<'_>) {
    if let Some(modulus) = key.at("modulus") {
        page.put("Public-Key: (");
        page.number(bit_count(contents(modulus)));
        page.put(" bit)");
        page.end();
        put_number(page, "Modulus: ", Some(modulus));
    } else {
        page.put("Public-Key:");
        page.end();
    }
    put_exponent(page, "Exponent: ", key.at("publicExponent"));
}

/// Prints the lines of an RSAPublicKey that is a file of its own, and not inside a BIT STRING.
pub fn put_rsa_public_key(page: &mut Page<'_>, key: Cursor<'_>) {
    page.at(key);
    put_rsa_numbers(page, key);
}

/// Prints a line with `title`, and the contents octets of an INTEGER in hexadecimal. Prints nothing
/// if `number` is `None`.
pub fn put_number(page: &mut Page<'_>, title: &str, number: Option<Cursor<'_>>) {
    if let Some(number) = number {
        page.at(number);
        page.put(title);
        put_octets_with(&mut page.out, contents(number), false);
        page.end();
    }
}

/// Prints a line with `title`, and an INTEGER in decimal and hexadecimal. An INTEGER that is
/// negative, or 2^53 or more, is printed only in hexadecimal. Prints nothing if `number` is `None`.
pub fn put_exponent(page: &mut Page<'_>, title: &str, number: Option<Cursor<'_>>) {
    let Some(number) = number else {
        return;
    };
    page.at(number);
    page.put(title);
    match small(number) {
        Some(value) => {
            let _ = write!(page.out, "{value} ({value:#x})");
        }
        None => put_integer(&mut page.out, contents(number)),
    }
    page.end();
}

// What the table of curves says of the one with these contents of its identifier: the bits of its order,
// and the name of NIST or `-`.
fn curve_of(identifier: &[u8]) -> Option<(&'static str, &'static str)> {
    for line in CURVES.lines() {
        if let Some((digits, words)) = line.split_once(' ') {
            if is_hexadecimal_of(digits.as_bytes(), identifier) {
                return words.split_once(' ');
            }
        }
    }
    None
}

/// The number of bits of the order of an elliptic curve. `parameters` give the name of the curve,
/// or its order. `None` if the name is unknown, or if they give neither.
pub fn curve_bits(parameters: Cursor<'_>) -> Option<u64> {
    if is_of(parameters, Universal::ObjectIdentifier) {
        let (bits, _) = curve_of(contents(parameters))?;
        return bits.parse::<u64>().ok();
    }
    Some(bit_count(contents(parameters.at("order")?)))
}

/// Prints lines with the elliptic curve that `parameters` give. If they give a name, prints the
/// names of the curve; otherwise prints the kind of its field, and its numbers.
pub fn put_ec_parameters(page: &mut Page<'_>, parameters: Cursor<'_>) {
    page.at(parameters);
    if is_of(parameters, Universal::ObjectIdentifier) {
        page.put("ASN1 OID: ");
        put_identifier_of(page, parameters);
        page.end();
        if let Some((_, nist)) = curve_of(contents(parameters)) {
            if nist != "-" {
                page.at(parameters);
                page.put("NIST CURVE: ");
                page.put(nist);
                page.end();
            }
        }
    } else if is_of(parameters, Universal::Null) {
        page.put("Curve: implicit");
        page.end();
    } else {
        page.put("Field Type: ");
        if let Some(field) = parameters.at("fieldID.fieldType") {
            put_long(page, contents(field));
        }
        page.end();
        put_curve_numbers(page, parameters);
    }
}

// The numbers of a curve without a name, in the words of openssl; a polynomial of its field is left out.
fn put_curve_numbers(page: &mut Page<'_>, parameters: Cursor<'_>) {
    match parameters.at("fieldID.parameters") {
        Some(prime) if is_of(prime, Universal::Integer) => put_number(page, "Prime: ", Some(prime)),
        _ => {}
    }
    for (title, path) in [
        ("A: ", "curve.a"),
        ("B: ", "curve.b"),
        ("Generator: ", "base"),
        ("Order: ", "order"),
    ] {
        put_number(page, title, parameters.at(path));
    }
    put_exponent(page, "Cofactor: ", parameters.at("cofactor"));
}

/// Prints lines with the numbers p, q and g of DSA parameters (RFC 3279, 2.3.2).
pub fn put_dsa_numbers(page: &mut Page<'_>, parameters: Cursor<'_>) {
    put_number(page, "P: ", parameters.at("p"));
    put_number(page, "Q: ", parameters.at("q"));
    put_number(page, "G: ", parameters.at("g"));
}

/// Prints DSA parameters that are a file of their own: the size of the prime p, and p, q and g.
pub fn put_dsa_parameters(page: &mut Page<'_>, parameters: Cursor<'_>) {
    put_prime_size(page, "DSA-Parameters: (", parameters, parameters.at("p"));
    put_dsa_numbers(page, parameters);
}

fn put_prime_size(page: &mut Page<'_>, title: &str, around: Cursor<'_>, prime: Option<Cursor<'_>>) {
    if let Some(prime) = prime {
        page.at(around);
        page.put(title);
        page.number(bit_count(contents(prime)));
        page.put(" bit)");
        page.end();
    }
}

/// Prints lines with the prime and the generator of Diffie-Hellman parameters.
pub fn put_dh_numbers(page: &mut Page<'_>, parameters: Cursor<'_>) {
    put_number(page, "P: ", first_of(parameters, "prime", "p"));
    put_exponent(page, "G: ", first_of(parameters, "base", "g"));
}

/// Prints Diffie-Hellman parameters that are a file of their own: the size of the prime, the prime
/// and the generator.
pub fn put_dh_parameters(page: &mut Page<'_>, parameters: Cursor<'_>) {
    let prime = first_of(parameters, "prime", "p");
    put_prime_size(page, "DH Parameters: (", parameters, prime);
    put_dh_numbers(page, parameters);
}

/// The field of `element` with the name `one`. If there is no such field, the field with the name
/// `other`.
pub fn first_of<'a>(element: Cursor<'a>, one: &str, other: &str) -> Option<Cursor<'a>> {
    match element.at(one) {
        Some(found) => Some(found),
        None => element.at(other),
    }
}
