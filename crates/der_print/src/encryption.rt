//! Prints how the contents of a PKCS #8 or PKCS #12 file are encrypted with a password.

use crate::page::Page;
use crate::title::{count_line, number_line, octets_line};
use crate::values::{contents, is_of, put_identifier_of, put_long, put_short, put_small};
use ber::Universal;
use schema_cursor::Cursor;

/// Prints the lines of an EncryptedPrivateKeyInfo (RFC 5958, 3).
pub fn put_encrypted_key(page: &mut Page<'_>, key: Cursor<'_>) {
    if let Some(algorithm) = key.at("encryptionAlgorithm") {
        put_encryption(page, algorithm);
    }
    count_line(page, "Encrypted Data: ", key.at("encryptedData"), 0);
}

// Lines with an algorithm of encryption and its parameters.
fn put_encryption(page: &mut Page<'_>, algorithm: Cursor<'_>) {
    put_names(page, "Encryption Algorithm: ", algorithm);
    let Some(parameters) = algorithm.at("parameters") else {
        return;
    };
    if parameters.type_name() == Some("PBES2-params") {
        if let Some(derivation) = parameters.at("keyDerivationFunc") {
            put_derivation(page, derivation);
        }
        if let Some(scheme) = parameters.at("encryptionScheme") {
            put_scheme(page, scheme);
        }
    } else {
        put_salt_and_count(page, parameters);
    }
}

fn put_names(page: &mut Page<'_>, title: &str, algorithm: Cursor<'_>) {
    if let Some(identifier) = algorithm.at("algorithm") {
        page.at(algorithm);
        page.put(title);
        put_identifier_of(page, identifier);
        page.end();
    }
}

// PBEParameter (RFC 8018, A.3).
fn put_salt_and_count(page: &mut Page<'_>, parameters: Cursor<'_>) {
    octets_line(page, "Salt: ", parameters.at("salt"));
    number_line(page, "Iterations: ", parameters.at("iterationCount"));
}

// The function that makes a key of a password, and its parameters.
fn put_derivation(page: &mut Page<'_>, derivation: Cursor<'_>) {
    put_names(page, "Key Derivation: ", derivation);
    let Some(parameters) = derivation.at("parameters") else {
        return;
    };
    match parameters.type_name() {
        Some("PBKDF2-params") => put_pbkdf2(page, parameters),
        Some("Scrypt-params") => put_scrypt(page, parameters),
        _ => {}
    }
}

fn put_pbkdf2(page: &mut Page<'_>, parameters: Cursor<'_>) {
    put_salt_and_count(page, parameters);
    number_line(page, "Key Length: ", parameters.at("keyLength"));
    match parameters.at("prf") {
        Some(function) => put_names(page, "PRF: ", function),
        None => page.line_beside("PRF: hmacWithSHA1 (default)"),
    }
}

fn put_scrypt(page: &mut Page<'_>, parameters: Cursor<'_>) {
    octets_line(page, "Salt: ", parameters.at("salt"));
    number_line(page, "N: ", parameters.at("costParameter"));
    number_line(page, "r: ", parameters.at("blockSize"));
    number_line(page, "p: ", parameters.at("parallelizationParameter"));
    number_line(page, "Key Length: ", parameters.at("keyLength"));
}

// The cipher, and its initialization vector.
fn put_scheme(page: &mut Page<'_>, scheme: Cursor<'_>) {
    put_names(page, "Cipher: ", scheme);
    if let Some(vector) = scheme.at("parameters") {
        if is_of(vector, Universal::OctetString) {
            octets_line(page, "IV: ", Some(vector));
        }
    }
}

/// Prints an encryption algorithm and its parameters as `openssl pkcs12 -info` does, for example
/// `PBES2, PBKDF2, AES-256-CBC, Iteration 2048, PRF hmacWithSHA256`. Does not end the line.
pub fn encryption_words(page: &mut Page<'_>, algorithm: Cursor<'_>) {
    if let Some(identifier) = algorithm.at("algorithm") {
        put_long(page, contents(identifier));
    }
    let Some(parameters) = algorithm.at("parameters") else {
        return;
    };
    let Some(derivation) = parameters.at("keyDerivationFunc") else {
        put_iterations(page, parameters);
        return;
    };
    page.put(", ");
    if let Some(identifier) = derivation.at("algorithm") {
        put_long(page, contents(identifier));
    }
    page.put(", ");
    if let Some(cipher) = parameters.at("encryptionScheme.algorithm") {
        put_short(page, contents(cipher));
    }
    if let Some(numbers) = derivation.at("parameters") {
        put_derivation_words(page, numbers);
    }
}

fn put_iterations(page: &mut Page<'_>, parameters: Cursor<'_>) {
    if let Some(count) = parameters.at("iterationCount") {
        page.put(", Iteration ");
        put_small(page, count);
    }
}

// The iterations and the function of PBKDF2, or the numbers of scrypt.
fn put_derivation_words(page: &mut Page<'_>, parameters: Cursor<'_>) {
    if let Some(cost) = parameters.at("costParameter") {
        page.put(", Cost parameter: ");
        put_small(page, cost);
        return;
    }
    put_iterations(page, parameters);
    page.put(", PRF ");
    match parameters.at("prf.algorithm") {
        Some(name) => put_long(page, contents(name)),
        None => page.put("hmacWithSHA1"),
    }
}
