//! Prints certificates.

use crate::algorithm::put_algorithm_line;
use crate::extensions::put_extensions;
use crate::fingerprint::put_fingerprints;
use crate::name::put_name_line;
use crate::page::Page;
use crate::public_key::put_public_key;
use crate::text::put_octets;
use crate::title::{colons_line, count_line, long_serial_line, text_line, time_line, version_line};
use crate::values::{bit_octets, contents, items, put_long};
use schema_cursor::Cursor;

/// Prints a line for each field of a certificate, in the words of `openssl x509 -text`.
pub fn put_certificate(page: &mut Page<'_>, certificate: Cursor<'_>) {
    if let Some(signed) = certificate.at("tbsCertificate") {
        version_line(page, signed.at("version"));
        long_serial_line(page, "Serial Number: ", signed.at("serialNumber"));
        put_algorithm_line(page, "Signature Algorithm: ", signed.at("signature"));
        put_name_line(page, "Issuer: ", signed.at("issuer"));
        time_line(page, "Not Before: ", signed.at("validity.notBefore"));
        time_line(page, "Not After : ", signed.at("validity.notAfter"));
        put_name_line(page, "Subject: ", signed.at("subject"));
        if let Some(key) = signed.at("subjectPublicKeyInfo") {
            put_public_key(page, key);
        }
        put_unique_id(page, "Issuer Unique ID: ", signed.at("issuerUniqueID"));
        put_unique_id(page, "Subject Unique ID: ", signed.at("subjectUniqueID"));
        put_extensions(page, "X509v3 extensions:", signed.at("extensions"));
    }
    put_signature(page, certificate);
    put_fingerprints(page, "", certificate);
}

/// Prints lines with the algorithm and the length of a signature. `holder` is the signed value,
/// such as a certificate.
pub fn put_signature(page: &mut Page<'_>, holder: Cursor<'_>) {
    put_algorithm_line(
        page,
        "Signature Algorithm: ",
        holder.at("signatureAlgorithm"),
    );
    count_line(page, "Signature Value: ", holder.at("signature"), 1);
}

fn put_unique_id(page: &mut Page<'_>, title: &str, id: Option<Cursor<'_>>) {
    if let Some(id) = id {
        page.at(id);
        page.put(title);
        put_octets(&mut page.out, bit_octets(id));
        page.end();
    }
}

/// Prints the settings that openssl appends to the certificate in a PEM block `TRUSTED
/// CERTIFICATE`: the trusted uses, the rejected uses, an alias and a key identifier.
pub fn put_trust(page: &mut Page<'_>, trust: Cursor<'_>) {
    match trust.at("trust") {
        Some(uses) => put_uses(page, "Trusted Uses: ", uses),
        None => page.line_beside("No Trusted Uses."),
    }
    match trust.at("reject") {
        Some(uses) => put_uses(page, "Rejected Uses: ", uses),
        None => page.line_beside("No Rejected Uses."),
    }
    text_line(page, "Alias: ", trust.at("alias"));
    colons_line(page, "Key Id: ", trust.at("keyid"));
}

fn put_uses(page: &mut Page<'_>, title: &str, uses: Cursor<'_>) {
    page.at(uses);
    page.put(title);
    let mut is_first = true;
    for item in items(uses) {
        if !is_first {
            page.put(", ");
        }
        is_first = false;
        put_long(page, contents(item));
    }
    page.end();
}
