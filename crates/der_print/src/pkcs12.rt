//! Prints PKCS #12 files of keys and certificates, in the words of `openssl pkcs12 -info`.

use crate::algorithm::put_algorithm;
use crate::certificate::put_certificate;
use crate::encryption::encryption_words;
use crate::page::Page;
use crate::private_keys::put_private_key;
use crate::request::put_attribute_list;
use crate::revocation::put_revocation_list;
use crate::title::{identifier_line, number_line};
use crate::values::{contents, items, put_identifier_of, put_small};
use schema_cursor::Cursor;

/// Prints the lines of a PFX (RFC 7292, 4). Encrypted parts are not decrypted.
pub fn put_pfx(page: &mut Page<'_>, pfx: Cursor<'_>) {
    number_line(page, "Version: ", pfx.at("version"));
    if let Some(mac) = pfx.at("macData") {
        put_mac(page, mac);
    }
    let Some(safe) = pfx.at("authSafe") else {
        return;
    };
    let Some(content) = safe.at("content") else {
        return;
    };
    match content.untagged().inner() {
        Some(safes) if safes.type_name() == Some("AuthenticatedSafe") => {
            for safe in items(safes) {
                put_safe(page, safe);
            }
        }
        _ => put_other(page, safe, content),
    }
}

fn put_mac(page: &mut Page<'_>, mac: Cursor<'_>) {
    page.at(mac);
    page.put("MAC: ");
    if let Some(algorithm) = mac.at("mac.digestAlgorithm") {
        put_algorithm(page, algorithm);
    }
    page.put(", Iteration ");
    match mac.at("iterations") {
        Some(count) => put_small(page, count),
        None => page.put("1"),
    }
    page.end();
    page.at(mac);
    page.put("MAC length: ");
    put_len(page, mac.at("mac.digest"));
    page.put(", salt length: ");
    put_len(page, mac.at("macSalt"));
    page.end();
}

fn put_len(page: &mut Page<'_>, octets: Option<Cursor<'_>>) {
    page.number(match octets {
        Some(octets) => contents(octets).len() as u64,
        None => 0,
    });
}

fn put_safe(page: &mut Page<'_>, safe: Cursor<'_>) {
    let Some(content) = safe.at("content") else {
        return;
    };
    let value = content.untagged();
    match value.type_name() {
        Some("EncryptedData") => {
            page.at(safe);
            page.put("PKCS7 Encrypted data: ");
            if let Some(algorithm) = value.at("encryptedContentInfo.contentEncryptionAlgorithm") {
                encryption_words(page, algorithm);
            }
            page.end();
        }
        Some("EnvelopedData") => page.line(safe, "PKCS7 Enveloped data"),
        _ => match value.inner() {
            Some(bags) if bags.type_name() == Some("SafeContents") => {
                page.line(safe, "PKCS7 Data");
                put_bags(page, bags);
            }
            _ => put_other(page, safe, content),
        },
    }
}

fn put_other(page: &mut Page<'_>, info: Cursor<'_>, content: Cursor<'_>) {
    let Some(kind) = info.at("contentType") else {
        return;
    };
    page.at(kind);
    page.put("Content: ");
    put_identifier_of(page, kind);
    page.put(", ");
    page.number(content.untagged().octets().len() as u64);
    page.put(" octets");
    page.end();
}

// Bags in one safe. A safe inside a bag is not looked into.
fn put_bags(page: &mut Page<'_>, bags: Cursor<'_>) {
    for bag in items(bags) {
        if let Some(value) = bag.at("bagValue") {
            put_bag(page, bag, value.untagged());
        }
        match bag.at("bagAttributes") {
            Some(attributes) if !page.hides => {
                page.deeper();
                page.line(attributes, "Bag Attributes");
                put_attribute_list(page, attributes);
                page.higher();
            }
            _ => {}
        }
    }
}

fn put_bag(page: &mut Page<'_>, bag: Cursor<'_>, value: Cursor<'_>) {
    match value.type_name() {
        Some("PrivateKeyInfo") if page.hides => page.line(bag, "Key bag, not shown"),
        Some("PrivateKeyInfo") => {
            page.line(bag, "Key bag");
            page.deeper();
            put_private_key(page, value);
            page.higher();
        }
        Some("EncryptedPrivateKeyInfo") => {
            page.at(bag);
            page.put("Shrouded Keybag: ");
            if let Some(algorithm) = value.at("encryptionAlgorithm") {
                encryption_words(page, algorithm);
            }
            page.end();
        }
        Some("SafeContents") => page.line(bag, "Safe Contents bag"),
        Some("CertBag") => put_holder(page, bag, value),
        _ => identifier_line(page, "Bag: ", bag.at("bagId")),
    }
}

// A bag of a certificate or a revocation list.
fn put_holder(page: &mut Page<'_>, bag: Cursor<'_>, value: Cursor<'_>) {
    let is_list = match bag.at("bagId") {
        Some(identifier) => contents(identifier).last() == Some(&4),
        None => false,
    };
    page.line(
        bag,
        if is_list {
            "CRL bag"
        } else {
            "Certificate bag"
        },
    );
    page.deeper();
    put_held(page, value);
    page.higher();
}

// The certificate or the revocation list that a bag holds in an OCTET STRING.
fn put_held(page: &mut Page<'_>, bag: Cursor<'_>) {
    if let Some(value) = bag.at("certValue") {
        if let Some(held) = value.untagged().inner() {
            match held.type_name() {
                Some("Certificate") => return put_certificate(page, held),
                Some("CertificateList") => return put_revocation_list(page, held),
                _ => {}
            }
        }
    }
    identifier_line(page, "", bag.at("certId"));
}
