//! Prints the named bits of a BIT STRING, and reasons for a revocation.

use crate::page::Page;
use crate::values::small;
use schema_cursor::Cursor;

/// The bits of KeyUsage (RFC 5280, 4.2.1.3). Each bit has its name, `=`, and the words that openssl
/// prints for the bit.
const USAGES: &str = "digitalSignature=Digital Signature,nonRepudiation=Non Repudiation,\
    keyEncipherment=Key Encipherment,dataEncipherment=Data Encipherment,\
    keyAgreement=Key Agreement,keyCertSign=Certificate Sign,cRLSign=CRL Sign,\
    encipherOnly=Encipher Only,decipherOnly=Decipher Only";

/// The reasons for a revocation (RFC 5280, 4.2.1.13). Each reason has its name, `=`, and the words
/// that openssl prints for the reason.
const REASONS: &str = "unused=Unused,keyCompromise=Key Compromise,cACompromise=CA Compromise,\
    affiliationChanged=Affiliation Changed,superseded=Superseded,\
    cessationOfOperation=Cessation Of Operation,certificateHold=Certificate Hold,\
    privilegeWithdrawn=Privilege Withdrawn,aACompromise=AA Compromise,\
    unspecified=Unspecified,removeFromCRL=Remove From CRL";

/// The bits of the Netscape certificate type. Each bit has its name, `=`, and the words that
/// openssl prints for the bit.
const NETSCAPE: &str = "sslClient=SSL Client,sslServer=SSL Server,smime=S/MIME,\
    objectSigning=Object Signing,unused=Unused,sslCA=SSL CA,smimeCA=S/MIME CA,\
    objectSigningCA=Object Signing CA";

// The words after a name.
fn words_of(table: &'static str, name: &str) -> Option<&'static str> {
    for pair in table.split(',') {
        if let Some((key, words)) = pair.split_once('=') {
            if key == name {
                return Some(words);
            }
        }
    }
    None
}

// A line with the words for the bits that are one.
fn put_bits_line(page: &mut Page<'_>, table: &'static str, bits: Cursor<'_>) {
    page.at(bits);
    match bits.bit_names() {
        Some(names) => {
            let mut is_first = true;
            for name in names {
                if !is_first {
                    page.put(", ");
                }
                is_first = false;
                page.put(words_of(table, name).unwrap_or(name));
            }
        }
        None => crate::values::put_colons(page, bits.octets()),
    }
    page.end();
}

/// Prints a line with the uses of a key. `bits` is a KeyUsage.
pub fn put_key_usage(page: &mut Page<'_>, bits: Cursor<'_>) {
    put_bits_line(page, USAGES, bits);
}

/// Prints a line with the reasons of a distribution point. `bits` is a ReasonFlags.
pub fn put_reasons(page: &mut Page<'_>, bits: Cursor<'_>) {
    put_bits_line(page, REASONS, bits);
}

/// Prints a line with the uses that `bits`, a Netscape certificate type, allows.
pub fn put_netscape_type(page: &mut Page<'_>, bits: Cursor<'_>) {
    put_bits_line(page, NETSCAPE, bits);
}

/// Prints a line with the reason for a revocation, in words. `reason` is a CRLReason.
pub fn put_reason_line(page: &mut Page<'_>, reason: Cursor<'_>) {
    page.at(reason);
    page.put(reason_words(reason));
    page.end();
}

// The reason of a revocation (RFC 5280, 5.3.1).
fn reason_words(reason: Cursor<'_>) -> &'static str {
    match reason.number_name() {
        Some(name) => words_of(REASONS, name).unwrap_or("Unknown"),
        None => "Unknown",
    }
}

/// Prints the line `Revocation Reason: ` with the name and the number of the reason for a
/// revocation. `reason` is a CRLReason.
pub fn put_reason_name(page: &mut Page<'_>, reason: Cursor<'_>) {
    page.at(reason);
    page.put("Revocation Reason: ");
    page.put(reason.number_name().unwrap_or("(UNKNOWN)"));
    page.put(" (");
    page.number(small(reason).unwrap_or(u64::MAX));
    page.put(")");
    page.end();
}
