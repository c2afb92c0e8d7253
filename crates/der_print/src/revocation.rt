//! Prints revocation lists.

use crate::algorithm::put_algorithm_line;
use crate::certificate::put_signature;
use crate::extensions::put_extensions;
use crate::name::put_name_line;
use crate::page::Page;
use crate::title::{serial_line, time_line, version_line};
use crate::values::items;
use schema_cursor::Cursor;

/// Prints a line for each field of a revocation list, in the words of `openssl crl -text`.
pub fn put_revocation_list(page: &mut Page<'_>, list: Cursor<'_>) {
    if let Some(signed) = list.at("tbsCertList") {
        version_line(page, signed.at("version"));
        put_algorithm_line(page, "Signature Algorithm: ", signed.at("signature"));
        put_name_line(page, "Issuer: ", signed.at("issuer"));
        time_line(page, "Last Update: ", signed.at("thisUpdate"));
        match signed.at("nextUpdate") {
            Some(next) => time_line(page, "Next Update: ", Some(next)),
            None => page.line_beside("Next Update: NONE"),
        }
        put_entries(page, signed.at("revokedCertificates"));
        put_extensions(page, "CRL extensions:", signed.at("crlExtensions"));
    }
    put_signature(page, list);
}

fn put_entries(page: &mut Page<'_>, entries: Option<Cursor<'_>>) {
    let Some(entries) = entries else {
        page.line_beside("No Revoked Certificates.");
        return;
    };
    page.line(entries, "Revoked Certificates:");
    page.deeper();
    for entry in items(entries) {
        put_entry(page, entry);
    }
    page.higher();
}

fn put_entry(page: &mut Page<'_>, entry: Cursor<'_>) {
    serial_line(page, "Serial Number: ", entry.at("userCertificate"));
    page.deeper();
    time_line(page, "Revocation Date: ", entry.at("revocationDate"));
    let extensions = entry.at("crlEntryExtensions");
    put_extensions(page, "CRL entry extensions:", extensions);
    page.higher();
}
