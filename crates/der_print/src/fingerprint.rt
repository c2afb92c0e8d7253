//! Prints fingerprints, which are digests of values in DER.

use crate::page::Page;
use crate::text::put_octets_with;
use ber::read_header;
use schema_cursor::Cursor;
use schema_write::{Refusal, to_der};
use sha1::Sha1;
use sha2::{Digest, Sha256};
use std::alloc::{AllocError, Global};

/// Prints two lines with the SHA-256 digest and the SHA-1 digest of `value` in DER. Each line begins
/// with the words `of`, which say what the value is. If the value cannot be written in DER, the
/// digests are of its octets as they are.
pub fn put_fingerprints(page: &mut Page<'_>, of: &str, value: Cursor<'_>) {
    match digested(page, value) {
        Ok(octets) => put_digests(page, of, octets.as_slice()),
        Err(_) => page.out.has_failed = true,
    }
}

fn put_digests(page: &mut Page<'_>, of: &str, octets: &[u8]) {
    page.beside();
    page.put(of);
    page.put("SHA-256 Fingerprint: ");
    put_octets_with(&mut page.out, &Sha256::digest(octets), true);
    page.end();
    page.beside();
    page.put(of);
    page.put("SHA-1 Fingerprint: ");
    put_octets_with(&mut page.out, &Sha1::digest(octets), true);
    page.end();
}

/// Prints the SHA-256 digest of `value` in DER, or of its octets as they are if it cannot be written
/// in DER. Does not end the line.
pub fn put_digest(page: &mut Page<'_>, value: Cursor<'_>) {
    match digested(page, value) {
        Ok(octets) => put_octets_with(&mut page.out, &Sha256::digest(octets.as_slice()), true),
        Err(_) => page.out.has_failed = true,
    }
}

// The DER of a value, or its octets if it has none.
fn digested(page: &Page<'_>, value: Cursor<'_>) -> Result<Vec<u8>, AllocError> {
    let octets = whole_octets(page.alloc, value)?;
    let node = value.entry().kind;
    if node >= page.schema.counts().nodes {
        return Ok(octets);
    }
    match to_der(page.alloc, page.schema, node, octets.as_slice()) {
        Ok(written) if written.is_der => Ok(written.octets),
        Err(Refusal::OutOfMemory) => Err(AllocError),
        _ => Ok(octets),
    }
}

// The octets of an element, with the end-of-contents octets that end one of indefinite length.
fn whole_octets(alloc: Global, value: Cursor<'_>) -> Result<Vec<u8>, AllocError> {
    let mut octets = value.octets().to_vec(alloc)?;
    if matches!(read_header(value.octets()), Ok(header) if header.is_indefinite()) {
        octets.extend_from_slice(&[0, 0])?;
    }
    Ok(octets)
}
