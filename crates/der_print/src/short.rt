//! The summary of a value on one line.

use crate::fingerprint::put_digest;
use crate::name::put_name;
use crate::page::Page;
use crate::public_key::put_short_key;
use crate::values::{put_identifier_of, put_time_of};
use schema_cursor::Cursor;
use std::fmt::Write;

/// The paths of the fields whose names a summary shows. They are the subject of a certificate or a
/// request, and the issuer of a revocation list.
const SUBJECTS: [&str; 3] = [
    "tbsCertificate.subject",
    "certificationRequestInfo.subject",
    "tbsCertList.issuer",
];

/// The paths of the fields whose public key a summary shows.
const KEYS: [&str; 3] = [
    "tbsCertificate.subjectPublicKeyInfo",
    "certificationRequestInfo.subjectPKInfo",
    "publicKeyAndChallenge.spki",
];

/// The paths of the fields whose times a summary shows. Each pair has the first and the last time
/// at which a value is valid.
const PERIODS: [(&str, &str); 3] = [
    (
        "tbsCertificate.validity.notBefore",
        "tbsCertificate.validity.notAfter",
    ),
    ("tbsCertList.thisUpdate", "tbsCertList.nextUpdate"),
    (
        "acinfo.attrCertValidityPeriod.notBeforeTime",
        "acinfo.attrCertValidityPeriod.notAfterTime",
    ),
];

/// Prints the summary of `value` on one line. It has these parts, as far as `value` has them:
///
/// - `kind`, the name of the kind of `value`;
/// - the subject, or the issuer of a revocation list;
/// - the algorithm and the size of the public key, or the algorithm of a private key;
/// - the first and the last time at which `value` is valid;
/// - the number of days until the last time, if `now` is given, in seconds since
///   1970-01-01T00:00:00Z;
/// - the SHA-256 digest of `value` in DER, if it has a public key or a first time.
pub fn put_short_line(page: &mut Page<'_>, kind: &str, value: Cursor<'_>, now: Option<i64>) {
    page.put(kind);
    for path in SUBJECTS {
        if let Some(name) = value.at(path) {
            page.put("; ");
            put_name(&mut page.out, name);
        }
    }
    let is_key = value.type_name() == Some("SubjectPublicKeyInfo");
    let mut is_public = is_key;
    if is_key {
        put_short_key(page, value);
    }
    for path in KEYS {
        if let Some(key) = value.at(path) {
            is_public = true;
            put_short_key(page, key);
        }
    }
    if let Some(algorithm) = value.at("privateKeyAlgorithm.algorithm") {
        page.put("; ");
        put_identifier_of(page, algorithm);
    }
    for (first, last) in PERIODS {
        is_public = put_period(page, value.at(first), value.at(last), now) || is_public;
    }
    if is_public {
        page.put("; SHA-256 ");
        put_digest(page, value);
    }
    page.end();
}

// Prints when a value is valid, and returns true if it says so.
fn put_period(
    page: &mut Page<'_>,
    first: Option<Cursor<'_>>,
    last: Option<Cursor<'_>>,
    now: Option<i64>,
) -> bool {
    let Some(first) = first else {
        return false;
    };
    page.put("; ");
    put_time_of(page, first);
    if let Some(last) = last {
        page.put(" to ");
        put_time_of(page, last);
        if let (Some(now), Some(end)) = (now, seconds_of(last)) {
            let days = end.saturating_sub(now).div_euclid(86400);
            let _ = write!(page.out, ", {days} days left");
        }
    }
    true
}

// A time in seconds since 1970.
fn seconds_of(time: Cursor<'_>) -> Option<i64> {
    let time = time.time()?;
    if time.is_valid() {
        Some(time.unix_seconds())
    } else {
        None
    }
}
