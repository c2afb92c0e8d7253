//! Judges a certificate (option `--verify`).

use crate::options::Verified;
use ber::read_element;
use der::DecodeBytes;
use der_asn1::DateTime;
use der_print::Output;
use path_print::{Asked, Judgement, put_judgement};
use pem::{Block, Blocks};
use std::alloc::{AllocError, Global};
use std::fmt::Write;
use x509::Certificate;
use x509_build::Pool;
use x509_path::{Anchor, Inputs, PathCertificate};

/// The most candidates of a path: its certificates but the one that is judged, and the trust anchor.
const DEPTH: usize = 12;

/// The most steps of a search.
const STEPS: u64 = 1_000_000;

/// Judges the first certificate of `found` by the trust anchors of `anchors`, prints why, and returns
/// whether it is valid if the signatures that are printed verify. The other certificates of `found`
/// may be in a path. One that cannot be read is named, and is in no path.
pub fn verify(
    alloc: Global,
    verified: &Verified<'_>,
    found: &[Vec<u8>],
    anchors: &[Vec<u8>],
    out: &mut Output,
) -> Result<bool, AllocError> {
    let [first, others @ ..] = found else {
        out.put("Refused: there is no certificate.\n");
        return Ok(false);
    };
    let Ok(target) = PathCertificate::from_der(alloc, first.as_slice()) else {
        out.put("Refused: the certificate is not DER.\n");
        return Ok(false);
    };
    let mut certificates = Vec::new(alloc);
    for octets in others.iter() {
        match PathCertificate::from_der(alloc, octets.as_slice()) {
            Ok(certificate) => certificates.push(certificate)?,
            Err(error) => {
                let _ = write!(out, "Left out: a certificate is not DER: {error}\n");
            }
        }
    }
    let mut trusted = Vec::new(alloc);
    for octets in anchors.iter() {
        match Certificate::from_der(alloc, octets.as_slice()) {
            Ok(certificate) => trusted.push(inputs_of(verified.time, certificate))?,
            Err(error) => {
                let _ = write!(
                    out,
                    "Left out: the certificate of a trust anchor is not DER: {error}\n"
                );
            }
        }
    }
    let pool = Pool {
        alloc,
        target: &target,
        certificates: certificates.as_slice(),
        anchors: trusted.as_slice(),
        failed: &[],
    };
    let asked = Asked {
        host: verified.host,
        purpose: verified.purpose,
    };
    let judgement = put_judgement(out, &asked, &pool, DEPTH, STEPS)?;
    Ok(judgement == Judgement::ValidIfSigned)
}

// What paths from the trust anchor with the name and the key of a certificate are judged by.
fn inputs_of<'a>(time: DateTime, certificate: Certificate<'a>) -> Inputs<'a> {
    let signed = certificate.tbs_certificate;
    Inputs {
        time,
        anchor: Anchor {
            name: signed.subject,
            key: signed.subject_public_key_info,
        },
        judges_policies: false,
    }
}

/// Adds the octets of each certificate in a file: of each PEM block that may be one, or of each
/// element, if the file has no block.
pub fn add_certificates(
    alloc: Global,
    octets: &[u8],
    found: &mut Vec<Vec<u8>>,
) -> Result<(), AllocError> {
    let mut has_block = false;
    for block in Blocks::new(octets) {
        has_block = true;
        if let Ok(block) = block {
            if is_certificate(block.label()) {
                add_block(alloc, &block, found)?;
            }
        }
    }
    if !has_block {
        add_elements(alloc, octets, octets.len(), found)?;
    }
    Ok(())
}

// Whether a block with this label holds a certificate (RFC 7468, 5).
fn is_certificate(label: &str) -> bool {
    matches!(
        label,
        "CERTIFICATE" | "X509 CERTIFICATE" | "TRUSTED CERTIFICATE"
    )
}

// Adds the first element of a block: openssl puts trust settings after it.
fn add_block(alloc: Global, block: &Block<'_>, found: &mut Vec<Vec<u8>>) -> Result<(), AllocError> {
    let mut octets = Vec::new(alloc);
    octets.resize(block.decoded_len(), 0)?;
    if let Ok(count) = block.decode_into(&mut octets) {
        octets.truncate(count);
        add_elements(alloc, octets.as_slice(), 1, found)?;
    }
    Ok(())
}

// Adds the first elements, at most so many.
fn add_elements(
    alloc: Global,
    octets: &[u8],
    most: usize,
    found: &mut Vec<Vec<u8>>,
) -> Result<(), AllocError> {
    let mut rest = octets;
    for _ in 0..most {
        let Ok(element) = read_element(rest) else {
            break;
        };
        let length = rest.len().saturating_sub(element.rest.len());
        let mut copy = Vec::new(alloc);
        copy.extend_from_slice(rest.get(..length).unwrap_or(&[]))?;
        found.push(copy)?;
        rest = element.rest;
    }
    Ok(())
}
