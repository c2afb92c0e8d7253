//! Prints requests and responses of OCSP, in the words of `openssl ocsp -text`.

use crate::algorithm::put_algorithm_names;
use crate::certificate::{put_certificate, put_signature};
use crate::extensions::put_extensions;
use crate::flags::put_reason_name;
use crate::general_name::put_general_name;
use crate::name::put_name;
use crate::page::Page;
use crate::text::put_octets;
use crate::title::{name_line, octets_line, serial_line, time_line, version_line};
use crate::values::{contents, items, small};
use schema_cursor::Cursor;

/// Prints the lines of an OCSPRequest (RFC 6960, 4.1.1).
pub fn put_ocsp_request(page: &mut Page<'_>, request: Cursor<'_>) {
    if let Some(signed) = request.at("tbsRequest") {
        page.line(signed, "OCSP Request Data:");
        page.deeper();
        version_line(page, signed.at("version"));
        if let Some(name) = signed.at("requestorName") {
            page.at(name);
            page.put("Requestor Name: ");
            put_general_name(page, name.untagged());
            page.end();
        }
        if let Some(list) = signed.at("requestList") {
            put_requests(page, list);
        }
        let extensions = signed.at("requestExtensions");
        put_extensions(page, "Request Extensions:", extensions);
        page.higher();
    }
    if let Some(signature) = request.at("optionalSignature") {
        put_signature(page, signature);
        put_certificates(page, signature.at("certs"));
    }
}

fn put_requests(page: &mut Page<'_>, list: Cursor<'_>) {
    page.line(list, "Requestor List:");
    page.deeper();
    for request in items(list) {
        if let Some(id) = request.at("reqCert") {
            put_certificate_id(page, id);
        }
        let extensions = request.at("singleRequestExtensions");
        put_extensions(page, "Request Single Extensions:", extensions);
    }
    page.higher();
}

fn put_certificate_id(page: &mut Page<'_>, id: Cursor<'_>) {
    page.line(id, "Certificate ID:");
    page.indent = page.indent.saturating_add(2);
    if let Some(hash) = id.at("hashAlgorithm") {
        put_algorithm_names(page, "Hash Algorithm: ", hash);
    }
    octets_line(page, "Issuer Name Hash: ", id.at("issuerNameHash"));
    octets_line(page, "Issuer Key Hash: ", id.at("issuerKeyHash"));
    serial_line(page, "Serial Number: ", id.at("serialNumber"));
    page.indent = page.indent.saturating_sub(2);
}

/// Prints the lines of an OCSPResponse (RFC 6960, 4.2.1).
pub fn put_ocsp_response(page: &mut Page<'_>, response: Cursor<'_>) {
    page.line(response, "OCSP Response Data:");
    page.deeper();
    if let Some(status) = response.at("responseStatus") {
        page.at(status);
        page.put("OCSP Response Status: ");
        page.put(status_words(status));
        page.put(" (");
        page.number(small(status).unwrap_or(u64::MAX));
        page.put(")");
        page.end();
    }
    if let Some(octets) = response.at("responseBytes") {
        name_line(page, "Response Type: ", octets.at("responseType"));
        if let Some(basic) = octets.at("response") {
            if let Some(basic) = basic.inner() {
                put_basic(page, basic);
            }
        }
    }
    page.higher();
}

// The words of openssl for a status.
fn status_words(status: Cursor<'_>) -> &'static str {
    match status.number_name() {
        Some("successful") => "successful",
        Some("malformedRequest") => "malformedrequest",
        Some("internalError") => "internalerror",
        Some("tryLater") => "trylater",
        Some("sigRequired") => "sigrequired",
        Some("unauthorized") => "unauthorized",
        _ => "(UNKNOWN)",
    }
}

fn put_basic(page: &mut Page<'_>, response: Cursor<'_>) {
    if let Some(data) = response.at("tbsResponseData") {
        version_line(page, data.at("version"));
        if let Some(responder) = data.at("responderID") {
            put_responder(page, responder);
        }
        time_line(page, "Produced At: ", data.at("producedAt"));
        if let Some(list) = data.at("responses") {
            page.line(list, "Responses:");
            for single in items(list) {
                put_single(page, single);
            }
        }
        let extensions = data.at("responseExtensions");
        put_extensions(page, "Response Extensions:", extensions);
    }
    put_signature(page, response);
    put_certificates(page, response.at("certs"));
}

fn put_responder(page: &mut Page<'_>, responder: Cursor<'_>) {
    page.at(responder);
    page.put("Responder Id: ");
    match responder.alternative() {
        Some("byName") => put_name(&mut page.out, responder),
        _ => put_octets(&mut page.out, contents(responder)),
    }
    page.end();
}

fn put_single(page: &mut Page<'_>, single: Cursor<'_>) {
    if let Some(id) = single.at("certID") {
        put_certificate_id(page, id);
    }
    if let Some(status) = single.at("certStatus") {
        put_status(page, status);
    }
    time_line(page, "This Update: ", single.at("thisUpdate"));
    time_line(page, "Next Update: ", single.at("nextUpdate"));
    let extensions = single.at("singleExtensions");
    put_extensions(page, "Response Single Extensions:", extensions);
}

fn put_status(page: &mut Page<'_>, status: Cursor<'_>) {
    page.at(status);
    page.put("Cert Status: ");
    page.put(match status.alternative() {
        Some("good") => "good",
        Some("revoked") => "revoked",
        Some("unknown") => "unknown",
        _ => "not known",
    });
    page.end();
    if status.alternative() == Some("revoked") {
        time_line(page, "Revocation Time: ", status.at("revocationTime"));
        if let Some(reason) = status.at("revocationReason") {
            put_reason_name(page, reason.untagged());
        }
    }
}

fn put_certificates(page: &mut Page<'_>, list: Option<Cursor<'_>>) {
    let Some(list) = list else {
        return;
    };
    for certificate in items(list) {
        page.line(certificate, "Certificate:");
        page.deeper();
        put_certificate(page, certificate);
        page.higher();
    }
}
