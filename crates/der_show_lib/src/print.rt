//! Prints values of known kinds.

use crate::lint::{put_lint, put_list_lint, put_warnings};
use crate::options::Shown;
use crate::place::Place;
use crate::rewritten::rewritten;
use crate::show::Show;
use crate::value::{Target, is_only_ber};
use der_print::{
    Form, Output, Page, Printer, Sink, print_fields, put_certificate, put_dh_parameters,
    put_dsa_parameters, put_dsa_private_key, put_ec_parameters, put_ec_private_key,
    put_encrypted_key, put_ocsp_request, put_ocsp_response, put_pfx, put_private_key,
    put_public_key, put_request, put_revocation_list, put_rsa_private_key, put_rsa_public_key,
};
use pem::BlockText;
use schema_cursor::Cursor;
use schema_kinds::Kind;
use schema_read::Departure;
use std::fmt::Write;
use std::mem;

/// Prints `value`, which is of the kind `kind`, as lines of text. `octets` are the octets of the
/// value in the file.
pub fn put_text_value(show: &mut Show<'_>, kind: Kind, value: Cursor<'_>, octets: &[u8]) {
    let page = &mut show.page;
    match kind {
        Kind::Certificate => {
            put_certificate(page, value);
            put_warnings(page, value);
            if show.options.is_lint && !put_lint(page, value, octets) {
                show.status = 1;
            }
        }
        Kind::Request => put_request(page, value),
        Kind::RevocationList => {
            put_revocation_list(page, value);
            if show.options.is_lint && !put_list_lint(page, value) {
                show.status = 1;
            }
        }
        Kind::PublicKey => put_public_key(page, value),
        Kind::Pfx => put_pfx(page, value),
        Kind::OcspRequest => put_ocsp_request(page, value),
        Kind::OcspResponse => put_ocsp_response(page, value),
        Kind::Message | Kind::TimestampRequest | Kind::TimestampResponse => put_typed(page, value),
        _ => put_key(page, kind, value),
    }
}

fn put_key(page: &mut Page<'_>, kind: Kind, value: Cursor<'_>) {
    match kind {
        Kind::PrivateKey => put_private_key(page, value),
        Kind::EncryptedPrivateKey => put_encrypted_key(page, value),
        Kind::RsaPrivateKey => put_rsa_private_key(page, value),
        Kind::RsaPublicKey => put_rsa_public_key(page, value),
        Kind::EcPrivateKey => put_ec_private_key(page, value),
        Kind::EcParameters => put_ec_parameters(page, value),
        Kind::DsaPrivateKey => put_dsa_private_key(page, value),
        Kind::DsaParameters => put_dsa_parameters(page, value),
        Kind::DhParameters | Kind::X942Parameters => put_dh_parameters(page, value),
        _ => put_typed(page, value),
    }
}

/// Prints each field of `value` with the name that the ASN.1 module gives the field.
pub fn put_typed(page: &mut Page<'_>, value: Cursor<'_>) {
    let out = take_output(page);
    let mut printer = Printer::new(out, Form::Lines);
    printer.has_offsets = page.has_offsets;
    let printer = print_fields(page.alloc, page.schema, printer, value, page.base);
    page.out = printer.out;
}

/// Takes the output out of `page`, for another printer. The caller must put an output back; until
/// then, what is printed to `page` only stays in memory.
pub fn take_output(page: &mut Page<'_>) -> Output {
    let alloc = page.alloc;
    mem::replace(&mut page.out, Output::new(alloc, Sink::Memory))
}

/// Prints the octets of a value, or a PEM block with these octets.
///
/// - If the value is DER, or not even BER, prints the octets as they are.
/// - If the value is BER but not DER, prints its DER encoding instead. If a part of it cannot be
///   written in DER, this part is printed as it is, with an error.
pub fn put_octets(
    show: &mut Show<'_>,
    place: &Place<'_>,
    target: Target,
    octets: &[u8],
    departures: &[Departure],
) {
    let label = match target {
        Target::Kind(kind) => Some(kind.label()),
        Target::Node(_) | Target::Elements => None,
    };
    if is_only_ber(departures) {
        let schema = show.page.schema;
        match rewritten(show.page.alloc, schema, target.node(), octets) {
            Ok(written) => {
                put_form(show, place, label, written.octets.as_slice());
                if !written.is_der {
                    show.error(place, "a part of the value is not written in DER");
                }
            }
            Err(_) => show.error(place, "the value cannot be written in DER"),
        }
        return;
    }
    put_form(show, place, label, octets);
}

/// Prints `octets`, or a PEM block with `octets`. If `octets` were read from a PEM block, the new
/// block has the same label; otherwise it has the label `label`. If there is no label, prints an
/// error.
pub fn put_form(show: &mut Show<'_>, place: &Place<'_>, label: Option<&str>, octets: &[u8]) {
    if show.options.shown == Shown::Der {
        show.page.out.put_bytes(octets);
        return;
    }
    let own = match place.label {
        Some(own) => Some(own),
        None => label,
    };
    let Some(label) = own else {
        show.error(
            place,
            "no label is known for elements of no known kind; use --as",
        );
        return;
    };
    match BlockText::new(label, octets) {
        Some(block) => {
            let _ = write!(show.page.out, "{block}");
        }
        None => show.error(place, "the label of the block cannot be written"),
    }
}
