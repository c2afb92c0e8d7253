//! Prints algorithms and their parameters.

use crate::page::Page;
use crate::text::put_octets;
use crate::title::identifier_line;
use crate::values::{contents, is_of, put_identifier_of, small};
use ber::Universal;
use schema_cursor::Cursor;

/// Prints the name and the arcs of the OBJECT IDENTIFIER of an AlgorithmIdentifier. Does not end
/// the line.
pub fn put_algorithm(page: &mut Page<'_>, algorithm: Cursor<'_>) {
    if let Some(identifier) = algorithm.at("algorithm") {
        put_identifier_of(page, identifier);
    }
}

/// Prints a line with `title` and the name and the arcs of an algorithm, and then lines with the
/// parameters of the algorithm. `algorithm` is an AlgorithmIdentifier. Prints nothing if it is
/// `None`.
pub fn put_algorithm_line(page: &mut Page<'_>, title: &str, algorithm: Option<Cursor<'_>>) {
    if let Some(algorithm) = algorithm {
        page.at(algorithm);
        page.put(title);
        put_algorithm(page, algorithm);
        page.end();
        put_parameters(page, algorithm);
    }
}

/// Prints lines with the parameters of an AlgorithmIdentifier. The parameters of RSASSA-PSS are
/// printed in words, and most others in hexadecimal. Prints nothing if the parameters are NULL, or
/// if they are parameters of EC or DSA keys.
pub fn put_parameters(page: &mut Page<'_>, algorithm: Cursor<'_>) {
    let Some(parameters) = algorithm.at("parameters") else {
        return;
    };
    match parameters.type_name() {
        Some("RSASSA-PSS-params") => put_pss(page, parameters),
        Some("ECParameters" | "SpecifiedECDomain" | "Dss-Parms") => {}
        _ if parameters.alternative().is_some() || is_of(parameters, Universal::Null) => {}
        _ => {
            page.at(parameters);
            page.put("    Parameters: ");
            put_octets(&mut page.out, parameters.octets());
            page.end();
        }
    }
}

// The parameters of RSASSA-PSS (RFC 4055, 3.1), with their defaults.
fn put_pss(page: &mut Page<'_>, parameters: Cursor<'_>) {
    page.deeper();
    let hash = parameters.at("hashAlgorithm");
    put_pss_algorithm(page, "Hash Algorithm: ", hash, "sha1 (default)");
    let mask = parameters.at("maskGenAlgorithm");
    put_pss_algorithm(page, "Mask Algorithm: ", mask, "mgf1 with sha1 (default)");
    let salt = parameters.at("saltLength");
    put_pss_number(page, "Salt Length: ", salt, "20 (default)");
    let trailer = parameters.at("trailerField");
    put_pss_number(page, "Trailer Field: ", trailer, "1 (default)");
    page.higher();
}

fn begin(page: &mut Page<'_>, title: &str, found: Option<Cursor<'_>>) {
    page.at_or_beside(found);
    page.put(title);
}

// The names of an algorithm, and of the hash that is its parameter.
fn put_pss_algorithm(page: &mut Page<'_>, title: &str, found: Option<Cursor<'_>>, default: &str) {
    begin(page, title, found);
    match found {
        Some(algorithm) => {
            put_algorithm(page, algorithm);
            if let Some(hash) = algorithm.at("parameters.algorithm") {
                page.put(" with ");
                put_identifier_of(page, hash);
            }
        }
        None => page.put(default),
    }
    page.end();
}

fn put_pss_number(page: &mut Page<'_>, title: &str, found: Option<Cursor<'_>>, default: &str) {
    begin(page, title, found);
    match found {
        Some(number) => match small(number) {
            Some(value) => page.number(value),
            None => put_octets(&mut page.out, contents(number)),
        },
        None => page.put(default),
    }
    page.end();
}

/// Prints a line with `title`, and the name and the arcs of the OBJECT IDENTIFIER of an
/// AlgorithmIdentifier. The parameters are not printed.
pub fn put_algorithm_names(page: &mut Page<'_>, title: &str, algorithm: Cursor<'_>) {
    match algorithm.at("algorithm") {
        Some(identifier) => {
            page.at(algorithm);
            page.put(title);
            put_identifier_of(page, identifier);
            page.end();
        }
        None => identifier_line(page, title, None),
    }
}
