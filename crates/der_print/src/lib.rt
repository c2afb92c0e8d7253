//! The texts that the program `der_show` prints for values that were read with a table of types:
//!
//! - Certificates, requests, revocation lists, keys, OCSP and PKCS #12 are printed in the words of
//!   openssl.
//! - Any other value is printed with the names of its fields, as lines or as JSON.
//! - An element whose type is not the type of its field is printed as an element of any type, or
//!   left out.
//! - Secrets, such as the numbers of a private key, are left out when keys are printed in the words
//!   of openssl.
//!
//! It also has what printers share: outputs, text in which control characters and invisible
//! characters are escaped, names of object identifiers, numbers, times, and elements with their
//! offsets.
#![tactic(auto)]

mod access;
mod algorithm;
mod certificate;
mod constraints;
mod curves;
mod departures;
mod distribution;
mod elements;
mod encryption;
mod extension;
mod extensions;
mod fields;
mod fingerprint;
mod flags;
mod form;
mod frame;
mod general_name;
mod inside;
mod keys;
mod name;
mod ocsp;
mod page;
mod pkcs12;
mod policies;
mod printer;
mod private_keys;
mod public_key;
mod request;
mod revocation;
mod scalars;
mod short;
mod tags;
mod text;
mod timestamps;
mod title;
mod values;
mod walk;
mod words;

pub use certificate::{put_certificate, put_trust};
pub use departures::{FOUND, found_at, put_departure, put_departure_fields, put_path, put_rule};
pub use encryption::put_encrypted_key;
pub use fields::{print_fields, print_json};
pub use form::Form;
pub use keys::{put_dh_parameters, put_dsa_parameters, put_ec_parameters, put_rsa_public_key};
pub use name::put_name;
pub use ocsp::{put_ocsp_request, put_ocsp_response};
pub use page::Page;
pub use pkcs12::put_pfx;
pub use printer::Printer;
pub use private_keys::{
    put_dsa_private_key, put_ec_private_key, put_private_key, put_rsa_private_key,
};
pub use public_key::put_public_key;
pub use request::put_request;
pub use revocation::put_revocation_list;
pub use scalars::{put_plain, put_plain_element, put_tag};
pub use short::put_short_line;
pub use tags::{put_header_tag, tag_of_universal};
pub use text::{
    Characters, Element, Elements, Output, Sink, Space, Stream, Style, Target, bit_count,
    is_hexadecimal_of, is_text, long_name, moved, put_arcs, put_identifier, put_integer,
    put_iso_time, put_octets, put_octets_with, put_some_octets, put_text, put_time, put_unix_time,
    put_value_text, short_name, small_number,
};
