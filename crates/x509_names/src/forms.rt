//! The forms of names in certificates, as octets: texts, host names, mailboxes, URIs and IP
//! addresses.
//!
//! [`texts_match`], [`is_same_host`] and [`mailboxes_match`] compare two names as RFC 5280 demands
//! (7.1, 7.2 and 7.5). [`is_below_host`], [`is_mail_within`], [`is_uri_within`] and
//! [`is_address_within`] compare a name with a constraint of its form (4.2.1.10).
//! [`are_all_below_host`] and [`is_some_below_host`] compare all names for which a name with an
//! asterisk stands, and [`host_matches`] compares one of these with a host. [`is_host_name`], [`is_mailbox`], [`is_uri`] and [`is_address`] say whether octets
//! have the syntax of a form (4.2.1.6).
//!
//! Each result is proved to be exactly what its specification says. Only ASCII letters have a case,
//! and only ASCII spaces are spaces. The tables of stringprep (RFC 4518) for other characters are
//! not used: names in other alphabets are compared octet by octet. Nothing is allocated.

mod address;
mod comparable;
mod host;
mod host_name;
mod mailbox;
mod mailbox_syntax;
mod mark;
mod rest;
mod scheme;
mod text;
mod uri;
mod uri_part;
mod uri_syntax;
mod utf8_mailbox;
mod wildcard;

pub use address::{is_address, is_address_within, is_cidr_range, is_range};
pub use comparable::{
    is_host_constraint, is_host_mailbox, is_host_or_domain, is_host_uri, is_mail_constraint,
    is_plain_host, is_uri_constraint,
};
pub use host::{is_below_host, is_domain_name, is_host_within, is_same_host};
pub use host_name::{is_host, is_host_name};
pub use mailbox::{has_mailbox, is_mail_within, mailboxes_match};
pub use mailbox_syntax::is_mailbox;
pub use scheme::has_scheme;
pub use text::{is_plain_text, texts_match};
pub use uri::{has_domain_name, is_uri_within};
pub use uri_syntax::{has_host, is_uri};
pub use utf8_mailbox::is_utf8_host_mailbox;
pub use wildcard::{are_all_below_host, host_matches, is_some_below_host};
