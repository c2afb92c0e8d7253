//! Names of certificates: their forms, their comparison, and names as text.
//!
//! - [`forms`]: host names, mailboxes, URIs, IP addresses and texts, as octets. Functions say whether
//!   octets have a form, and whether two names of one form match.
//! - [`matching`]: whether two names of certificates are the same, and whether a name is within the
//!   subtrees of a nameConstraints.
//! - [`text`]: names as text (RFC 4514).
#![tactic(auto)]

pub mod forms;
pub mod matching;
pub mod text;

pub use forms::{
    are_all_below_host, has_domain_name, has_host, has_mailbox, has_scheme, host_matches,
    is_address, is_address_within, is_below_host, is_cidr_range, is_domain_name, is_host,
    is_host_constraint, is_host_mailbox, is_host_name, is_host_or_domain, is_host_uri,
    is_host_within, is_mail_constraint, is_mail_within, is_mailbox, is_plain_host, is_plain_text,
    is_range, is_same_host, is_some_below_host, is_uri, is_uri_constraint, is_uri_within,
    is_utf8_host_mailbox, mailboxes_match, texts_match,
};
pub use matching::{
    Verdict, attributes_match, general_names_match, is_address_of, is_host_of, is_name_within,
    is_partly_within_base, is_within_base, levels_match, name_verdict, names_match, names_verdict,
    subject_verdict,
};
pub use text::{GeneralNameText, LevelText, NameText, SerialNumberText};
