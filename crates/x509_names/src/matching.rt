//! Comparison of the names of certificates, as RFC 5280 demands (7.1).
//!
//! [`names_match`] says whether two names are the same. An example is the issuer of a certificate
//! and the subject of the certificate of its authority. [`is_name_within`] says whether a name is
//! within the subtree of another name, which is how constraints of names are given (4.2.1.10).
//! [`general_names_match`] and [`is_within_base`] say the same of general names of all forms, and
//! [`is_partly_within_base`] whether this holds of some of the names for which an asterisk stands.
//! [`name_verdict`] and [`names_verdict`] compare a general name, and a list of general names, with
//! a whole nameConstraints. [`subject_verdict`] compares the subject of a certificate with it, and
//! the mailboxes in the subject. The result is a [`Verdict`]. [`is_host_of`] and [`is_address_of`] say
//! whether names are those of a host or an address that a client wants to reach (RFC 9525).
//!
//! Each result is proved to be exactly what its specification says. Values that are
//! PrintableStrings, UTF8Strings or IA5Strings are compared by `texts_match`. It
//! ignores the case of ASCII letters. It ignores spaces at the beginning and the end, and takes
//! several spaces for one. Values of other types are compared octet by octet. Nothing is allocated.
//!
//! This comparison may say that two names differ although the tables of RFC 4518 make them equal:
//! for letters beyond ASCII, and for types such as BMPString. A verdict does not rely on it there: it
//! is [`Verdict::Unclear`] if the comparison of a base and a name is not exact.
//!
//! The time is in proportion to the size of the names, and within one RelativeDistinguishedName to
//! the product of the numbers of attributes. A list of names is compared in time in proportion to
//! its size times the size of the nameConstraints. So a caller should limit the sizes of both.

mod attribute;
mod general_name;
mod identifier;
mod level;
mod matching;
mod name;
mod names;
mod subject;
mod tally;
mod utf8_mailbox;
mod verdict;

pub use attribute::attributes_match;
pub use general_name::{general_names_match, is_partly_within_base, is_within_base};
pub use identifier::{is_address_of, is_host_of};
pub use level::levels_match;
pub use name::{is_name_within, names_match};
pub use names::names_verdict;
pub use subject::subject_verdict;
pub use verdict::{Verdict, name_verdict};
