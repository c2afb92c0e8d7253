//! Names of certificates as text.
//!
//! [`NameText`] prints a name as RFC 4514 writes it. [`LevelText`] prints one
//! RelativeDistinguishedName of a name. [`GeneralNameText`] prints a name of a subjectAltName.
//! [`SerialNumberText`] prints a serial number.
//!
//! It is proved that each call is safe and returns. It is not proved which text is printed; the
//! tests compare the text with the output of openssl.

mod attribute_text;
mod escaped;
mod general_name_text;
mod keyword;
mod level_text;
mod name_text;
mod octets_text;
mod serial_number_text;

pub use general_name_text::GeneralNameText;
pub use level_text::LevelText;
pub use name_text::NameText;
pub use serial_number_text::SerialNumberText;
