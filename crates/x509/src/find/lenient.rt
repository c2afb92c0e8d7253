//! Extensions of certificates whose contents are not DER, but have one of three forms that only BER
//! allows.
//!
//! [`Extensions::find`](crate::Extensions::find) accepts only DER: other contents are an error. But
//! some certificates that programs trust have contents that are not DER. [`find_lenient`] returns
//! the value of a keyUsage or a basicConstraints, and says whether its contents are DER. It allocates
//! nothing. It forgives three forms of the Basic Encoding Rules:
//!
//! - zero bits at the end of a keyUsage (X.690, 11.2.2);
//! - a basicConstraints that writes `cA FALSE`, which is the default (11.5);
//! - a basicConstraints whose own length is indefinite (10.1).
//!
//! All other contents that are not DER are an error, also if they are BER. Examples are lengths with
//! more octets than necessary, BOOLEANs other than 00 and FF, unused bits that are one, and BIT
//! STRINGs in segments.

mod extension;
mod find;
mod lenient;

pub use extension::LenientExtension;
pub use find::find_lenient;
pub use lenient::Lenient;
