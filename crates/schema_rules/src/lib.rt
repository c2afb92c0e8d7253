//! Checks the contents octets of primitive encodings, for every universal type. The rules are those
//! of the Basic and the Distinguished Encoding Rules (X.690 8.2 to 8.26, 11).
//!
//! [`broken_rule`] finds the first rule that contents octets break, for any type.
//! [`named_bits_rule`] does this for a BIT STRING with named bits. A [`ContentsRule`] has its
//! section, and says whether contents that break it are still BER.
//!
//! Other functions help to check constraints:
//!
//! - [`is_in_range`] checks the bounds of a number.
//! - [`size_of`] returns the size of a value.
//! - [`are_zero_from`] finds out whether a BIT STRING has only trailing zero bits from a bit on.
//! - [`are_characters_in`] checks a permitted alphabet.
//! - [`Codes`] has the characters of a string.
//! - [`digit_count`], [`after_digits`] and [`two_at`] read the digits of a time.
//!
//! Nothing here allocates.
//!
//! These statements are proved:
//!
//! - The first broken rule is found exactly. So it is known which contents are DER, which are BER
//!   but not DER, and which are neither.
//! - For each type that `der_asn1` reads, it accepts the same contents as DER.
#![tactic(auto)]

mod alphabet;
mod broken;
mod characters;
mod codes;
mod contents_rule;
mod decimal;
mod decimal_text;
mod digits;
mod generalized_time;
mod kept;
mod laws;
mod range;
mod real;
mod rules;
mod size;
mod small;
mod useful_times;
mod utc_time;
mod zero_bits;
mod zone;

pub use alphabet::are_characters_in;
pub use broken::{broken_rule, named_bits_rule};
pub use codes::Codes;
pub use contents_rule::ContentsRule;
pub use digits::{after_digits, digit_count, is_digit};
pub use range::is_in_range;
pub use rules::{named_bits_rules, rules_of};
pub use size::size_of;
pub use zero_bits::{are_zero_from, bit_count, has_bit};
pub use zone::{octet_at, two_at};
