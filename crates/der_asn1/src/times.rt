//! UTCTime, GeneralizedTime, and the times in them.

pub(crate) mod date_time;
pub(crate) mod date_time_text;
pub(crate) mod fraction;
pub(crate) mod fractional_time;
pub(crate) mod generalized_time;
pub(crate) mod time_format;
pub(crate) mod time_octets;
pub(crate) mod time_of;
pub(crate) mod unix_time;
pub(crate) mod utc_time;
