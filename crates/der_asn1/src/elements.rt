//! Elements of any type, NULL, and SEQUENCEs whose contents are not decoded.

pub(crate) mod any;
pub(crate) mod decode_as;
pub(crate) mod element;
pub(crate) mod equal_contents;
pub(crate) mod null;
pub(crate) mod sequence_ref;
pub(crate) mod whole;
