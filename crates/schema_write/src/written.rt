//! The result of rewriting a value.

/// The result of rewriting a value: its encoding, and whether the encoding is DER.
#[derive(Drop)]
pub struct Written {
    /// The encoding of the value.
    pub octets: Vec<u8>,
    /// Whether the encoding is DER. It is not DER if one of these parts of the value, which are
    /// copied, was not DER before:
    ///
    /// - an element of unknown type;
    /// - the contents of an OCTET STRING;
    /// - a REAL;
    /// - a time that cannot be written in DER.
    pub is_der: bool,
}
