//! What the caller asks of the policies of a path.

/// What the caller asks of the policies of a path (RFC 5280, 6.1.1 (c), (e), (f) and (g)).
#[derive(Clone, Copy, Debug, Drop)]
pub struct PolicyInputs<'a> {
    /// user-initial-policy-set: the contents octets of OBJECT IDENTIFIERs. With anyPolicy among
    /// them, every policy is allowed.
    pub allowed: &'a [&'a [u8]],
    /// initial-policy-mapping-inhibit: whether policies may not be mapped.
    pub inhibits_mapping: bool,
    /// initial-explicit-policy: whether the path must be valid for an allowed policy.
    pub requires_explicit: bool,
    /// initial-any-policy-inhibit: whether anyPolicy is ignored.
    pub inhibits_any: bool,
}
