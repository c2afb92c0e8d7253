//! A pair of policyMappings.

/// A pair of policyMappings (RFC 5280, 4.2.1.5): two policies, each as the contents octets of its
/// OBJECT IDENTIFIER.
#[derive(Clone, Copy, Debug, Drop)]
pub struct Mapping<'a> {
    /// issuerDomainPolicy.
    pub issuer: &'a [u8],
    /// subjectDomainPolicy.
    pub subject: &'a [u8],
}
