//! What the caller of a validation brings.

use der_asn1::DateTime;
use spki::SubjectPublicKeyInfoRef;
use x509::Name;

/// A trust anchor (RFC 5280, 6.1.1 (d)): a name, and a key with its algorithm and parameters. A
/// certificate that the caller trusts is one way to write it: the anchor has its subject and its
/// subjectPublicKeyInfo. Extensions of such a certificate do not count.
#[derive(Clone, Copy, Drop)]
pub struct Anchor<'a> {
    /// The name, with which the first certificate of a path is issued.
    pub name: Name<'a>,
    /// The key, with which the first certificate of a path is signed.
    pub key: SubjectPublicKeyInfoRef<'a>,
}

/// What the caller of a validation brings (RFC 5280, 6.1.1 (b), (d)).
#[derive(Clone, Copy, Drop)]
pub struct Inputs<'a> {
    /// The time for which the path is judged. No clock is read.
    pub time: DateTime,
    /// The trust anchor.
    pub anchor: Anchor<'a>,
    /// Whether the caller judges the policies of the path too, with `judge_policies`. If not, a
    /// certificate with a policyMappings, a policyConstraints or an inhibitAnyPolicy is refused,
    /// critical or not.
    pub judges_policies: bool,
}
