//! Types of extensions (RFC 5280, 4.2, 5.2, 5.3; RFC 6962, 3.3), for
//! [`Extensions::find`](crate::Extensions::find).

mod keys_and_names;
mod paths;
mod revocation_lists;

pub use keys_and_names::{
    AuthorityKeyIdentifier, CertificatePolicies, IssuerAltName, KeyUsage, PolicyMappings,
    SubjectAltName, SubjectDirectoryAttributes, SubjectKeyIdentifier,
};
pub use paths::{
    AuthorityInfoAccess, BasicConstraints, CrlDistributionPoints, ExtKeyUsage, FreshestCrl,
    InhibitAnyPolicy, NameConstraints, PolicyConstraints, SignedCertificateTimestamps,
    SubjectInfoAccess,
};
pub use revocation_lists::{
    CertificateIssuer, CrlNumber, DeltaCrlIndicator, InvalidityDate, IssuingDistributionPoint,
    ReasonCode,
};
