//! Written by asn1_compile from the module X509: change the module instead.
//!
//! CertReqVersion.
ghost use Rattle.std.specs.Prelude.{◌==◌, Option, Some, None, if◌then◌else◌};
ghost use Rattle.x509.specs.declared.asn1.cert_req_version.CertReqVersion.TheVariants as variant;

use der_asn1::Enumeration;

/// The version of a certification request (RFC 2986, 4.1). No other number is accepted.
#[derive(Clone, Copy, Debug, PartialEq, Eq)]
pub enum CertReqVersion {
    V1 = 0,
}

impl Enumeration for CertReqVersion {
    ghost item_of = { λ n. if n == 0 then Some variant.V1 else None };

    ghost number_of = { elim [
      | variant.V1 ↦ 0
    ] };

    fn from_number(number: u32) -> Option<Self> {
        match number {
            0 => Some(CertReqVersion::V1),
            _ => None,
        }
    }

    fn to_number(self) -> u32 {
        self as u32
    }
}
