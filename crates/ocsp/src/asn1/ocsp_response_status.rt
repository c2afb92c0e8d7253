//! Written by asn1_compile from the module OCSP: change the module instead.
//!
//! OcspResponseStatus.
ghost use Rattle.std.specs.Prelude.{◌==◌, Option, Some, None, if◌then◌else◌};
ghost use Rattle.ocsp.specs.declared.asn1.ocsp_response_status.OcspResponseStatus.TheVariants as variant;

use der_asn1::Enumeration;

/// Whether a request was successful, or why it was not (RFC 6960, 4.2.1). No other number is
/// accepted.
#[derive(Clone, Copy, Debug, PartialEq, Eq)]
pub enum OcspResponseStatus {
    Successful = 0,
    MalformedRequest = 1,
    InternalError = 2,
    TryLater = 3,
    SigRequired = 5,
    Unauthorized = 6,
}

impl Enumeration for OcspResponseStatus {
    ghost item_of = { λ n. if n == 0 then Some variant.Successful else if n == 1 then Some variant.MalformedRequest else if n == 2 then Some variant.InternalError else if n == 3 then Some variant.TryLater else if n == 5 then Some variant.SigRequired else if n == 6 then Some variant.Unauthorized else None };

    ghost number_of = { elim [
      | variant.Successful ↦ 0
      | variant.MalformedRequest ↦ 1
      | variant.InternalError ↦ 2
      | variant.TryLater ↦ 3
      | variant.SigRequired ↦ 5
      | variant.Unauthorized ↦ 6
    ] };

    fn from_number(number: u32) -> Option<Self> {
        match number {
            0 => Some(OcspResponseStatus::Successful),
            1 => Some(OcspResponseStatus::MalformedRequest),
            2 => Some(OcspResponseStatus::InternalError),
            3 => Some(OcspResponseStatus::TryLater),
            5 => Some(OcspResponseStatus::SigRequired),
            6 => Some(OcspResponseStatus::Unauthorized),
            _ => None,
        }
    }

    fn to_number(self) -> u32 {
        self as u32
    }
}
