//! Written by asn1_compile from the module X509: change the module instead.
//!
//! CrlReason.
ghost use Rattle.std.specs.Prelude.{◌==◌, Option, Some, None, if◌then◌else◌};
ghost use Rattle.x509.specs.declared.asn1.crl_reason.CrlReason.TheVariants as variant;

use der_asn1::Enumeration;

/// The reason for a revocation (RFC 5280, 5.3.1).
#[derive(Clone, Copy, Debug, PartialEq, Eq)]
pub enum CrlReason {
    Unspecified = 0,
    KeyCompromise = 1,
    CaCompromise = 2,
    AffiliationChanged = 3,
    Superseded = 4,
    CessationOfOperation = 5,
    CertificateHold = 6,
    RemoveFromCrl = 8,
    PrivilegeWithdrawn = 9,
    AaCompromise = 10,
}

impl Enumeration for CrlReason {
    ghost item_of = { λ n. if n == 0 then Some variant.Unspecified else if n == 1 then Some variant.KeyCompromise else if n == 2 then Some variant.CaCompromise else if n == 3 then Some variant.AffiliationChanged else if n == 4 then Some variant.Superseded else if n == 5 then Some variant.CessationOfOperation else if n == 6 then Some variant.CertificateHold else if n == 8 then Some variant.RemoveFromCrl else if n == 9 then Some variant.PrivilegeWithdrawn else if n == 10 then Some variant.AaCompromise else None };

    ghost number_of = { elim [
      | variant.Unspecified ↦ 0
      | variant.KeyCompromise ↦ 1
      | variant.CaCompromise ↦ 2
      | variant.AffiliationChanged ↦ 3
      | variant.Superseded ↦ 4
      | variant.CessationOfOperation ↦ 5
      | variant.CertificateHold ↦ 6
      | variant.RemoveFromCrl ↦ 8
      | variant.PrivilegeWithdrawn ↦ 9
      | variant.AaCompromise ↦ 10
    ] };

    fn from_number(number: u32) -> Option<Self> {
        match number {
            0 => Some(CrlReason::Unspecified),
            1 => Some(CrlReason::KeyCompromise),
            2 => Some(CrlReason::CaCompromise),
            3 => Some(CrlReason::AffiliationChanged),
            4 => Some(CrlReason::Superseded),
            5 => Some(CrlReason::CessationOfOperation),
            6 => Some(CrlReason::CertificateHold),
            8 => Some(CrlReason::RemoveFromCrl),
            9 => Some(CrlReason::PrivilegeWithdrawn),
            10 => Some(CrlReason::AaCompromise),
            _ => None,
        }
    }

    fn to_number(self) -> u32 {
        self as u32
    }
}
