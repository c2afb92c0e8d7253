//! Written by asn1_compile from the module CMS: change the module instead.
//!
//! PkiStatus.
ghost use Rattle.std.specs.Prelude.{◌==◌, Option, Some, None, if◌then◌else◌};
ghost use Rattle.cms.specs.declared.asn1.pki_status.PkiStatus.TheVariants as variant;

use der_asn1::Enumeration;

/// Whether a request was granted (RFC 3161, 2.4.2). No other number is accepted, as the RFC
/// requires of clients.
#[derive(Clone, Copy, Debug, PartialEq, Eq)]
pub enum PkiStatus {
    Granted = 0,
    GrantedWithMods = 1,
    Rejection = 2,
    Waiting = 3,
    RevocationWarning = 4,
    RevocationNotification = 5,
}

impl Enumeration for PkiStatus {
    ghost item_of = { λ n. if n == 0 then Some variant.Granted else if n == 1 then Some variant.GrantedWithMods else if n == 2 then Some variant.Rejection else if n == 3 then Some variant.Waiting else if n == 4 then Some variant.RevocationWarning else if n == 5 then Some variant.RevocationNotification else None };

    ghost number_of = { elim [
      | variant.Granted ↦ 0
      | variant.GrantedWithMods ↦ 1
      | variant.Rejection ↦ 2
      | variant.Waiting ↦ 3
      | variant.RevocationWarning ↦ 4
      | variant.RevocationNotification ↦ 5
    ] };

    fn from_number(number: u32) -> Option<Self> {
        match number {
            0 => Some(PkiStatus::Granted),
            1 => Some(PkiStatus::GrantedWithMods),
            2 => Some(PkiStatus::Rejection),
            3 => Some(PkiStatus::Waiting),
            4 => Some(PkiStatus::RevocationWarning),
            5 => Some(PkiStatus::RevocationNotification),
            _ => None,
        }
    }

    fn to_number(self) -> u32 {
        self as u32
    }
}
