//! Written by asn1_compile from the module Lightweight-Directory-Access-Protocol-V3: change the module instead.
//!
//! LdapResultResultCode.
ghost use Rattle.std.specs.Prelude.{◌==◌, Option, Some, None, if◌then◌else◌};
ghost use Rattle.ldap.specs.declared.asn1.ldap_result_result_code.LdapResultResultCode.TheVariants as variant;

use crate::asn1::referral::Referral;
use der_asn1::Enumeration;

/// A type inside another type, to which the ASN.1 module gives no name. Its name here is made of the
/// names of the types and components around it.
#[derive(Clone, Copy, Debug, PartialEq, Eq)]
pub enum LdapResultResultCode {
    Success = 0,
    OperationsError = 1,
    ProtocolError = 2,
    TimeLimitExceeded = 3,
    SizeLimitExceeded = 4,
    CompareFalse = 5,
    CompareTrue = 6,
    AuthMethodNotSupported = 7,
    StrongerAuthRequired = 8,
    Referral = 10,
    AdminLimitExceeded = 11,
    UnavailableCriticalExtension = 12,
    ConfidentialityRequired = 13,
    SaslBindInProgress = 14,
    NoSuchAttribute = 16,
    UndefinedAttributeType = 17,
    InappropriateMatching = 18,
    ConstraintViolation = 19,
    AttributeOrValueExists = 20,
    InvalidAttributeSyntax = 21,
    NoSuchObject = 32,
    AliasProblem = 33,
    InvalidDnSyntax = 34,
    AliasDereferencingProblem = 36,
    InappropriateAuthentication = 48,
    InvalidCredentials = 49,
    InsufficientAccessRights = 50,
    Busy = 51,
    Unavailable = 52,
    UnwillingToPerform = 53,
    LoopDetect = 54,
    NamingViolation = 64,
    ObjectClassViolation = 65,
    NotAllowedOnNonLeaf = 66,
    NotAllowedOnRdn = 67,
    EntryAlreadyExists = 68,
    ObjectClassModsProhibited = 69,
    AffectsMultipleDsAs = 71,
    Other = 80,
}

impl Enumeration for LdapResultResultCode {
    ghost item_of = { λ n. if n == 0 then Some variant.Success else if n == 1 then Some variant.OperationsError else if n == 2 then Some variant.ProtocolError else if n == 3 then Some variant.TimeLimitExceeded else if n == 4 then Some variant.SizeLimitExceeded else if n == 5 then Some variant.CompareFalse else if n == 6 then Some variant.CompareTrue else if n == 7 then Some variant.AuthMethodNotSupported else if n == 8 then Some variant.StrongerAuthRequired else if n == 10 then Some variant.Referral else if n == 11 then Some variant.AdminLimitExceeded else if n == 12 then Some variant.UnavailableCriticalExtension else if n == 13 then Some variant.ConfidentialityRequired else if n == 14 then Some variant.SaslBindInProgress else if n == 16 then Some variant.NoSuchAttribute else if n == 17 then Some variant.UndefinedAttributeType else if n == 18 then Some variant.InappropriateMatching else if n == 19 then Some variant.ConstraintViolation else if n == 20 then Some variant.AttributeOrValueExists else if n == 21 then Some variant.InvalidAttributeSyntax else if n == 32 then Some variant.NoSuchObject else if n == 33 then Some variant.AliasProblem else if n == 34 then Some variant.InvalidDnSyntax else if n == 36 then Some variant.AliasDereferencingProblem else if n == 48 then Some variant.InappropriateAuthentication else if n == 49 then Some variant.InvalidCredentials else if n == 50 then Some variant.InsufficientAccessRights else if n == 51 then Some variant.Busy else if n == 52 then Some variant.Unavailable else if n == 53 then Some variant.UnwillingToPerform else if n == 54 then Some variant.LoopDetect else if n == 64 then Some variant.NamingViolation else if n == 65 then Some variant.ObjectClassViolation else if n == 66 then Some variant.NotAllowedOnNonLeaf else if n == 67 then Some variant.NotAllowedOnRdn else if n == 68 then Some variant.EntryAlreadyExists else if n == 69 then Some variant.ObjectClassModsProhibited else if n == 71 then Some variant.AffectsMultipleDsAs else if n == 80 then Some variant.Other else None };

    ghost number_of = { elim [
      | variant.Success ↦ 0
      | variant.OperationsError ↦ 1
      | variant.ProtocolError ↦ 2
      | variant.TimeLimitExceeded ↦ 3
      | variant.SizeLimitExceeded ↦ 4
      | variant.CompareFalse ↦ 5
      | variant.CompareTrue ↦ 6
      | variant.AuthMethodNotSupported ↦ 7
      | variant.StrongerAuthRequired ↦ 8
      | variant.Referral ↦ 10
      | variant.AdminLimitExceeded ↦ 11
      | variant.UnavailableCriticalExtension ↦ 12
      | variant.ConfidentialityRequired ↦ 13
      | variant.SaslBindInProgress ↦ 14
      | variant.NoSuchAttribute ↦ 16
      | variant.UndefinedAttributeType ↦ 17
      | variant.InappropriateMatching ↦ 18
      | variant.ConstraintViolation ↦ 19
      | variant.AttributeOrValueExists ↦ 20
      | variant.InvalidAttributeSyntax ↦ 21
      | variant.NoSuchObject ↦ 32
      | variant.AliasProblem ↦ 33
      | variant.InvalidDnSyntax ↦ 34
      | variant.AliasDereferencingProblem ↦ 36
      | variant.InappropriateAuthentication ↦ 48
      | variant.InvalidCredentials ↦ 49
      | variant.InsufficientAccessRights ↦ 50
      | variant.Busy ↦ 51
      | variant.Unavailable ↦ 52
      | variant.UnwillingToPerform ↦ 53
      | variant.LoopDetect ↦ 54
      | variant.NamingViolation ↦ 64
      | variant.ObjectClassViolation ↦ 65
      | variant.NotAllowedOnNonLeaf ↦ 66
      | variant.NotAllowedOnRdn ↦ 67
      | variant.EntryAlreadyExists ↦ 68
      | variant.ObjectClassModsProhibited ↦ 69
      | variant.AffectsMultipleDsAs ↦ 71
      | variant.Other ↦ 80
    ] };

    fn from_number(number: u32) -> Option<Self> {
        match number {
            0 => Some(LdapResultResultCode::Success),
            1 => Some(LdapResultResultCode::OperationsError),
            2 => Some(LdapResultResultCode::ProtocolError),
            3 => Some(LdapResultResultCode::TimeLimitExceeded),
            4 => Some(LdapResultResultCode::SizeLimitExceeded),
            5 => Some(LdapResultResultCode::CompareFalse),
            6 => Some(LdapResultResultCode::CompareTrue),
            7 => Some(LdapResultResultCode::AuthMethodNotSupported),
            8 => Some(LdapResultResultCode::StrongerAuthRequired),
            10 => Some(LdapResultResultCode::Referral),
            11 => Some(LdapResultResultCode::AdminLimitExceeded),
            12 => Some(LdapResultResultCode::UnavailableCriticalExtension),
            13 => Some(LdapResultResultCode::ConfidentialityRequired),
            14 => Some(LdapResultResultCode::SaslBindInProgress),
            16 => Some(LdapResultResultCode::NoSuchAttribute),
            17 => Some(LdapResultResultCode::UndefinedAttributeType),
            18 => Some(LdapResultResultCode::InappropriateMatching),
            19 => Some(LdapResultResultCode::ConstraintViolation),
            20 => Some(LdapResultResultCode::AttributeOrValueExists),
            21 => Some(LdapResultResultCode::InvalidAttributeSyntax),
            32 => Some(LdapResultResultCode::NoSuchObject),
            33 => Some(LdapResultResultCode::AliasProblem),
            34 => Some(LdapResultResultCode::InvalidDnSyntax),
            36 => Some(LdapResultResultCode::AliasDereferencingProblem),
            48 => Some(LdapResultResultCode::InappropriateAuthentication),
            49 => Some(LdapResultResultCode::InvalidCredentials),
            50 => Some(LdapResultResultCode::InsufficientAccessRights),
            51 => Some(LdapResultResultCode::Busy),
            52 => Some(LdapResultResultCode::Unavailable),
            53 => Some(LdapResultResultCode::UnwillingToPerform),
            54 => Some(LdapResultResultCode::LoopDetect),
            64 => Some(LdapResultResultCode::NamingViolation),
            65 => Some(LdapResultResultCode::ObjectClassViolation),
            66 => Some(LdapResultResultCode::NotAllowedOnNonLeaf),
            67 => Some(LdapResultResultCode::NotAllowedOnRdn),
            68 => Some(LdapResultResultCode::EntryAlreadyExists),
            69 => Some(LdapResultResultCode::ObjectClassModsProhibited),
            71 => Some(LdapResultResultCode::AffectsMultipleDsAs),
            80 => Some(LdapResultResultCode::Other),
            _ => None,
        }
    }

    fn to_number(self) -> u32 {
        self as u32
    }
}
