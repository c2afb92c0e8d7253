//! The universal types (X.680 8.6, table 1).
ghost use Rattle.std.specs.Prelude.{◌≡◌};

use crate::form::Form;

/// A type with a universal tag (X.680 8.6, table 1). Number 0 is reserved for the encoding rules,
/// which use it for end-of-contents octets; 15 and all numbers from 37 on are reserved too.
#[derive(Debug, Clone, Copy, PartialEq, Eq)]
pub enum Universal {
    /// `BOOLEAN`, tag number 1.
    Boolean,
    /// `INTEGER`, tag number 2.
    Integer,
    /// `BIT STRING`, tag number 3.
    BitString,
    /// `OCTET STRING`, tag number 4.
    OctetString,
    /// `NULL`, tag number 5.
    Null,
    /// `OBJECT IDENTIFIER`, tag number 6.
    ObjectIdentifier,
    /// `ObjectDescriptor`, tag number 7.
    ObjectDescriptor,
    /// `EXTERNAL` and `INSTANCE OF`, tag number 8.
    External,
    /// `REAL`, tag number 9.
    Real,
    /// `ENUMERATED`, tag number 10.
    Enumerated,
    /// `EMBEDDED PDV`, tag number 11.
    EmbeddedPdv,
    /// `UTF8String`, tag number 12.
    Utf8String,
    /// `RELATIVE-OID`, tag number 13.
    RelativeOid,
    /// `TIME`, tag number 14.
    Time,
    /// `SEQUENCE` and `SEQUENCE OF`, tag number 16.
    Sequence,
    /// `SET` and `SET OF`, tag number 17.
    Set,
    /// `NumericString`, tag number 18.
    NumericString,
    /// `PrintableString`, tag number 19.
    PrintableString,
    /// `TeletexString`, tag number 20.
    TeletexString,
    /// `VideotexString`, tag number 21.
    VideotexString,
    /// `IA5String`, tag number 22.
    Ia5String,
    /// `UTCTime`, tag number 23.
    UtcTime,
    /// `GeneralizedTime`, tag number 24.
    GeneralizedTime,
    /// `GraphicString`, tag number 25.
    GraphicString,
    /// `VisibleString`, tag number 26.
    VisibleString,
    /// `GeneralString`, tag number 27.
    GeneralString,
    /// `UniversalString`, tag number 28.
    UniversalString,
    /// `CHARACTER STRING`, tag number 29.
    CharacterString,
    /// `BMPString`, tag number 30.
    BmpString,
    /// `DATE`, tag number 31.
    Date,
    /// `TIME-OF-DAY`, tag number 32.
    TimeOfDay,
    /// `DATE-TIME`, tag number 33.
    DateTime,
    /// `DURATION`, tag number 34.
    Duration,
    /// `OID-IRI`, tag number 35.
    OidIri,
    /// `RELATIVE-OID-IRI`, tag number 36.
    RelativeOidIri,
}

impl Universal {
    ghost use Rattle.ber.specs.Universal.{number_of, form_of, name_of, universal_at};

    /// The type with this tag number, if there is one.
    pub const fn from_number(number: u32) -> Option<Self>
        ensures { result ≡ universal_at number }
    {
        match number {
            1 => Some(Universal::Boolean),
            2 => Some(Universal::Integer),
            3 => Some(Universal::BitString),
            4 => Some(Universal::OctetString),
            5 => Some(Universal::Null),
            6 => Some(Universal::ObjectIdentifier),
            7 => Some(Universal::ObjectDescriptor),
            8 => Some(Universal::External),
            9 => Some(Universal::Real),
            10 => Some(Universal::Enumerated),
            11 => Some(Universal::EmbeddedPdv),
            12 => Some(Universal::Utf8String),
            13 => Some(Universal::RelativeOid),
            14 => Some(Universal::Time),
            16 => Some(Universal::Sequence),
            17 => Some(Universal::Set),
            18 => Some(Universal::NumericString),
            19 => Some(Universal::PrintableString),
            20 => Some(Universal::TeletexString),
            21 => Some(Universal::VideotexString),
            22 => Some(Universal::Ia5String),
            23 => Some(Universal::UtcTime),
            24 => Some(Universal::GeneralizedTime),
            25 => Some(Universal::GraphicString),
            26 => Some(Universal::VisibleString),
            27 => Some(Universal::GeneralString),
            28 => Some(Universal::UniversalString),
            29 => Some(Universal::CharacterString),
            30 => Some(Universal::BmpString),
            31 => Some(Universal::Date),
            32 => Some(Universal::TimeOfDay),
            33 => Some(Universal::DateTime),
            34 => Some(Universal::Duration),
            35 => Some(Universal::OidIri),
            36 => Some(Universal::RelativeOidIri),
            _ => None,
        }
    }

    /// The tag number of the type.
    pub const fn number(self) -> u32
        ensures { result ≡ number_of self }
    {
        match self {
            Universal::Boolean => 1,
            Universal::Integer => 2,
            Universal::BitString => 3,
            Universal::OctetString => 4,
            Universal::Null => 5,
            Universal::ObjectIdentifier => 6,
            Universal::ObjectDescriptor => 7,
            Universal::External => 8,
            Universal::Real => 9,
            Universal::Enumerated => 10,
            Universal::EmbeddedPdv => 11,
            Universal::Utf8String => 12,
            Universal::RelativeOid => 13,
            Universal::Time => 14,
            Universal::Sequence => 16,
            Universal::Set => 17,
            Universal::NumericString => 18,
            Universal::PrintableString => 19,
            Universal::TeletexString => 20,
            Universal::VideotexString => 21,
            Universal::Ia5String => 22,
            Universal::UtcTime => 23,
            Universal::GeneralizedTime => 24,
            Universal::GraphicString => 25,
            Universal::VisibleString => 26,
            Universal::GeneralString => 27,
            Universal::UniversalString => 28,
            Universal::CharacterString => 29,
            Universal::BmpString => 30,
            Universal::Date => 31,
            Universal::TimeOfDay => 32,
            Universal::DateTime => 33,
            Universal::Duration => 34,
            Universal::OidIri => 35,
            Universal::RelativeOidIri => 36,
        }
    }

    /// The form that an encoding of the type has under the Basic Encoding Rules.
    pub const fn form(self) -> Form
        ensures { result ≡ form_of self }
    {
        match self {
            Universal::Boolean
            | Universal::Integer
            | Universal::Null
            | Universal::ObjectIdentifier
            | Universal::Real
            | Universal::Enumerated
            | Universal::RelativeOid
            | Universal::Time
            | Universal::Date
            | Universal::TimeOfDay
            | Universal::DateTime
            | Universal::Duration
            | Universal::OidIri
            | Universal::RelativeOidIri => Form::Primitive,
            Universal::External
            | Universal::EmbeddedPdv
            | Universal::Sequence
            | Universal::Set
            | Universal::CharacterString => Form::Constructed,
            _ => Form::Either,
        }
    }

    /// The name of the type in the notation of X.680. Types with one tag share a name: `EXTERNAL`
    /// is also returned for `INSTANCE OF`, `SEQUENCE` for `SEQUENCE OF`, and `SET` for `SET OF`.
    pub const fn name(self) -> &'static str
        ensures { result.now ≡ name_of self }
    {
        match self {
            Universal::Boolean => "BOOLEAN",
            Universal::Integer => "INTEGER",
            Universal::BitString => "BIT STRING",
            Universal::OctetString => "OCTET STRING",
            Universal::Null => "NULL",
            Universal::ObjectIdentifier => "OBJECT IDENTIFIER",
            Universal::ObjectDescriptor => "ObjectDescriptor",
            Universal::External => "EXTERNAL",
            Universal::Real => "REAL",
            Universal::Enumerated => "ENUMERATED",
            Universal::EmbeddedPdv => "EMBEDDED PDV",
            Universal::Utf8String => "UTF8String",
            Universal::RelativeOid => "RELATIVE-OID",
            Universal::Time => "TIME",
            Universal::Sequence => "SEQUENCE",
            Universal::Set => "SET",
            Universal::NumericString => "NumericString",
            Universal::PrintableString => "PrintableString",
            Universal::TeletexString => "TeletexString",
            Universal::VideotexString => "VideotexString",
            Universal::Ia5String => "IA5String",
            Universal::UtcTime => "UTCTime",
            Universal::GeneralizedTime => "GeneralizedTime",
            Universal::GraphicString => "GraphicString",
            Universal::VisibleString => "VisibleString",
            Universal::GeneralString => "GeneralString",
            Universal::UniversalString => "UniversalString",
            Universal::CharacterString => "CHARACTER STRING",
            Universal::BmpString => "BMPString",
            Universal::Date => "DATE",
            Universal::TimeOfDay => "TIME-OF-DAY",
            Universal::DateTime => "DATE-TIME",
            Universal::Duration => "DURATION",
            Universal::OidIri => "OID-IRI",
            Universal::RelativeOidIri => "RELATIVE-OID-IRI",
        }
    }
}
