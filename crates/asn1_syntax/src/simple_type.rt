//! Built-in types that are not made of other types.

/// A built-in type that is not made of other types, such as `BOOLEAN` or `OCTET STRING`.
#[derive(Clone, Copy, PartialEq, Eq)]
pub enum SimpleType {
    Boolean,
    OctetString,
    Null,
    ObjectIdentifier,
    Utf8String,
    NumericString,
    PrintableString,
    TeletexString,
    Ia5String,
    VisibleString,
    BmpString,
    UtcTime,
    GeneralizedTime,
    /// Another built-in type, such as `REAL`. The `u8` is the number of its universal tag.
    Unknown(u8),
    /// A SEQUENCE whose components are not known, as `SEQUENCE { ... }`.
    Unread,
    /// `ANY`: a value of any type.
    Any,
}

impl SimpleType {
    /// The type that is written as the single word `word`; `None` for any other word.
    pub fn of(word: &str) -> Option<Self> {
        match word {
            "BOOLEAN" => Some(SimpleType::Boolean),
            "NULL" => Some(SimpleType::Null),
            "UTF8String" => Some(SimpleType::Utf8String),
            "NumericString" => Some(SimpleType::NumericString),
            "PrintableString" => Some(SimpleType::PrintableString),
            "TeletexString" | "T61String" => Some(SimpleType::TeletexString),
            "IA5String" => Some(SimpleType::Ia5String),
            "VisibleString" | "ISO646String" => Some(SimpleType::VisibleString),
            "BMPString" => Some(SimpleType::BmpString),
            "UTCTime" => Some(SimpleType::UtcTime),
            "GeneralizedTime" => Some(SimpleType::GeneralizedTime),
            "ObjectDescriptor" => Some(SimpleType::Unknown(7)),
            "EXTERNAL" => Some(SimpleType::Unknown(8)),
            "REAL" => Some(SimpleType::Unknown(9)),
            "RELATIVE-OID" => Some(SimpleType::Unknown(13)),
            "VideotexString" => Some(SimpleType::Unknown(21)),
            "GraphicString" => Some(SimpleType::Unknown(25)),
            "GeneralString" => Some(SimpleType::Unknown(27)),
            "UniversalString" => Some(SimpleType::Unknown(28)),
            _ => None,
        }
    }

    /// The number of the universal tag of the type (X.680, 8.4); `None` for `ANY`.
    pub fn tag_number(self) -> Option<u64> {
        match self {
            SimpleType::Boolean => Some(1),
            SimpleType::OctetString => Some(4),
            SimpleType::Null => Some(5),
            SimpleType::ObjectIdentifier => Some(6),
            SimpleType::Utf8String => Some(12),
            SimpleType::NumericString => Some(18),
            SimpleType::PrintableString => Some(19),
            SimpleType::TeletexString => Some(20),
            SimpleType::Ia5String => Some(22),
            SimpleType::VisibleString => Some(26),
            SimpleType::BmpString => Some(30),
            SimpleType::UtcTime => Some(23),
            SimpleType::GeneralizedTime => Some(24),
            SimpleType::Unknown(number) => Some(u64::from(number)),
            SimpleType::Unread => Some(16),
            SimpleType::Any => None,
        }
    }

    /// Whether the compiler supports the type everywhere. If this is false, only an alternative of
    /// a CHOICE may have the type. The compiler leaves that alternative out.
    pub fn is_compiled(self) -> bool {
        match self {
            SimpleType::Unknown(number) => matches!(number, 9 | 13 | 21 | 27),
            _ => true,
        }
    }

    /// Whether values of the type are written as characters in quotation marks. Also true for
    /// `Unread`, whose values are not checked.
    pub fn is_text(self) -> bool {
        match self {
            SimpleType::Boolean
            | SimpleType::OctetString
            | SimpleType::Null
            | SimpleType::ObjectIdentifier
            | SimpleType::Unknown(_)
            | SimpleType::Any => false,
            _ => true,
        }
    }
}
