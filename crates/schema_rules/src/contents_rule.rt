//! The rules of contents octets.
ghost use Rattle.std.specs.Prelude.{◌≡◌};

use std::fmt;

/// A rule for the contents octets of a primitive encoding (X.690 8.2 to 8.26, 11). Each variant
/// states what the standard demands. [`ContentsRule::section`] returns the section of the standard.
/// The variants for a type are in the order in which they are checked.
#[derive(Debug, Clone, Copy, PartialEq, Eq)]
pub enum ContentsRule {
    /// A BOOLEAN must have one octet.
    BooleanLength,
    /// The octet of a BOOLEAN must be `0x00` or `0xFF`.
    BooleanValue,
    /// An INTEGER or ENUMERATED must have at least one octet.
    IntegerEmpty,
    /// The first nine bits of an INTEGER or ENUMERATED must not all be equal.
    IntegerLong,
    /// A BIT STRING must have an initial octet.
    BitStringEmpty,
    /// The initial octet of a BIT STRING, which is the number of unused bits, must be at most
    /// seven.
    UnusedBits,
    /// The initial octet of a BIT STRING without bits must be zero.
    UnusedBitsOfNone,
    /// Each unused bit of a BIT STRING must be zero.
    UnusedBitsNotZero,
    /// A BIT STRING with named bits must have no trailing zero bits.
    TrailingZeroBits,
    /// A NULL must have no octets.
    NullLength,
    /// An OBJECT IDENTIFIER or RELATIVE-OID must have at least one subidentifier.
    IdentifierEmpty,
    /// Bit 8 of the last octet of an OBJECT IDENTIFIER or RELATIVE-OID must be zero.
    IdentifierCut,
    /// No subidentifier of an OBJECT IDENTIFIER or RELATIVE-OID may begin with the octet `0x80`.
    IdentifierLong,
    /// A special value of REAL must be a single octet from `0x40` to `0x43`.
    RealSpecial,
    /// The base of a binary REAL must not be the reserved one.
    RealBase,
    /// The exponent of a binary REAL must have as many octets as the octets before it announce. If
    /// the number of its octets is given by an octet of its own, that number must be at least one,
    /// and the first nine bits of the exponent must not all be equal.
    RealExponent,
    /// A decimal REAL must be a number of the form NR1, NR2 or NR3 of ISO 6093.
    RealDecimal,
    /// A REAL that is zero must have no octets, or must be the special value minus zero.
    RealZero,
    /// A binary REAL must have base 2 and the scaling factor zero.
    RealBaseTwo,
    /// The exponent of a binary REAL must have the fewest octets possible. The number of its octets
    /// must be given by an octet of its own only if that number is above three.
    RealExponentLong,
    /// The mantissa of a binary REAL must be odd and have the fewest octets possible.
    RealMantissa,
    /// A decimal REAL must have the form NR3 of ISO 6093.
    RealForm,
    /// The digits of a decimal REAL must have the form `[-]m.E[-]e` or `[-]m.E+0`. The number `m`
    /// must neither begin nor end with 0, and `e` must not begin with 0.
    RealDigits,
    /// A UTF8String must be UTF-8, with each character in the fewest octets possible.
    Utf8Characters,
    /// A NumericString must have only digits and spaces.
    NumericCharacters,
    /// A PrintableString must have only letters, digits, spaces and the characters `'()+,-./:=?`.
    PrintableCharacters,
    /// An IA5String must have only characters of 7 bits.
    Ia5Characters,
    /// A VisibleString must have only spaces and printing characters of 7 bits.
    VisibleCharacters,
    /// A UniversalString must have only whole characters of four octets. Each character must be at
    /// most 10FFFF, and must not be a surrogate.
    UniversalCharacters,
    /// A BMPString must have only whole characters of two octets. No character may be a surrogate.
    BmpCharacters,
    /// A UTCTime must have the form `YYMMDDhhmm[ss](Z|+hhmm|-hhmm)`.
    UtcTimeForm,
    /// The date, the time and the difference from UTC of a UTCTime must exist. Its two digits of
    /// the year stand for a year from 1950 to 2049. Second 60 does not exist.
    UtcTimeExists,
    /// A UTCTime must end in Z.
    UtcTimeZone,
    /// A UTCTime must have seconds.
    UtcTimeSeconds,
    /// A GeneralizedTime must have the form `YYYYMMDDhh[mm[ss]][(.|,)f..][Z|+hh[mm]|-hh[mm]]`.
    GeneralizedTimeForm,
    /// The date, the time and the difference from UTC of a GeneralizedTime must exist. Second 60
    /// and hour 24 do not exist.
    GeneralizedTimeExists,
    /// A GeneralizedTime must end in Z.
    GeneralizedTimeZone,
    /// A GeneralizedTime must have seconds.
    GeneralizedTimeSeconds,
    /// A fraction of a second in a GeneralizedTime must not end in 0.
    GeneralizedTimeFraction,
    /// A fraction of a second in a GeneralizedTime must begin with a full stop.
    GeneralizedTimePoint,
    /// A TIME must have at least one character, and only printing characters. Its form is not
    /// checked.
    TimeCharacters,
    /// A DATE must have the form `YYYYMMDD`.
    DateForm,
    /// The date of a DATE must exist, and must be in the year 1582 or later.
    DateExists,
    /// A TIME-OF-DAY must have the form `hhmmss`.
    TimeOfDayForm,
    /// The time of a TIME-OF-DAY must exist. 24:00:00 exists, second 60 does not.
    TimeOfDayExists,
    /// A DATE-TIME must have the form `YYYYMMDDhhmmss`.
    DateTimeForm,
    /// The date and the time of a DATE-TIME must exist, by the rules for DATE and TIME-OF-DAY.
    DateTimeExists,
    /// A DURATION must have at least one character, and only printing characters. Its form is not
    /// checked.
    DurationCharacters,
    /// An OID-IRI or RELATIVE-OID-IRI must be UTF-8.
    IriUtf8,
    /// An OID-IRI must begin with a solidus (`/`).
    IriSolidus,
    /// A RELATIVE-OID-IRI must have at least one character, and must not begin with a solidus
    /// (`/`).
    RelativeIriSolidus,
    /// The encoding must not be primitive, since the type is SEQUENCE, SET, EXTERNAL, EMBEDDED PDV
    /// or CHARACTER STRING. Every primitive encoding of one of these types breaks this rule.
    Constructed,
}

impl ContentsRule {
    ghost use Rattle.schema_rules.specs.Rules.{is_of_der, section_of};

    /// Whether only the Distinguished Encoding Rules have this rule. Contents that break it are
    /// then BER but not DER, if they keep all rules of their type that are checked before it.
    pub const fn is_ber(self) -> bool
        ensures { result ≡ is_of_der self }
    {
        matches!(
            self,
            ContentsRule::BooleanValue
                | ContentsRule::UnusedBitsNotZero
                | ContentsRule::TrailingZeroBits
                | ContentsRule::RealBaseTwo
                | ContentsRule::RealExponentLong
                | ContentsRule::RealMantissa
                | ContentsRule::RealForm
                | ContentsRule::RealDigits
                | ContentsRule::UtcTimeZone
                | ContentsRule::UtcTimeSeconds
                | ContentsRule::GeneralizedTimeZone
                | ContentsRule::GeneralizedTimeSeconds
                | ContentsRule::GeneralizedTimeFraction
                | ContentsRule::GeneralizedTimePoint
        )
    }

    /// The standard and the section in which the rule is, such as `X.690 8.3.2`.
    pub const fn section(self) -> &'static str
        ensures { result.now ≡ section_of self }
    {
        match self {
            ContentsRule::BooleanLength => "X.690 8.2.1",
            ContentsRule::BooleanValue => "X.690 11.1",
            ContentsRule::IntegerEmpty => "X.690 8.3.1",
            ContentsRule::IntegerLong => "X.690 8.3.2",
            ContentsRule::BitStringEmpty => "X.690 8.6.2.1",
            ContentsRule::UnusedBits => "X.690 8.6.2.2",
            ContentsRule::UnusedBitsOfNone => "X.690 8.6.2.3",
            ContentsRule::UnusedBitsNotZero => "X.690 11.2.1",
            ContentsRule::TrailingZeroBits => "X.690 11.2.2",
            ContentsRule::NullLength => "X.690 8.8.2",
            ContentsRule::IdentifierEmpty
            | ContentsRule::IdentifierCut
            | ContentsRule::IdentifierLong => "X.690 8.19.2",
            ContentsRule::RealSpecial => "X.690 8.5.9",
            ContentsRule::RealBase => "X.690 8.5.7.2",
            ContentsRule::RealExponent => "X.690 8.5.7.4",
            ContentsRule::RealDecimal => "X.690 8.5.8",
            ContentsRule::RealZero => "X.690 8.5.2",
            ContentsRule::RealBaseTwo
            | ContentsRule::RealExponentLong
            | ContentsRule::RealMantissa => "X.690 11.3.1",
            ContentsRule::RealForm => "X.690 11.3.2.1",
            ContentsRule::RealDigits => "X.690 11.3.2.2 to 11.3.2.6",
            ContentsRule::Utf8Characters => "X.690 8.23.10",
            ContentsRule::NumericCharacters => "X.680 41.2",
            ContentsRule::PrintableCharacters => "X.680 41.4",
            ContentsRule::Ia5Characters | ContentsRule::VisibleCharacters => "X.680 41.1",
            ContentsRule::UniversalCharacters => "X.690 8.23.7",
            ContentsRule::BmpCharacters => "X.690 8.23.8",
            ContentsRule::UtcTimeForm | ContentsRule::UtcTimeExists => "X.680 47",
            ContentsRule::UtcTimeZone => "X.690 11.8.1",
            ContentsRule::UtcTimeSeconds => "X.690 11.8.2",
            ContentsRule::GeneralizedTimeForm | ContentsRule::GeneralizedTimeExists => "X.680 46",
            ContentsRule::GeneralizedTimeZone => "X.690 11.7.1",
            ContentsRule::GeneralizedTimeSeconds => "X.690 11.7.2",
            ContentsRule::GeneralizedTimeFraction => "X.690 11.7.3",
            ContentsRule::GeneralizedTimePoint => "X.690 11.7.4",
            ContentsRule::TimeCharacters => "X.690 8.26.1",
            ContentsRule::DateForm
            | ContentsRule::DateExists
            | ContentsRule::TimeOfDayForm
            | ContentsRule::TimeOfDayExists
            | ContentsRule::DateTimeForm
            | ContentsRule::DateTimeExists
            | ContentsRule::DurationCharacters => "X.690 8.26",
            ContentsRule::IriUtf8 | ContentsRule::IriSolidus => "X.690 8.21",
            ContentsRule::RelativeIriSolidus => "X.690 8.22",
            ContentsRule::Constructed => "X.690 8.9 to 8.11, 8.17, 8.18, 8.24",
        }
    }
}

/// Prints in a few words what the rule demands.
impl fmt::Display for ContentsRule {
    ghost use Rattle.std.specs.Prelude.{Some};
    ghost use Rattle.schema_rules.specs.Words.{words_of};

    ghost output = { λ r. Some (words_of r) };

    fn fmt<W: fmt::Write>(&self, f: &mut fmt::Formatter<W>) -> fmt::Result {
        f.write_str(match self {
            ContentsRule::BooleanLength => "a BOOLEAN has one octet",
            ContentsRule::BooleanValue => "the octet of TRUE is FF",
            ContentsRule::IntegerEmpty => "an integer has one octet or more",
            ContentsRule::IntegerLong => "the first nine bits of an integer are not all equal",
            ContentsRule::BitStringEmpty => "a BIT STRING has an initial octet",
            ContentsRule::UnusedBits => "the number of unused bits is zero to seven",
            ContentsRule::UnusedBitsOfNone => "an empty BIT STRING has no unused bits",
            ContentsRule::UnusedBitsNotZero => "unused bits are zero",
            ContentsRule::TrailingZeroBits =>
                "a BIT STRING with named bits has no trailing zero bits",
            ContentsRule::NullLength => "a NULL has no octets",
            ContentsRule::IdentifierEmpty => "an object identifier has one subidentifier or more",
            ContentsRule::IdentifierCut =>
                "the last subidentifier of an object identifier is whole",
            ContentsRule::IdentifierLong => "no subidentifier begins with octet 80",
            ContentsRule::RealSpecial => "a special REAL is one octet, 40 to 43",
            ContentsRule::RealBase => "the base of a binary REAL is 2, 8 or 16",
            ContentsRule::RealExponent => "the exponent of a binary REAL is whole",
            ContentsRule::RealDecimal => "a decimal REAL has the form NR1, NR2 or NR3",
            ContentsRule::RealZero => "the REAL zero has no octets",
            ContentsRule::RealBaseTwo => "a binary REAL has base 2 and scaling factor zero",
            ContentsRule::RealExponentLong => "the exponent of a REAL has the fewest octets",
            ContentsRule::RealMantissa => "the mantissa of a REAL is odd and has the fewest octets",
            ContentsRule::RealForm => "a decimal REAL has the form NR3",
            ContentsRule::RealDigits =>
                "a decimal REAL has no spaces, plus signs or needless zeros",
            ContentsRule::Utf8Characters => "a UTF8String is UTF-8",
            ContentsRule::NumericCharacters => "a NumericString has digits and spaces",
            ContentsRule::PrintableCharacters =>
                "a PrintableString has letters, digits, spaces and '()+,-./:=?",
            ContentsRule::Ia5Characters => "an IA5String has characters of 7 bits",
            ContentsRule::VisibleCharacters => "a VisibleString has printing characters of 7 bits",
            ContentsRule::UniversalCharacters =>
                "a UniversalString has whole characters of four octets",
            ContentsRule::BmpCharacters => "a BMPString has whole characters of two octets",
            ContentsRule::UtcTimeForm => "a UTCTime has the form YYMMDDhhmm[ss](Z|+hhmm|-hhmm)",
            ContentsRule::UtcTimeExists => "the date and time of a UTCTime exist",
            ContentsRule::UtcTimeZone => "a UTCTime ends in Z",
            ContentsRule::UtcTimeSeconds => "a UTCTime has seconds",
            ContentsRule::GeneralizedTimeForm =>
                "a GeneralizedTime has the form YYYYMMDDhh[mm[ss]][.f][Z|+hh[mm]|-hh[mm]]",
            ContentsRule::GeneralizedTimeExists => "the date and time of a GeneralizedTime exist",
            ContentsRule::GeneralizedTimeZone => "a GeneralizedTime ends in Z",
            ContentsRule::GeneralizedTimeSeconds => "a GeneralizedTime has seconds",
            ContentsRule::GeneralizedTimeFraction => "a fraction of a second does not end in 0",
            ContentsRule::GeneralizedTimePoint => "a fraction of a second begins with a full stop",
            ContentsRule::TimeCharacters => "a TIME has printing characters",
            ContentsRule::DateForm => "a DATE has the form YYYYMMDD",
            ContentsRule::DateExists => "the date exists",
            ContentsRule::TimeOfDayForm => "a TIME-OF-DAY has the form hhmmss",
            ContentsRule::TimeOfDayExists => "the time of day exists",
            ContentsRule::DateTimeForm => "a DATE-TIME has the form YYYYMMDDhhmmss",
            ContentsRule::DateTimeExists => "the date and the time exist",
            ContentsRule::DurationCharacters => "a DURATION has printing characters",
            ContentsRule::IriUtf8 => "an OID-IRI is UTF-8",
            ContentsRule::IriSolidus => "an OID-IRI begins with a solidus",
            ContentsRule::RelativeIriSolidus =>
                "a RELATIVE-OID-IRI has characters, and does not begin with a solidus",
            ContentsRule::Constructed => "the encoding is constructed",
        })
    }
}
