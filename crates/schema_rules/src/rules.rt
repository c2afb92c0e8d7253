//! The rules of each type.
ghost use Rattle.std.specs.Prelude.{◌≡◌};
ghost use Rattle.schema_rules.specs.Rules.{rules_of, named_bits_rules};

use crate::contents_rule::ContentsRule;
use ber::Universal;

/// The rules for the contents octets of a type, in the order in which they are checked. Rules of
/// the Basic Encoding Rules come before rules that only DER has. Empty for a type that allows any
/// contents octets.
pub fn rules_of(universal: Universal) -> &'static [ContentsRule]
    ensures { result.now ≡ rules_of universal }
{
    match universal {
        Universal::Boolean => &[ContentsRule::BooleanLength, ContentsRule::BooleanValue],
        Universal::Integer | Universal::Enumerated => &[
            ContentsRule::IntegerEmpty,
            ContentsRule::IntegerLong,
        ],
        Universal::BitString => &[
            ContentsRule::BitStringEmpty,
            ContentsRule::UnusedBits,
            ContentsRule::UnusedBitsOfNone,
            ContentsRule::UnusedBitsNotZero,
        ],
        Universal::OctetString
        | Universal::ObjectDescriptor
        | Universal::TeletexString
        | Universal::VideotexString
        | Universal::GraphicString
        | Universal::GeneralString => &[],
        Universal::Null => &[ContentsRule::NullLength],
        Universal::ObjectIdentifier | Universal::RelativeOid => &[
            ContentsRule::IdentifierEmpty,
            ContentsRule::IdentifierCut,
            ContentsRule::IdentifierLong,
        ],
        Universal::External
        | Universal::EmbeddedPdv
        | Universal::Sequence
        | Universal::Set
        | Universal::CharacterString => &[ContentsRule::Constructed],
        Universal::Real => &[
            ContentsRule::RealSpecial,
            ContentsRule::RealBase,
            ContentsRule::RealExponent,
            ContentsRule::RealDecimal,
            ContentsRule::RealZero,
            ContentsRule::RealBaseTwo,
            ContentsRule::RealExponentLong,
            ContentsRule::RealMantissa,
            ContentsRule::RealForm,
            ContentsRule::RealDigits,
        ],
        Universal::Utf8String => &[ContentsRule::Utf8Characters],
        Universal::Time => &[ContentsRule::TimeCharacters],
        Universal::NumericString => &[ContentsRule::NumericCharacters],
        Universal::PrintableString => &[ContentsRule::PrintableCharacters],
        Universal::Ia5String => &[ContentsRule::Ia5Characters],
        Universal::UtcTime => &[
            ContentsRule::UtcTimeForm,
            ContentsRule::UtcTimeExists,
            ContentsRule::UtcTimeZone,
            ContentsRule::UtcTimeSeconds,
        ],
        Universal::GeneralizedTime => &[
            ContentsRule::GeneralizedTimeForm,
            ContentsRule::GeneralizedTimeExists,
            ContentsRule::GeneralizedTimeZone,
            ContentsRule::GeneralizedTimeSeconds,
            ContentsRule::GeneralizedTimeFraction,
            ContentsRule::GeneralizedTimePoint,
        ],
        Universal::VisibleString => &[ContentsRule::VisibleCharacters],
        Universal::UniversalString => &[ContentsRule::UniversalCharacters],
        Universal::BmpString => &[ContentsRule::BmpCharacters],
        Universal::Date => &[ContentsRule::DateForm, ContentsRule::DateExists],
        Universal::TimeOfDay => &[ContentsRule::TimeOfDayForm, ContentsRule::TimeOfDayExists],
        Universal::DateTime => &[ContentsRule::DateTimeForm, ContentsRule::DateTimeExists],
        Universal::Duration => &[ContentsRule::DurationCharacters],
        Universal::OidIri => &[ContentsRule::IriUtf8, ContentsRule::IriSolidus],
        Universal::RelativeOidIri => &[ContentsRule::IriUtf8, ContentsRule::RelativeIriSolidus],
    }
}

/// The rules for the contents octets of a BIT STRING with named bits, in the order in which they
/// are checked.
pub fn named_bits_rules() -> &'static [ContentsRule]
    ensures { result.now ≡ named_bits_rules }
{
    &[
        ContentsRule::BitStringEmpty,
        ContentsRule::UnusedBits,
        ContentsRule::UnusedBitsOfNone,
        ContentsRule::UnusedBitsNotZero,
        ContentsRule::TrailingZeroBits,
    ]
}
