//! Checks whether contents octets keep a rule.
ghost use Rattle.std.specs.Prelude.{◌≡◌};

use crate::characters::{is_printing, is_universal};
use crate::contents_rule::ContentsRule;
use crate::decimal::{has_decimal_form, has_nr3_form, has_short_decimal};
use crate::digits::are_digits;
use crate::generalized_time::{
    generalized_time_ends_in_z, generalized_time_exists, generalized_time_has_seconds,
    has_full_stop, has_generalized_time_form, has_short_fraction,
};
use crate::real::{
    has_base, has_base_two, has_odd_mantissa, has_short_exponent, has_special_form, has_value,
    has_whole_exponent,
};
use crate::small::{
    begins_with_solidus, begins_without_solidus, ends_whole, has_none_unused, has_octets,
    has_one_octet, has_unused_bits,
};
use crate::useful_times::{date_exists, date_time_exists, time_exists_at};
use crate::utc_time::{
    has_utc_time_form, utc_time_ends_in_z, utc_time_exists, utc_time_has_seconds,
};
use der_asn1::{
    BitStringGrammar, BmpStringGrammar, BooleanGrammar, ContentsGrammar, Ia5StringGrammar,
    IntegerGrammar, NamedBitsGrammar, NullGrammar, NumericStringGrammar, ObjectIdentifierGrammar,
    PrintableStringGrammar, Utf8StringGrammar, VisibleStringGrammar,
};

impl ContentsRule {
    ghost use Rattle.schema_rules.specs.Contents.{keeps};

    /// Whether contents octets keep this rule. The result has a meaning only if the contents keep
    /// all rules of their type that are checked before this one.
    pub fn is_kept(self, contents: &[u8]) -> bool
        ensures { result ≡ keeps self contents.now }
    {
        match self {
            ContentsRule::BooleanLength => has_one_octet(contents),
            ContentsRule::BooleanValue => BooleanGrammar::matches_grammar(contents),
            ContentsRule::IntegerEmpty
            | ContentsRule::BitStringEmpty
            | ContentsRule::IdentifierEmpty => has_octets(contents),
            ContentsRule::IntegerLong => IntegerGrammar::matches_grammar(contents),
            ContentsRule::UnusedBits => has_unused_bits(contents),
            ContentsRule::UnusedBitsOfNone => has_none_unused(contents),
            ContentsRule::UnusedBitsNotZero => BitStringGrammar::matches_grammar(contents),
            ContentsRule::TrailingZeroBits => NamedBitsGrammar::matches_grammar(contents),
            ContentsRule::NullLength => NullGrammar::matches_grammar(contents),
            ContentsRule::IdentifierCut => ends_whole(contents),
            ContentsRule::IdentifierLong => ObjectIdentifierGrammar::matches_grammar(contents),
            ContentsRule::RealSpecial => has_special_form(contents),
            ContentsRule::RealBase => has_base(contents),
            ContentsRule::RealExponent => has_whole_exponent(contents),
            ContentsRule::RealDecimal => has_decimal_form(contents),
            ContentsRule::RealZero => has_value(contents),
            ContentsRule::RealBaseTwo => has_base_two(contents),
            ContentsRule::RealExponentLong => has_short_exponent(contents),
            ContentsRule::RealMantissa => has_odd_mantissa(contents),
            ContentsRule::RealForm => has_nr3_form(contents),
            ContentsRule::RealDigits => has_short_decimal(contents),
            ContentsRule::Utf8Characters | ContentsRule::IriUtf8 =>
                Utf8StringGrammar::matches_grammar(contents),
            ContentsRule::NumericCharacters => NumericStringGrammar::matches_grammar(contents),
            ContentsRule::PrintableCharacters => PrintableStringGrammar::matches_grammar(contents),
            ContentsRule::Ia5Characters => Ia5StringGrammar::matches_grammar(contents),
            ContentsRule::VisibleCharacters => VisibleStringGrammar::matches_grammar(contents),
            ContentsRule::UniversalCharacters => is_universal(contents),
            ContentsRule::BmpCharacters => BmpStringGrammar::matches_grammar(contents),
            ContentsRule::UtcTimeForm => has_utc_time_form(contents),
            ContentsRule::UtcTimeExists => utc_time_exists(contents),
            ContentsRule::UtcTimeZone => utc_time_ends_in_z(contents),
            ContentsRule::UtcTimeSeconds => utc_time_has_seconds(contents),
            ContentsRule::GeneralizedTimeForm => has_generalized_time_form(contents),
            ContentsRule::GeneralizedTimeExists => generalized_time_exists(contents),
            ContentsRule::GeneralizedTimeZone => generalized_time_ends_in_z(contents),
            ContentsRule::GeneralizedTimeSeconds => generalized_time_has_seconds(contents),
            ContentsRule::GeneralizedTimeFraction => has_short_fraction(contents),
            ContentsRule::GeneralizedTimePoint => has_full_stop(contents),
            ContentsRule::TimeCharacters | ContentsRule::DurationCharacters => is_printing(
                contents,
            ),
            ContentsRule::DateForm => are_digits(contents, 8),
            ContentsRule::DateExists => date_exists(contents),
            ContentsRule::TimeOfDayForm => are_digits(contents, 6),
            ContentsRule::TimeOfDayExists => time_exists_at(contents, 0),
            ContentsRule::DateTimeForm => are_digits(contents, 14),
            ContentsRule::DateTimeExists => date_time_exists(contents),
            ContentsRule::IriSolidus => begins_with_solidus(contents),
            ContentsRule::RelativeIriSolidus => begins_without_solidus(contents),
            ContentsRule::Constructed => false,
        }
    }
}
