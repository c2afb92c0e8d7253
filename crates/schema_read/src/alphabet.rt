//! Permitted alphabets.
ghost use Rattle.std.specs.Prelude.{◌≡◌, ◌↔◌, ℕ, true, false, IsTrue};
ghost use Rattle.der_base.specs.declared.encoding_rules.EncodingRules.{EncodingRules};
ghost use Rattle.schema_rules.specs.Characters.{characters_of, size_of};
ghost use Rattle.schema_types.specs.Allowed.{IsLimitOf};
ghost use Rattle.schema_types.specs.Span.{IsWithin};
ghost use Rattle.schema_types.specs.declared.limit.Limit.{Limit as ALimit};
ghost use Rattle.schema_types.specs.declared.limit_kind.LimitKind.TheVariants.{Alphabet};
ghost use Rattle.schema_read.specs.Constraints.{IsAllowedSize, AreAllowedCodes};
ghost use Rattle.schema_read.specs.Rule.{verdict_of_option};
ghost use Rattle.schema_read.specs.Types.{types_in};
ghost use Rattle.schema_read.specs.Verdict.{holds};

use crate::constraints::{end_of, has_allowed_size};
use crate::rule::Rule;
use crate::types::{is_code_allowed, limit_of};
use ber::Universal;
use schema_rules::Codes;
use schema_types::{Limit, LimitKind, Schema, Span};

/// Returns the constraint that a restricted character string breaks: the size constraint, or the
/// permitted alphabet. `None` if the string breaks neither. The string is given by its contents
/// octets.
pub(crate) fn text_rule(
    schema: &Schema<'_>,
    limits: Span,
    universal: Universal,
    contents: &[u8],
) -> Option<Rule>
    requires { IsWithin limits schema.now.counts.limits }
    ensures { (rules : EncodingRules) → (holds rules (verdict_of_option result) ≡ true)
        ↔ (IsAllowedSize (types_in schema.now.octets.now) limits (size_of universal contents.now)
        × AreAllowedCodes (types_in schema.now.octets.now) limits
        (characters_of universal contents.now)) }
{
    if !has_allowed_size(schema, limits, universal, contents) {
        return Some(Rule::Size);
    }
    if !are_codes_allowed(schema, limits, universal, contents) {
        return Some(Rule::Alphabet);
    }
    None
}

// Whether the code of each character of contents is in the permitted alphabet.
fn are_codes_allowed(
    schema: &Schema<'_>,
    limits: Span,
    universal: Universal,
    contents: &[u8],
) -> bool
    requires { IsWithin limits schema.now.counts.limits }
    ensures { IsTrue result ↔ AreAllowedCodes (types_in schema.now.octets.now) limits
        (characters_of universal contents.now) }
{
    if !has_alphabet(schema, limits) {
        return true;
    }
    let mut codes = Codes::of(universal, contents);
    while let Some((code, others)) = codes.split_first() {
        if !is_code_allowed(schema, limits, code) {
            return false;
        }
        codes = others;
    }
    true
}

// Whether a node has a permitted alphabet. Without one each character is allowed.
fn has_alphabet(schema: &Schema<'_>, limits: Span) -> bool
    requires { IsWithin limits schema.now.counts.limits }
    ensures { result ≡ false → (k : ℕ) (l : ALimit)
        → IsLimitOf (types_in schema.now.octets.now) limits Alphabet k l → ⊥ }
{
    for k in limits.start..end_of(limits, schema.counts().limits) {
        if is_alphabet(limit_of(schema, k)) {
            return true;
        }
    }
    false
}

fn is_alphabet(limit: Limit) -> bool
    ensures { IsTrue result ↔ (limit.kind ≡ Alphabet) }
{
    limit.kind == LimitKind::Alphabet
}
