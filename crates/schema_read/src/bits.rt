//! Constraints on BIT STRINGs.
ghost use Rattle.std.specs.Prelude.{◌≡◌, ◌↔◌, ◌+◌, ◌<◌, ◌≤◌, ℕ, ℤ, pos, true, IsTrue, IfSome, IfNone};
ghost use Rattle.der_base.specs.declared.encoding_rules.EncodingRules.{EncodingRules};
ghost use Rattle.schema_rules.specs.Characters.{AreZeroFrom};
ghost use Rattle.schema_rules.specs.Contents.{IsNamedBits};
ghost use Rattle.schema_types.specs.Allowed.{IsBetween};
ghost use Rattle.schema_types.specs.Span.{IsWithin};
ghost use Rattle.schema_types.specs.declared.limit_kind.LimitKind.TheVariants.{Size};
ghost use Rattle.schema_read.specs.Constraints.{AreBitsKept, HasAllowedSize, counted};
ghost use Rattle.schema_read.specs.Rule.{verdict_of_option};
ghost use Rattle.schema_read.specs.Types.{types_in};
ghost use Rattle.schema_read.specs.Verdict.{holds};

use crate::constraints::{end_of, size_rule};
use crate::rule::Rule;
use crate::types::limit_of;
use ber::Universal;
use schema_rules::{are_zero_from, named_bits_rule};
use schema_types::{Limit, LimitKind, Node, Schema, Span};

/// Returns the constraint that the contents octets of a BIT STRING break: the size constraint, or
/// that of named bits. `None` if they break neither. If there are named bits, zero bits at the end
/// do not count: some string without them, or with more of them, has to have an allowed size.
pub(crate) fn bits_rule(
    schema: &Schema<'_>,
    node: Node,
    universal: Universal,
    contents: &[u8],
) -> Option<Rule>
    requires { IsWithin node.limits schema.now.counts.limits }
    ensures { (rules : EncodingRules) → (holds rules (verdict_of_option result) ≡ true)
        ↔ AreBitsKept node.parts.count rules (types_in schema.now.octets.now) node.limits universal
        contents.now }
{
    if node.parts.count == 0 {
        return size_rule(schema, node.limits, universal, contents);
    }
    named_rule(schema, node.limits, contents)
}

// The constraint that a BIT STRING with named bits breaks.
fn named_rule(schema: &Schema<'_>, limits: Span, contents: &[u8]) -> Option<Rule>
    requires { IsWithin limits schema.now.counts.limits }
    ensures { (rules : EncodingRules) → (holds rules (verdict_of_option result) ≡ true)
        ↔ (HasAllowedSize (types_in schema.now.octets.now) limits contents.now
        × IsNamedBits rules contents.now) }
{
    if !has_size_with_zeros(schema, limits, contents) {
        return Some(Rule::Size);
    }
    match named_bits_rule(contents) {
        Some(rule) => Some(Rule::Contents(rule)),
        None => None,
    }
}

// Whether some string has an allowed size that differs from this one in zero bits at its end alone.
fn has_size_with_zeros(schema: &Schema<'_>, limits: Span, contents: &[u8]) -> bool
    requires { IsWithin limits schema.now.counts.limits }
    ensures { IsTrue result
        ↔ HasAllowedSize (types_in schema.now.octets.now) limits contents.now }
{
    let mut limited = false;
    for k in limits.start..end_of(limits, schema.counts().limits) {
        let limit = limit_of(schema, k);
        if is_of_sizes(limit) {
            if has_size_between(limit, contents) {
                return true;
            }
            limited = true;
        }
    }
    !limited
}

fn is_of_sizes(limit: Limit) -> bool
    ensures { IsTrue result ↔ (limit.kind ≡ Size) }
{
    limit.kind == LimitKind::Size
}

// Whether one of these sizes is that of such a string.
fn has_size_between(limit: Limit, contents: &[u8]) -> bool
    ensures { IsTrue result ↔ ((size : ℕ) × AreZeroFrom size contents.now
        × IsBetween limit (pos (counted size))) }
{
    if limit.low > limit.high {
        return false;
    }
    match greatest_size(limit.high) {
        Some(size) => size == 0x7FFF_FFFF_FFFF_FFFF || are_zero_from(contents, size),
        None => false,
    }
}

// A number as a size; `None` if it is negative.
fn greatest_size(high: i64) -> Option<u64>
    ensures size { IfSome result (λ n. high ≡ pos n) }
    ensures none { IfNone result ((n : ℕ) → high ≡ pos n → ⊥) }
{
    if high < 0 { None } else { Some(high as u64) }
}
