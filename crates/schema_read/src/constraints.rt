//! Constraints on values.
ghost use Rattle.std.specs.Prelude.{◌≡◌, ◌↔◌, ◌⊎◌, ◌+◌, ◌≤◌, true, IsTrue};
ghost use Rattle.der_base.specs.declared.encoding_rules.EncodingRules.{EncodingRules};
ghost use Rattle.schema_rules.specs.Characters.{size_of};
ghost use Rattle.schema_rules.specs.Values.{integer_value, IsInRange};
ghost use Rattle.schema_types.specs.Node.{IsNode};
ghost use Rattle.schema_types.specs.Span.{IsWithin};
ghost use Rattle.schema_types.specs.declared.limit_kind.LimitKind.TheVariants.{Value};
ghost use Rattle.schema_read.specs.Constraints.{IsAllowedValue, IsAllowedSize, IsListed, IsItem, IsConstrained, bound_of};
ghost use Rattle.schema_read.specs.declared.bound.Bound.TheVariants.{Items};
ghost use Rattle.schema_read.specs.Rule.{verdict_of_option};
ghost use Rattle.schema_read.specs.Types.{types_in};
ghost use Rattle.schema_read.specs.Verdict.{holds};

use crate::alphabet::text_rule;
use crate::bits::bits_rule;
use crate::bound::Bound;
use crate::rule::Rule;
use crate::types::{is_size_allowed, limit_of, name_of};
use ber::Universal;
use schema_rules::{is_in_range, size_of};
use schema_types::{Limit, LimitKind, Node, Schema, Span};

/// Whether the number that `contents` encode is in one of the value ranges among the rows `limits`.
/// True if there is no value range among these rows.
pub(crate) fn is_allowed_value(schema: &Schema<'_>, limits: Span, contents: &[u8]) -> bool
    requires { IsWithin limits schema.now.counts.limits }
    ensures { IsTrue result
        ↔ IsAllowedValue (types_in schema.now.octets.now) limits (integer_value contents.now) }
{
    let mut limited = false;
    for k in limits.start..end_of(limits, schema.counts().limits) {
        let limit = limit_of(schema, k);
        if is_of_values(limit) {
            if allows(limit, contents) {
                return true;
            }
            limited = true;
        }
    }
    !limited
}

/// The index after the last row of the range `span`. `rows` is the number of rows of the section.
pub(crate) fn end_of(span: Span, rows: u32) -> u32
    requires { span.start + span.count ≤ rows }
    ensures { result ≡ span.start + span.count }
{
    span.start + span.count
}

fn is_of_values(limit: Limit) -> bool
    ensures { IsTrue result ↔ (limit.kind ≡ Value) }
{
    limit.kind == LimitKind::Value
}

fn allows(limit: Limit, contents: &[u8]) -> bool
    ensures { IsTrue result ↔ IsInRange limit.low limit.high (integer_value contents.now) }
{
    is_in_range(contents, limit.low, limit.high)
}

// Whether the number that contents encode is that of a name.
fn is_listed(schema: &Schema<'_>, names: Span, contents: &[u8]) -> bool
    requires { IsWithin names schema.now.counts.names }
    ensures { IsTrue result
        ↔ IsListed (types_in schema.now.octets.now) names (integer_value contents.now) }
{
    for k in names.start..end_of(names, schema.counts().names) {
        let name = name_of(schema, k);
        if is_in_range(contents, name.number, name.number) {
            return true;
        }
    }
    false
}

// Whether the number that contents encode is one of an ENUMERATED.
fn is_item(schema: &Schema<'_>, node: Node, contents: &[u8]) -> bool
    requires { IsWithin node.parts schema.now.counts.names }
    ensures { IsTrue result
        ↔ IsItem (types_in schema.now.octets.now) node (integer_value contents.now) }
{
    node.extensible || node.parts.count == 0 || is_listed(schema, node.parts, contents)
}

/// Returns the constraint of a node that the contents octets of a primitive encoding break. `None`
/// if they break no constraint.
pub(crate) fn constraint_rule(
    schema: &Schema<'_>,
    node: Node,
    universal: Universal,
    contents: &[u8],
) -> Option<Rule>
    requires fits { IsNode schema.now.counts schema.now.pool.now node }
    requires names { bound_of universal ≡ Items → IsWithin node.parts schema.now.counts.names }
    ensures { (rules : EncodingRules) → (holds rules (verdict_of_option result) ≡ true)
        ↔ IsConstrained rules (types_in schema.now.octets.now) node universal contents.now }
{
    match Bound::of(universal) {
        Bound::Numbers => value_rule(schema, node.limits, contents),
        Bound::Items => {
            if is_allowed_value(schema, node.limits, contents) {
                item_rule(schema, node, contents)
            } else {
                Some(Rule::ValueRange)
            }
        }
        Bound::Bits => bits_rule(schema, node, universal, contents),
        Bound::Characters => text_rule(schema, node.limits, universal, contents),
        Bound::Sizes => size_rule(schema, node.limits, universal, contents),
    }
}

fn value_rule(schema: &Schema<'_>, limits: Span, contents: &[u8]) -> Option<Rule>
    requires { IsWithin limits schema.now.counts.limits }
    ensures { (rules : EncodingRules) → (holds rules (verdict_of_option result) ≡ true)
        ↔ IsAllowedValue (types_in schema.now.octets.now) limits (integer_value contents.now) }
{
    if is_allowed_value(schema, limits, contents) {
        None
    } else {
        Some(Rule::ValueRange)
    }
}

/// Returns the size constraint if contents octets break it; otherwise `None`.
pub(crate) fn size_rule(
    schema: &Schema<'_>,
    limits: Span,
    universal: Universal,
    contents: &[u8],
) -> Option<Rule>
    requires { IsWithin limits schema.now.counts.limits }
    ensures { (rules : EncodingRules) → (holds rules (verdict_of_option result) ≡ true)
        ↔ IsAllowedSize (types_in schema.now.octets.now) limits (size_of universal contents.now) }
{
    if has_allowed_size(schema, limits, universal, contents) {
        None
    } else {
        Some(Rule::Size)
    }
}

/// Whether the size of a value is in one of the size ranges among the rows `limits`. True if there
/// is no size range among these rows. The value is given by its contents octets.
pub(crate) fn has_allowed_size(
    schema: &Schema<'_>,
    limits: Span,
    universal: Universal,
    contents: &[u8],
) -> bool
    requires { IsWithin limits schema.now.counts.limits }
    ensures { IsTrue result
        ↔ IsAllowedSize (types_in schema.now.octets.now) limits (size_of universal contents.now) }
{
    is_size_allowed(schema, limits, size_of(universal, contents))
}

fn item_rule(schema: &Schema<'_>, node: Node, contents: &[u8]) -> Option<Rule>
    requires { IsWithin node.parts schema.now.counts.names }
    ensures { (rules : EncodingRules) → (holds rules (verdict_of_option result) ≡ true)
        ↔ IsItem (types_in schema.now.octets.now) node (integer_value contents.now) }
{
    if is_item(schema, node, contents) {
        None
    } else {
        Some(Rule::Unlisted)
    }
}

/// Returns the size constraint if a list with `count` items breaks it; otherwise `None`.
pub(crate) fn count_rule(schema: &Schema<'_>, limits: Span, count: usize) -> Option<Rule>
    requires { IsWithin limits schema.now.counts.limits }
    ensures { (rules : EncodingRules) → (holds rules (verdict_of_option result) ≡ true)
        ↔ IsAllowedSize (types_in schema.now.octets.now) limits count }
{
    if is_size_allowed(schema, limits, count) {
        None
    } else {
        Some(Rule::Size)
    }
}
