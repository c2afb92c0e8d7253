//! Access to the rows of a table of types.
ghost use Rattle.std.specs.Prelude.{◌≡◌, ◌↔◌, ◌<◌, pos, IsTrue, Some, slice_get, IfSome, IfNone};
ghost use Rattle.schema_types.specs.Field.{IsField};
ghost use Rattle.schema_types.specs.Node.{IsNode};
ghost use Rattle.schema_types.specs.Table.{IsAscending};
ghost use Rattle.schema_types.specs.Pool.{octets_of};
ghost use Rattle.schema_types.specs.declared.presence.Presence.TheVariants.{Default};
ghost use Rattle.schema_types.specs.Tags.{IsSelected, Begins};
ghost use Rattle.schema_types.specs.Chosen.{ChoosesRow, ChoosesNoRow};
ghost use Rattle.schema_types.specs.declared.node_kind.NodeKind.TheVariants.{Open};
ghost use Rattle.schema_types.specs.declared.open_type.OpenType.{OpenType as Other};
ghost use Rattle.schema_types.specs.Span.{IsWithin};
ghost use Rattle.schema_read.specs.Constraints.{IsAllowedSize, IsAllowedCode, counted};
ghost use Rattle.schema_read.specs.Types.{types_in};

use der_base::Class;
use schema_types::{Field, Limit, LimitKind, Name, Node, OpenType, Schema, Selected, Span};

/// The node with this index. The caller must ensure that there is one.
#[tactic(auto, unfolding(crate::specs::Types::types_in))]
pub fn node_of(schema: &Schema<'_>, index: u32) -> Node
    requires { index < schema.now.counts.nodes }
    ensures value { slice_get (types_in schema.now.octets.now).nodes index ≡ Some result }
    ensures fits { IsNode schema.now.counts schema.now.pool.now result }
    ensures ascending { IsAscending schema.now.counts schema.now.octets.now result }
{
    schema.node(index)
}

/// The field with this index. The caller must ensure that there is one.
#[tactic(auto, unfolding(crate::specs::Types::types_in))]
pub fn field_of(schema: &Schema<'_>, index: u32) -> Field
    requires { index < schema.now.counts.fields }
    ensures value { slice_get (types_in schema.now.octets.now).fields index ≡ Some result }
    ensures fits { IsField schema.now.counts schema.now.pool.now result }
{
    schema.field(index)
}

/// The DER encoding of the DEFAULT value of a field. The caller must ensure that the field has one.
#[tactic(auto, unfolding(crate::specs::Types::types_in))]
pub fn default_of<'a>(schema: &Schema<'a>, field: Field) -> &'a [u8]
    requires fits { IsField schema.now.counts schema.now.pool.now field }
    requires there { field.presence ≡ Default }
    ensures { result.now ≡ octets_of (types_in schema.now.octets.now).pool field.default }
{
    schema.octets_of(field.default)
}

/// Calls `Schema::select`. Returns the node that is the type of a value, if the value belongs to
/// the node `index` and begins with this tag.
#[tactic(auto, unfolding(crate::specs::Types::types_in))]
pub fn select(schema: &Schema<'_>, index: u32, class: Class, number: u32) -> Option<Selected>
    requires { index < schema.now.counts.nodes }
    ensures found { IfSome result (λ s. IsSelected (types_in schema.now.octets.now) index class
        number s.field s.node) }
    ensures there { IfSome result (λ s. s.node < schema.now.counts.nodes) }
    ensures none { IfNone result (Begins (types_in schema.now.octets.now) index class number → ⊥) }
{
    schema.select(index, class, number)
}

/// The type that an OBJECT IDENTIFIER chooses for an open type. `identifier` has the contents
/// octets of the OBJECT IDENTIFIER.
#[tactic(auto, unfolding(crate::specs::Types::types_in))]
pub(crate) fn find_type(schema: &Schema<'_>, node: &Node, identifier: &[u8]) -> Option<OpenType>
    requires kind { node.now.kind ≡ Open }
    requires fits { IsNode schema.now.counts schema.now.pool.now node.now }
    requires ascending { IsAscending schema.now.counts schema.now.octets.now node.now }
    ensures found { IfSome result
        (ChoosesRow (types_in schema.now.octets.now) node.now.parts identifier.now) }
    ensures there { IfSome result (λ o. o.node < schema.now.counts.nodes) }
    ensures single { IfSome result (λ o. (p : Other)
        → ChoosesRow (types_in schema.now.octets.now) node.now.parts identifier.now p → p ≡ o) }
    ensures none { IfNone result
        (ChoosesNoRow (types_in schema.now.octets.now) node.now.parts identifier.now) }
{
    match schema.find_open_type(node.parts, identifier) {
        Some(chosen) => Some(chosen),
        None => None,
    }
}

/// The limit with this index. The caller must ensure that there is one.
#[tactic(auto, unfolding(crate::specs::Types::types_in))]
pub(crate) fn limit_of(schema: &Schema<'_>, index: u32) -> Limit
    requires { index < schema.now.counts.limits }
    ensures { slice_get (types_in schema.now.octets.now).limits index ≡ Some result }
{
    schema.limit(index)
}

/// The row with this index in the section of names of numbers. The caller must ensure that there is
/// one.
#[tactic(auto, unfolding(crate::specs::Types::types_in))]
pub(crate) fn name_of(schema: &Schema<'_>, index: u32) -> Name
    requires { index < schema.now.counts.names }
    ensures { slice_get (types_in schema.now.octets.now).names index ≡ Some result }
{
    schema.name(index)
}

/// Whether a size is in one of the size ranges among the rows `limits`. True if there is no size
/// range among these rows. A size above 2^63 - 1 counts as 2^63 - 1.
#[tactic(auto, unfolding(crate::specs::Types::types_in))]
pub(crate) fn is_size_allowed(schema: &Schema<'_>, limits: Span, size: usize) -> bool
    requires { IsWithin limits schema.now.counts.limits }
    ensures { IsTrue result ↔ IsAllowedSize (types_in schema.now.octets.now) limits size }
{
    schema.is_within_limits(limits, LimitKind::Size, saturated(size))
}

/// Whether the code of a character is in the permitted alphabet that the rows `limits` describe.
/// True if these rows describe no permitted alphabet.
#[tactic(auto, unfolding(crate::specs::Types::types_in))]
pub(crate) fn is_code_allowed(schema: &Schema<'_>, limits: Span, code: u32) -> bool
    requires { IsWithin limits schema.now.counts.limits }
    ensures { IsTrue result ↔ IsAllowedCode (types_in schema.now.octets.now) limits code }
{
    schema.is_within_limits(limits, LimitKind::Alphabet, signed(code))
}

fn signed(code: u32) -> i64
    ensures { result ≡ pos code }
{
    code as i64
}

fn saturated(size: usize) -> i64
    ensures { result ≡ pos (counted size) }
{
    if size > 9_223_372_036_854_775_807 {
        9_223_372_036_854_775_807
    } else {
        size as i64
    }
}
