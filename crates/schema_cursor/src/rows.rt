//! Access to rows of a table of types by an index that may be out of range.
ghost use Rattle.std.specs.Prelude.{◌≡◌, Some, None, IfSome, IfNone, slice_get};
ghost use Rattle.schema_types.specs.Node.{IsNode};
ghost use Rattle.schema_read.specs.Types.{types_in};
ghost use Rattle.schema_cursor.specs.Names.{field_name, type_name};

use ber::Universal;
use schema_types::{Node, NodeKind, Schema, Span};

/// The node with this index; `None` if there is none.
#[tactic(auto, unfolding(schema_read::specs::Types::types_in))]
pub(crate) fn node_at(schema: &Schema<'_>, index: u32) -> Option<Node>
    ensures row { slice_get (types_in schema.now.octets.now).nodes index ≡ result }
    ensures fits { IfSome result (IsNode schema.now.counts schema.now.pool.now) }
{
    if index < schema.counts().nodes {
        Some(schema.node(index))
    } else {
        None
    }
}

/// The name of the field with this index; `None` if there is none.
#[tactic(auto, unfolding(schema_read::specs::Types::types_in))]
pub(crate) fn field_name<'a>(schema: &Schema<'a>, index: u32) -> Option<&'a str>
    ensures some { IfSome result (λ s. field_name (types_in schema.now.octets.now) index ≡ Some s.now) }
    ensures none { IfNone result (field_name (types_in schema.now.octets.now) index ≡ None) }
{
    if index < schema.counts().fields {
        Some(schema.text_of(schema.field(index).name))
    } else {
        None
    }
}

/// The name of the node with this index; `None` if there is none.
#[tactic(auto, unfolding(schema_read::specs::Types::types_in))]
pub(crate) fn type_name<'a>(schema: &Schema<'a>, index: u32) -> Option<&'a str>
    ensures some { IfSome result (λ s. type_name (types_in schema.now.octets.now) index ≡ Some s.now) }
    ensures none { IfNone result (type_name (types_in schema.now.octets.now) index ≡ None) }
{
    if index < schema.counts().nodes {
        Some(schema.text_of(schema.node(index).name))
    } else {
        None
    }
}

/// The name that a number has in an INTEGER or an ENUMERATED type. `None` if the number has no
/// name.
pub(crate) fn number_name<'a>(schema: &Schema<'a>, node: Node, number: i64) -> Option<&'a str>
    requires { IsNode schema.now.counts schema.now.pool.now node }
{
    match node.kind {
        NodeKind::Universal(Universal::Integer | Universal::Enumerated) => {
            let name = schema.name_of_number(node.parts, number)?;
            Some(schema.text_of(name.name))
        }
        _ => None,
    }
}

/// The range of rows with the names of the bits, if the node is a BIT STRING type.
pub(crate) fn bit_names(node: Node) -> Span {
    match node.kind {
        NodeKind::Universal(Universal::BitString) => node.parts,
        _ => Span { start: 0, count: 0 },
    }
}

/// The number and the name in a row of the section of names. `index` is the index of the row.
/// `None` if there is no such row.
pub(crate) fn name_at<'a>(schema: &Schema<'a>, index: u32) -> Option<(i64, &'a str)> {
    if index < schema.counts().names {
        let name = schema.name(index);
        Some((name.number, schema.text_of(name.name)))
    } else {
        None
    }
}
