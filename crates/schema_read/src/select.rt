//! Finds fields by the tag at the front of octets.
ghost use Rattle.std.specs.Prelude.{◌≡◌, ◌<◌, ◌≤◌, ℕ, IsTrue, IfSome, IfNone, false};
ghost use Rattle.schema_types.specs.Span.{IsWithin as IsRange};
ghost use Rattle.schema_types.specs.Tags.{IsFieldOf};
ghost use Rattle.schema_types.specs.declared.field.Field.{Field as AField};
ghost use Rattle.schema_read.specs.Types.{types_in};
ghost use Rattle.schema_read.specs.Components.{MayBePassed};
ghost use Rattle.schema_read.specs.Tags.{IsBegun, NoneBegins};

use crate::constraints::end_of;
use crate::tests::may_be_absent;
use crate::types::{field_of, select};
use ber::{is_end_of_contents, read_header};
use schema_types::{Node, Schema};

/// Whether octets begin with a header, and a value of the node may have the tag of that header.
pub(crate) fn begins(schema: &Schema<'_>, node: u32, octets: &[u8]) -> bool
    requires { node < schema.now.counts.nodes }
    ensures found { IsTrue result → IsBegun (types_in schema.now.octets.now) node octets.now }
    ensures none { (result ≡ false) → NoneBegins (types_in schema.now.octets.now) node octets.now }
{
    match read_header(octets) {
        Ok(header) => {
            if is_end_of_contents(octets) {
                return false;
            }
            match select(schema, node, header.class, header.number) {
                Some(_) => true,
                None => false,
            }
        }
        Err(_) => false,
    }
}

/// Returns the index of the first field of a node whose type may have the tag at the front of
/// `octets`. Fields before the field `first` are not searched. `None` if no field has such a type.
pub fn find_field(schema: &Schema<'_>, node: Node, first: u32, octets: &[u8]) -> Option<u32>
    requires there { IsRange node.parts schema.now.counts.fields }
    requires part { node.parts.start ≤ first }
    ensures found { IfSome result (λ k. (f : AField) × (first ≤ k)
        × IsFieldOf (types_in schema.now.octets.now) node k f
        × IsBegun (types_in schema.now.octets.now) f.node octets.now) }
    ensures none { IfNone result ((k : ℕ) (f : AField) → first ≤ k
        → IsFieldOf (types_in schema.now.octets.now) node k f
        → NoneBegins (types_in schema.now.octets.now) f.node octets.now) }
{
    for k in first..end_of(node.parts, schema.counts().fields) {
        if begins(schema, field_of(schema, k).node, octets) {
            return Some(k);
        }
    }
    None
}

/// Returns the index of the field of a SEQUENCE that takes the element at the front of `octets`, if
/// the fields before the field `first` are passed. That is the first field from there on whose type
/// may have its tag. `None` if a field that must be present comes before such a field, or if there is
/// no such field.
pub fn find_next(schema: &Schema<'_>, node: Node, first: u32, octets: &[u8]) -> Option<u32>
    requires there { IsRange node.parts schema.now.counts.fields }
    requires part { node.parts.start ≤ first }
    ensures found { IfSome result (λ k. (f : AField) × (first ≤ k)
        × IsFieldOf (types_in schema.now.octets.now) node k f
        × IsBegun (types_in schema.now.octets.now) f.node octets.now
        × MayBePassed (types_in schema.now.octets.now) node first k) }
    ensures none { IfNone result ((k : ℕ) (f : AField) → first ≤ k
        → IsFieldOf (types_in schema.now.octets.now) node k f
        → MayBePassed (types_in schema.now.octets.now) node first k
        → NoneBegins (types_in schema.now.octets.now) f.node octets.now) }
{
    for k in first..end_of(node.parts, schema.counts().fields) {
        let field = field_of(schema, k);
        if begins(schema, field.node, octets) {
            return Some(k);
        }
        if !may_be_absent(field) {
            return None;
        }
    }
    None
}
