//! The OBJECT IDENTIFIER that chooses an open type.
ghost use Rattle.std.specs.Prelude.{◌≡◌, ◌↔◌, ◌<◌, ℕ, List, slice_get, IsTrue};
ghost use Rattle.ber.specs.Element.{IsElement};
ghost use Rattle.ber.specs.declared.universal.Universal.TheVariants.{ObjectIdentifier};
ghost use Rattle.schema_types.specs.declared.node_kind.NodeKind.TheVariants.{Universal as Universally};
ghost use Rattle.ber.specs.declared.header.Header.{Header as AHeader};
ghost use Rattle.schema_read.specs.Types.{types_in};
ghost use Rattle.schema_read.specs.Known.{Follows, IsIdentifier, known_in};

use crate::types::node_of;
use ber::{Universal, read_element};
use schema_types::{Node, NodeKind, Schema};

/// An OBJECT IDENTIFIER that may choose the type of an open type. It is the last component before
/// the open type that is an OBJECT IDENTIFIER.
#[derive(Clone, Copy)]
pub struct Known<'a> {
    /// The index, in the table, of the field of the component.
    pub field: u32,
    /// The contents octets of the OBJECT IDENTIFIER.
    pub identifier: &'a [u8],
}

/// Returns the last OBJECT IDENTIFIER that was read, after a component with the encoding `octets`.
/// This is the component itself if it is an OBJECT IDENTIFIER. Otherwise it is `known`, the last
/// one before the component.
pub(crate) fn known_after<'a>(
    schema: &Schema<'_>,
    node: u32,
    field: u32,
    octets: &'a [u8],
    known: Option<Known<'a>>,
) -> Option<Known<'a>>
    requires { node < schema.now.counts.nodes }
    ensures { (IsIdentifier (slice_get (types_in schema.now.octets.now).nodes node)
        → (h : AHeader) × (inner : List ℕ) × IsElement h inner octets.now) → Follows (slice_get (types_in schema.now.octets.now).nodes node) field octets.now
        (known_in known.entry) (known_in result) }
{
    if is_identifier(node_of(schema, node)) {
        return match read_element(octets) {
            Ok(element) => Some(Known {
                field,
                identifier: element.contents,
            }),
            Err(_) => known,
        };
    }
    known
}

fn is_identifier(node: Node) -> bool
    ensures { IsTrue result ↔ (node.kind ≡ Universally ObjectIdentifier) }
{
    matches!(node.kind, NodeKind::Universal(Universal::ObjectIdentifier))
}
