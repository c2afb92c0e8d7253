//! The OBJECT IDENTIFIER that chooses an open type.
ghost use Rattle.std.specs.Prelude.{◌≡◌, ◌↔◌, ◌<◌, slice_get, IfOk, IsTrue};
ghost use Rattle.schema_types.specs.declared.node_kind.NodeKind.TheVariants.{Universal as Universally};
ghost use Rattle.ber.specs.declared.universal.Universal.TheVariants.{ObjectIdentifier};
ghost use Rattle.schema_read.specs.Known.{Follows, known_in};
ghost use Rattle.schema_read.specs.Types.{types_in};

use crate::refusal::Refusal;
use ber::{Universal, read_element};
use schema_read::walking::{Known, node_of};
use schema_types::{Node, NodeKind, Schema};

/// Returns the last OBJECT IDENTIFIER that was read, after a component. This is the component
/// itself if it is an OBJECT IDENTIFIER. Otherwise it is `known`, the last one before the
/// component. `node` is the type of the component, and `octets` is its encoding.
pub(crate) fn known_after<'a>(
    schema: &Schema<'_>,
    node: u32,
    field: u32,
    octets: &'a [u8],
    known: Option<Known<'a>>,
) -> Result<Option<Known<'a>>, Refusal>
    requires { node < schema.now.counts.nodes }
    ensures { IfOk result (λ after. Follows (slice_get (types_in schema.now.octets.now).nodes node) field
        octets.now (known_in known.entry) (known_in after)) }
{
    if !is_identifier(node_of(schema, node)) {
        return Ok(known);
    }
    match read_element(octets) {
        Ok(element) if element.rest.is_empty() => Ok(Some(Known {
            field,
            identifier: element.contents,
        })),
        _ => Err(Refusal::NotBer),
    }
}

fn is_identifier(node: Node) -> bool
    ensures { IsTrue result ↔ (node.kind ≡ Universally ObjectIdentifier) }
{
    matches!(node.kind, NodeKind::Universal(Universal::ObjectIdentifier))
}
