//! Finds the actual type of an open type.
ghost use Rattle.std.specs.Prelude.{◌≡◌, ◌<◌, ℕ, IfSome, IfNone};
ghost use Rattle.schema_types.specs.Table.{IsAscending};
ghost use Rattle.schema_read.specs.Types.{types_in};
ghost use Rattle.schema_types.specs.Node.{IsNode};
ghost use Rattle.schema_types.specs.declared.node_kind.NodeKind.TheVariants.{Open};
ghost use Rattle.schema_read.specs.Known.{IsChosen, IsUnknown, known_in};

use crate::known::Known;
use crate::types::find_type;
use schema_types::{Node, NodeKind, Schema};

/// Returns the index of the node that an OBJECT IDENTIFIER chooses for an open type. `known` is the
/// last OBJECT IDENTIFIER that was read. Returns `None` in these cases:
///
/// - `node` is not an open type.
/// - `known` is not from the field that chooses the type of `node`.
/// - The OBJECT IDENTIFIER chooses no type of the table.
pub fn chosen(schema: &Schema<'_>, node: &Node, known: Option<Known<'_>>) -> Option<u32>
    requires fits { IsNode schema.now.counts schema.now.pool.now node.now }
    requires ascending { IsAscending schema.now.counts schema.now.octets.now node.now }
    ensures kind { IfSome result (λ m. node.now.kind ≡ Open) }
    ensures found { IfSome result
        (λ m. IsChosen (types_in schema.now.octets.now) node.now (known_in known.entry) m) }
    ensures single { IfSome result (λ m. (o : ℕ)
        → IsChosen (types_in schema.now.octets.now) node.now (known_in known.entry) o → o ≡ m) }
    ensures there { IfSome result (λ m. m < schema.now.counts.nodes) }
    ensures none { IfNone result (node.now.kind ≡ Open
        → IsUnknown (types_in schema.now.octets.now) node.now (known_in known.entry)) }
{
    if node.kind != NodeKind::Open {
        return None;
    }
    match known {
        Some(known) if known.field == node.chooser => {
            match find_type(schema, node, known.identifier) {
                Some(chosen) => Some(chosen.node),
                None => None,
            }
        }
        _ => None,
    }
}
