//! Checks whether values of two types may begin with the same tag.
ghost use Rattle.std.specs.Prelude.{◌≡◌, ◌≢◌, ◌↔◌, ◌<◌, slice_get, Some, IsTrue};
ghost use Rattle.schema_types.specs.Span.{IsWithin};
ghost use Rattle.schema_types.specs.Table.{table_in};
ghost use Rattle.schema_types.specs.Tags.{ShareTag};
ghost use Rattle.schema_types.specs.Distinct.{AreNested};

use crate::node::Node;
use crate::node_kind::NodeKind;
use crate::rows::Rows;
use crate::select::find_selected;
use crate::sought::Sought;

// Whether values of two nodes may begin with one tag.
pub(crate) fn share_tag(rows: &Rows, first: u32, second: u32) -> bool
    requires nested { AreNested (table_in rows.now.octets.now) }
    requires there { first < rows.now.counts.nodes }
    requires also { second < rows.now.counts.nodes }
    ensures { IsTrue result ↔ ShareTag (table_in rows.now.octets.now) first second }
{
    let node = rows.node(first);
    match node.kind {
        NodeKind::Choice => choice_shares_tag(rows, first, node, second),
        _ => node_shares_tag(rows, first, node, second),
    }
}

// Whether values of a CHOICE and of another node may begin with one tag.
fn choice_shares_tag(rows: &Rows, index: u32, choice: Node, second: u32) -> bool
    requires nested { AreNested (table_in rows.now.octets.now) }
    requires there { slice_get (table_in rows.now.octets.now).nodes index ≡ Some choice }
    requires kind { choice.kind ≡ NodeKind.Choice }
    requires fields { IsWithin choice.parts rows.now.counts.fields }
    requires also { second < rows.now.counts.nodes }
    ensures { IsTrue result ↔ ShareTag (table_in rows.now.octets.now) index second }
{
    for k in choice.parts.start..choice.parts.end(rows.counts.fields) {
        let alternative = rows.field(k).node;
        let node = rows.node(alternative);
        let shares = match node.kind {
            NodeKind::Choice => choice_shares_tag(rows, alternative, node, second),
            _ => node_shares_tag(rows, alternative, node, second),
        };
        if shares {
            return true;
        }
    }
    false
}

// Whether values of a node that is no CHOICE, and of another node, may begin with one tag.
fn node_shares_tag(rows: &Rows, index: u32, node: Node, second: u32) -> bool
    requires nested { AreNested (table_in rows.now.octets.now) }
    requires there { slice_get (table_in rows.now.octets.now).nodes index ≡ Some node }
    requires kind { node.kind ≢ NodeKind.Choice }
    requires also { second < rows.now.counts.nodes }
    ensures { IsTrue result ↔ ShareTag (table_in rows.now.octets.now) index second }
{
    find_selected(rows, second, Sought::tags_of(node)).is_some()
}
