//! Finds the node that a tag selects.
ghost use Rattle.std.specs.Prelude.{◌≡◌, ◌≢◌, ◌<◌, slice_get, Some, IfSome, IfNone};
ghost use Rattle.schema_types.specs.Span.{IsWithin};
ghost use Rattle.schema_types.specs.Table.{table_in};
ghost use Rattle.schema_types.specs.Distinct.{AreNested};
ghost use Rattle.schema_types.specs.Sought.{IsFound, FindsNone, through_field};

use crate::node::Node;
use crate::node_kind::NodeKind;
use crate::rows::Rows;
use crate::selected::Selected;
use crate::sought::Sought;

// The first node that another selects and that may have a tag that is sought.
#[inline(always)]
pub(crate) fn find_selected(rows: &Rows, index: u32, sought: Sought) -> Option<Selected>
    requires nested { AreNested (table_in rows.now.octets.now) }
    requires there { index < rows.now.counts.nodes }
    ensures found { IfSome result (IsFound (table_in rows.now.octets.now) index sought) }
    ensures none { IfNone result (FindsNone (table_in rows.now.octets.now) index sought) }
{
    let node = rows.node(index);
    match node.kind {
        NodeKind::Choice => find_in_choice(rows, index, node, sought),
        _ => find_itself(rows, index, node, sought),
    }
}

// The first node that a CHOICE selects and that may have a tag that is sought.
fn find_in_choice(rows: &Rows, index: u32, choice: Node, sought: Sought) -> Option<Selected>
    requires nested { AreNested (table_in rows.now.octets.now) }
    requires there { slice_get (table_in rows.now.octets.now).nodes index ≡ Some choice }
    requires kind { choice.kind ≡ NodeKind.Choice }
    requires fields { IsWithin choice.parts rows.now.counts.fields }
    ensures found { IfSome result (IsFound (table_in rows.now.octets.now) index sought) }
    ensures none { IfNone result (FindsNone (table_in rows.now.octets.now) index sought) }
{
    for k in choice.parts.start..choice.parts.end(rows.counts.fields) {
        let alternative = rows.field(k).node;
        let node = rows.node(alternative);
        let found = match node.kind {
            NodeKind::Choice => find_in_choice(rows, alternative, node, sought),
            _ => find_itself(rows, alternative, node, sought),
        };
        if let Some(selected) = found {
            return Some(through(selected, k));
        }
    }
    None
}

// A node that is no CHOICE, if it may have a tag that is sought.
#[inline(always)]
fn find_itself(rows: &Rows, index: u32, node: Node, sought: Sought) -> Option<Selected>
    requires there { slice_get (table_in rows.now.octets.now).nodes index ≡ Some node }
    requires kind { node.kind ≢ NodeKind.Choice }
    ensures found { IfSome result (IsFound (table_in rows.now.octets.now) index sought) }
    ensures none { IfNone result (FindsNone (table_in rows.now.octets.now) index sought) }
{
    if sought.is_met(node) {
        Some(Selected {
            node: index,
            field: None,
        })
    } else {
        None
    }
}

// What an alternative selects, as what its CHOICE selects.
#[inline(always)]
fn through(selected: Selected, field: u32) -> Selected
    ensures { result ≡ through_field selected field }
{
    Selected {
        node: selected.node,
        field: Some(selected.field.unwrap_or(field)),
    }
}
