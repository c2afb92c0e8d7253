//! Checks that two components have distinct tags if one of them may be absent where the other
//! follows.
ghost use Rattle.std.specs.Prelude.{◌≡◌, ℕ, ◌<◌, slice_get, Some, IfOk, IfErr};
ghost use Rattle.schema_types.specs.Span.{IsWithin};
ghost use Rattle.schema_types.specs.NodeKind.{is_choice};
ghost use Rattle.schema_types.specs.Node.{IsNode};
ghost use Rattle.schema_types.specs.Table.{table_in};
ghost use Rattle.schema_types.specs.Tags.{IsPart};
ghost use Rattle.schema_types.specs.Distinct.{AreNested, AreDistinct, IsDistinct, may_be_missing, is_required, IsTagFault};

use crate::fault::Fault;
use crate::fault_kind::FaultKind;
use crate::field::Field;
use crate::node::Node;
use crate::node_kind::NodeKind;
use crate::presence::Presence;
use crate::rows::Rows;
use crate::shared::share_tag;
use ber::Universal;

// Whether the tags of the fields of each node are distinct. Those of CHOICEs are checked first: then
// what a CHOICE selects is never more than there are nodes.
pub(crate) fn check_distinct(rows: &Rows) -> Result<(), Fault>
    requires { AreNested (table_in rows.now.octets.now) }
    ensures ok { IfOk result (λ _. AreDistinct (table_in rows.now.octets.now)) }
    ensures fault { IfErr result
        (λ f. IsTagFault rows.now.counts (table_in rows.now.octets.now) f) }
{
    check_nodes(rows, true)?;
    check_nodes(rows, false)?;
    Ok(())
}

// Whether the tags of the fields of each CHOICE, or of each other node, are distinct.
fn check_nodes(rows: &Rows, choices: bool) -> Result<(), Fault>
    requires { AreNested (table_in rows.now.octets.now) }
    ensures ok { IfOk result (λ _. (i : ℕ) (n : Node)
        → slice_get (table_in rows.now.octets.now).nodes i ≡ Some n → is_choice n.kind ≡ choices
        → (k : ℕ) → IsDistinct (table_in rows.now.octets.now) n k) }
    ensures fault { IfErr result
        (λ f. IsTagFault rows.now.counts (table_in rows.now.octets.now) f) }
{
    for i in 0..rows.counts.nodes {
        let node = rows.node(i);
        if node.kind.is_choice() == choices {
            check_node(rows, i, node)?;
        }
    }
    Ok(())
}

// Whether the tags of the fields of a node, if it has fields, are distinct.
fn check_node(rows: &Rows, index: u32, node: Node) -> Result<(), Fault>
    requires nested { AreNested (table_in rows.now.octets.now) }
    requires there { slice_get (table_in rows.now.octets.now).nodes index ≡ Some node }
    requires fits { IsNode rows.now.counts rows.now.pool.now node }
    ensures ok { IfOk result (λ _. (k : ℕ) → IsDistinct (table_in rows.now.octets.now) node k) }
    ensures fault { IfErr result
        (λ f. IsTagFault rows.now.counts (table_in rows.now.octets.now) f) }
{
    match node.kind {
        NodeKind::Choice => check_fields(rows, index, node),
        NodeKind::Universal(Universal::Sequence) => check_fields(rows, index, node),
        NodeKind::Universal(Universal::Set) => check_fields(rows, index, node),
        _ => Ok(()),
    }
}

// Whether the tags of the fields of a node are distinct.
fn check_fields(rows: &Rows, index: u32, node: Node) -> Result<(), Fault>
    requires nested { AreNested (table_in rows.now.octets.now) }
    requires there { slice_get (table_in rows.now.octets.now).nodes index ≡ Some node }
    requires fields { IsWithin node.parts rows.now.counts.fields }
    ensures ok { IfOk result (λ _. (k : ℕ) → IsDistinct (table_in rows.now.octets.now) node k) }
    ensures fault { IfErr result
        (λ f. IsTagFault rows.now.counts (table_in rows.now.octets.now) f) }
{
    for k in node.parts.start..node.parts.end(rows.counts.fields) {
        check_field(rows, index, node, k)?;
    }
    Ok(())
}

// Whether the tags of a field and of those that it may follow are distinct.
fn check_field(rows: &Rows, index: u32, node: Node, k: u32) -> Result<(), Fault>
    requires nested { AreNested (table_in rows.now.octets.now) }
    requires there { slice_get (table_in rows.now.octets.now).nodes index ≡ Some node }
    requires fields { IsWithin node.parts rows.now.counts.fields }
    requires part { IsPart node.parts k }
    ensures ok { IfOk result (λ _. IsDistinct (table_in rows.now.octets.now) node k) }
    ensures fault { IfErr result
        (λ f. IsTagFault rows.now.counts (table_in rows.now.octets.now) f) }
{
    let later = rows.field(k);
    let mut j = k;
    'earlier: while j > node.parts.start {
        let earlier = rows.field(j - 1);
        if !may_be_missing(node.kind, earlier) {
            return Ok(());
        }
        if share_tag(rows, earlier.node, later.node) {
            let at = rows.counts.fields_at() + 28 * k as usize;
            return Err(Fault::new(FaultKind::Tag, at));
        }
        j -= 1;
    }
    Ok(())
}

// Whether a field of a node of this kind may be missing where a later one is.
fn may_be_missing(kind: NodeKind, field: Field) -> bool
    ensures { result ≡ may_be_missing kind field }
{
    match kind {
        NodeKind::Choice => true,
        NodeKind::Universal(Universal::Set) => true,
        NodeKind::Universal(Universal::Sequence) => {
            !is_required(field.presence) || field.addition != 0
        }
        _ => false,
    }
}

fn is_required(presence: Presence) -> bool
    ensures { result ≡ is_required presence }
{
    matches!(presence, Presence::Required)
}
