//! Checks that each CHOICE that is an alternative comes before the CHOICE around it.
ghost use Rattle.std.specs.Prelude.{◌≡◌, ℕ, ◌<◌, slice_get, Some, IfOk, IfErr};
ghost use Rattle.schema_types.specs.Span.{IsWithin};
ghost use Rattle.schema_types.specs.Table.{table_in};
ghost use Rattle.schema_types.specs.Tags.{IsPart};
ghost use Rattle.schema_types.specs.Distinct.{IsAfter, AreNested, IsNestingFault};

use crate::fault::Fault;
use crate::fault_kind::FaultKind;
use crate::node::Node;
use crate::node_kind::NodeKind;
use crate::rows::Rows;

// Whether each CHOICE that is an alternative comes before the CHOICE that it is in.
pub(crate) fn check_nesting(rows: &Rows) -> Result<(), Fault>
    ensures ok { IfOk result (λ _. AreNested (table_in rows.now.octets.now)) }
    ensures fault { IfErr result
        (λ f. IsNestingFault rows.now.counts (table_in rows.now.octets.now) f) }
{
    for i in 0..rows.counts.nodes {
        check_node(rows, i)?;
    }
    Ok(())
}

// Whether the alternatives of a node, if it is a CHOICE, do.
fn check_node(rows: &Rows, index: u32) -> Result<(), Fault>
    requires { index < rows.now.counts.nodes }
    ensures ok { IfOk result (λ _. (k : ℕ) → IsAfter (table_in rows.now.octets.now) index k) }
    ensures fault { IfErr result
        (λ f. IsNestingFault rows.now.counts (table_in rows.now.octets.now) f) }
{
    let node = rows.node(index);
    match node.kind {
        NodeKind::Choice => check_alternatives(rows, index, node),
        _ => Ok(()),
    }
}

// Whether the alternatives of a CHOICE do.
fn check_alternatives(rows: &Rows, index: u32, choice: Node) -> Result<(), Fault>
    requires there { slice_get (table_in rows.now.octets.now).nodes index ≡ Some choice }
    requires kind { choice.kind ≡ NodeKind.Choice }
    requires fields { IsWithin choice.parts rows.now.counts.fields }
    ensures ok { IfOk result (λ _. (k : ℕ) → IsAfter (table_in rows.now.octets.now) index k) }
    ensures fault { IfErr result
        (λ f. IsNestingFault rows.now.counts (table_in rows.now.octets.now) f) }
{
    for k in choice.parts.start..choice.parts.end(rows.counts.fields) {
        check_alternative(rows, index, choice, k)?;
    }
    Ok(())
}

// Whether an alternative of a CHOICE does.
fn check_alternative(rows: &Rows, index: u32, choice: Node, k: u32) -> Result<(), Fault>
    requires there { slice_get (table_in rows.now.octets.now).nodes index ≡ Some choice }
    requires kind { choice.kind ≡ NodeKind.Choice }
    requires fields { IsWithin choice.parts rows.now.counts.fields }
    requires part { IsPart choice.parts k }
    ensures ok { IfOk result (λ _. IsAfter (table_in rows.now.octets.now) index k) }
    ensures fault { IfErr result
        (λ f. IsNestingFault rows.now.counts (table_in rows.now.octets.now) f) }
{
    let alternative = rows.field(k).node;
    if alternative < index {
        return Ok(());
    }
    match rows.node(alternative).kind {
        NodeKind::Choice => {
            let at = rows.counts.fields_at() + 28 * k as usize + 16;
            Err(Fault::new(FaultKind::Choice, at))
        }
        _ => Ok(()),
    }
}
