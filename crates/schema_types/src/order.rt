//! Checks that the types that an open type may be are sorted by OBJECT IDENTIFIER.
ghost use Rattle.std.specs.Prelude.{◌≡◌, ◌↔◌, ◌+◌, ◌*◌, ◌<◌, ◌≤◌, length, IsTrue, IfOk, IfErr};
ghost use Rattle.schema_types.specs.Counts.{nodes_at, opens_at, pool_at};
ghost use Rattle.schema_types.specs.Span.{IsWithin};
ghost use Rattle.schema_types.specs.Pool.{pool_in};
ghost use Rattle.schema_types.specs.Node.{node_at, IsNode, IsNodeRow};
ghost use Rattle.schema_types.specs.OpenType.{IsOpenTypeRow, identifier_in, IsBeforeNext, Ascends, IsOrderFault};
ghost use Rattle.schema_types.specs.Table.{EachRow, IsAscending};
ghost use Rattle.schema_types.specs.Schema.{IsRowFault};

use crate::counts::Counts;
use crate::fault::Fault;
use crate::fault_kind::FaultKind;
use crate::node::Node;
use crate::node_kind::NodeKind;
use crate::open_type::OpenType;
use crate::pool::octets_of;
use crate::span::Span;

// The contents octets of the OBJECT IDENTIFIER of the row with this index.
#[inline(always)]
pub(crate) fn identifier_in<'a>(
    octets: &[u8],
    counts: Counts,
    pool: &'a [u8],
    index: usize,
) -> &'a [u8]
    requires room { pool_at counts ≤ length octets.now }
    requires pooled { pool.now ≡ pool_in counts octets.now }
    requires rows { EachRow (IsOpenTypeRow counts pool.now octets.now) 12 (opens_at counts)
        counts.opens }
    requires there { index < counts.opens }
    ensures { result.now ≡ identifier_in counts octets.now index }
{
    octets_of(
        pool,
        OpenType::read(octets, counts.opens_at() + 12 * index).identifier,
    )
}

// Whether the types of each open type ascend.
pub(crate) fn check_order(octets: &[u8], counts: Counts, pool: &[u8]) -> Result<(), Fault>
    requires room { pool_at counts ≤ length octets.now }
    requires pooled { pool.now ≡ pool_in counts octets.now }
    requires nodes { EachRow (IsNodeRow counts pool.now octets.now) 40 nodes_at counts.nodes }
    requires rows { EachRow (IsOpenTypeRow counts pool.now octets.now) 12 (opens_at counts)
        counts.opens }
    ensures ok { IfOk result (λ _. EachRow (λ at. IsAscending counts octets.now
        (node_at octets.now at)) 40 nodes_at counts.nodes) }
    ensures fault { IfErr result (λ f. IsRowFault counts octets.now f) }
{
    for i in 0..counts.nodes as usize {
        let node = Node::read(octets, 32 + 40 * i);
        check_node(octets, counts, pool, node)?;
    }
    Ok(())
}

// Whether the types of a node, if it is an open type, ascend.
fn check_node(octets: &[u8], counts: Counts, pool: &[u8], node: Node) -> Result<(), Fault>
    requires room { pool_at counts ≤ length octets.now }
    requires pooled { pool.now ≡ pool_in counts octets.now }
    requires rows { EachRow (IsOpenTypeRow counts pool.now octets.now) 12 (opens_at counts)
        counts.opens }
    requires fits { IsNode counts pool.now node }
    ensures ok { IfOk result (λ _. IsAscending counts octets.now node) }
    ensures fault { IfErr result
        (λ f. (node.kind ≡ NodeKind.Open) × IsOrderFault counts octets.now node.parts f) }
{
    match node.kind {
        NodeKind::Open => check_types(octets, counts, pool, node.parts),
        _ => Ok(()),
    }
}

// Whether a range of types ascends.
fn check_types(octets: &[u8], counts: Counts, pool: &[u8], types: Span) -> Result<(), Fault>
    requires room { pool_at counts ≤ length octets.now }
    requires pooled { pool.now ≡ pool_in counts octets.now }
    requires rows { EachRow (IsOpenTypeRow counts pool.now octets.now) 12 (opens_at counts)
        counts.opens }
    requires there { IsWithin types counts.opens }
    ensures ok { IfOk result (λ _. Ascends counts octets.now types) }
    ensures fault { IfErr result (λ f. IsOrderFault counts octets.now types f) }
{
    let start = types.start as usize;
    for k in start..(start + types.count as usize).saturating_sub(1) {
        if !is_before_next(octets, counts, pool, k) {
            return Err(Fault::new(FaultKind::Order, counts.opens_at() + 12 * (k + 1)));
        }
    }
    Ok(())
}

// Whether the identifier of a row is before that of the next.
fn is_before_next(octets: &[u8], counts: Counts, pool: &[u8], index: usize) -> bool
    requires room { pool_at counts ≤ length octets.now }
    requires pooled { pool.now ≡ pool_in counts octets.now }
    requires rows { EachRow (IsOpenTypeRow counts pool.now octets.now) 12 (opens_at counts)
        counts.opens }
    requires there { index + 1 < counts.opens }
    ensures { IsTrue result ↔ IsBeforeNext counts octets.now index }
{
    let this = identifier_in(octets, counts, pool, index);
    let next = identifier_in(octets, counts, pool, index + 1);
    this.cmp(next).is_lt()
}
