//! Finds nodes by name. Finds the types that open types may be by OBJECT IDENTIFIER.
ghost use Rattle.std.specs.Prelude.{◌≡◌, ◌↔◌, ◌≤◌, length, IsTrue, IfSome, IfNone};
ghost use Rattle.schema_types.specs.Counts.{nodes_at, opens_at, pool_at};
ghost use Rattle.schema_types.specs.Span.{IsWithin};
ghost use Rattle.schema_types.specs.Pool.{pool_in};
ghost use Rattle.schema_types.specs.Node.{IsNodeRow};
ghost use Rattle.schema_types.specs.OpenType.{IsOpenTypeRow, Ascends};
ghost use Rattle.schema_types.specs.Table.{EachRow};
ghost use Rattle.schema_types.specs.Chosen.{IsChosen, ChoosesNone};
ghost use Rattle.schema_types.specs.Named.{IsNamed, NoneIsNamed};

use crate::counts::Counts;
use crate::node::Node;
use crate::open_type::OpenType;
use crate::order::identifier_in;
use crate::pool::octets_of;
use crate::span::Span;

// The type that an identifier chooses among a range of types.
pub(crate) fn find_open_type(
    octets: &[u8],
    counts: Counts,
    pool: &[u8],
    types: Span,
    identifier: &[u8],
) -> Option<OpenType>
    requires room { pool_at counts ≤ length octets.now }
    requires pooled { pool.now ≡ pool_in counts octets.now }
    requires rows { EachRow (IsOpenTypeRow counts pool.now octets.now) 12 (opens_at counts)
        counts.opens }
    requires there { IsWithin types counts.opens }
    requires ascending { Ascends counts octets.now types }
    ensures found { IfSome result (λ o. IsChosen counts octets.now types identifier.now o) }
    ensures none { IfNone result (ChoosesNone counts octets.now types identifier.now) }
{
    let mut low = types.start as usize;
    let mut high = low + types.count as usize;
    'halves: while low < high {
        let middle = low + (high - low) / 2;
        let order = identifier_in(octets, counts, pool, middle).cmp(identifier);
        if order.is_eq() {
            return Some(OpenType::read(octets, counts.opens_at() + 12 * middle));
        }
        if order.is_lt() {
            low = middle + 1;
        } else {
            high = middle;
        }
    }
    None
}

// The first node with a name.
pub(crate) fn find_node(octets: &[u8], counts: Counts, pool: &[u8], name: &[u8]) -> Option<u32>
    requires room { pool_at counts ≤ length octets.now }
    requires pooled { pool.now ≡ pool_in counts octets.now }
    requires rows { EachRow (IsNodeRow counts pool.now octets.now) 40 nodes_at counts.nodes }
    ensures found { IfSome result (λ i. IsNamed counts octets.now name.now i) }
    ensures none { IfNone result (NoneIsNamed counts octets.now name.now counts.nodes) }
{
    for i in 0..counts.nodes {
        let node = Node::read(octets, 32 + 40 * i as usize);
        if is_same(octets_of(pool, node.name), name) {
            return Some(i);
        }
    }
    None
}

// Whether octets are the same.
fn is_same(a: &[u8], b: &[u8]) -> bool
    ensures { IsTrue result ↔ (a.now ≡ b.now) }
{
    a == b
}
