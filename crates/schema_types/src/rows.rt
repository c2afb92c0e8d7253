//! The rows of a table. Each row is well-formed.
ghost use Rattle.std.specs.Prelude.{◌≡◌, length};
ghost use Rattle.std.proofs.Props.{props};
ghost use Rattle.schema_types.specs.Counts.{counts_in, size_of};
ghost use Rattle.schema_types.specs.Pool.{pool_in};
ghost use Rattle.schema_types.specs.Table.{AreRows};

use crate::counts::Counts;
use crate::field::Field;
use crate::node::Node;

// The octets of a table, with the counts in them.
#[derive(Clone, Copy)]
pub(crate) struct Rows<'a> {
    pub(crate) octets: &'a [u8],
    pub(crate) counts: Counts,
    pub(crate) pool: &'a [u8],
    ghost counted: { counts ≡ counts_in octets.now } by { Prim.hlevel props },
    ghost sized: { size_of counts ≡ length octets.now },
    ghost pooled: { pool.now ≡ pool_in counts octets.now },
    ghost rows: { AreRows counts octets.now } by { Prim.hlevel props },
}

impl<'a> Rows<'a> {
    ghost use Rattle.std.specs.Prelude.{◌<◌, slice_get, Some};
    ghost use Rattle.schema_types.specs.Node.{IsNode};
    ghost use Rattle.schema_types.specs.Field.{IsField};
    ghost use Rattle.schema_types.specs.Table.{table_in};

    // The node with this index.
    #[inline(always)]
    pub(crate) fn node(&self, index: u32) -> Node
        requires { index < self.now.counts.nodes }
        ensures value { slice_get (table_in self.now.octets.now).nodes index ≡ Some result }
        ensures fits { IsNode self.now.counts self.now.pool.now result }
    {
        Node::read(self.octets, 32 + 40 * index as usize)
    }

    // The field with this index.
    #[inline(always)]
    pub(crate) fn field(&self, index: u32) -> Field
        requires { index < self.now.counts.fields }
        ensures value { slice_get (table_in self.now.octets.now).fields index ≡ Some result }
        ensures fits { IsField self.now.counts self.now.pool.now result }
    {
        Field::read(self.octets, self.counts.fields_at() + 28 * index as usize)
    }
}
