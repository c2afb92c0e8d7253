//! Number of rows of each section of a table.
ghost use Rattle.std.specs.Prelude.{◌≡◌, ◌≤◌, length};
ghost use Rattle.schema_types.specs.Counts.{counts_in, fields_at, limits_at, names_at, opens_at, pool_at, size_of};

use crate::numbers::number_at;

/// How many rows each section of a table has, and how many octets its last section, the pool, has.
/// The documentation of this crate describes the sections.
#[derive(Debug, Clone, Copy, PartialEq, Eq)]
pub struct Counts {
    /// The number of nodes. Each node is a type.
    pub nodes: u32,
    /// The number of fields. A field is a component or an alternative of a type.
    pub fields: u32,
    /// The number of limits. A limit is a range of numbers in a constraint.
    pub limits: u32,
    /// The number of names of numbers and of bits.
    pub names: u32,
    /// The number of rows in the section for open types. Each row has a type that an open type may
    /// be, and the OBJECT IDENTIFIER that chooses it.
    pub opens: u32,
    /// The number of octets of the pool, which holds names, DEFAULT values and OBJECT IDENTIFIERs.
    pub pool: u32,
}

impl Counts {
    // The counts in the header of a table.
    #[inline(always)]
    pub(crate) fn read(octets: &[u8]) -> Self
        requires { 32 ≤ length octets.now }
        ensures { result ≡ counts_in octets.now }
    {
        Counts {
            nodes: number_at(octets, 8),
            fields: number_at(octets, 12),
            limits: number_at(octets, 16),
            names: number_at(octets, 20),
            opens: number_at(octets, 24),
            pool: number_at(octets, 28),
        }
    }

    // The offset of the fields.
    #[inline(always)]
    pub(crate) fn fields_at(self) -> usize
        ensures { result ≡ fields_at self }
    {
        32 + 40 * self.nodes as usize
    }

    // The offset of the limits.
    #[inline(always)]
    pub(crate) fn limits_at(self) -> usize
        ensures { result ≡ limits_at self }
    {
        self.fields_at() + 28 * self.fields as usize
    }

    // The offset of the names.
    #[inline(always)]
    pub(crate) fn names_at(self) -> usize
        ensures { result ≡ names_at self }
    {
        self.limits_at() + 20 * self.limits as usize
    }

    // The offset of the types that open types may be.
    #[inline(always)]
    pub(crate) fn opens_at(self) -> usize
        ensures { result ≡ opens_at self }
    {
        self.names_at() + 16 * self.names as usize
    }

    // The offset of the pool.
    #[inline(always)]
    pub(crate) fn pool_at(self) -> usize
        ensures { result ≡ pool_at self }
    {
        self.opens_at() + 12 * self.opens as usize
    }

    /// The number of octets of a table with these counts.
    pub fn size(self) -> usize
        ensures { result ≡ size_of self }
    {
        self.pool_at() + self.pool as usize
    }
}
