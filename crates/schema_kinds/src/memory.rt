//! Memory for reading values.

use crate::damaged::typed_len;
use crate::find::{is_encoding, read_as};
use schema_read::{Departure, Entry, Full, judge, read_into};
use schema_types::Schema;
use std::alloc::{AllocError, Global};

/// A source of memory for reading values: allocated memory, or memory of the caller.
pub(crate) trait Memory {
    /// The error that is returned if there is not enough memory.
    type Error;

    /// Whether the octets are a BER encoding of a value of a type. `node` is the index of the type
    /// in the table of types.
    fn is_ber(
        &mut self,
        schema: &Schema<'_>,
        node: u32,
        octets: &[u8],
    ) -> Result<bool, Self::Error>;

    /// Reads the octets as a value of a type, and returns how many octets belong to elements whose
    /// type is in the table of types. `node` is the index of the type in the table.
    fn typed_len(
        &mut self,
        schema: &Schema<'_>,
        node: u32,
        octets: &[u8],
    ) -> Result<usize, Self::Error>;
}

/// Memory that is allocated when it is needed.
#[derive(Drop)]
pub(crate) struct Heap {
    pub alloc: Global,
}

impl Memory for Heap {
    type Error = AllocError;

    fn is_ber(
        &mut self,
        schema: &Schema<'_>,
        node: u32,
        octets: &[u8],
    ) -> Result<bool, AllocError> {
        is_encoding(self.alloc, schema, node, octets)
    }

    fn typed_len(
        &mut self,
        schema: &Schema<'_>,
        node: u32,
        octets: &[u8],
    ) -> Result<usize, AllocError> {
        let tree = read_as(self.alloc, schema, node, octets)?;
        Ok(typed_len(schema, tree.entries.as_slice(), tree.entries.len()))
    }
}

/// Memory of the caller that is used to read values. The fields are arguments of the function
/// `read_into` of the crate `schema_read`.
#[derive(Drop)]
pub struct Room<'e, 'd, 'm, 't> {
    /// Memory for the elements that are read.
    pub entries: &'e mut [Entry],
    /// Memory for the departures: the places at which the octets break a rule of DER.
    pub departures: &'d mut [Departure],
    /// Memory for the indices of fields. While a SET is read, the fields that were already read are
    /// noted here.
    pub marks: &'m mut [u32],
    /// Memory for the contents of a string in the constructed form. The contents of its segments
    /// are joined here.
    pub text: &'t mut [u8],
}

impl Memory for Room<'_, '_, '_, '_> {
    type Error = Full;

    fn is_ber(&mut self, schema: &Schema<'_>, node: u32, octets: &[u8]) -> Result<bool, Full> {
        if node >= schema.counts().nodes {
            return Ok(false);
        }
        let verdict = judge(schema, node, octets, self.marks, self.text)?;
        Ok(verdict.is_ber())
    }

    fn typed_len(&mut self, schema: &Schema<'_>, node: u32, octets: &[u8]) -> Result<usize, Full> {
        if node >= schema.counts().nodes {
            return Ok(0);
        }
        let found = read_into(
            schema,
            node,
            octets,
            self.entries,
            self.departures,
            self.marks,
            self.text,
        )?;
        Ok(typed_len(schema, self.entries, found.entries))
    }
}
