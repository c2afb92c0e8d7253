//! Finds the kind of a value, such as a certificate, from its octets.
ghost use Rattle.std.specs.Prelude.{◌≡◌, ◌↔◌, ◌<◌, true, [], IfOk};
ghost use Rattle.schema_types.specs.Table.{table_in};
ghost use Rattle.schema_read.specs.Departures.{AreOfDer};
ghost use Rattle.schema_read.specs.Encoding.{IsDer, IsBer};

use crate::kind::{KINDS, Kind};
use crate::memory::{Heap, Memory, Room};
use crate::outline::{has_deep_outline, has_outline};
use crate::plausible::{is_certain, is_plausible};
use schema_read::{Full, Tree, is_ber, read};
use schema_types::Schema;
use std::alloc::{AllocError, Global};

/// Finds the kind of value that the octets are. Returns the first kind in the order of
/// [`KINDS`](crate::KINDS) for which the octets are a BER encoding and their values are plausible.
///
/// If there is no such kind, the value may be damaged. Then only kinds are considered whose tags
/// the outer elements have:
///
/// - If an OBJECT IDENTIFIER at the front shows the kind for certain, returns this kind.
/// - Otherwise, reads the octets as each kind, and counts the octets that belong to elements of
///   known types. Returns the kind with the highest count, if the count is at least three quarters
///   of all octets.
/// - Otherwise, returns `None`.
///
/// Fails if an allocation fails.
pub fn find_kind(
    alloc: Global,
    schema: &Schema<'_>,
    octets: &[u8],
) -> Result<Option<Kind>, AllocError> {
    find_by(&mut Heap { alloc }, schema, octets)
}

/// Finds the kind of value that the octets are, as [`find_kind`] does, but uses memory of the
/// caller. Fails if the memory is too small.
pub fn find_kind_in(
    room: &mut Room<'_, '_, '_, '_>,
    schema: &Schema<'_>,
    octets: &[u8],
) -> Result<Option<Kind>, Full> {
    find_by(room, schema, octets)
}

fn find_by<M: Memory>(
    memory: &mut M,
    schema: &Schema<'_>,
    octets: &[u8],
) -> Result<Option<Kind>, M::Error> {
    for kind in KINDS {
        if has_deep_outline(schema, kind.node(), octets)
            && is_plausible(kind, octets)
            && memory.is_ber(schema, kind.node(), octets)?
        {
            return Ok(Some(kind));
        }
    }
    damaged_kind(memory, schema, octets)
}

/// Whether the octets are a BER encoding of a value of a type. `node` is the index of the type in
/// the table of types. False if the table has no type with this index. Fails if an allocation
/// fails.
pub fn is_encoding(
    alloc: Global,
    schema: &Schema<'_>,
    node: u32,
    octets: &[u8],
) -> Result<bool, AllocError>
    ensures { IfOk result (λ is. node < schema.now.counts.nodes
        → (is ≡ true) ↔ IsBer (table_in schema.now.octets.now) node octets.now) }
{
    if node < schema.counts().nodes {
        is_ber(alloc, schema, node, octets)
    } else {
        Ok(false)
    }
}

/// Reads the octets as a value of a type. `node` is the index of the type in the table of types.
/// The result also lists the departures: the places at which the octets break a rule.
///
/// - If there are no departures, the octets are a DER encoding of a value of the type.
/// - If all departures are from rules that only DER has, the octets are a BER encoding.
/// - Otherwise, the octets are not an encoding of a value of the type.
///
/// If the table has no type with this index, the tree is empty. Fails if an allocation fails.
pub fn read_as(
    alloc: Global,
    schema: &Schema<'_>,
    node: u32,
    octets: &[u8],
) -> Result<Tree, AllocError>
    ensures der { IfOk result (λ tree. node < schema.now.counts.nodes
        → (tree.departures.items ≡ []) ↔ IsDer (table_in schema.now.octets.now) node octets.now) }
    ensures ber { IfOk result (λ tree. node < schema.now.counts.nodes
        → AreOfDer tree.departures.items ↔ IsBer (table_in schema.now.octets.now) node octets.now) }
{
    if node < schema.counts().nodes {
        return read(alloc, schema, node, octets);
    }
    Ok(Tree {
        entries: Vec::new(alloc),
        departures: Vec::new(alloc),
    })
}

// The kind of which the octets are a value with faults inside its outer elements.
fn damaged_kind<M: Memory>(
    memory: &mut M,
    schema: &Schema<'_>,
    octets: &[u8],
) -> Result<Option<Kind>, M::Error> {
    let (mut best, mut most) = (None, 0usize);
    for kind in KINDS {
        if has_outline(schema, kind.node(), octets) && is_plausible(kind, octets) {
            if is_certain(kind, octets) {
                return Ok(Some(kind));
            }
            let typed = memory.typed_len(schema, kind.node(), octets)?;
            if typed > most {
                best = Some(kind);
                most = typed;
            }
        }
    }
    Ok(if most.saturating_mul(4) >= octets.len().saturating_mul(3) {
        best
    } else {
        None
    })
}
