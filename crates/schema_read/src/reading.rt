//! Reading of values into memory that is allocated.
ghost use Rattle.std.specs.Prelude.{◌≡◌, ◌↔◌, ◌<◌, true, None, [], length, IfOk, IfSome};
ghost use Rattle.der_base.specs.declared.encoding_rules.EncodingRules.{EncodingRules};
ghost use Rattle.schema_types.specs.Table.{table_in};
ghost use Rattle.schema_read.specs.Departures.{AreOfDer, are_inside};
ghost use Rattle.schema_read.specs.Encoding.{IsDer, IsBer};
ghost use Rattle.schema_read.specs.Entries.{are_placed};
ghost use Rattle.schema_read.specs.Types.{types_in};
ghost use Rattle.schema_read.specs.Value.{IsValue};
ghost use Rattle.schema_read.specs.Verdict.{holds};

use crate::departure::Departure;
use crate::entry::Entry;
use crate::sizes::Sizes;
use crate::tree::Tree;
use crate::verdict::Verdict;
use crate::walk::{judge, read_into};
use schema_types::Schema;
use std::alloc::{AllocError, Global};

/// The greatest number of times that a value is read again with more memory. The memory of any
/// machine ends before that.
const TRIES: u32 = 32;

/// Reads octets as a value of the node `node` of a table. It does not stop where a rule is broken:
/// it stores a [`Departure`] and goes on. The contract of this function states these facts:
///
/// - There are no departures if and only if the octets are the DER encoding of a value of the node.
/// - All departures are from rules that only DER has if and only if the octets are a BER encoding
///   of a value of the node.
/// - The offset of each departure is that of one of the octets, or their end.
/// - Each element of the tree is inside the octets.
///
/// The caller must ensure that the table has a node with the index `node`.
///
/// # Errors
///
/// There is not enough memory for the tree.
pub fn read(
    alloc: Global,
    schema: &Schema<'_>,
    node: u32,
    octets: &[u8],
) -> Result<Tree, AllocError>
    requires { node < schema.now.counts.nodes }
    ensures der { IfOk result (λ tree. (tree.departures.items ≡ [])
        ↔ IsDer (table_in schema.now.octets.now) node octets.now) }
    ensures ber { IfOk result (λ tree. AreOfDer tree.departures.items
        ↔ IsBer (table_in schema.now.octets.now) node octets.now) }
    ensures inside { IfOk result (λ tree. are_inside (length octets.now) tree.departures.items ≡ true) }
    ensures placed { IfOk result (λ tree. are_placed (length octets.now) tree.entries.items ≡ true) }
{
    let mut sizes = Sizes::first(octets.len());
    for _ in 0..TRIES {
        if let Some(tree) = read_in(alloc, schema, node, octets, &mut sizes)? {
            return Ok(tree);
        }
    }
    Err(AllocError)
}

// Reads with room of these sizes. `None` if it is too small: then there are greater sizes, and exactly as many
// departures as were found, if these alone had too little room.
fn read_in(
    alloc: Global,
    schema: &Schema<'_>,
    node: u32,
    octets: &[u8],
    sizes: &mut Sizes,
) -> Result<Option<Tree>, AllocError>
    requires { node < schema.now.counts.nodes }
    ensures der { IfOk result (λ o. IfSome o (λ tree. (tree.departures.items ≡ [])
        ↔ IsDer (table_in schema.now.octets.now) node octets.now)) }
    ensures ber { IfOk result (λ o. IfSome o (λ tree. AreOfDer tree.departures.items
        ↔ IsBer (table_in schema.now.octets.now) node octets.now)) }
    ensures inside { IfOk result (λ o. IfSome o (λ tree.
        are_inside (length octets.now) tree.departures.items ≡ true)) }
    ensures placed { IfOk result (λ o. IfSome o (λ tree.
        are_placed (length octets.now) tree.entries.items ≡ true)) }
{
    let mut entries = vec![in alloc; Entry::NONE; sizes.entries]?;
    let mut departures = vec![in alloc; Departure::NONE; sizes.departures]?;
    let mut marks = vec![in alloc; 0u32; sizes.marks]?;
    let mut text = vec![in alloc; 0u8; sizes.text]?;
    let found = match read_into(
        schema,
        node,
        octets,
        entries.as_mut_slice(),
        departures.as_mut_slice(),
        marks.as_mut_slice(),
        text.as_mut_slice(),
    ) {
        Ok(found) if found.lost == 0 => found,
        Ok(found) => {
            sizes.departures = found.departures.saturating_add(found.lost);
            return Ok(None);
        }
        Err(_) => {
            *sizes = sizes.larger();
            return Ok(None);
        }
    };
    entries.truncate(found.entries);
    departures.truncate(found.departures);
    Ok(Some(Tree {
        entries,
        departures,
    }))
}

/// Whether octets are the DER encoding of a value of the node `node` of a table. No tree is made.
/// Memory is allocated only for strings in the constructed form, and for SETs. The caller must
/// ensure that the table has a node with the index `node`.
///
/// # Errors
///
/// There is not enough memory.
pub fn is_der(
    alloc: Global,
    schema: &Schema<'_>,
    node: u32,
    octets: &[u8],
) -> Result<bool, AllocError>
    requires { node < schema.now.counts.nodes }
    ensures { IfOk result (λ is. (is ≡ true) ↔ IsDer (table_in schema.now.octets.now) node octets.now) }
{
    let verdict = verdict_on(alloc, schema, node, octets)?;
    Ok(verdict.is_der())
}

/// Whether octets are a BER encoding of a value of the node `node` of a table. No tree is made.
/// Memory is allocated only for strings in the constructed form, and for SETs. The caller must
/// ensure that the table has a node with the index `node`.
///
/// # Errors
///
/// There is not enough memory.
pub fn is_ber(
    alloc: Global,
    schema: &Schema<'_>,
    node: u32,
    octets: &[u8],
) -> Result<bool, AllocError>
    requires { node < schema.now.counts.nodes }
    ensures { IfOk result (λ is. (is ≡ true) ↔ IsBer (table_in schema.now.octets.now) node octets.now) }
{
    let verdict = verdict_on(alloc, schema, node, octets)?;
    Ok(verdict.is_ber())
}

/// Returns whether octets are an encoding of a value of the node `node` of a table by DER, by BER
/// but not by DER, or by neither. No tree is made. Memory is allocated only for strings in the
/// constructed form, and for SETs. The caller must ensure that the table has a node with the index
/// `node`.
///
/// # Errors
///
/// There is not enough memory.
pub fn verdict_on(
    alloc: Global,
    schema: &Schema<'_>,
    node: u32,
    octets: &[u8],
) -> Result<Verdict, AllocError>
    requires { node < schema.now.counts.nodes }
    ensures exact { IfOk result (λ v. (rules : EncodingRules) → (holds rules v ≡ true)
        ↔ IsValue (types_in schema.now.octets.now) 64 rules None node octets.now) }
{
    let mut marks = [0u32; 16];
    let mut text = [0u8; 256];
    if let Ok(verdict) = judge(schema, node, octets, &mut marks, &mut text) {
        return Ok(verdict);
    }
    let mut sizes = Sizes::first(octets.len());
    for _ in 0..TRIES {
        let mut marks = vec![in alloc; 0u32; sizes.marks]?;
        let mut text = vec![in alloc; 0u8; sizes.text]?;
        let (marks, text) = (marks.as_mut_slice(), text.as_mut_slice());
        if let Ok(verdict) = judge(schema, node, octets, marks, text) {
            return Ok(verdict);
        }
        sizes = sizes.larger();
    }
    Err(AllocError)
}
