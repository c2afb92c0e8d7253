//! The order of nodes in a table. A CHOICE that is an alternative of another CHOICE comes first.

use crate::rows::{Rows, count_of};
use crate::wrong::Wrong;
use asn1_syntax::Refusal;
use schema_types::{Node, NodeKind};
use std::alloc::{AllocError, Global};

/// The greatest depth to which CHOICEs may be nested as alternatives.
const MAX_HEIGHT: u32 = 64;

const IN_ITSELF: &str = "a CHOICE that is not an alternative of itself";

/// Returns the indices of the nodes in the order in which a table has them. A CHOICE comes after
/// each of its alternatives that is a CHOICE. Fails if CHOICEs are nested more than 64 deep, and if
/// a CHOICE is an alternative of itself.
pub fn order_of<'a>(alloc: Global, rows: &Rows<'a>) -> Result<Vec<usize>, Wrong<'a>> {
    let mut heights = vec![in alloc; 0u32; rows.nodes.len()]?;
    for _ in 0..=MAX_HEIGHT {
        if !raise(rows, &mut heights) {
            return Ok(sorted(alloc, &heights)?);
        }
    }
    Err(too_high(rows, &heights))
}

// The first alternative of a CHOICE with too many in each other.
fn too_high<'a>(rows: &Rows<'a>, heights: &Vec<u32>) -> Wrong<'a> {
    for (index, height) in heights.iter().enumerate() {
        if *height > MAX_HEIGHT
            && let Some(node) = rows.nodes.get(index)
            && let Some(name) = rows.components.get(node.parts.start as usize)
        {
            return Wrong::Unsupported(Refusal::of(*name, IN_ITSELF));
        }
    }
    Wrong::OutOfMemory
}

/// The position of each node in `order`. The place in the result is the index of the node.
pub fn places_of(alloc: Global, order: &Vec<usize>) -> Result<Vec<u32>, AllocError> {
    let mut places = vec![in alloc; 0u32; order.len()]?;
    for (place, index) in order.iter().enumerate() {
        if let Some(of) = places.get_mut(*index) {
            *of = count_of(place);
        }
    }
    Ok(places)
}

// The indices from the lowest to the highest, in their order where heights are the same.
fn sorted(alloc: Global, heights: &Vec<u32>) -> Result<Vec<usize>, AllocError> {
    let mut pairs = Vec::new(alloc);
    for (index, height) in heights.iter().enumerate() {
        pairs.push((*height, index))?;
    }
    pairs.sort_by_key(|pair| pair.0)?;
    let mut order = Vec::new(alloc);
    for pair in pairs.iter() {
        order.push(pair.1)?;
    }
    Ok(order)
}

// Puts each CHOICE above its alternatives; whether one was not.
fn raise(rows: &Rows<'_>, heights: &mut Vec<u32>) -> bool {
    let mut is_raised = false;
    for (index, node) in rows.nodes.iter().enumerate() {
        let least = least_height(rows, node, heights);
        if let Some(height) = heights.get_mut(index)
            && *height < least
        {
            *height = least;
            is_raised = true;
        }
    }
    is_raised
}

// One more than the greatest height of an alternative that is a CHOICE; 0 if there is none.
fn least_height(rows: &Rows<'_>, node: &Node, heights: &Vec<u32>) -> u32 {
    let mut least = 0u32;
    if node.kind != NodeKind::Choice {
        return least;
    }
    let fields = rows.fields.iter().skip(node.parts.start as usize);
    for field in fields.take(node.parts.count as usize) {
        if let Some(of) = rows.nodes.get(field.node as usize)
            && of.kind == NodeKind::Choice
            && let Some(height) = heights.get(field.node as usize)
        {
            least = least.max(height.saturating_add(1));
        }
    }
    least
}
