//! Writes SEQUENCE OF, SET OF and SET.
ghost use Rattle.std.specs.Prelude.{◌≡◌, ◌<◌, ◌++◌, ◌∷◌, [], ℕ, true, false, Some, IsSome, IfOk, OnOk, map};
ghost use Rattle.std.specs.List.{concat};
ghost use Rattle.schema_types.specs.Node.{IsNode as IsRow};
ghost use Rattle.schema_types.specs.Span.{IsWithin as IsRange};
ghost use Rattle.schema_read.specs.Known.{known_in};
ghost use Rattle.schema_read.specs.Types.{types_in};
ghost use Rattle.schema_write.specs.Components.{IsMember};
ghost use Rattle.schema_write.specs.Lists.{InTheirOrder, InSomeOrder, AreWritten};
ghost use Rattle.schema_write.specs.Pieces.{IsPiece};
ghost use Rattle.schema_write.specs.Same.{IsSame};

use crate::components::component;
use crate::order::{encoding_order, tag_order};
use crate::piece::{Piece, front};
use crate::refusal::Refusal;
use crate::value::value;
use schema_read::walking::{Known, find_field};
use schema_types::{Node, Schema};
use std::alloc::{AllocError, Global};

// Writes the values of a SEQUENCE OF, in their order.
#[cycle(written)]
pub(crate) fn items(
    alloc: Global,
    schema: &Schema<'_>,
    depth: usize,
    known: Option<Known<'_>>,
    node: Node,
    contents: &[u8],
) -> Result<Vec<u8>, Refusal>
    requires fits { IsRow schema.now.counts schema.now.pool.now node }
    ensures same { IfOk result (λ v. (i : ℕ) × (node.inner ≡ Some i)
        × InTheirOrder (IsSame (types_in schema.now.octets.now) depth (known_in known.entry) i) contents.now
        v.items) }
{
    let Some(inner) = node.inner else {
        return Err(Refusal::NotBer);
    };
    let written = each(alloc, schema, depth, known, inner, contents)?;
    Ok(joined(alloc, written.as_slice())?)
}

// Writes the values of a SET OF, in the order of their encodings (X.690 11.6).
#[cycle(written)]
pub(crate) fn sorted_items(
    alloc: Global,
    schema: &Schema<'_>,
    depth: usize,
    known: Option<Known<'_>>,
    node: Node,
    contents: &[u8],
) -> Result<Vec<u8>, Refusal>
    requires fits { IsRow schema.now.counts schema.now.pool.now node }
    ensures same { IfOk result (λ v. (i : ℕ) × (node.inner ≡ Some i)
        × InSomeOrder (IsSame (types_in schema.now.octets.now) depth (known_in known.entry) i) contents.now
        v.items) }
{
    let Some(inner) = node.inner else {
        return Err(Refusal::NotBer);
    };
    let mut written = each(alloc, schema, depth, known, inner, contents)?;
    written.sort_unstable_by(encoding_order);
    Ok(joined(alloc, written.as_slice())?)
}

// Writes each value of a node.
#[cycle(written)]
fn each(
    alloc: Global,
    schema: &Schema<'_>,
    depth: usize,
    known: Option<Known<'_>>,
    node: u32,
    contents: &[u8],
) -> Result<Vec<Vec<u8>>, Refusal>
    requires there { node < schema.now.counts.nodes }
    ensures same { IfOk result (λ ws. AreWritten
        (IsSame (types_in schema.now.octets.now) depth (known_in known.entry) node) contents.now
        (map (λ v. v.items) ws.items)) }
{
    let mut written = Vec::new(alloc);
    let mut rest = contents;
    'items: while !rest.is_empty() {
        let piece = front(rest, depth)?;
        let item = value(alloc, schema, depth, known, node, piece)?;
        keep(&mut written, item)?;
        rest = piece.rest;
    }
    Ok(written)
}

// Writes the elements of a SET, in the order of their tags.
#[cycle(written)]
pub(crate) fn members(
    alloc: Global,
    schema: &Schema<'_>,
    depth: usize,
    node: Node,
    contents: &[u8],
) -> Result<Vec<u8>, Refusal>
    requires there { IsRange node.parts schema.now.counts.fields }
    ensures same { IfOk result (λ v. InSomeOrder (IsMember (IsSame (types_in schema.now.octets.now) depth)
        (types_in schema.now.octets.now) node) contents.now v.items) }
{
    let mut written = each_member(alloc, schema, depth, node, contents)?;
    written.sort_unstable_by(tag_order);
    Ok(joined(alloc, written.as_slice())?)
}

// Writes each element of a SET.
#[cycle(written)]
fn each_member(
    alloc: Global,
    schema: &Schema<'_>,
    depth: usize,
    node: Node,
    contents: &[u8],
) -> Result<Vec<Vec<u8>>, Refusal>
    requires there { IsRange node.parts schema.now.counts.fields }
    ensures same { IfOk result (λ ws. AreWritten (IsMember (IsSame (types_in schema.now.octets.now) depth)
        (types_in schema.now.octets.now) node) contents.now (map (λ v. v.items) ws.items)) }
{
    let mut written = Vec::new(alloc);
    let mut rest = contents;
    'members: while !rest.is_empty() {
        let piece = front(rest, depth)?;
        let element = member(alloc, schema, depth, node, piece)?;
        keep(&mut written, element)?;
        rest = piece.rest;
    }
    Ok(written)
}

// Writes an element of a SET.
#[cycle(written)]
fn member(
    alloc: Global,
    schema: &Schema<'_>,
    depth: usize,
    node: Node,
    piece: Piece<'_>,
) -> Result<Vec<u8>, Refusal>
    requires piece { IsPiece piece }
    requires there { IsRange node.parts schema.now.counts.fields }
    ensures same { IfOk result (λ w. IsMember (IsSame (types_in schema.now.octets.now) depth)
        (types_in schema.now.octets.now) node piece.entry.octets.now w.items) }
{
    match find_field(schema, node, node.parts.start, piece.octets) {
        Some(index) => component(alloc, schema, depth, None, index, piece),
        None => Ok(piece.octets.to_vec(alloc)?),
    }
}

// Octets one after the other.
fn joined(alloc: Global, parts: &[Vec<u8>]) -> Result<Vec<u8>, AllocError>
    ensures { IfOk result (λ v. v.items ≡ concat (map (λ part. part.items) parts.now)) }
{
    let mut out = Vec::new(alloc);
    for part in parts {
        out.extend_from_slice(part.as_slice())?;
    }
    Ok(out)
}

// Appends an element to a list.
fn keep(list: &mut Vec<Vec<u8>>, element: Vec<u8>) -> Result<(), AllocError>
    ensures { OnOk result (map (λ v. v.items) list.new.items
        ≡ map (λ v. v.items) list.old.items ++ element.items ∷ []) }
{
    list.push(element)?;
    Ok(())
}
