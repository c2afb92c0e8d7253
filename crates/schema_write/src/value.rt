//! Writes values of the types of a table.
ghost use Rattle.std.specs.Prelude.{◌≡◌, ◌<◌, ℕ, Some, slice_get, IfOk};
ghost use Rattle.schema_types.specs.Node.{IsNode as IsRow};
ghost use Rattle.schema_types.specs.Table.{IsAscending};
ghost use Rattle.schema_types.specs.declared.node.Node.{Node as ANode};
ghost use Rattle.schema_read.specs.Known.{known_in};
ghost use Rattle.schema_read.specs.Types.{types_in};
ghost use Rattle.schema_read.specs.Value.{shape_of};
ghost use Rattle.schema_read.specs.declared.shape.Shape.TheVariants.{Of};
ghost use Rattle.schema_read.specs.Known.{Known as AKnown};
ghost use Rattle.schema_types.specs.Table.{Table};
ghost use Rattle.schema_write.specs.Pieces.{IsPiece};
ghost use Rattle.schema_write.specs.Same.{IsSame, IsNodeSame, AreSame};

use crate::components::components;
use crate::element::element;
use crate::items::{items, members, sorted_items};
use crate::piece::{Piece, front};
use crate::primitive::{joined_text, rewritten};
use crate::refusal::Refusal;
use ber::Universal;
use schema_read::walking::{Known, Shape, chosen, is_joined, node_of, select};
use schema_types::{Node, Schema};
use std::alloc::Global;

// Writes a value of a node.
#[cycle(written)]
pub(crate) fn value(
    alloc: Global,
    schema: &Schema<'_>,
    depth: usize,
    known: Option<Known<'_>>,
    node: u32,
    piece: Piece<'_>,
) -> Result<Vec<u8>, Refusal>
    requires piece { IsPiece piece }
    requires there { node < schema.now.counts.nodes }
    ensures same { IfOk result (λ w. IsSame (types_in schema.now.octets.now) depth (known_in known.entry) node
        piece.entry.octets.now w.items) }
{
    if depth == 0 {
        return Err(Refusal::NotBer);
    }
    match select(schema, node, piece.header.class, piece.header.number) {
        Some(selected) => selected_value(alloc, schema, depth - 1, known, selected.node, piece),
        None => Err(Refusal::NotBer),
    }
}

// Writes a value of a node that is no CHOICE.
#[cycle(written)]
fn selected_value(
    alloc: Global,
    schema: &Schema<'_>,
    depth: usize,
    known: Option<Known<'_>>,
    index: u32,
    piece: Piece<'_>,
) -> Result<Vec<u8>, Refusal>
    requires piece { IsPiece piece }
    requires there { index < schema.now.counts.nodes }
    ensures same { IfOk result (λ w. (n : ANode)
        → slice_get (types_in schema.now.octets.now).nodes index ≡ Some n
        → IsNodeSame (types_in schema.now.octets.now) (IsSame (types_in schema.now.octets.now) depth)
        (known_in known.entry) n piece.entry.octets.now w.items) }
{
    let node = node_of(schema, index);
    match chosen(schema, &node, known) {
        Some(inner) => value(alloc, schema, depth, known, inner, piece),
        None => node_value(alloc, schema, depth, known, node, piece),
    }
}

// Writes an element with the tag of a node.
#[cycle(written)]
fn node_value(
    alloc: Global,
    schema: &Schema<'_>,
    depth: usize,
    known: Option<Known<'_>>,
    node: Node,
    piece: Piece<'_>,
) -> Result<Vec<u8>, Refusal>
    requires piece { IsPiece piece }
    requires fits { IsRow schema.now.counts schema.now.pool.now node }
    ensures same { IfOk result (λ w. IsNodeSame (types_in schema.now.octets.now)
        (IsSame (types_in schema.now.octets.now) depth) (known_in known.entry) node piece.entry.octets.now
        w.items) }
{
    match Shape::of(node.kind) {
        Shape::Untyped => Ok(piece.octets.to_vec(alloc)?),
        Shape::Of(universal) => of_type(alloc, node, universal, piece),
        shape => {
            let contents = inside(alloc, schema, depth, known, node, shape, piece.contents)?;
            element(alloc, piece.header, true, contents.as_slice())
        }
    }
}

// Writes the contents of a constructed type.
#[cycle(written)]
fn inside(
    alloc: Global,
    schema: &Schema<'_>,
    depth: usize,
    known: Option<Known<'_>>,
    node: Node,
    shape: Shape,
    contents: &[u8],
) -> Result<Vec<u8>, Refusal>
    requires fits { IsRow schema.now.counts schema.now.pool.now node }
    requires shape { shape ≡ shape_of node.kind }
    ensures same { IfOk result (λ v. AreSame (shape_of node.kind) (types_in schema.now.octets.now)
        (IsSame (types_in schema.now.octets.now) depth) (known_in known.entry) node contents.now v.items) }
{
    match shape {
        Shape::Components => components(alloc, schema, depth, node, contents),
        Shape::Members => members(alloc, schema, depth, node, contents),
        Shape::Items => items(alloc, schema, depth, known, node, contents),
        Shape::SortedItems => sorted_items(alloc, schema, depth, known, node, contents),
        Shape::Inner => explicit(alloc, schema, depth, known, node, contents),
        _ => Err(Refusal::NotBer),
    }
}

// Writes the value inside an EXPLICIT tag.
#[cycle(written)]
fn explicit(
    alloc: Global,
    schema: &Schema<'_>,
    depth: usize,
    known: Option<Known<'_>>,
    node: Node,
    contents: &[u8],
) -> Result<Vec<u8>, Refusal>
    requires fits { IsRow schema.now.counts schema.now.pool.now node }
    ensures same { IfOk result (λ v. (i : ℕ) × (node.inner ≡ Some i)
        × IsSame (types_in schema.now.octets.now) depth (known_in known.entry) i contents.now v.items) }
{
    let Some(inner) = node.inner else {
        return Err(Refusal::NotBer);
    };
    let piece = front(contents, depth)?;
    if !piece.rest.is_empty() {
        return Err(Refusal::NotBer);
    }
    value(alloc, schema, depth, known, inner, piece)
}

// Writes a value of a universal type without components.
fn of_type(
    alloc: Global,
    node: Node,
    universal: Universal,
    piece: Piece<'_>,
) -> Result<Vec<u8>, Refusal>
    requires piece { IsPiece piece }
    requires kind { shape_of node.kind ≡ Of universal }
    ensures same { IfOk result (λ w. (t : Table) (d : ℕ) (known : AKnown)
        → IsNodeSame t (IsSame t d) known node piece.entry.octets.now w.items) }
{
    let names = node.parts.count;
    if is_joined(piece.header.constructed, universal) {
        let text = joined_text(alloc, universal, piece.contents)?;
        let contents = rewritten(alloc, universal, names, text.as_slice())?;
        return element(alloc, piece.header, false, contents.as_slice());
    }
    if piece.header.constructed {
        return Ok(piece.octets.to_vec(alloc)?);
    }
    let contents = rewritten(alloc, universal, names, piece.contents)?;
    element(alloc, piece.header, false, contents.as_slice())
}
