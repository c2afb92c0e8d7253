//! Writes the components of a SEQUENCE.
ghost use Rattle.std.specs.Prelude.{◌≡◌, ◌↔◌, ◌+◌, ◌<◌, ◌≤◌, ◌++◌, ℕ, List, Some, slice_get, IfOk, IsTrue};
ghost use Rattle.schema_types.specs.Field.{IsField};
ghost use Rattle.schema_types.specs.Pool.{octets_of};
ghost use Rattle.schema_types.specs.Span.{IsWithin as IsRange};
ghost use Rattle.schema_types.specs.declared.field.Field.{Field as AField};
ghost use Rattle.schema_types.specs.declared.presence.Presence.TheVariants.{Default};
ghost use Rattle.schema_read.specs.Known.{Known as AKnown, known_in};
ghost use Rattle.schema_read.specs.Types.{types_in};
ghost use Rattle.schema_write.specs.Components.{AreComponents, IsComponent};
ghost use Rattle.schema_write.specs.Pieces.{IsPiece};
ghost use Rattle.schema_write.specs.Same.{IsSame};

use crate::known::known_after;
use crate::piece::{Piece, front};
use crate::refusal::Refusal;
use crate::value::value;
use schema_read::walking::{Known, default_of, field_of, find_next};
use schema_types::{Field, Node, Presence, Schema};
use std::alloc::Global;

/// What is known after a component was read: the first field that may come next, and the last
/// OBJECT IDENTIFIER that was read. That OBJECT IDENTIFIER may choose the type of an open type.
#[derive(Clone, Copy)]
struct Passed<'a> {
    index: u32,
    known: Option<Known<'a>>,
}

// Writes the components of a SEQUENCE, and extension additions that it does not have.
#[cycle(written)]
pub(crate) fn components(
    alloc: Global,
    schema: &Schema<'_>,
    depth: usize,
    node: Node,
    contents: &[u8],
) -> Result<Vec<u8>, Refusal>
    requires there { IsRange node.parts schema.now.counts.fields }
    ensures same { IfOk result (λ v. (k : ℕ) × (after : AKnown)
        × AreComponents (IsSame (types_in schema.now.octets.now) depth) (types_in schema.now.octets.now) node
        k after contents.now v.items) }
{
    let mut out = Vec::new(alloc);
    let mut passed = Passed {
        index: node.parts.start,
        known: None,
    };
    let mut rest = contents;
    'elements: while !rest.is_empty() {
        let piece = front(rest, depth)?;
        passed = step(alloc, schema, depth, node, passed, piece, &mut out)?;
        rest = piece.rest;
    }
    Ok(out)
}

// Appends the next component, or an extension addition.
#[cycle(written)]
fn step<'a>(
    alloc: Global,
    schema: &Schema<'_>,
    depth: usize,
    node: Node,
    passed: Passed<'a>,
    piece: Piece<'a>,
    out: &mut Vec<u8>,
) -> Result<Passed<'a>, Refusal>
    requires piece { IsPiece piece }
    requires there { IsRange node.parts schema.now.counts.fields }
    requires part { node.parts.start ≤ passed.index }
    ensures same { IfOk result (λ p. (before : List ℕ)
        → AreComponents (IsSame (types_in schema.now.octets.now) depth) (types_in schema.now.octets.now) node
        passed.entry.index (known_in passed.entry.known) before out.old.items
        → AreComponents (IsSame (types_in schema.now.octets.now) depth) (types_in schema.now.octets.now) node
        p.index (known_in p.known) (before ++ piece.entry.octets.now) out.new.items) }
    ensures part { IfOk result (λ p. node.parts.start ≤ p.index) }
{
    match find_next(schema, node, passed.index, piece.octets) {
        Some(index) => {
            let field = field_of(schema, index);
            let written = component(alloc, schema, depth, passed.known, index, piece)?;
            let known = known_after(schema, field.node, index, piece.octets, passed.known)?;
            out.extend_from_slice(written.as_slice())?;
            Ok(Passed {
                index: after(index, schema.counts().fields),
                known,
            })
        }
        None => {
            out.extend_from_slice(piece.octets)?;
            Ok(passed)
        }
    }
}

// The index after that of a row, of so many.
fn after(index: u32, rows: u32) -> u32
    requires { index < rows }
    ensures { result ≡ index + 1 }
{
    index + 1
}

// Writes the component of a field: nothing, if it has the value of its DEFAULT (X.690 11.5).
#[cycle(written)]
pub(crate) fn component(
    alloc: Global,
    schema: &Schema<'_>,
    depth: usize,
    known: Option<Known<'_>>,
    index: u32,
    piece: Piece<'_>,
) -> Result<Vec<u8>, Refusal>
    requires piece { IsPiece piece }
    requires there { index < schema.now.counts.fields }
    ensures same { IfOk result (λ w. (f : AField)
        → slice_get (types_in schema.now.octets.now).fields index ≡ Some f
        → IsComponent (IsSame (types_in schema.now.octets.now) depth) (types_in schema.now.octets.now)
        (known_in known.entry) f piece.entry.octets.now w.items) }
{
    let field = field_of(schema, index);
    let written = value(alloc, schema, depth, known, field.node, piece)?;
    if is_default(schema, field, written.as_slice()) {
        Ok(Vec::new(alloc))
    } else {
        Ok(written)
    }
}

fn is_default(schema: &Schema<'_>, field: Field, octets: &[u8]) -> bool
    requires { IsField schema.now.counts schema.now.pool.now field }
    ensures { IsTrue result ↔ ((field.presence ≡ Default)
        × (octets.now ≡ octets_of (types_in schema.now.octets.now).pool field.default)) }
{
    match field.presence {
        Presence::Default => octets == default_of(schema, field),
        _ => false,
    }
}
