//! Reads unknown extension additions: elements that no field of a SEQUENCE describes.
ghost use Rattle.std.specs.Prelude.{◌≡◌, ◌↔◌, ◌+◌, ◌<◌, ◌≤◌, ℕ, false, IsTrue, length, IfOk, OnOk};
ghost use Rattle.schema_types.specs.Span.{IsWithin as IsRange};
ghost use Rattle.schema_types.specs.Tags.{IsFieldOf};
ghost use Rattle.schema_types.specs.declared.field.Field.{Field as AField};
ghost use Rattle.schema_read.specs.Known.{Known};
ghost use Rattle.schema_read.specs.Reading.{Body, Status, Logs};
ghost use Rattle.schema_read.specs.Types.{types_in};
ghost use Rattle.schema_read.specs.Components.{IsInsertion, MayBePassed, AreComponents, AreFrom};
ghost use Rattle.schema_read.specs.Value.{IsValue, IsAny};

use crate::full::Full;
use crate::notes::Notes;
use crate::opened::Opened;
use crate::outcome::Outcome;
use crate::role::Role;
use crate::select::find_next;
use crate::tests::may_be_absent;
use crate::types::field_of;
use crate::untyped::any;
use crate::verdict::Verdict;
use schema_types::{Node, Schema};

/// Reads the unknown extension additions of a SEQUENCE that are in front of the field with this
/// index. Reads nothing if the extension insertion point of the SEQUENCE is not directly before
/// that field.
pub(crate) fn additions<'a>(
    notes: &mut Notes<'_>,
    schema: &Schema<'_>,
    depth: usize,
    node: Node,
    index: u32,
    at: usize,
    opened: Opened<'a>,
) -> Result<Outcome<'a>, Full>
    requires there { IsRange node.parts schema.now.counts.fields }
    requires part { (node.parts.start ≤ index) × (index ≤ node.parts.start + node.parts.count) }
    requires inside { opened.inside.end ≤ notes.old.end }
    ensures status { IfOk result (λ o. (left : ℕ) (known : Known)
        → index + left ≡ node.parts.start + node.parts.count → Status o.verdict
        (λ rules. Body opened.entry.marked opened.entry.beyond.now
        (AreComponents (IsValue (types_in schema.now.octets.now) depth) (IsAny depth) rules
        (types_in schema.now.octets.now) node left index known) o.rest.now)
        (λ rules. Body opened.entry.marked opened.entry.beyond.now
        (AreFrom (IsValue (types_in schema.now.octets.now) depth) (IsAny depth) rules
        (types_in schema.now.octets.now) node left index known) opened.entry.inside.octets.now)) }
    ensures log { IfOk result (λ o. Logs o.verdict notes.old notes.new) }
    ensures shorter { IfOk result (λ o. length o.rest.now ≤ length opened.entry.inside.octets.now) }
    ensures end { OnOk result (notes.new.end ≡ notes.old.end) }
{
    let role = Role::inside(at);
    let mut verdict = Verdict::Der;
    let mut rest = opened.inside.octets;
    if !is_insertion(node, index) {
        return Ok(Outcome { verdict, rest });
    }
    let first = first_taker(schema, node, index);
    'additions: while !opened.at(rest).is_ended()
        && find_next(schema, node, first, rest).is_none()
    {
        let outcome = any(notes, depth, role, opened.inside.at(rest))?;
        verdict = verdict.and(outcome.verdict);
        rest = outcome.rest;
    }
    Ok(Outcome { verdict, rest })
}

// Whether the extension insertion point of a node is before the field with an index.
fn is_insertion(node: Node, index: u32) -> bool
    requires { node.parts.start ≤ index }
    ensures { IsTrue result ↔ IsInsertion node index }
{
    match node.insertion() {
        Some(before) => index - node.parts.start == before,
        None => false,
    }
}

// The first field that takes an element at the extension insertion point before the field with an index.
fn first_taker(schema: &Schema<'_>, node: Node, index: u32) -> u32
    requires there { IsRange node.parts schema.now.counts.fields }
    requires part { (node.parts.start ≤ index) × (index ≤ node.parts.start + node.parts.count) }
    ensures first { node.parts.start ≤ result }
    ensures before { result ≤ index }
    ensures absent { MayBePassed (types_in schema.now.octets.now) node result index }
    ensures others { (k : ℕ) → MayBePassed (types_in schema.now.octets.now) node k index
        → node.parts.start ≤ k → result ≤ k }
{
    let mut first = index;
    'fields: while first > node.parts.start && may_be_absent(field_of(schema, first - 1)) {
        first -= 1;
    }
    first
}
