//! Reads the components of a SEQUENCE, and the items of a SEQUENCE OF or a SET OF.
ghost use Rattle.std.specs.Prelude.{◌≡◌, ◌+◌, ◌<◌, ◌≤◌, ℕ, [], Option, Some, None, slice_get, length, IsSome, IfOk, OnOk};
ghost use Rattle.schema_read.specs.Types.{types_in};
ghost use Rattle.schema_types.specs.Node.{IsNode as IsRow};
ghost use Rattle.schema_types.specs.Span.{IsWithin as IsRange};
ghost use Rattle.schema_types.specs.declared.node_kind.NodeKind.TheVariants.{Universal as Universally};
ghost use Rattle.ber.specs.declared.universal.Universal.TheVariants.{Sequence};
ghost use Rattle.schema_types.specs.Distinct.{AreDistinct};
ghost use Rattle.schema_read.specs.Constraints.{IsAllowedSize};
ghost use Rattle.schema_read.specs.Known.{known_in};
ghost use Rattle.schema_types.specs.declared.field.Field.{Field as AField};
ghost use Rattle.schema_read.specs.Components.{IsComponent, AreComponents, AreFrom};
ghost use Rattle.schema_read.specs.Items.{SomeItems};
ghost use Rattle.schema_read.specs.Value.{IsValue, IsAny};
ghost use Rattle.schema_read.specs.Reading.{Front, Body, Finds, Status, Logs};

use crate::additions::additions;
use crate::constraints::{count_rule, end_of};
use crate::full::Full;
use crate::known::{Known, known_after};
use crate::notes::Notes;
use crate::opened::Opened;
use crate::order::order_rule;
use crate::outcome::{Outcome, Step};
use crate::place::Place;
use crate::role::Role;
use crate::rule::Rule;
use crate::select::{begins, find_field};
use crate::tests::{default_rule, may_be_absent};
use crate::typed::{inner_of, value};
use crate::types::field_of;
use crate::untyped::{any, finish};
use crate::verdict::Verdict;
use ber::is_end_of_contents;
use schema_types::{Node, Schema};

// Reads the components of a SEQUENCE.
#[cycle(typed)]
pub(crate) fn components<'a>(
    notes: &mut Notes<'_>,
    marks: &mut [u32],
    room: &mut [u8],
    schema: &Schema<'_>,
    depth: usize,
    node: Node,
    at: usize,
    opened: Opened<'a>,
) -> Result<Outcome<'a>, Full>
    requires kind { node.kind ≡ Universally Sequence }
    requires there { IsRange node.parts schema.now.counts.fields }
    requires distinct { AreDistinct (types_in schema.now.octets.now) }
    requires row { (i : ℕ) × (slice_get (types_in schema.now.octets.now).nodes i ≡ Some node) }
    requires inside { opened.inside.end ≤ notes.old.end }
    ensures finds { IfOk result (λ o. Finds (λ rules. Body opened.entry.marked opened.entry.beyond.now
        (AreFrom (IsValue (types_in schema.now.octets.now) depth) (IsAny depth) rules
        (types_in schema.now.octets.now) node node.parts.count node.parts.start None)
        opened.entry.inside.octets.now) o.verdict o.rest.now) }
    ensures shorter { IfOk result (λ o. length o.rest.now
        ≤ length opened.entry.inside.octets.now + length opened.entry.beyond.now) }
    ensures log { IfOk result (λ o. Logs o.verdict notes.old notes.new) }
    ensures end { OnOk result (notes.new.end ≡ notes.old.end) }
{
    let mut index = node.parts.start;
    let end = end_of(node.parts, schema.counts().fields);
    let before = additions(notes, schema, depth, node, index, at, opened)?;
    let mut verdict = before.verdict;
    let mut rest = before.rest;
    let mut known = None;
    'fields: while index < end {
        let here = opened.at(rest);
        let step = component(
            notes, marks, room, schema, depth, known, node, index, at, here,
        )?;
        index += 1;
        let after = additions(notes, schema, depth, node, index, at, opened.at(step.rest))?;
        verdict = verdict.and(step.verdict).and(after.verdict);
        rest = after.rest;
        known = step.known;
    }
    let last = finish(notes, depth, at, opened.at(rest))?;
    Ok(Outcome {
        verdict: verdict.and(last.verdict),
        rest: last.rest,
    })
}

// Whether no component can begin here, or one of the later fields of a SEQUENCE does: then the field
// before them is missing, and otherwise the next element has another tag than it.
fn begins_later(schema: &Schema<'_>, node: Node, index: u32, octets: &[u8]) -> bool
    requires there { IsRange node.parts schema.now.counts.fields }
    requires part { (node.parts.start ≤ index) × (index < node.parts.start + node.parts.count) }
{
    octets.is_empty()
        || is_end_of_contents(octets)
        || find_field(schema, node, index, octets).is_some()
}

// Reads the component of a field, if it is there.
#[cycle(typed)]
fn component<'a>(
    notes: &mut Notes<'_>,
    marks: &mut [u32],
    room: &mut [u8],
    schema: &Schema<'_>,
    depth: usize,
    known: Option<Known<'a>>,
    node: Node,
    index: u32,
    at: usize,
    opened: Opened<'a>,
) -> Result<Step<'a>, Full>
    requires kind { node.kind ≡ Universally Sequence }
    requires there { IsRange node.parts schema.now.counts.fields }
    requires part { (node.parts.start ≤ index) × (index < node.parts.start + node.parts.count) }
    requires distinct { AreDistinct (types_in schema.now.octets.now) }
    requires row { (i : ℕ) × (slice_get (types_in schema.now.octets.now).nodes i ≡ Some node) }
    requires inside { opened.inside.end ≤ notes.old.end }
    ensures status { IfOk result (λ s. (left : ℕ) → index + (left + 1) ≡ node.parts.start + node.parts.count
        → Status s.verdict (λ rules. Body opened.entry.marked opened.entry.beyond.now
        (AreFrom (IsValue (types_in schema.now.octets.now) depth) (IsAny depth) rules
        (types_in schema.now.octets.now) node left (index + 1) (known_in s.known)) s.rest.now)
        (λ rules. Body opened.entry.marked opened.entry.beyond.now
        (AreComponents (IsValue (types_in schema.now.octets.now) depth) (IsAny depth) rules
        (types_in schema.now.octets.now) node (left + 1) index (known_in known.entry))
        opened.entry.inside.octets.now)) }
    ensures log { IfOk result (λ s. Logs s.verdict notes.old notes.new) }
    ensures shorter { IfOk result (λ s. length s.rest.now ≤ length opened.entry.inside.octets.now) }
    ensures end { OnOk result (notes.new.end ≡ notes.old.end) }
{
    let field = field_of(schema, index);
    let place = opened.inside;
    if begins(schema, field.node, place.octets) {
        let outcome = field_value(notes, marks, room, schema, depth, known, index, at, place)?;
        let octets = &place.octets[..place.octets.len() - outcome.rest.len()];
        return Ok(Step {
            verdict: outcome.verdict,
            rest: outcome.rest,
            known: known_after(schema, field.node, index, octets, known),
        });
    }
    if may_be_absent(field) {
        return Ok(Step {
            verdict: Verdict::Der,
            rest: place.octets,
            known,
        });
    }
    if begins_later(schema, node, index, place.octets) {
        let verdict = notes.depart(Rule::Missing, place.offset(), at)?;
        return Ok(Step {
            verdict,
            rest: place.octets,
            known,
        });
    }
    let verdict = notes.depart(Rule::Tag, place.offset(), at)?;
    let outcome = any(notes, depth, Role::inside(at), place)?;
    Ok(Step {
        verdict: verdict.and(outcome.verdict),
        rest: outcome.rest,
        known,
    })
}

// Reads the value of a field.
#[cycle(typed)]
pub(crate) fn field_value<'a>(
    notes: &mut Notes<'_>,
    marks: &mut [u32],
    room: &mut [u8],
    schema: &Schema<'_>,
    depth: usize,
    known: Option<Known<'_>>,
    index: u32,
    at: usize,
    place: Place<'a>,
) -> Result<Outcome<'a>, Full>
    requires there { index < schema.now.counts.fields }
    requires distinct { AreDistinct (types_in schema.now.octets.now) }
    requires inside { place.end ≤ notes.old.end }
    ensures finds { IfOk result (λ o. (f : AField)
        → slice_get (types_in schema.now.octets.now).fields index ≡ Some f → Finds (λ rules. Front
        (IsComponent (IsValue (types_in schema.now.octets.now) depth) rules
        (types_in schema.now.octets.now) (known_in known.entry) f) place.entry.octets.now)
        o.verdict o.rest.now) }
    ensures log { IfOk result (λ o. Logs o.verdict notes.old notes.new) }
    ensures shorter { IfOk result (λ o. length o.rest.now ≤ length place.entry.octets.now) }
    ensures moves { IfOk result
        (λ o. 0 < length place.entry.octets.now → length o.rest.now < length place.entry.octets.now) }
    ensures end { OnOk result (notes.new.end ≡ notes.old.end) }
{
    let field = field_of(schema, index);
    let role = Role {
        field: index,
        ..Role::inside(at)
    };
    let outcome = value(
        notes, marks, room, schema, depth, known, field.node, role, place,
    )?;
    let octets = &place.octets[..place.octets.len() - outcome.rest.len()];
    let encoded = notes.judge(default_rule(schema, field, octets), place.offset(), at)?;
    Ok(Outcome {
        verdict: outcome.verdict.and(encoded),
        rest: outcome.rest,
    })
}

// Reads the values of a SEQUENCE OF or a SET OF.
#[cycle(typed)]
pub(crate) fn items<'a>(
    notes: &mut Notes<'_>,
    marks: &mut [u32],
    room: &mut [u8],
    schema: &Schema<'_>,
    depth: usize,
    known: Option<Known<'_>>,
    node: Node,
    sorted: bool,
    at: usize,
    opened: Opened<'a>,
) -> Result<Outcome<'a>, Full>
    requires inner { IsSome node.inner }
    requires fits { IsRow schema.now.counts schema.now.pool.now node }
    requires distinct { AreDistinct (types_in schema.now.octets.now) }
    requires inside { opened.inside.end ≤ notes.old.end }
    ensures finds { IfOk result (λ o. Finds (λ rules. Body opened.entry.marked opened.entry.beyond.now
        (λ inner. (i : ℕ) × (node.inner ≡ Some i) × SomeItems sorted rules
        (IsValue (types_in schema.now.octets.now) depth rules (known_in known.entry) i)
        (IsAllowedSize (types_in schema.now.octets.now) node.limits) inner) opened.entry.inside.octets.now) o.verdict o.rest.now) }
    ensures shorter { IfOk result (λ o. length o.rest.now
        ≤ length opened.entry.inside.octets.now + length opened.entry.beyond.now) }
    ensures log { IfOk result (λ o. Logs o.verdict notes.old notes.new) }
    ensures end { OnOk result (notes.new.end ≡ notes.old.end) }
{
    let role = Role::inside(at);
    let item = inner_of(node);
    let mut verdict = Verdict::Der;
    let mut rest = opened.inside.octets;
    let mut count = 0usize;
    let mut before: &[u8] = &[];
    'items: while !opened.at(rest).is_ended() {
        let place = opened.inside.at(rest);
        let outcome = value(notes, marks, room, schema, depth, known, item, role, place)?;
        let octets = &rest[..rest.len() - outcome.rest.len()];
        let order = notes.judge(order_rule(sorted, before, octets), place.offset(), at)?;
        verdict = verdict.and(outcome.verdict).and(order);
        rest = outcome.rest;
        before = octets;
        count += 1;
    }
    let size = notes.judge(count_rule(schema, node.limits, count), opened.start, at)?;
    let end = finish(notes, depth, at, opened.at(rest))?;
    Ok(Outcome {
        verdict: verdict.and(size.and(end.verdict)),
        rest: end.rest,
    })
}

// Reads the value inside an EXPLICIT tag.
#[cycle(typed)]
pub(crate) fn explicit<'a>(
    notes: &mut Notes<'_>,
    marks: &mut [u32],
    room: &mut [u8],
    schema: &Schema<'_>,
    depth: usize,
    known: Option<Known<'_>>,
    inner: u32,
    at: usize,
    opened: Opened<'a>,
) -> Result<Outcome<'a>, Full>
    requires there { inner < schema.now.counts.nodes }
    requires distinct { AreDistinct (types_in schema.now.octets.now) }
    requires inside { opened.inside.end ≤ notes.old.end }
    ensures finds { IfOk result (λ o. Finds (λ rules. Body opened.entry.marked opened.entry.beyond.now
        (IsValue (types_in schema.now.octets.now) depth rules (known_in known.entry) inner)
        opened.entry.inside.octets.now) o.verdict o.rest.now) }
    ensures shorter { IfOk result (λ o. length o.rest.now
        ≤ length opened.entry.inside.octets.now + length opened.entry.beyond.now) }
    ensures log { IfOk result (λ o. Logs o.verdict notes.old notes.new) }
    ensures end { OnOk result (notes.new.end ≡ notes.old.end) }
{
    let role = Role::inside(at);
    let outcome = value(
        notes,
        marks,
        room,
        schema,
        depth,
        known,
        inner,
        role,
        opened.inside,
    )?;
    let end = finish(notes, depth, at, opened.at(outcome.rest))?;
    Ok(Outcome {
        verdict: outcome.verdict.and(end.verdict),
        rest: end.rest,
    })
}
