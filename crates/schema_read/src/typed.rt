//! Reads values of the types of a table.
ghost use Rattle.std.specs.Prelude.{◌≡◌, ◌≢◌, ◌↔◌, ◌+◌, ◌<◌, ◌≤◌, ℕ, true, false, [], Option, Some, None, slice_get, length, IsSome, IfOk, OnOk, IsTrue};
ghost use Rattle.der_base.specs.declared.encoding_rules.EncodingRules.{EncodingRules};
ghost use Rattle.ber.specs.Der.{HasReservedTag};
ghost use Rattle.ber.specs.Header.{IsNext, end_header, label_of_header};
ghost use Rattle.schema_read.specs.Types.{types_in};
ghost use Rattle.schema_types.specs.Node.{IsNode as IsRow};
ghost use Rattle.schema_types.specs.Span.{IsWithin as IsRange};
ghost use Rattle.schema_types.specs.declared.node.Node.{Node as ANode};
ghost use Rattle.schema_types.specs.declared.node_kind.NodeKind.TheVariants.{Open};
ghost use Rattle.schema_read.specs.Verdict.{holds};
ghost use Rattle.schema_types.specs.Tags.{HasTag};
ghost use Rattle.schema_types.specs.Distinct.{AreDistinct};
ghost use Rattle.schema_read.specs.Constraints.{bound_of};
ghost use Rattle.schema_read.specs.declared.bound.Bound.TheVariants.{Items};
ghost use Rattle.schema_read.specs.Known.{IsUnknownOpen, known_in};
ghost use Rattle.schema_read.specs.Value.{IsValue, IsAny, IsNode, AreContents, IsOfType, is_joined, IsUnknownType, Contains, IsContained, contained_in, shape_of};
ghost use Rattle.schema_read.specs.Reading.{Front, Body, Finds, Logs};

use crate::chosen::chosen;
use crate::components::{components, explicit, items};
use crate::constraints::constraint_rule;
use crate::entry::Entry;
use crate::front::{front_header, pass};
use crate::full::Full;
use crate::known::Known;
use crate::members::members;
use crate::notes::Notes;
use crate::opened::Opened;
use crate::opening::after_header;
use crate::outcome::Outcome;
use crate::place::Place;
use crate::role::Role;
use crate::rule::Rule;
use crate::shape::Shape;
use crate::texts::{is_joined, joined_text};
use crate::types::{node_of, select};
use crate::untyped::{any, finish, unknown_contents};
use crate::verdict::Verdict;
use ber::{Header, Universal};
use schema_types::{Node, NodeKind, Schema};

// Reads the value of a node at the front.
#[cycle(typed)]
pub(crate) fn value<'a>(
    notes: &mut Notes<'_>,
    marks: &mut [u32],
    room: &mut [u8],
    schema: &Schema<'_>,
    depth: usize,
    known: Option<Known<'_>>,
    node: u32,
    role: Role,
    place: Place<'a>,
) -> Result<Outcome<'a>, Full>
    requires there { node < schema.now.counts.nodes }
    requires distinct { AreDistinct (types_in schema.now.octets.now) }
    requires inside { place.end ≤ notes.old.end }
    ensures finds { IfOk result (λ o. Finds (λ rules. Front
        (IsValue (types_in schema.now.octets.now) depth rules (known_in known.entry) node) place.entry.octets.now)
        o.verdict o.rest.now) }
    ensures log { IfOk result (λ o. Logs o.verdict notes.old notes.new) }
    ensures shorter { IfOk result (λ o. length o.rest.now ≤ length place.entry.octets.now) }
    ensures moves { IfOk result
        (λ o. 0 < length place.entry.octets.now → length o.rest.now < length place.entry.octets.now) }
    ensures end { OnOk result (notes.new.end ≡ notes.old.end) }
{
    let header = match front_header(place.octets, depth) {
        Ok(header) => header,
        Err(rule) => return pass(notes, rule, role, place),
    };
    match select(schema, node, header.class, header.number) {
        Some(selected) => {
            selected_value(
                notes,
                marks,
                room,
                schema,
                depth - 1,
                known,
                selected.node,
                role.through(selected.field),
                header,
                place,
            )
        }
        None => {
            let verdict = notes.depart(Rule::Tag, place.offset(), role.parent)?;
            let outcome = any(notes, depth, role, place)?;
            Ok(Outcome {
                verdict: verdict.and(outcome.verdict),
                rest: outcome.rest,
            })
        }
    }
}

// Reads the value of a node that is no CHOICE, and has the tag of the header at the front.
#[cycle(typed)]
fn selected_value<'a>(
    notes: &mut Notes<'_>,
    marks: &mut [u32],
    room: &mut [u8],
    schema: &Schema<'_>,
    depth: usize,
    known: Option<Known<'_>>,
    index: u32,
    role: Role,
    header: Header,
    place: Place<'a>,
) -> Result<Outcome<'a>, Full>
    requires there { index < schema.now.counts.nodes }
    requires distinct { AreDistinct (types_in schema.now.octets.now) }
    requires next { IsNext header place.octets.now }
    requires real { header ≢ end_header }
    requires known { HasReservedTag (label_of_header header) → ⊥ }
    requires tagged { (n : ANode) → slice_get (types_in schema.now.octets.now).nodes index ≡ Some n
        → HasTag n header.class header.number }
    requires inside { place.end ≤ notes.old.end }
    ensures finds { IfOk result (λ o. (n : ANode)
        → slice_get (types_in schema.now.octets.now).nodes index ≡ Some n → Finds (λ rules. Front
        (IsNode rules (types_in schema.now.octets.now) (IsValue (types_in schema.now.octets.now) depth)
        (IsAny depth) (known_in known.entry) n) place.entry.octets.now) o.verdict o.rest.now) }
    ensures log { IfOk result (λ o. Logs o.verdict notes.old notes.new) }
    ensures moves { IfOk result (λ o. length o.rest.now < length place.entry.octets.now) }
    ensures end { OnOk result (notes.new.end ≡ notes.old.end) }
{
    let node = node_of(schema, index);
    match chosen(schema, &node, known) {
        Some(inner) => value(notes, marks, room, schema, depth, known, inner, role, place),
        None => {
            let entry = Entry::new(header, place, role, index);
            let at = notes.enter(entry)?;
            let allowed = notes.judge_lengths(header, place.offset(), at)?;
            match after_header(header, place) {
                Some(opened) => {
                    let outcome = contents(
                        notes, marks, room, schema, depth, known, node, at, header, opened,
                    )?;
                    notes.leave(at, entry, opened, outcome.rest);
                    Ok(Outcome {
                        verdict: allowed.and(outcome.verdict),
                        rest: outcome.rest,
                    })
                }
                None => {
                    let cut = notes.depart(Rule::Truncated, place.offset(), at)?;
                    Ok(Outcome {
                        verdict: allowed.and(cut),
                        rest: &[],
                    })
                }
            }
        }
    }
}

// Reads the contents of an element with the tag of a node.
#[cycle(typed)]
fn contents<'a>(
    notes: &mut Notes<'_>,
    marks: &mut [u32],
    room: &mut [u8],
    schema: &Schema<'_>,
    depth: usize,
    known: Option<Known<'_>>,
    node: Node,
    at: usize,
    header: Header,
    opened: Opened<'a>,
) -> Result<Outcome<'a>, Full>
    requires fits { IsRow schema.now.counts schema.now.pool.now node }
    requires distinct { AreDistinct (types_in schema.now.octets.now) }
    requires row { (i : ℕ) × (slice_get (types_in schema.now.octets.now).nodes i ≡ Some node) }
    requires form { header.constructed ≡ false → opened.marked ≡ false }
    requires inside { opened.inside.end ≤ notes.old.end }
    ensures finds { IfOk result (λ o. Finds (λ rules. Body opened.entry.marked opened.entry.beyond.now
        (AreContents (shape_of node.kind) rules (types_in schema.now.octets.now)
        (IsValue (types_in schema.now.octets.now) depth) (IsAny depth) (known_in known.entry) node header)
        opened.entry.inside.octets.now) o.verdict o.rest.now) }
    ensures shorter { IfOk result (λ o. length o.rest.now
        ≤ length opened.entry.inside.octets.now + length opened.entry.beyond.now) }
    ensures log { IfOk result (λ o. Logs o.verdict notes.old notes.new) }
    ensures end { OnOk result (notes.new.end ≡ notes.old.end) }
{
    let shape = Shape::of(node.kind);
    if shape.has_wrong_form(header.constructed) {
        let verdict = notes.depart(Rule::Form, opened.start, at)?;
        return Ok(Outcome {
            verdict,
            rest: opened.beyond,
        });
    }
    match shape {
        Shape::Components => components(notes, marks, room, schema, depth, node, at, opened),
        Shape::Members => members(notes, marks, room, schema, depth, node, at, opened),
        Shape::Of(universal) => of_type(
            notes, marks, room, schema, depth, known, node, universal, at, header, opened,
        ),
        Shape::Items => items(
            notes, marks, room, schema, depth, known, node, false, at, opened,
        ),
        Shape::SortedItems => items(
            notes, marks, room, schema, depth, known, node, true, at, opened,
        ),
        Shape::Inner => explicit(
            notes,
            marks,
            room,
            schema,
            depth,
            known,
            inner_of(node),
            at,
            opened,
        ),
        Shape::Untyped => {
            unknown_contents(
                notes,
                depth,
                header.universal(),
                header.constructed,
                at,
                opened,
            )
        }
        Shape::Nothing => {
            let verdict = notes.depart(Rule::Tag, opened.start, at)?;
            Ok(Outcome {
                verdict,
                rest: opened.beyond,
            })
        }
    }
}

// Reads the contents of a universal type that has no components.
#[cycle(typed)]
fn of_type<'a>(
    notes: &mut Notes<'_>,
    marks: &mut [u32],
    room: &mut [u8],
    schema: &Schema<'_>,
    depth: usize,
    known: Option<Known<'_>>,
    node: Node,
    universal: Universal,
    at: usize,
    header: Header,
    opened: Opened<'a>,
) -> Result<Outcome<'a>, Full>
    requires fits { IsRow schema.now.counts schema.now.pool.now node }
    requires names { bound_of universal ≡ Items → IsRange node.parts schema.now.counts.names }
    requires distinct { AreDistinct (types_in schema.now.octets.now) }
    requires form { header.constructed ≡ false → opened.marked ≡ false }
    requires inside { opened.inside.end ≤ notes.old.end }
    ensures finds { IfOk result (λ o. Finds (λ rules. Body opened.entry.marked opened.entry.beyond.now
        (IsOfType (is_joined header.constructed universal) header.constructed rules
        (types_in schema.now.octets.now) (IsValue (types_in schema.now.octets.now) depth)
        (IsAny depth) (known_in known.entry) node universal)
        opened.entry.inside.octets.now) o.verdict o.rest.now) }
    ensures shorter { IfOk result (λ o. length o.rest.now
        ≤ length opened.entry.inside.octets.now + length opened.entry.beyond.now) }
    ensures log { IfOk result (λ o. Logs o.verdict notes.old notes.new) }
    ensures end { OnOk result (notes.new.end ≡ notes.old.end) }
{
    if is_joined(header.constructed, universal) {
        return joined_text(notes, room, schema, node, universal, at, opened);
    }
    let outcome = unknown_contents(
        notes,
        depth,
        Some(universal),
        header.constructed,
        at,
        opened,
    )?;
    if header.constructed {
        return Ok(outcome);
    }
    let rule = constraint_rule(schema, node, universal, opened.inside.octets);
    let kept = notes.judge(rule, opened.start, at)?;
    let inner = contained_in(universal, node);
    let value = contained(
        notes,
        marks,
        room,
        schema,
        depth,
        known,
        inner,
        at,
        opened.inside,
    )?;
    Ok(Outcome {
        verdict: outcome.verdict.and(kept.and(value)),
        rest: outcome.rest,
    })
}

// The node of the value in a string with a constraint CONTAINING.
fn contained_in(universal: Universal, node: Node) -> Option<u32>
    ensures { result ≡ contained_in universal node }
{
    match universal {
        Universal::OctetString => node.inner,
        _ => None,
    }
}

// Reads the value in a string with a constraint CONTAINING, if it has one.
#[cycle(typed)]
fn contained<'a>(
    notes: &mut Notes<'_>,
    marks: &mut [u32],
    room: &mut [u8],
    schema: &Schema<'_>,
    depth: usize,
    known: Option<Known<'_>>,
    inner: Option<u32>,
    at: usize,
    place: Place<'a>,
) -> Result<Verdict, Full>
    requires there { (i : ℕ) → inner ≡ Some i → i < schema.now.counts.nodes }
    requires distinct { AreDistinct (types_in schema.now.octets.now) }
    requires inside { place.end ≤ notes.old.end }
    ensures exact { IfOk result (λ v. (rules : EncodingRules) → (holds rules v ≡ true)
        ↔ IsContained rules (types_in schema.now.octets.now)
        (IsValue (types_in schema.now.octets.now) depth) (known_in known.entry) inner place.entry.octets.now) }
    ensures log { IfOk result (λ v. Logs v notes.old notes.new) }
    ensures end { OnOk result (notes.new.end ≡ notes.old.end) }
{
    match inner {
        Some(index) => contained_value(notes, marks, room, schema, depth, known, index, at, place),
        None => Ok(Verdict::Der),
    }
}

// Reads the value of a node in a string.
#[cycle(typed)]
fn contained_value<'a>(
    notes: &mut Notes<'_>,
    marks: &mut [u32],
    room: &mut [u8],
    schema: &Schema<'_>,
    depth: usize,
    known: Option<Known<'_>>,
    index: u32,
    at: usize,
    place: Place<'a>,
) -> Result<Verdict, Full>
    requires there { index < schema.now.counts.nodes }
    requires distinct { AreDistinct (types_in schema.now.octets.now) }
    requires inside { place.end ≤ notes.old.end }
    ensures exact { IfOk result (λ v. (rules : EncodingRules) → (holds rules v ≡ true)
        ↔ Contains rules (types_in schema.now.octets.now)
        (IsValue (types_in schema.now.octets.now) depth) (known_in known.entry) index place.entry.octets.now) }
    ensures log { IfOk result (λ v. Logs v notes.old notes.new) }
    ensures end { OnOk result (notes.new.end ≡ notes.old.end) }
{
    if is_unknown(schema, index, known) {
        return Ok(Verdict::Der);
    }
    let role = Role::inside(at);
    let outcome = value(notes, marks, room, schema, depth, known, index, role, place)?;
    let rest = Opened {
        inside: place.at(outcome.rest),
        start: place.offset(),
        marked: false,
        beyond: &[],
    };
    let end = finish(notes, depth, at, rest)?;
    Ok(outcome.verdict.and(end.verdict))
}

fn is_open(node: Node) -> bool
    ensures { IsTrue result ↔ (node.kind ≡ Open) }
{
    node.kind == NodeKind::Open
}

// Whether a node is an open type of which the table does not know the type.
fn is_unknown(schema: &Schema<'_>, index: u32, known: Option<Known<'_>>) -> bool
    requires { index < schema.now.counts.nodes }
    ensures { IsTrue result ↔ IsUnknownOpen (types_in schema.now.octets.now) (known_in known.entry) index }
{
    let node = node_of(schema, index);
    if !is_open(node) {
        return false;
    }
    match chosen(schema, &node, known) {
        Some(_) => false,
        None => true,
    }
}

// The node inside a node that has one.
pub(crate) fn inner_of(node: Node) -> u32
    requires { IsSome node.inner }
    ensures { node.inner ≡ Some result }
{
    node.inner.unwrap_or(0)
}
