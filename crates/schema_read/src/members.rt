//! Reads the components of a SET.
ghost use Rattle.std.specs.Prelude.{◌≡◌, ◌↔◌, ◌⊎◌, ◌+◌, ◌<◌, ◌≤◌, ℕ, true, false, List, [], ◌++◌, Option, Some, None, slice_get, length, IsTrue, IfOk, IfSome, IfNone, OnOk};
ghost use Rattle.der_base.specs.declared.encoding_rules.EncodingRules.{EncodingRules};
ghost use Rattle.ber.specs.declared.universal.Universal.TheVariants.{Set};
ghost use Rattle.schema_types.specs.Distinct.{AreDistinct};
ghost use Rattle.schema_types.specs.Span.{IsWithin as IsRange};
ghost use Rattle.schema_types.specs.Tags.{IsFieldOf};
ghost use Rattle.schema_types.specs.declared.field.Field.{Field as AField};
ghost use Rattle.schema_types.specs.declared.node_kind.NodeKind.TheVariants.{Universal as Universally};
ghost use Rattle.schema_read.specs.Members.{is_seen, IsMember, ArePresent, SomeMembers};
ghost use Rattle.schema_read.specs.Components.{MayBeAbsent};
ghost use Rattle.schema_read.specs.Reading.{Front, Body, Finds, Logs};
ghost use Rattle.schema_read.specs.Rule.{verdict_of_option};
ghost use Rattle.schema_read.specs.Seen.{fields_of};
ghost use Rattle.schema_read.specs.Types.{types_in};
ghost use Rattle.schema_read.specs.Value.{IsValue, IsAny};
ghost use Rattle.schema_read.specs.Verdict.{holds};

use crate::components::field_value;
use crate::constraints::end_of;
use crate::full::Full;
use crate::notes::Notes;
use crate::opened::Opened;
use crate::outcome::Outcome;
use crate::place::Place;
use crate::role::Role;
use crate::rule::Rule;
use crate::seen::Seen;
use crate::select::find_field;
use crate::tag_order::tag_order_rule;
use crate::tests::may_be_absent;
use crate::types::field_of;
use crate::untyped::{any, finish};
use crate::verdict::Verdict;
use schema_types::{Field, Node, Schema};

// Reads the elements of a SET.
#[cycle(typed)]
pub(crate) fn members<'a>(
    notes: &mut Notes<'_>,
    marks: &mut [u32],
    room: &mut [u8],
    schema: &Schema<'_>,
    depth: usize,
    node: Node,
    at: usize,
    opened: Opened<'a>,
) -> Result<Outcome<'a>, Full>
    requires kind { node.kind ≡ Universally Set }
    requires there { IsRange node.parts schema.now.counts.fields }
    requires distinct { AreDistinct (types_in schema.now.octets.now) }
    requires row { (i : ℕ) × (slice_get (types_in schema.now.octets.now).nodes i ≡ Some node) }
    requires inside { opened.inside.end ≤ notes.old.end }
    ensures finds { IfOk result (λ o. Finds (λ rules. Body opened.entry.marked opened.entry.beyond.now
        (SomeMembers (IsValue (types_in schema.now.octets.now) depth) (IsAny depth) rules
        (types_in schema.now.octets.now) node [] []) opened.entry.inside.octets.now) o.verdict o.rest.now) }
    ensures shorter { IfOk result (λ o. length o.rest.now
        ≤ length opened.entry.inside.octets.now + length opened.entry.beyond.now) }
    ensures log { IfOk result (λ o. Logs o.verdict notes.old notes.new) }
    ensures end { OnOk result (notes.new.end ≡ notes.old.end) }
{
    let needed = node.parts.count as usize;
    if marks.len() < needed {
        return Err(Full);
    }
    let (places, marks) = marks.split_at_mut(needed);
    let mut seen = Seen::new(places);
    let mut verdict = Verdict::Der;
    let mut rest = opened.inside.octets;
    let mut before: &[u8] = &[];
    'members: while !opened.at(rest).is_ended() {
        let place = opened.inside.at(rest);
        let outcome = member(
            notes, marks, room, schema, depth, node, at, place, &mut seen,
        )?;
        let octets = &rest[..rest.len() - outcome.rest.len()];
        let order = notes.judge(tag_order_rule(before, octets), place.offset(), at)?;
        verdict = verdict.and(outcome.verdict).and(order);
        rest = outcome.rest;
        before = octets;
    }
    let present = judge_present(
        notes,
        schema,
        node,
        seen.as_slice(),
        at,
        opened.at(rest).inside.offset(),
    )?;
    let end = finish(notes, depth, at, opened.at(rest))?;
    Ok(Outcome {
        verdict: verdict.and(present.and(end.verdict)),
        rest: end.rest,
    })
}

// Reads an element of a SET, and notes the field that it is the component of.
#[cycle(typed)]
fn member<'a>(
    notes: &mut Notes<'_>,
    marks: &mut [u32],
    room: &mut [u8],
    schema: &Schema<'_>,
    depth: usize,
    node: Node,
    at: usize,
    place: Place<'a>,
    seen: &mut Seen<'_>,
) -> Result<Outcome<'a>, Full>
    requires kind { node.kind ≡ Universally Set }
    requires there { IsRange node.parts schema.now.counts.fields }
    requires distinct { AreDistinct (types_in schema.now.octets.now) }
    requires row { (i : ℕ) × (slice_get (types_in schema.now.octets.now).nodes i ≡ Some node) }
    requires inside { place.end ≤ notes.old.end }
    ensures finds { IfOk result (λ o. Finds (λ rules. Front (λ x. (after : List ℕ)
        × IsMember (IsValue (types_in schema.now.octets.now) depth) (IsAny depth) rules
        (types_in schema.now.octets.now) node (fields_of seen.old) x after) place.entry.octets.now)
        o.verdict o.rest.now) }
    ensures only { OnOk result ((rules : EncodingRules) (x r after : List ℕ) → place.entry.octets.now ≡ x ++ r
        → IsMember (IsValue (types_in schema.now.octets.now) depth) (IsAny depth) rules
        (types_in schema.now.octets.now) node (fields_of seen.old) x after → after ≡ fields_of seen.new) }
    ensures log { IfOk result (λ o. Logs o.verdict notes.old notes.new) }
    ensures shorter { IfOk result (λ o. length o.rest.now ≤ length place.entry.octets.now) }
    ensures moves { IfOk result
        (λ o. 0 < length place.entry.octets.now → length o.rest.now < length place.entry.octets.now) }
    ensures end { OnOk result (notes.new.end ≡ notes.old.end) }
{
    match find_field(schema, node, node.parts.start, place.octets) {
        Some(index) => {
            if is_seen(seen.as_slice(), index) {
                let again = notes.depart(Rule::Duplicate, place.offset(), at)?;
                let outcome = field_value(
                    notes, marks, room, schema, depth, None, index, at, place,
                )?;
                return Ok(Outcome {
                    verdict: again.and(outcome.verdict),
                    rest: outcome.rest,
                });
            }
            seen.push(index)?;
            field_value(notes, marks, room, schema, depth, None, index, at, place)
        }
        None => {
            if node.extensible {
                return any(notes, depth, Role::inside(at), place);
            }
            let other = notes.depart(Rule::Unexpected, place.offset(), at)?;
            let outcome = any(notes, depth, Role::inside(at), place)?;
            Ok(Outcome {
                verdict: other.and(outcome.verdict),
                rest: outcome.rest,
            })
        }
    }
}

// Whether the field of an index is one of those that were there.
fn is_seen(seen: &[u32], index: u32) -> bool
    ensures { result ≡ is_seen seen.now index }
{
    for field in seen {
        if *field == index {
            return true;
        }
    }
    false
}

// Adds a departure for each field of a SET that was not there, and may not be absent.
fn judge_present(
    notes: &mut Notes<'_>,
    schema: &Schema<'_>,
    node: Node,
    seen: &[u32],
    at: usize,
    offset: usize,
) -> Result<Verdict, Full>
    requires there { IsRange node.parts schema.now.counts.fields }
    requires inside { offset ≤ notes.old.end }
    ensures exact { IfOk result (λ v. (rules : EncodingRules) → (holds rules v ≡ true)
        ↔ ArePresent (types_in schema.now.octets.now) node seen.now) }
    ensures log { IfOk result (λ v. Logs v notes.old notes.new) }
    ensures end { OnOk result (notes.new.end ≡ notes.old.end) }
{
    let mut verdict = Verdict::Der;
    for k in node.parts.start..end_of(node.parts, schema.counts().fields) {
        let rule = presence_rule(field_of(schema, k), is_seen(seen, k));
        let present = notes.judge(rule, offset, at)?;
        verdict = verdict.and(present);
    }
    Ok(verdict)
}

// The rule that a field of a SET breaks if it was not there.
fn presence_rule(field: Field, seen: bool) -> Option<Rule>
    ensures { (rules : EncodingRules) → (holds rules (verdict_of_option result) ≡ true)
        ↔ (MayBeAbsent field ⊎ (seen ≡ true)) }
{
    if seen || may_be_absent(field) {
        None
    } else {
        Some(Rule::Missing)
    }
}
