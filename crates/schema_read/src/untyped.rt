//! Reads elements whose type is not known.
ghost use Rattle.std.specs.Prelude.{◌≡◌, ◌*◌, ◌+◌, ◌<◌, ◌≤◌, false, [], length, IfOk, OnOk};
ghost use Rattle.schema_read.specs.Items.{IsAnyCount, SomeItems};
ghost use Rattle.schema_read.specs.Value.{IsAny, IsUnknownType};
ghost use Rattle.schema_read.specs.Reading.{Front, Body, Finds, Logs};

use crate::entry::Entry;
use crate::front::{front_header, pass};
use crate::full::Full;
use crate::notes::Notes;
use crate::opened::Opened;
use crate::opening::after_header;
use crate::outcome::Outcome;
use crate::place::Place;
use crate::role::{NO_INDEX, Role};
use crate::rule::Rule;
use crate::tests::{form_rule, primitive_rule};
use crate::verdict::Verdict;
use ber::{Universal, is_end_of_contents};

// Reads an element of any type at the front.
#[cycle(untyped)]
pub(crate) fn any<'a>(
    notes: &mut Notes<'_>,
    depth: usize,
    role: Role,
    place: Place<'a>,
) -> Result<Outcome<'a>, Full>
    requires inside { place.end ≤ notes.old.end }
    ensures finds { IfOk result (λ o. Finds (λ rules. Front (IsAny depth rules) place.entry.octets.now)
        o.verdict o.rest.now) }
    ensures log { IfOk result (λ o. Logs o.verdict notes.old notes.new) }
    ensures shorter { IfOk result (λ o. length o.rest.now ≤ length place.entry.octets.now) }
    ensures moves { IfOk result
        (λ o. 0 < length place.entry.octets.now → length o.rest.now < length place.entry.octets.now) }
    ensures end { OnOk result (notes.new.end ≡ notes.old.end) }
{
    let header = match front_header(place.octets, depth) {
        Ok(header) => header,
        Err(rule) => return pass(notes, rule, role, place),
    };
    let entry = Entry::new(header, place, role, NO_INDEX);
    let at = notes.enter(entry)?;
    let allowed = notes.judge_lengths(header, place.offset(), at)?;
    match after_header(header, place) {
        Some(opened) => {
            let outcome = unknown_contents(
                notes,
                depth - 1,
                header.universal(),
                header.constructed,
                at,
                opened,
            )?;
            notes.leave(at, entry, opened, outcome.rest);
            Ok(Outcome {
                verdict: allowed.and(outcome.verdict),
                rest: outcome.rest,
            })
        }
        None => {
            let cut = notes.depart(Rule::Truncated, place.offset(), at)?;
            Ok(Outcome {
                verdict: allowed.and(cut),
                rest: &[],
            })
        }
    }
}

// Reads the contents of an element of a universal type, or of another.
#[cycle(untyped)]
pub(crate) fn unknown_contents<'a>(
    notes: &mut Notes<'_>,
    depth: usize,
    universal: Option<Universal>,
    constructed: bool,
    at: usize,
    opened: Opened<'a>,
) -> Result<Outcome<'a>, Full>
    requires form { constructed ≡ false → opened.marked ≡ false }
    requires inside { opened.inside.end ≤ notes.old.end }
    ensures finds { IfOk result (λ o. Finds (λ rules. Body opened.entry.marked opened.entry.beyond.now
        (IsUnknownType rules (IsAny depth) universal constructed) opened.entry.inside.octets.now)
        o.verdict o.rest.now) }
    ensures shorter { IfOk result (λ o. length o.rest.now
        ≤ length opened.entry.inside.octets.now + length opened.entry.beyond.now) }
    ensures log { IfOk result (λ o. Logs o.verdict notes.old notes.new) }
    ensures end { OnOk result (notes.new.end ≡ notes.old.end) }
{
    if constructed {
        let verdict = notes.judge(form_rule(universal), opened.start, at)?;
        let outcome = elements(notes, depth, at, opened)?;
        return Ok(Outcome {
            verdict: verdict.and(outcome.verdict),
            rest: outcome.rest,
        });
    }
    let rule = primitive_rule(universal, opened.inside.octets);
    let verdict = notes.judge(rule, opened.start, at)?;
    Ok(Outcome {
        verdict,
        rest: opened.beyond,
    })
}

// Reads elements of any type.
#[cycle(untyped)]
pub(crate) fn elements<'a>(
    notes: &mut Notes<'_>,
    depth: usize,
    at: usize,
    opened: Opened<'a>,
) -> Result<Outcome<'a>, Full>
    requires inside { opened.inside.end ≤ notes.old.end }
    ensures finds { IfOk result (λ o. Finds (λ rules. Body opened.entry.marked opened.entry.beyond.now
        (SomeItems false rules (IsAny depth rules) IsAnyCount) opened.entry.inside.octets.now) o.verdict o.rest.now) }
    ensures shorter { IfOk result (λ o. length o.rest.now
        ≤ length opened.entry.inside.octets.now + length opened.entry.beyond.now) }
    ensures log { IfOk result (λ o. Logs o.verdict notes.old notes.new) }
    ensures end { OnOk result (notes.new.end ≡ notes.old.end) }
{
    let role = Role::inside(at);
    let mut verdict = Verdict::Der;
    let mut rest = opened.inside.octets;
    'elements: while !opened.at(rest).is_ended() {
        let outcome = any(notes, depth, role, opened.inside.at(rest))?;
        verdict = verdict.and(outcome.verdict);
        rest = outcome.rest;
    }
    let end = ended(notes, at, opened.at(rest))?;
    Ok(Outcome {
        verdict: verdict.and(end.verdict),
        rest: end.rest,
    })
}

// Passes the end of contents, which have no more elements.
fn ended<'a>(notes: &mut Notes<'_>, at: usize, opened: Opened<'a>) -> Result<Outcome<'a>, Full>
    requires inside { opened.inside.end ≤ notes.old.end }
    ensures finds { IfOk result (λ o. Finds (λ rules. Body opened.entry.marked opened.entry.beyond.now
        (λ inner. inner ≡ []) opened.entry.inside.octets.now) o.verdict o.rest.now) }
    ensures shorter { IfOk result (λ o. length o.rest.now
        ≤ length opened.entry.inside.octets.now + length opened.entry.beyond.now) }
    ensures log { IfOk result (λ o. Logs o.verdict notes.old notes.new) }
    ensures end { OnOk result (notes.new.end ≡ notes.old.end) }
{
    let octets = opened.inside.octets;
    if opened.marked {
        if is_end_of_contents(octets) {
            return Ok(Outcome {
                verdict: Verdict::Der,
                rest: &octets[2..],
            });
        }
        let verdict = notes.depart(Rule::Unended, opened.inside.offset(), at)?;
        return Ok(Outcome { verdict, rest: &[] });
    }
    if octets.is_empty() {
        return Ok(Outcome {
            verdict: Verdict::Der,
            rest: opened.beyond,
        });
    }
    let verdict = notes.depart(Rule::Unexpected, opened.inside.offset(), at)?;
    Ok(Outcome {
        verdict,
        rest: opened.beyond,
    })
}

// Passes the end of contents. Elements before it are unexpected.
pub(crate) fn finish<'a>(
    notes: &mut Notes<'_>,
    depth: usize,
    at: usize,
    opened: Opened<'a>,
) -> Result<Outcome<'a>, Full>
    requires inside { opened.inside.end ≤ notes.old.end }
    ensures finds { IfOk result (λ o. Finds (λ rules. Body opened.entry.marked opened.entry.beyond.now
        (λ inner. inner ≡ []) opened.entry.inside.octets.now) o.verdict o.rest.now) }
    ensures shorter { IfOk result (λ o. length o.rest.now
        ≤ length opened.entry.inside.octets.now + length opened.entry.beyond.now) }
    ensures log { IfOk result (λ o. Logs o.verdict notes.old notes.new) }
    ensures end { OnOk result (notes.new.end ≡ notes.old.end) }
{
    if opened.is_ended() {
        return ended(notes, at, opened);
    }
    let unexpected = notes.depart(Rule::Unexpected, opened.inside.offset(), at)?;
    let outcome = elements(notes, depth, at, opened)?;
    Ok(Outcome {
        verdict: unexpected.and(outcome.verdict),
        rest: outcome.rest,
    })
}
