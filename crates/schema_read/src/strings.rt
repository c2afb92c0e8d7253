//! Reads strings in the constructed form.
ghost use Rattle.std.specs.Prelude.{◌≡◌, ◌↔◌, ◌+◌, ◌<◌, ◌≤◌, ℕ, true, false, List, [], ◌∷◌, ◌++◌, length, IfOk, IfErr, OnOk, IsTrue};
ghost use Rattle.der_base.specs.declared.encoding_rules.EncodingRules.TheVariants.{Ber};
ghost use Rattle.ber.specs.Header.{IsNext};
ghost use Rattle.schema_read.specs.Verdict.{holds};
ghost use Rattle.schema_read.specs.Rule.{verdict_of_rule};
ghost use Rattle.schema_read.specs.declared.verdict.Verdict.TheVariants.{Neither};
ghost use Rattle.schema_read.specs.Reading.{IsWithin, Body, Finds, Logs};
ghost use Rattle.schema_read.specs.Strings.{is_bits, segment_type, IsJoined, AreJoined, HasText, HasSegmentTag, IsSegment, AreSegments};
ghost use Rattle.schema_read.specs.Text.{text_of};
ghost use Rattle.schema_read.specs.StringReading.{IsText, IsWhole, BeginsAfter, BodyAfter, Reads};

use crate::entry::Entry;
use crate::front::{front_header, pass};
use crate::full::Full;
use crate::notes::Notes;
use crate::opened::Opened;
use crate::opening::after_header;
use crate::outcome::Outcome;
use crate::place::Place;
use crate::role::{NO_INDEX, Role};
use crate::rule::Rule;
use crate::tests::primitive_rule;
use crate::text::Text;
use crate::untyped::{any, finish};
use crate::verdict::Verdict;
use ber::{Header, Universal};
use der_base::Class;

/// The result of reading the contents of a string in the constructed form. It has the verdict, the
/// octets after the string, and the contents octets of the primitive encoding of the same string.
#[derive(Drop)]
pub(crate) struct JoinedText<'a, 't> {
    pub verdict: Verdict,
    pub rest: &'a [u8],
    pub text: Text<'t>,
}

/// Reads the segments of a string in the constructed form, and joins them in the memory `room`.
pub(crate) fn joined<'a, 't>(
    notes: &mut Notes<'_>,
    room: &'t mut [u8],
    depth: usize,
    universal: Universal,
    at: usize,
    opened: Opened<'a>,
) -> Result<JoinedText<'a, 't>, Full>
    requires inside { opened.inside.end ≤ notes.old.end }
    ensures finds { IfOk result (λ j. Finds
        (λ rules. Body opened.entry.marked opened.entry.beyond.now
        (λ inner. (rules ≡ Ber) × ((text : List ℕ) × AreSegments depth universal inner text))
        opened.entry.inside.octets.now) j.verdict j.rest.now) }
    ensures only { IfOk result (λ j. (inner r text : List ℕ)
        → IsWithin opened.entry.marked opened.entry.beyond.now opened.entry.inside.octets.now
        inner r → AreSegments depth universal inner text → text ≡ text_of j.text) }
    ensures shorter { IfOk result (λ j. length j.rest.now
        ≤ length opened.entry.inside.octets.now + length opened.entry.beyond.now) }
    ensures log { IfOk result
        (λ j. Logs j.verdict notes.old notes.new) }
    ensures end { OnOk result (notes.new.end ≡ notes.old.end) }
{
    let whole = notes.depart(Rule::ConstructedString, opened.start, at)?;
    let bits = is_bit_string(universal);
    let mut text = empty_text(room, bits)?;
    let outcome = segments(notes, depth, bits, at, opened, &mut text)?;
    Ok(JoinedText {
        verdict: whole.and(outcome.verdict),
        rest: outcome.rest,
        text,
    })
}

fn is_bit_string(universal: Universal) -> bool
    ensures { result ≡ is_bits universal }
{
    matches!(universal, Universal::BitString)
}

fn type_of_segments(bits: bool) -> Universal
    ensures { result ≡ segment_type bits }
{
    if bits {
        Universal::BitString
    } else {
        Universal::OctetString
    }
}

// The text of no segments.
fn empty_text<'t>(room: &'t mut [u8], bits: bool) -> Result<Text<'t>, Full>
    ensures { IfOk result (λ text. IsJoined bits [] (text_of text)) }
{
    let mut text = Text::new(room);
    if bits {
        text.extend(&[0])?;
    }
    Ok(text)
}

// Reads segments, and appends their text to the text before them.
#[cycle(strings)]
fn segments<'a>(
    notes: &mut Notes<'_>,
    depth: usize,
    bits: bool,
    at: usize,
    opened: Opened<'a>,
    text: &mut Text<'_>,
) -> Result<Outcome<'a>, Full>
    requires whole { IsWhole bits (text_of text.old) }
    requires inside { opened.inside.end ≤ notes.old.end }
    ensures reads { IfOk result (λ o. Reads
        (BodyAfter opened.entry.marked opened.entry.beyond.now bits (text_of text.old)
        (AreJoined bits (IsSegment depth bits)) opened.entry.inside.octets.now)
        o.verdict o.rest.now (text_of text.new)) }
    ensures text { OnOk result (IsText bits (text_of text.new)) }
    ensures shorter { IfOk result (λ o. length o.rest.now
        ≤ length opened.entry.inside.octets.now + length opened.entry.beyond.now) }
    ensures log { IfOk result
        (λ o. Logs o.verdict notes.old notes.new) }
    ensures end { OnOk result (notes.new.end ≡ notes.old.end) }
{
    let role = Role::inside(at);
    let mut verdict = Verdict::Der;
    let mut rest = opened.inside.octets;
    'segments: while !opened.at(rest).is_ended() {
        let place = opened.inside.at(rest);
        let whole = make_whole(notes, bits, place.offset(), at, text)?;
        let outcome = segment(notes, depth, bits, role, place, text)?;
        verdict = verdict.and(whole.and(outcome.verdict));
        rest = outcome.rest;
    }
    let end = finish(notes, depth, at, opened.at(rest))?;
    Ok(Outcome {
        verdict: verdict.and(end.verdict),
        rest: end.rest,
    })
}

// Adds a departure if no segment may follow this text, and makes it one that a segment may follow.
fn make_whole(
    notes: &mut Notes<'_>,
    bits: bool,
    offset: usize,
    at: usize,
    text: &mut Text<'_>,
) -> Result<Verdict, Full>
    requires text { IsText bits (text_of text.old) }
    requires inside { offset ≤ notes.old.end }
    ensures verdict { IfOk result (λ v. (holds Ber v ≡ true) ↔ IsWhole bits (text_of text.old)) }
    ensures same { OnOk result (IsWhole bits (text_of text.old) → (text_of text.new) ≡ (text_of text.old)) }
    ensures whole { OnOk result (IsWhole bits (text_of text.new)) }
    ensures log { IfOk result (λ v. Logs v notes.old notes.new) }
    ensures end { OnOk result (notes.new.end ≡ notes.old.end) }
{
    if bits && text.first() != 0 {
        let verdict = notes.depart(Rule::UnusedBits, offset, at)?;
        text.set_first(0);
        return Ok(verdict);
    }
    Ok(Verdict::Der)
}

// Reads a segment at the front, and appends its text to the text before it.
#[cycle(strings)]
fn segment<'a>(
    notes: &mut Notes<'_>,
    depth: usize,
    bits: bool,
    role: Role,
    place: Place<'a>,
    text: &mut Text<'_>,
) -> Result<Outcome<'a>, Full>
    requires whole { IsWhole bits (text_of text.old) }
    requires inside { place.end ≤ notes.old.end }
    ensures reads { IfOk result (λ o. Reads (BeginsAfter bits (IsSegment depth bits) (text_of text.old)
        place.entry.octets.now) o.verdict o.rest.now (text_of text.new)) }
    ensures text { OnOk result (IsText bits (text_of text.new)) }
    ensures log { IfOk result
        (λ o. Logs o.verdict notes.old notes.new) }
    ensures shorter { IfOk result (λ o. length o.rest.now ≤ length place.entry.octets.now) }
    ensures moves { IfOk result (λ o. 0 < length place.entry.octets.now
        → length o.rest.now < length place.entry.octets.now) }
    ensures end { OnOk result (notes.new.end ≡ notes.old.end) }
{
    let header = match segment_header(place.octets, depth, bits) {
        Ok(header) => header,
        Err(rule) => return no_segment(notes, depth, rule, role, place),
    };
    let entry = Entry::new(header, place, role, NO_INDEX);
    let at = notes.enter(entry)?;
    let allowed = notes.judge_lengths(header, place.offset(), at)?;
    match after_header(header, place) {
        Some(opened) => {
            let outcome = segment_contents(
                notes,
                depth - 1,
                bits,
                header.constructed,
                at,
                opened,
                text,
            )?;
            notes.leave(at, entry, opened, outcome.rest);
            Ok(Outcome {
                verdict: allowed.and(outcome.verdict),
                rest: outcome.rest,
            })
        }
        None => {
            let cut = notes.depart(Rule::Truncated, place.offset(), at)?;
            Ok(Outcome {
                verdict: allowed.and(cut),
                rest: &[],
            })
        }
    }
}

// The header of a segment at the front, or a rule that it breaks.
fn segment_header(octets: &[u8], depth: usize, bits: bool) -> Result<Header, Rule>
    ensures next { IfOk result (λ h. IsNext h octets.now) }
    ensures tag { IfOk result (λ h. HasSegmentTag bits h) }
    ensures some { OnOk result (0 < depth) }
    ensures rule { IfErr result (λ rule. verdict_of_rule rule ≡ Neither) }
    ensures none { IfErr result (λ _. (x rest text : List ℕ)
        → octets.now ≡ x ++ rest → IsSegment depth bits x text → ⊥) }
{
    let header = front_header(octets, depth)?;
    if !has_segment_tag(header, bits) {
        return Err(Rule::Tag);
    }
    Ok(header)
}

fn has_segment_tag(header: Header, bits: bool) -> bool
    ensures { IsTrue result ↔ HasSegmentTag bits header }
{
    let number = if bits { 3 } else { 4 };
    matches!(header.class, Class::Universal) && header.number == number
}

// Passes what is no segment.
fn no_segment<'a>(
    notes: &mut Notes<'_>,
    depth: usize,
    rule: Rule,
    role: Role,
    place: Place<'a>,
) -> Result<Outcome<'a>, Full>
    requires neither { verdict_of_rule rule ≡ Neither }
    requires inside { place.end ≤ notes.old.end }
    ensures verdict { IfOk result (λ o. o.verdict ≡ Neither) }
    ensures log { IfOk result
        (λ o. Logs o.verdict notes.old notes.new) }
    ensures shorter { IfOk result (λ o. length o.rest.now ≤ length place.entry.octets.now) }
    ensures moves { IfOk result (λ o. 0 < length place.entry.octets.now
        → length o.rest.now < length place.entry.octets.now) }
    ensures end { OnOk result (notes.new.end ≡ notes.old.end) }
{
    if !matches!(rule, Rule::Tag) {
        return pass(notes, rule, role, place);
    }
    let verdict = notes.depart(rule, place.offset(), role.parent)?;
    let outcome = any(notes, depth, role, place)?;
    Ok(Outcome {
        verdict: verdict.and(outcome.verdict),
        rest: outcome.rest,
    })
}

// Reads the contents of a segment, and appends their text to the text before it.
#[cycle(strings)]
fn segment_contents<'a>(
    notes: &mut Notes<'_>,
    depth: usize,
    bits: bool,
    constructed: bool,
    at: usize,
    opened: Opened<'a>,
    text: &mut Text<'_>,
) -> Result<Outcome<'a>, Full>
    requires form { constructed ≡ false → opened.marked ≡ false }
    requires whole { IsWhole bits (text_of text.old) }
    requires inside { opened.inside.end ≤ notes.old.end }
    ensures reads { IfOk result (λ o. Reads
        (BodyAfter opened.entry.marked opened.entry.beyond.now bits (text_of text.old)
        (HasText bits (IsSegment depth bits) constructed) opened.entry.inside.octets.now)
        o.verdict o.rest.now (text_of text.new)) }
    ensures text { OnOk result (IsText bits (text_of text.new)) }
    ensures shorter { IfOk result (λ o. length o.rest.now
        ≤ length opened.entry.inside.octets.now + length opened.entry.beyond.now) }
    ensures log { IfOk result
        (λ o. Logs o.verdict notes.old notes.new) }
    ensures end { OnOk result (notes.new.end ≡ notes.old.end) }
{
    if constructed {
        return segments(notes, depth, bits, at, opened, text);
    }
    let contents = opened.inside.octets;
    let rule = primitive_rule(Some(type_of_segments(bits)), contents);
    let verdict = notes.judge(rule, opened.start, at)?;
    append(bits, contents, text)?;
    Ok(Outcome {
        verdict,
        rest: opened.beyond,
    })
}

// Appends the text of a segment to the text before it.
fn append(bits: bool, contents: &[u8], text: &mut Text<'_>) -> Result<(), Full>
    requires { IsWhole bits (text_of text.old) }
    ensures joined { OnOk result (IsText bits contents.now
        → IsJoined bits ((text_of text.old) ∷ contents.now ∷ []) (text_of text.new)) }
    ensures text { OnOk result (IsText bits (text_of text.new)) }
{
    if !bits {
        return text.extend(contents);
    }
    if contents.is_empty() {
        return Ok(());
    }
    text.set_first(contents[0]);
    text.extend(&contents[1..])
}
