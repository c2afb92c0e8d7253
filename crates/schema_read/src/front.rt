//! Reads the element at the front of octets.
ghost use Rattle.std.specs.Prelude.{◌≡◌, ◌≢◌, ◌<◌, ◌≤◌, length, IfOk, IfErr, OnOk};
ghost use Rattle.ber.specs.Der.{HasReservedTag};
ghost use Rattle.ber.specs.Header.{IsNext, end_header, label_of_header};
ghost use Rattle.schema_read.specs.Enclosed.{BeginWithNone};
ghost use Rattle.schema_read.specs.Reading.{Logs};
ghost use Rattle.schema_read.specs.Rule.{verdict_of_rule};
ghost use Rattle.schema_read.specs.declared.verdict.Verdict.TheVariants.{Neither};

use crate::full::Full;
use crate::notes::Notes;
use crate::opening::skipped;
use crate::outcome::Outcome;
use crate::place::Place;
use crate::role::Role;
use crate::rule::Rule;
use ber::{Header, is_end_of_contents, read_header};

/// Returns the header of the element at the front of `octets`. `depth` is the number of levels of
/// nesting that are still allowed.
///
/// # Errors
///
/// The rule that is broken, in one of these cases:
///
/// - There is no valid header at the front.
/// - End-of-contents octets are at the front.
/// - The tag is reserved.
/// - `depth` is 0.
#[inline(always)]
pub fn front_header(octets: &[u8], depth: usize) -> Result<Header, Rule>
    ensures next { IfOk result (λ h. IsNext h octets.now) }
    ensures real { IfOk result (λ h. h ≢ end_header) }
    ensures known { IfOk result (λ h. HasReservedTag (label_of_header h) → ⊥) }
    ensures some { OnOk result (0 < depth) }
    ensures rule { IfErr result (λ rule. verdict_of_rule rule ≡ Neither) }
    ensures none { IfErr result (λ _. BeginWithNone depth octets.now) }
{
    let header = match read_header(octets) {
        Ok(header) => header,
        Err(_) => return Err(Rule::Header),
    };
    if is_end_of_contents(octets) {
        return Err(Rule::EndOfContents);
    }
    if header.has_reserved_tag() {
        return Err(Rule::Tag);
    }
    if depth == 0 {
        return Err(Rule::Depth);
    }
    Ok(header)
}

/// Stores a departure which says that no element can be read here, since `rule` is broken. Returns
/// the octets after the element if its header shows where the element ends; otherwise no octets.
pub(crate) fn pass<'a>(
    notes: &mut Notes<'_>,
    rule: Rule,
    role: Role,
    place: Place<'a>,
) -> Result<Outcome<'a>, Full>
    requires neither { verdict_of_rule rule ≡ Neither }
    requires inside { place.end ≤ notes.old.end }
    ensures verdict { IfOk result (λ o. o.verdict ≡ Neither) }
    ensures log { IfOk result (λ o. Logs o.verdict notes.old notes.new) }
    ensures shorter { IfOk result (λ o. length o.rest.now ≤ length place.entry.octets.now) }
    ensures moves { IfOk result
        (λ o. 0 < length place.entry.octets.now → length o.rest.now < length place.entry.octets.now) }
    ensures end { OnOk result (notes.new.end ≡ notes.old.end) }
{
    let verdict = notes.depart(rule, place.offset(), role.parent)?;
    Ok(Outcome {
        verdict,
        rest: after_front(rule, place),
    })
}

// The octets after what is at the front: none, if it has no header, or no level is left for it.
fn after_front<'a>(rule: Rule, place: Place<'a>) -> &'a [u8]
    ensures shorter { length result.now ≤ length place.entry.octets.now }
    ensures moves { 0 < length place.entry.octets.now → length result.now < length place.entry.octets.now }
{
    if matches!(rule, Rule::Depth) {
        return &[];
    }
    match read_header(place.octets) {
        Ok(header) => skipped(header, place),
        Err(_) => &[],
    }
}
