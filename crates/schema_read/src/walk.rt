//! Reads values into memory of the caller.
ghost use Rattle.std.specs.Prelude.{◌≡◌, ◌↔◌, ◌<◌, ◌≤◌, true, None, length, take, IfOk, OnOk};
ghost use Rattle.der_base.specs.declared.encoding_rules.EncodingRules.{EncodingRules};
ghost use Rattle.schema_types.specs.Table.{table_in};
ghost use Rattle.schema_read.specs.Departures.{AreOfDer, are_inside};
ghost use Rattle.schema_read.specs.Encoding.{IsDer, IsBer};
ghost use Rattle.schema_read.specs.Entries.{are_placed};
ghost use Rattle.schema_read.specs.Reading.{Logs};
ghost use Rattle.schema_read.specs.Types.{types_in};
ghost use Rattle.schema_read.specs.Value.{IsValue};
ghost use Rattle.schema_read.specs.Verdict.{holds};

use crate::departure::Departure;
use crate::entry::Entry;
use crate::found::Found;
use crate::full::Full;
use crate::notes::Notes;
use crate::opened::Opened;
use crate::place::Place;
use crate::role::{LEVELS, Role};
use crate::typed::value;
use crate::untyped::finish;
use crate::verdict::Verdict;
use schema_types::Schema;

/// Reads octets as a value of the node `node` of a table. It does what [`read`](crate::read) does,
/// but allocates nothing: it writes the elements and the departures into memory of the caller.
/// Departures for which there is no room are only counted. The verdict does not depend on this. The
/// caller must ensure that the table has a node with the index `node`.
///
/// The caller also gives memory that is used while reading: `marks` for the fields of SETs, and
/// `text` for a string in the constructed form.
///
/// # Errors
///
/// `entries`, `marks` or `text` is too small. The caller can try again with more memory. `marks` is
/// large enough with 64 times as many places as the table has fields. `text` is large enough with
/// one octet more than the input.
pub fn read_into(
    schema: &Schema<'_>,
    node: u32,
    octets: &[u8],
    entries: &mut [Entry],
    departures: &mut [Departure],
    marks: &mut [u32],
    text: &mut [u8],
) -> Result<Found, Full>
    requires { node < schema.now.counts.nodes }
    ensures exact { IfOk result (λ found. (rules : EncodingRules) → (holds rules found.verdict ≡ true)
        ↔ IsValue (types_in schema.now.octets.now) 64 rules None node octets.now) }
    ensures der { IfOk result (λ found. found.lost ≡ 0 → (found.departures ≡ 0)
        ↔ IsDer (table_in schema.now.octets.now) node octets.now) }
    ensures ber { IfOk result (λ found. found.lost ≡ 0
        → AreOfDer (take found.departures departures.new)
        ↔ IsBer (table_in schema.now.octets.now) node octets.now) }
    ensures inside { IfOk result (λ found.
        are_inside (length octets.now) (take found.departures departures.new) ≡ true) }
    ensures placed { IfOk result (λ found.
        are_placed (length octets.now) (take found.entries entries.new) ≡ true) }
    ensures fits { IfOk result (λ found.
        (found.entries ≤ length entries.new) × (found.departures ≤ length departures.new)) }
{
    let mut notes = Notes::new(entries, departures, true, octets.len());
    let verdict = walk(&mut notes, marks, text, schema, node, octets)?;
    Ok(Found {
        entries: notes.entry_count,
        departures: notes.departure_count,
        lost: notes.lost,
        verdict,
    })
}

/// Returns whether octets are an encoding of a value of the node `node` of a table by DER, by BER
/// but not by DER, or by neither. The caller must ensure that the table has a node with the index
/// `node`. The caller also gives memory that is used while reading: `marks` for the fields of SETs,
/// and `text` for a string in the constructed form.
///
/// # Errors
///
/// `marks` or `text` is too small. [`read_into`] says how much memory is enough.
pub fn judge(
    schema: &Schema<'_>,
    node: u32,
    octets: &[u8],
    marks: &mut [u32],
    text: &mut [u8],
) -> Result<Verdict, Full>
    requires { node < schema.now.counts.nodes }
    ensures exact { IfOk result (λ v. (rules : EncodingRules) → (holds rules v ≡ true)
        ↔ IsValue (types_in schema.now.octets.now) 64 rules None node octets.now) }
{
    let mut entries: [Entry; 0] = [];
    let mut departures: [Departure; 0] = [];
    let mut notes = Notes::new(&mut entries, &mut departures, false, octets.len());
    walk(&mut notes, marks, text, schema, node, octets)
}

// Reads octets as a value of a node.
fn walk(
    notes: &mut Notes<'_>,
    marks: &mut [u32],
    room: &mut [u8],
    schema: &Schema<'_>,
    node: u32,
    octets: &[u8],
) -> Result<Verdict, Full>
    requires there { node < schema.now.counts.nodes }
    requires inside { length octets.now ≤ notes.old.end }
    ensures exact { IfOk result (λ v. (rules : EncodingRules) → (holds rules v ≡ true)
        ↔ IsValue (types_in schema.now.octets.now) 64 rules None node octets.now) }
    ensures log { IfOk result (λ v. Logs v notes.old notes.new) }
    ensures end { OnOk result (notes.new.end ≡ notes.old.end) }
{
    let place = Place {
        octets,
        end: octets.len(),
    };
    let role = Role::inside(0);
    let outcome = value(notes, marks, room, schema, LEVELS, None, node, role, place)?;
    let rest = Opened {
        inside: place.at(outcome.rest),
        start: 0,
        marked: false,
        beyond: &[],
    };
    let end = finish(notes, LEVELS, 0, rest)?;
    Ok(outcome.verdict.and(end.verdict))
}
