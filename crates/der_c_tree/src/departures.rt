//! Listing departures: the places at which an encoding breaks a rule of DER.

use crate::output::printed;
use der_print::{Output, Space, put_departure};
use schema_cursor::Cursor;
use schema_kinds::{is_private_type, may_be_private_key};
use schema_read::{Departure, Entry};
use schema_types::Schema;

/// Prints `departures` into `list` as a JSON array. Each item is an object with these fields:
///
/// - `node` is the index of the element in `entries`;
/// - `departure` is the object that `der_show --json` prints. It shows no octets if `octets` may be
///   a private key.
///
/// Returns the number of octets printed, or `usize::MAX` if they do not fit.
pub(crate) fn list_departures<'a>(
    schema: &'a Schema<'a>,
    octets: &'a [u8],
    entries: &'a [Entry],
    departures: &[Departure],
    list: &mut [u8],
) -> usize {
    let root = Cursor::over(octets, schema, entries);
    let shown = if may_be_secret(root, octets, departures) {
        None
    } else {
        Some(octets)
    };
    let mut out = Output::to(Space::new(list));
    out.put("[");
    let mut is_first = true;
    for departure in departures {
        out.put(if is_first {
            "\n{\"node\": "
        } else {
            ",\n{\"node\": "
        });
        is_first = false;
        out.put_number(departure.node as u64);
        out.put(", \"departure\": ");
        put_departure(&mut out, shown, root, 0, departure);
        out.put("}");
    }
    out.put("]");
    printed(&out)
}

// Whether the type is that of a private key; or the octets are not known to be of a type, and may be a key.
fn may_be_secret(root: Option<Cursor<'_>>, octets: &[u8], departures: &[Departure]) -> bool {
    let name = match root {
        Some(root) => root.type_name(),
        None => None,
    };
    match name {
        Some(name) if is_private_type(name) => true,
        Some(_) if departures.iter().all(|it| it.rule.verdict().is_ber()) => false,
        _ => may_be_private_key(octets),
    }
}
