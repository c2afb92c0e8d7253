//! Shows one value.

use crate::departures::Departures;
use crate::elements::put_elements;
use crate::json::put_json_value;
use crate::options::Shown;
use crate::place::Place;
use crate::print::{put_text_value, put_typed};
use crate::show::{Show, put_place};
use der_print::{Page, put_short_line};
use schema_cursor::Cursor;
use schema_kinds::{ANY, Kind, is_private_type, read_as};
use schema_read::{Departure, Rule};

/// The type by which the octets of a value are read.
#[derive(Clone, Copy)]
pub enum Target {
    /// The octets are read as a value of this kind.
    Kind(Kind),
    /// The octets are read as a value of the type with this index in the user's table of types.
    Node(u32),
    /// The octets are read as an element of any type.
    Elements,
}

impl Target {
    /// The word for the type in JSON and in summaries:
    ///
    /// - for a kind, the word that the option `--as` takes for the kind;
    /// - for a type of the user, `value`;
    /// - for an element of any type, `elements`.
    pub fn word(self) -> &'static str {
        match self {
            Target::Kind(kind) => kind.word(),
            Target::Elements => "elements",
            Target::Node(_) => "value",
        }
    }

    /// The index of the type in the table of types.
    pub fn node(self) -> u32 {
        match self {
            Target::Kind(kind) => kind.node(),
            Target::Node(node) => node,
            Target::Elements => ANY,
        }
    }
}

/// Reads `octets` as one value of the type `target`, and shows the value and its departures from
/// DER. If the output is DER or PEM, the octets `written` are printed. They are `octets` and, if
/// openssl has appended trust settings to a certificate, these settings.
///
/// `base` is the position at which the value begins in the file, or in the contents of the PEM
/// block.
pub fn show_value(
    show: &mut Show<'_>,
    place: &Place<'_>,
    target: Target,
    (octets, written): (&[u8], &[u8]),
    base: usize,
) {
    let schema = show.page.schema;
    let Ok(tree) = read_as(show.page.alloc, schema, target.node(), octets) else {
        show.memory_error(place);
        return;
    };
    let root = Cursor::root(octets, schema, &tree);
    let items = tree.departures.as_slice();
    let departures = Departures {
        items,
        octets,
        hides: may_be_secret(show, target, root, items),
        root,
        base,
    };
    show.page.base = base;
    show.page.hides = departures.hides && !are_of_der(items);
    match root {
        Some(root) => put_root(show, place, target, root, written, departures),
        None => {}
    }
    show.page.base = 0;
    show.page.hides = false;
    departures.put(show, place);
}

// Whether the type is that of a private key; or the octets are of no known type, and the file may hold a key.
fn may_be_secret(
    show: &Show<'_>,
    target: Target,
    root: Option<Cursor<'_>>,
    departures: &[Departure],
) -> bool {
    let name = match root {
        Some(root) => root.type_name(),
        None => None,
    };
    if is_private_type(name.unwrap_or("")) {
        return true;
    }
    match target {
        Target::Kind(kind) if kind.is_private() => true,
        Target::Kind(_) | Target::Node(_) if root.is_some() && are_of_der(departures) => false,
        _ => show.is_private,
    }
}

// Prints a value in the form that the options want.
fn put_root(
    show: &mut Show<'_>,
    place: &Place<'_>,
    target: Target,
    root: Cursor<'_>,
    written: &[u8],
    departures: Departures<'_, '_>,
) {
    match (show.options.shown, target) {
        (Shown::Text, _) if is_unreadable(&show.page, target, root, departures.items) => {
            put_unread(show, place, departures);
        }
        (Shown::Text, Target::Kind(kind)) => put_text_value(show, kind, root, departures.octets),
        (Shown::Text, _) => put_typed(&mut show.page, root),
        (Shown::Json, _) => put_json_value(show, place, target, root, departures),
        (Shown::Der | Shown::Pem, _) => {
            crate::print::put_octets(show, place, target, written, departures.items);
        }
        (Shown::Departures, _) => {}
        (Shown::Short, _) => {
            put_place(&mut show.page.out, place);
            put_short_line(&mut show.page, target.word(), root, show.options.now);
        }
    }
}

// Prints the elements of a value that is not one of its type. Its departures are listed as those of the type.
fn put_unread(show: &mut Show<'_>, place: &Place<'_>, departures: Departures<'_, '_>) {
    let (octets, hides) = (departures.octets, departures.hides);
    if put_elements(&mut show.page, octets, departures.base, hides).is_err() {
        show.memory_error(place);
    }
}

// Whether the fields of a value are not printed: it is not one of its type; or what is a field of the public part of a
// private key may be one of its secret part, since the key is damaged.
fn is_unreadable(
    page: &Page<'_>,
    target: Target,
    root: Cursor<'_>,
    departures: &[Departure],
) -> bool {
    let is_key = match target {
        Target::Kind(kind) => kind != Kind::Pfx,
        Target::Node(_) | Target::Elements => false,
    };
    !is_read(root, departures) || is_key && page.hides
}

// Whether the value has the tag of its type, and is not cut off.
fn is_read(root: Cursor<'_>, departures: &[Departure]) -> bool {
    if root.node().is_none() {
        return false;
    }
    for departure in departures {
        if departure.node == 0 && departure.rule == Rule::Truncated {
            return false;
        }
    }
    true
}

/// Whether there are departures, and BER allows all of them.
pub fn is_only_ber(departures: &[Departure]) -> bool {
    !departures.is_empty() && are_of_der(departures)
}

// Whether BER allows all departures.
fn are_of_der(departures: &[Departure]) -> bool {
    let mut are = true;
    for departure in departures {
        are = are && departure.rule.verdict().is_ber();
    }
    are
}
