//! Shows all values in a file.

use crate::departures::Departures;
use crate::elements::put_elements;
use crate::options::Shown;
use crate::place::Place;
use crate::print::put_form;
use crate::show::Show;
use crate::value::{Target, show_value};
use ber::{ElementFault, body_len, read_element};
use der_print::put_trust;
use schema_cursor::Cursor;
use schema_kinds::{
    Kind, TRUST, find_kind, is_encoding, is_private_label, may_be_private_key, read_as,
};
use schema_read::{Departure, Rule};
use std::alloc::AllocError;

/// Shows the values in `octets`, one after another. A value of a known kind is shown with its
/// fields. From the first value of no known kind on, all octets are shown as elements.
pub fn show_values(show: &mut Show<'_>, place: &Place<'_>, octets: &[u8]) {
    show.is_private = may_be_private_key(octets)
        || matches!(place.label, Some(label) if is_private_label(label));
    let mut start = 0usize;
    for _ in 0..octets.len() {
        let rest = octets.get(start..).unwrap_or(&[]);
        if rest.is_empty() {
            return;
        }
        match show_next(show, place, rest, start) {
            Ok(Some(count)) if count > 0 => start = start.saturating_add(count),
            Ok(_) => return,
            Err(_) => {
                show.memory_error(place);
                return;
            }
        }
    }
}

// Shows the next value, and returns how many octets it has. `None` if nothing is left.
fn show_next(
    show: &mut Show<'_>,
    place: &Place<'_>,
    rest: &[u8],
    start: usize,
) -> Result<Option<usize>, AllocError> {
    if show.options.is_tree {
        show_elements(show, place, rest, start)?;
        return Ok(None);
    }
    let count = value_len(rest);
    let octets = rest.get(..count).unwrap_or(rest);
    let Some(target) = target_of(show, place, octets)? else {
        if start > 0 {
            refuse_rest(show, place, rest, start);
        }
        show_elements(show, place, rest, start)?;
        return Ok(None);
    };
    let more = if matches!(target, Target::Kind(Kind::Certificate)) {
        trust_len(show, rest.get(count..).unwrap_or(&[]))?
    } else {
        0
    };
    let whole = count.saturating_add(more);
    let written = rest.get(..whole).unwrap_or(rest);
    show_value(show, place, target, (octets, written), start);
    if more > 0 && show.options.shown == Shown::Text {
        show_trust(
            show,
            rest.get(count..whole).unwrap_or(&[]),
            start.saturating_add(count),
        )?;
    }
    Ok(Some(whole))
}

// How many octets the value at the front has: all, if it is cut off or cannot be read.
fn value_len(rest: &[u8]) -> usize {
    match read_element(rest) {
        Ok(element) => rest.len().saturating_sub(element.rest.len()),
        Err(ElementFault::Indefinite(header)) => {
            let inside = rest.get(header.header_len..).unwrap_or(&[]);
            match body_len(inside) {
                Ok(count) => header.header_len.saturating_add(count),
                Err(_) => rest.len(),
            }
        }
        Err(_) => rest.len(),
    }
}

// What the options, the label or the contents say that a value is.
fn target_of(
    show: &mut Show<'_>,
    place: &Place<'_>,
    octets: &[u8],
) -> Result<Option<Target>, AllocError> {
    if let Some(node) = show.node {
        return Ok(Some(Target::Node(node)));
    }
    if let Some(kind) = show.options.kind {
        return Ok(Some(Target::Kind(kind)));
    }
    let (alloc, schema) = (show.page.alloc, show.page.schema);
    let kind = match place.label {
        Some(label) => labelled_kind(show, place, label, octets)?,
        None => find_kind(alloc, schema, octets)?,
    };
    Ok(match kind {
        Some(kind) => Some(Target::Kind(kind)),
        None => None,
    })
}

// The kind that a label promises, unless the value is well-formed as one of another kind.
fn labelled_kind(
    show: &mut Show<'_>,
    place: &Place<'_>,
    label: &str,
    octets: &[u8],
) -> Result<Option<Kind>, AllocError> {
    let (alloc, schema) = (show.page.alloc, show.page.schema);
    let Some(promised) = Kind::of_label(label) else {
        // two numbers under a label of something else are no key of RSA
        return Ok(match find_kind(alloc, schema, octets)? {
            Some(Kind::RsaPublicKey) => None,
            found => found,
        });
    };
    if is_encoding(alloc, schema, promised.node(), octets)? {
        return Ok(Some(promised));
    }
    match find_kind(alloc, schema, octets)? {
        Some(other) if other != promised && is_encoding(alloc, schema, other.node(), octets)? => {
            show.begin_error(place);
            show.errors.put("the label does not match the contents, which are of the kind ");
            show.errors.put(other.word());
            show.errors.put("\n");
            show.errors.flush();
            Ok(Some(other))
        }
        _ => Ok(Some(promised)),
    }
}

// How many octets has what openssl appends to a certificate that it trusts; none if it is not next.
fn trust_len(show: &Show<'_>, rest: &[u8]) -> Result<usize, AllocError> {
    let octets = rest.get(..value_len(rest)).unwrap_or(rest);
    if !octets.is_empty() && is_encoding(show.page.alloc, show.page.schema, TRUST, octets)? {
        Ok(octets.len())
    } else {
        Ok(0)
    }
}

// Shows it.
fn show_trust(show: &mut Show<'_>, octets: &[u8], start: usize) -> Result<(), AllocError> {
    let (alloc, schema) = (show.page.alloc, show.page.schema);
    let tree = read_as(alloc, schema, TRUST, octets)?;
    if let Some(trust) = Cursor::root(octets, schema, &tree) {
        show.page.base = start;
        put_trust(&mut show.page, trust);
        show.page.base = 0;
    }
    Ok(())
}

// Notes what follows the last value of a kind.
fn refuse_rest(show: &mut Show<'_>, place: &Place<'_>, rest: &[u8], start: usize) {
    let items = [Departure {
        rule: Rule::Unexpected,
        offset: 0,
        node: 0,
    }];
    let departures = Departures {
        items: &items,
        octets: rest,
        hides: show.is_private,
        root: None,
        base: start,
    };
    departures.put(show, place);
}

// Shows octets as elements.
fn show_elements(
    show: &mut Show<'_>,
    place: &Place<'_>,
    octets: &[u8],
    base: usize,
) -> Result<(), AllocError> {
    if show.options.shown != Shown::Text {
        return show_other_elements(show, place, octets, base);
    }
    if !show.options.is_tree {
        show.page.put("Elements of no known kind:\n");
    }
    let hides = show.is_private;
    let found = put_elements(&mut show.page, octets, base, hides && !show.options.is_tree)?;
    let departures = Departures {
        items: found.as_slice(),
        octets,
        hides,
        root: None,
        base,
    };
    departures.put(show, place);
    Ok(())
}

// Shows octets as elements in another form than text.
fn show_other_elements(
    show: &mut Show<'_>,
    place: &Place<'_>,
    octets: &[u8],
    base: usize,
) -> Result<(), AllocError> {
    match show.options.shown {
        Shown::Der | Shown::Pem => {
            put_form(show, place, None, octets);
            Ok(())
        }
        _ => show_each(show, place, octets, base),
    }
}

// Shows each element as a value of any type.
fn show_each(
    show: &mut Show<'_>,
    place: &Place<'_>,
    octets: &[u8],
    base: usize,
) -> Result<(), AllocError> {
    let mut start = 0usize;
    for _ in 0..octets.len() {
        let rest = octets.get(start..).unwrap_or(&[]);
        if rest.is_empty() {
            break;
        }
        let count = value_len(rest).max(1);
        let octets = rest.get(..count).unwrap_or(rest);
        let target = match show.node {
            Some(node) => Target::Node(node),
            None => Target::Elements,
        };
        show_value(
            show,
            place,
            target,
            (octets, octets),
            base.saturating_add(start),
        );
        start = start.saturating_add(count);
    }
    Ok(())
}
