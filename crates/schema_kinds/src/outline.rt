//! Compares the tags of the elements in some octets with the tags of a type.
ghost use Rattle.std.specs.Prelude.{◌<◌, IfSome};

use ber::{
    ElementFault, Header, Length, Universal, body_len, is_end_of_contents, read_element,
    read_header,
};
use schema_types::{NodeKind, Presence, Schema};

/// Whether the octets may be a value of a type, judged by tags alone. Compares the tags of the
/// outermost element and of the elements directly inside it. `node` is the index of the type in the
/// table of types.
pub fn has_outline(schema: &Schema<'_>, node: u32, octets: &[u8]) -> bool {
    match components_of(schema, node, octets) {
        Some(components) => components.fit(schema),
        None => false,
    }
}

/// Whether the octets may be a value of a type, judged by tags alone. Compares the tags one level
/// deeper than [`has_outline`].
pub fn has_deep_outline(schema: &Schema<'_>, node: u32, octets: &[u8]) -> bool {
    match components_of(schema, node, octets) {
        Some(components) => components.fit_inside(schema),
        None => false,
    }
}

/// The state of comparing the contents of a SEQUENCE with its fields: the fields that may still
/// follow, and the octets that are not compared yet. `is_open` is true if the type is no SEQUENCE
/// or is extensible; then further elements are accepted.
#[derive(Clone, Copy)]
struct Components<'a> {
    start: u32,
    end: u32,
    octets: &'a [u8],
    is_open: bool,
}

// The components of a value of a node, if it has a tag of the node.
fn components_of<'a>(schema: &Schema<'_>, node: u32, octets: &'a [u8]) -> Option<Components<'a>> {
    let Ok(header) = read_header(octets) else {
        return None;
    };
    let node = schema.node(selected(schema, node, header)?);
    let after = octets.get(header.header_len..).unwrap_or(&[]);
    let is_sequence = node.kind == NodeKind::Universal(Universal::Sequence);
    Some(Components {
        start: node.parts.start,
        end: node.parts.start.saturating_add(node.parts.count),
        octets: contents_of(after, header),
        is_open: node.extensible || !is_sequence,
    })
}

// The node that the tag of a header selects.
fn selected(schema: &Schema<'_>, node: u32, header: Header) -> Option<u32>
    ensures { IfSome result (λ i. i < schema.now.counts.nodes) }
{
    if node >= schema.counts().nodes {
        return None;
    }
    match schema.select(node, header.class, header.number) {
        Some(found) if found.node < schema.counts().nodes => Some(found.node),
        _ => None,
    }
}

// The contents of a header, of the octets after it.
fn contents_of(after: &[u8], header: Header) -> &[u8] {
    match header.length {
        Length::Definite(length) => after.get(..length as usize).unwrap_or(after),
        Length::Indefinite => after,
    }
}

impl<'a> Components<'a> {
    // Whether the octets are components of the fields, and no others.
    fn fit(self, schema: &Schema<'_>) -> bool {
        let mut left = self;
        for _ in self.start..self.end {
            if left.next(schema).is_none() {
                break;
            }
        }
        self.is_open || left.are_ended(schema)
    }

    // The same, where each component that is a SEQUENCE has components of its fields too.
    fn fit_inside(self, schema: &Schema<'_>) -> bool {
        let mut left = self;
        for _ in self.start..self.end {
            match left.next(schema) {
                Some(inner) if !inner.fit(schema) => return false,
                Some(_) => {}
                None => break,
            }
        }
        self.is_open || left.are_ended(schema)
    }

    // Passes the next component, and the fields before it that may be absent. `None` if there is none, or if a
    // field before it has to be there.
    fn next(&mut self, schema: &Schema<'_>) -> Option<Components<'a>> {
        for at in self.start..self.end {
            if is_ended(self.octets) || at >= schema.counts().fields {
                return None;
            }
            let field = schema.field(at);
            if let Some(found) = components_of(schema, field.node, self.octets) {
                self.octets = after_element(self.octets);
                self.start = at.saturating_add(1);
                return Some(found);
            }
            if field.presence == Presence::Required {
                return None;
            }
        }
        None
    }

    // Whether no octets are left, and no field that has to be there.
    fn are_ended(self, schema: &Schema<'_>) -> bool {
        for at in self.start..self.end {
            if at >= schema.counts().fields || schema.field(at).presence == Presence::Required {
                return false;
            }
        }
        is_ended(self.octets)
    }
}

fn is_ended(rest: &[u8]) -> bool {
    rest.is_empty() || is_end_of_contents(rest)
}

/// The octets after the element at the front of `octets`. No octets if this element cannot be read.
pub fn after_element(octets: &[u8]) -> &[u8] {
    match read_element(octets) {
        Ok(element) => element.rest,
        Err(ElementFault::Indefinite(header)) => {
            let inside = octets.get(header.header_len..).unwrap_or(&[]);
            match body_len(inside) {
                Ok(count) => inside.get(count..).unwrap_or(&[]),
                Err(_) => &[],
            }
        }
        Err(_) => &[],
    }
}
