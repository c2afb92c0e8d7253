//! Writes the octets of a table.

use crate::rows::{Rows, count_of};
use der_base::Class;
use schema_types::{Field, Limit, LimitKind, Name, Node, NodeKind, OpenType, Presence, Span};
use std::alloc::{AllocError, Global};

/// The octets of a table with these rows. The nodes are written in the order `order`. `places` has
/// the position of each node in `order`, at the index of the node.
pub fn octets_of(
    alloc: Global,
    rows: &Rows<'_>,
    order: &Vec<usize>,
    places: &Vec<u32>,
) -> Result<Vec<u8>, AllocError> {
    let mut out = Vec::new(alloc);
    out.extend_from_slice(b"YSCH")?;
    push(&mut out, 1)?;
    push(&mut out, count_of(rows.nodes.len()))?;
    push(&mut out, count_of(rows.fields.len()))?;
    push(&mut out, count_of(rows.limits.len()))?;
    push(&mut out, count_of(rows.names.len()))?;
    push(&mut out, count_of(rows.opens.len()))?;
    push(&mut out, count_of(rows.pool.len()))?;
    push_nodes(&mut out, &rows.nodes, order, places)?;
    push_fields(&mut out, &rows.fields, places)?;
    push_limits(&mut out, &rows.limits)?;
    push_names(&mut out, &rows.names)?;
    push_opens(&mut out, &rows.opens, places)?;
    out.extend_from_slice(rows.pool.as_slice())?;
    Ok(out)
}

/// The position at which the node with this index is written.
pub fn place_of(places: &Vec<u32>, index: u32) -> u32 {
    match places.get(index as usize) {
        Some(place) => *place,
        None => index,
    }
}

fn push(out: &mut Vec<u8>, number: u32) -> Result<(), AllocError> {
    out.extend_from_slice(&number.to_be_bytes())
}

fn push_signed(out: &mut Vec<u8>, number: i64) -> Result<(), AllocError> {
    out.extend_from_slice(&number.to_be_bytes())
}

fn push_span(out: &mut Vec<u8>, span: Span) -> Result<(), AllocError> {
    push(out, span.start)?;
    push(out, span.count)
}

fn push_nodes(
    out: &mut Vec<u8>,
    nodes: &Vec<Node>,
    order: &Vec<usize>,
    places: &Vec<u32>,
) -> Result<(), AllocError> {
    for index in order.iter() {
        if let Some(node) = nodes.get(*index) {
            push_node(out, node, places)?;
        }
    }
    Ok(())
}

fn push_node(out: &mut Vec<u8>, node: &Node, places: &Vec<u32>) -> Result<(), AllocError> {
    out.push(kind_octet(node.kind))?;
    out.push(class_octet(node.class))?;
    out.push(u8::from(node.extensible))?;
    out.push(u8::from(node.inner.is_some()))?;
    push(out, node.number)?;
    push_span(out, node.name)?;
    match node.inner {
        Some(inner) => push(out, place_of(places, inner))?,
        None => push(out, 0)?,
    }
    push_span(out, node.parts)?;
    push_span(out, node.limits)?;
    push(out, node.chooser)
}

fn kind_octet(kind: NodeKind) -> u8 {
    match kind {
        NodeKind::Universal(universal) => u8::try_from(universal.number()).unwrap_or(0),
        NodeKind::SequenceOf => 64,
        NodeKind::SetOf => 65,
        NodeKind::Choice => 66,
        NodeKind::Explicit => 67,
        NodeKind::Any => 68,
        NodeKind::Open => 69,
    }
}

fn class_octet(class: Class) -> u8 {
    match class {
        Class::Universal => 0,
        Class::Application => 64,
        Class::ContextSpecific => 128,
        Class::Private => 192,
    }
}

fn push_fields(
    out: &mut Vec<u8>,
    fields: &Vec<Field>,
    places: &Vec<u32>,
) -> Result<(), AllocError> {
    for field in fields.iter() {
        push(out, presence_number(field.presence))?;
        push(out, field.addition)?;
        push_span(out, field.name)?;
        push(out, place_of(places, field.node))?;
        push_span(out, field.default)?;
    }
    Ok(())
}

fn presence_number(presence: Presence) -> u32 {
    match presence {
        Presence::Required => 0,
        Presence::Optional => 1,
        Presence::Default => 2,
    }
}

fn push_limits(out: &mut Vec<u8>, limits: &Vec<Limit>) -> Result<(), AllocError> {
    for limit in limits.iter() {
        push(out, limit_number(limit.kind))?;
        push_signed(out, limit.low)?;
        push_signed(out, limit.high)?;
    }
    Ok(())
}

fn limit_number(kind: LimitKind) -> u32 {
    match kind {
        LimitKind::Value => 0,
        LimitKind::Size => 1,
        LimitKind::Alphabet => 2,
    }
}

fn push_names(out: &mut Vec<u8>, names: &Vec<Name>) -> Result<(), AllocError> {
    for name in names.iter() {
        push_signed(out, name.number)?;
        push_span(out, name.name)?;
    }
    Ok(())
}

fn push_opens(
    out: &mut Vec<u8>,
    opens: &Vec<OpenType>,
    places: &Vec<u32>,
) -> Result<(), AllocError> {
    for of in opens.iter() {
        push_span(out, of.identifier)?;
        push(out, place_of(places, of.node))?;
    }
    Ok(())
}
