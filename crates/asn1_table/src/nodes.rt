//! Makes the nodes of a table, one for each type.

use crate::choices::Choice;
use crate::fields::fields_of;
use crate::keys::{key_of, settled};
use crate::library::Library;
use crate::objects::types_by;
use crate::opener::Opener;
use crate::properties::{limits_of, names_of};
use crate::reach::reach;
use crate::rows::{EMPTY, Rows, count_of};
use crate::wanted::{Wanted, numbers_of};
use crate::wrong::Wrong;
use asn1_syntax::{SimpleType, Tag, TypeForm, TypeNode};
use ber::Universal;
use der_base::Class;
use schema_types::{Node, NodeKind, OpenType, Span};
use std::alloc::{AllocError, Global};

/// Returns the index of the node for the type with this index. Adds the node if the table does not
/// have it yet.
pub fn node_at<'a>(
    alloc: Global,
    library: &Library<'a>,
    rows: &mut Rows<'a>,
    index: usize,
    opener: Opener<'a>,
) -> Result<u32, Wrong<'a>> {
    let wanted = reach(library, index, None, opener)?;
    Ok(add(alloc, library, rows, wanted)?)
}

/// Returns the index of the node that `wanted` describes. Adds the node if the table does not have
/// it yet. The caller must fill an added node later with [`lay`].
pub fn add<'a>(
    alloc: Global,
    library: &Library<'a>,
    rows: &mut Rows<'a>,
    wanted: Wanted<'a>,
) -> Result<u32, AllocError> {
    let wanted = settled(library, wanted);
    let key = key_of(alloc, library, &wanted)?;
    rows.add_node(key, wanted)
}

/// Fills the node with this index: its kind, tag, name, parts and limits. The node must have been
/// added.
pub fn lay<'a>(
    alloc: Global,
    library: &Library<'a>,
    choices: &Vec<Choice<'a>>,
    rows: &mut Rows<'a>,
    index: usize,
) -> Result<(), Wrong<'a>> {
    let Some(wanted) = rows.wanted.get(index) else {
        return Ok(());
    };
    let wanted = *wanted;
    let name = rows.text(wanted.name)?;
    let node = Node {
        name,
        ..filled(alloc, library, choices, rows, &wanted)?
    };
    if let Some(place) = rows.nodes.get_mut(index) {
        *place = node;
    }
    Ok(())
}

fn filled<'a>(
    alloc: Global,
    library: &Library<'a>,
    choices: &Vec<Choice<'a>>,
    rows: &mut Rows<'a>,
    wanted: &Wanted<'a>,
) -> Result<Node, Wrong<'a>> {
    if let Some(tag) = wanted.tag
        && wanted.is_around
    {
        let inside = Wanted {
            tag: None,
            is_around: false,
            ..*wanted
        };
        return Ok(explicit(tag, add(alloc, library, rows, inside)?));
    }
    let Some(node) = library.node(wanted.index) else {
        return any(alloc, library, choices, rows, wanted.opener);
    };
    match &node.form {
        TypeForm::Tagged(prefix, of) => {
            let inner = node_at(alloc, library, rows, *of, wanted.opener)?;
            Ok(explicit(wanted.tag.unwrap_or(prefix.tag), inner))
        }
        TypeForm::SequenceOf(of) => list(alloc, library, rows, wanted, node, *of, false),
        TypeForm::SetOf(of) => list(alloc, library, rows, wanted, node, *of, true),
        TypeForm::Sequence(_) | TypeForm::Set(_) | TypeForm::Choice(_) => {
            with_fields(alloc, library, rows, wanted, node)
        }
        _ => simple(alloc, library, rows, wanted, node),
    }
}

// A node with these properties, and no others.
fn plain(kind: NodeKind, numbers: (u32, u32)) -> Node {
    let (class, number) = numbers;
    Node {
        kind,
        class: class_of(class),
        number,
        extensible: false,
        name: EMPTY,
        inner: None,
        parts: EMPTY,
        limits: EMPTY,
        chooser: 0,
    }
}

fn class_of(number: u32) -> Class {
    match number {
        0 => Class::Universal,
        1 => Class::Application,
        2 => Class::ContextSpecific,
        _ => Class::Private,
    }
}

// The node of a type inside an EXPLICIT tag.
fn explicit(tag: Tag, inner: u32) -> Node {
    Node {
        inner: Some(inner),
        ..plain(NodeKind::Explicit, numbers_of(tag))
    }
}

// The node of any type, or of an open type.
fn any<'a>(
    alloc: Global,
    library: &Library<'a>,
    choices: &Vec<Choice<'a>>,
    rows: &mut Rows<'a>,
    opener: Opener<'a>,
) -> Result<Node, Wrong<'a>> {
    let Some(chooser) = opener.chooser else {
        return Ok(plain(NodeKind::Any, (0, 0)));
    };
    let parts = match opener.objects {
        Some(number) => object_types(alloc, library, rows, number)?,
        None => types_of(alloc, library, choices, rows, opener.table)?,
    };
    Ok(Node {
        parts,
        chooser,
        ..plain(NodeKind::Open, (0, 0))
    })
}

// The rows of the open type with this name.
fn types_of<'a>(
    alloc: Global,
    library: &Library<'a>,
    choices: &Vec<Choice<'a>>,
    rows: &mut Rows<'a>,
    table: &'a str,
) -> Result<Span, Wrong<'a>> {
    if let Some(span) = rows.types_of(table) {
        return Ok(span);
    }
    let mut types = Vec::new(alloc);
    for choice in choices.iter() {
        if choice.table == table {
            let identifier = rows.octets(choice.identifier.as_slice())?;
            let node = node_at(alloc, library, rows, choice.of, Opener::NONE)?;
            types.push(OpenType { identifier, node })?;
        }
    }
    Ok(rows.add_types(table, types)?)
}

// The rows of the open type that objects choose.
fn object_types<'a>(
    alloc: Global,
    library: &Library<'a>,
    rows: &mut Rows<'a>,
    number: usize,
) -> Result<Span, Wrong<'a>> {
    let mut types = Vec::new(alloc);
    for (octets, index) in types_by(alloc, library, number)?.iter() {
        let identifier = rows.octets(octets.as_slice())?;
        let node = node_at(alloc, library, rows, *index, Opener::NONE)?;
        types.push(OpenType { identifier, node })?;
    }
    Ok(rows.add_rows(&types)?)
}

// The node of a SEQUENCE OF or a SET OF.
fn list<'a>(
    alloc: Global,
    library: &Library<'a>,
    rows: &mut Rows<'a>,
    wanted: &Wanted<'a>,
    node: &TypeNode<'a>,
    of: usize,
    is_set: bool,
) -> Result<Node, Wrong<'a>> {
    let (kind, number) = if is_set {
        (NodeKind::SetOf, 17)
    } else {
        (NodeKind::SequenceOf, 16)
    };
    let items = Opener {
        is_string: false,
        ..wanted.opener
    };
    Ok(Node {
        inner: Some(node_at(alloc, library, rows, of, items)?),
        limits: limits_of(rows, wanted, node)?,
        ..plain(kind, wanted.tag_or(number))
    })
}

// The node of a SEQUENCE, a SET or a CHOICE.
fn with_fields<'a>(
    alloc: Global,
    library: &Library<'a>,
    rows: &mut Rows<'a>,
    wanted: &Wanted<'a>,
    node: &TypeNode<'a>,
) -> Result<Node, Wrong<'a>> {
    let (kind, components) = match &node.form {
        TypeForm::Sequence(components) => (NodeKind::Universal(Universal::Sequence), components),
        TypeForm::Set(components) => (NodeKind::Universal(Universal::Set), components),
        TypeForm::Choice(components) => (NodeKind::Choice, components),
        _ => return Ok(plain(NodeKind::Any, (0, 0))),
    };
    let is_choice = kind == NodeKind::Choice;
    let tag = match &node.form {
        TypeForm::Sequence(_) => wanted.tag_or(16),
        TypeForm::Set(_) => wanted.tag_or(17),
        _ => (0, 0),
    };
    let parts = fields_of(alloc, library, rows, components, is_choice)?;
    let chooser = match node.mark {
        Some(mark) if !is_choice => count_of(mark.insertion),
        _ => 0,
    };
    Ok(Node {
        extensible: node.mark.is_some(),
        parts,
        chooser,
        ..plain(kind, tag)
    })
}

// The number of a universal tag; 0 for none.
fn number_of(number: Option<u64>) -> u32 {
    match number {
        Some(number) => u32::try_from(number).unwrap_or(0),
        None => 0,
    }
}

// The node of a type without components and items.
fn simple<'a>(
    alloc: Global,
    library: &Library<'a>,
    rows: &mut Rows<'a>,
    wanted: &Wanted<'a>,
    node: &TypeNode<'a>,
) -> Result<Node, Wrong<'a>> {
    let number = match &node.form {
        TypeForm::Simple(simple) => number_of(simple.tag_number()),
        TypeForm::Integer(_) => 2,
        TypeForm::BitString(_) => 3,
        _ => 10,
    };
    let Some(universal) = Universal::from_number(number) else {
        return Ok(plain(NodeKind::Any, (0, 0)));
    };
    let is_unread = matches!(&node.form, TypeForm::Simple(SimpleType::Unread));
    Ok(Node {
        extensible: node.mark.is_some() || is_unread,
        inner: contents_of(alloc, library, rows, wanted)?,
        parts: names_of(rows, node)?,
        limits: limits_of(rows, wanted, node)?,
        ..plain(NodeKind::Universal(universal), wanted.tag_or(number))
    })
}

// The node of the value in a string.
fn contents_of<'a>(
    alloc: Global,
    library: &Library<'a>,
    rows: &mut Rows<'a>,
    wanted: &Wanted<'a>,
) -> Result<Option<u32>, Wrong<'a>> {
    if wanted.opener.is_string {
        let opener = Opener {
            is_string: false,
            ..wanted.opener
        };
        return Ok(Some(add(alloc, library, rows, Wanted::any(opener))?));
    }
    match wanted.contained {
        Some(of) => Ok(Some(node_at(alloc, library, rows, of, wanted.opener)?)),
        None => Ok(None),
    }
}
