//! Fields of types, which are components and alternatives.

use crate::defaults::default_of;
use crate::directives::{opens, own_type};
use crate::library::Library;
use crate::nodes::add;
use crate::objects::use_in;
use crate::opener::Opener;
use crate::reach::{has_no_tag, reach};
use crate::rows::{EMPTY, Rows, count_of};
use crate::wanted::Wanted;
use crate::wrong::Wrong;
use asn1_syntax::{
    Component, Item, Presence as Written, SimpleType, Tag, TagClass, TypeForm, Warning,
};
use schema_types::{Field, Presence, Span};
use std::alloc::Global;

const NOT_COMPUTED: &str =
    "this default is not checked by the table, which has an OPTIONAL component in its place";

/// Adds a field to the table for each component or alternative of a type. Returns the range of
/// these fields.
pub fn fields_of<'a>(
    alloc: Global,
    library: &Library<'a>,
    rows: &mut Rows<'a>,
    components: &Vec<Component<'a>>,
    is_choice: bool,
) -> Result<Span, Wrong<'a>> {
    let span = rows.add_fields(components.len())?;
    let mut chooser = None;
    let mut addition = 0u32;
    for (count, component) in components.iter().enumerate() {
        let at = span.start.saturating_add(count_of(count));
        let wanted = wanted_of(library, components, count, span.start, chooser)?;
        if component.is_addition {
            addition = addition.saturating_add(1);
        }
        let number = if component.is_addition { addition } else { 0 };
        let field = field_of(alloc, library, rows, component, wanted, number)?;
        set(rows, at as usize, field, component.name);
        if !is_choice && chooser.is_none() && is_identifier(library, &wanted) {
            chooser = Some(at);
        }
    }
    Ok(span)
}

/// Describes the node that the component with this index needs. `start` is the index of the field
/// of the first component. `chooser` is the index of the field whose value chooses the type of an
/// open type in the component. If a table constraint names another component, the field of that
/// component chooses.
pub fn wanted_of<'a>(
    library: &Library<'a>,
    components: &Vec<Component<'a>>,
    index: usize,
    start: u32,
    chooser: Option<u32>,
) -> Result<Wanted<'a>, Wrong<'a>> {
    let Some(component) = components.get(index) else {
        return Ok(Wanted::any(Opener::NONE));
    };
    let opener = by_objects(
        library,
        components,
        index,
        start,
        opener_of(library, component, chooser),
    );
    let tag = numbered_tag(component);
    if tag.is_some() && has_no_tag(library, component.of) {
        return Ok(Wanted {
            tag,
            is_around: true,
            ..reach(library, component.of, None, opener)?
        });
    }
    reach(library, component.of, tag, opener)
}

// What the comment of a component says of its open types.
fn opener_of<'a>(
    library: &Library<'a>,
    component: &Component<'a>,
    chooser: Option<u32>,
) -> Opener<'a> {
    let comments = component.name.comments;
    let own = match own_type(comments) {
        Some(name) => library.commented(component.name.offset, name),
        None => None,
    };
    let table = opens(comments);
    Opener {
        chooser,
        table: table.unwrap_or(""),
        objects: None,
        is_string: table.is_some(),
        own,
    }
}

// What chooses open types in the component with this index, if a constraint says that objects do which another
// component in front identifies (X.682, 10).
fn by_objects<'a>(
    library: &Library<'a>,
    components: &Vec<Component<'a>>,
    index: usize,
    start: u32,
    opener: Opener<'a>,
) -> Opener<'a> {
    match chosen_by(library, components, index) {
        Some((number, by)) => Opener {
            chooser: Some(start.saturating_add(count_of(by))),
            objects: Some(number),
            ..opener
        },
        None => opener,
    }
}

// The index of what a constraint in a component says, and the index of the component that identifies objects.
fn chosen_by(
    library: &Library<'_>,
    components: &Vec<Component<'_>>,
    index: usize,
) -> Option<(usize, usize)> {
    let number = use_in(library, components.get(index)?.of)?;
    let name = library.tables.get(number)?.by?;
    for (by, component) in components.iter().enumerate().take(index) {
        if component.name.text == name.text {
            return Some((number, by));
        }
    }
    None
}

// The tag that a component gets by its number, if its module says so.
fn numbered_tag(component: &Component<'_>) -> Option<Tag> {
    Some(Tag {
        class: TagClass::ContextSpecific,
        number: component.number? as u64,
    })
}

// Whether values of a node are OBJECT IDENTIFIERs.
fn is_identifier(library: &Library<'_>, wanted: &Wanted<'_>) -> bool {
    match library.node(wanted.index) {
        Some(node) => {
            !wanted.is_around
                && matches!(&node.form, TypeForm::Simple(SimpleType::ObjectIdentifier))
        }
        None => false,
    }
}

fn field_of<'a>(
    alloc: Global,
    library: &Library<'a>,
    rows: &mut Rows<'a>,
    component: &Component<'a>,
    wanted: Wanted<'a>,
    addition: u32,
) -> Result<Field, Wrong<'a>> {
    let mut presence = Presence::Required;
    let mut default = EMPTY;
    match &component.presence {
        Written::Required => {}
        Written::Optional => presence = Presence::Optional,
        Written::Default(value) => match default_of(alloc, library, &wanted, value)? {
            Some(octets) => {
                presence = Presence::Default;
                default = rows.octets(octets.as_slice())?;
            }
            None => {
                presence = Presence::Optional;
                let warning = Warning::of(alloc, value.item, NOT_COMPUTED)?;
                rows.warnings.push(warning)?;
            }
        },
    }
    Ok(Field {
        presence,
        addition,
        name: rows.text(component.name.text)?,
        node: add(alloc, library, rows, wanted)?,
        default,
    })
}

fn set<'a>(rows: &mut Rows<'a>, index: usize, field: Field, name: Item<'a>) {
    if let Some(place) = rows.fields.get_mut(index) {
        *place = field;
    }
    if let Some(place) = rows.components.get_mut(index) {
        *place = name;
    }
}
