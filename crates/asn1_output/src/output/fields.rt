//! The Rust fields for the components of a SEQUENCE.

use super::default_place::DefaultPlace;
use super::defaults::{DefaultType, default_type};
use super::directive::{field_name, is_word, name_of_type, own_default, variant_name};
use super::docs::component_doc;
use super::field::{Field, FieldPresence};
use super::known::additions_type;
use super::naming::text_at;
use super::sequence::SequenceText;
use super::taken::{ALONE, Taken};
use super::types::{automatic_tag, component_types};
use super::written::Written;
use asn1_check::{Module, RustType};
use asn1_syntax::{Component, Failure, Presence};
use std::alloc::{AllocError, Global};

const ADDITIONS: &str =
    "    /// The fields that the ASN.1 module does not have, as they were read.\n";

impl<'m, 'a> Written<'m, 'a> {
    /// The Rust fields for these components. `owner` is the Rust name of the type with the
    /// components. If `additions` is given, the type keeps unknown components. Then one more field
    /// for them is added in front of the field with this index.
    pub fn fields(
        &self,
        alloc: Global,
        owner: &str,
        components: &Vec<Component<'a>>,
        additions: Option<usize>,
    ) -> Result<Vec<Field>, Failure<'a>> {
        let mut fields = Vec::new(alloc);
        let types = component_types(alloc, self.module, self.types, components)?;
        let names = field_names(alloc, components)?;
        for (count, (component, of)) in components.iter().zip(types.iter()).enumerate() {
            if additions == Some(count) {
                fields.push(additions_field(alloc, owner, components)?)?;
            }
            let name = default_name(alloc, owner, component)?;
            let place = DefaultPlace {
                of,
                index: component.of,
                numbered: automatic_tag(self.module, components, count),
                is_word: is_word(component.name),
                name: name.as_str(),
            };
            let found = self.field_type(alloc, component, &place)?;
            let name = String::from_str(alloc, text_at(&names, count))?;
            fields.push(field_of(alloc, self.module, component, name, found)?)?;
        }
        if additions == Some(components.len()) {
            fields.push(additions_field(alloc, owner, components)?)?;
        }
        Ok(fields)
    }

    // The type of the field for a component.
    fn field_type(
        &self,
        alloc: Global,
        component: &Component<'a>,
        place: &DefaultPlace<'_>,
    ) -> Result<DefaultType, Failure<'a>> {
        match &component.presence {
            Presence::Default(value) if own_default(component.name).is_none() => {
                default_type(alloc, self.module, self.types, place, value)
            }
            _ => Ok(DefaultType::plain(alloc, place.of)?),
        }
    }
}

// The name of the type that stands for the default of a component, if one does.
fn default_name(
    alloc: Global,
    owner: &str,
    component: &Component<'_>,
) -> Result<String, AllocError> {
    let end = variant_name(alloc, component.name)?;
    let end = end.as_str();
    format!(in alloc; "{owner}{end}Default")
}

/// The Rust names of the fields for these components. The last name is one more, for the field with
/// unknown components.
pub fn field_names(
    alloc: Global,
    components: &Vec<Component<'_>>,
) -> Result<Vec<String>, AllocError> {
    let mut names = Vec::new(alloc);
    let mut taken = Taken::new(alloc);
    for component in components.iter() {
        let name = field_name(alloc, component.name)?;
        names.push(taken.take_free(alloc, name.as_str(), ALONE, "_")?)?;
    }
    names.push(taken.take_free(alloc, "additions", ALONE, "_")?)?;
    Ok(names)
}

// The field for the components that the SEQUENCE with the name `owner` does not name.
fn additions_field(
    alloc: Global,
    owner: &str,
    components: &Vec<Component<'_>>,
) -> Result<Field, AllocError> {
    let names = field_names(alloc, components)?;
    Ok(Field {
        name: String::from_str(alloc, text_at(&names, components.len()))?,
        doc: String::from_str(alloc, ADDITIONS)?,
        of: RustType::element(alloc, additions_type(alloc, owner)?),
        presence: FieldPresence::Additions,
        own: None,
    })
}

fn field_of(
    alloc: Global,
    module: &Module<'_>,
    component: &Component<'_>,
    name: String,
    found: DefaultType,
) -> Result<Field, AllocError> {
    let DefaultType { of, own } = found;
    Ok(Field {
        name,
        doc: component_doc(alloc, module, component, "The field")?,
        of,
        presence: presence_of(alloc, component)?,
        own,
    })
}

fn presence_of(alloc: Global, component: &Component<'_>) -> Result<FieldPresence, AllocError> {
    match (&component.presence, own_default(component.name)) {
        (Presence::Required, _) => Ok(FieldPresence::Required),
        (Presence::Optional, _) => Ok(FieldPresence::Optional),
        (Presence::Default(_), None) => Ok(FieldPresence::Defaulted),
        (Presence::Default(_), Some(default)) => {
            Ok(FieldPresence::DefaultedTo(String::from_str(alloc, default)?))
        }
    }
}

/// The Rust struct for a CHOICE that is inside an explicit tag. `name` is the name of the struct.
pub fn tagged_text(alloc: Global, name: String, of: &RustType) -> Result<SequenceText, AllocError> {
    let choice = name_of_type(of.text.as_str());
    Ok(SequenceText {
        name,
        lifetime: if of.has_lifetime { "<'a>" } else { "" },
        doc: format!(in alloc;
            "/// The contents of an element with an explicit tag: a [`{choice}`].\n"
        )?,
        fields: vec![in alloc; tagged_field(alloc, of)?]?,
    })
}

fn tagged_field(alloc: Global, of: &RustType) -> Result<Field, AllocError> {
    Ok(Field {
        name: String::from_str(alloc, "value")?,
        doc: String::from_str(alloc, "    /// The value inside the explicit tag.\n")?,
        of: of.copy(alloc)?,
        presence: FieldPresence::Required,
        own: None,
    })
}
