//! A module, with the definitions to be written for it.

use super::alternatives::alternatives;
use super::choice::ChoiceText;
use super::choice_part::ChoicePart;
use super::definition::{Definition, DefinitionKind};
use super::definitions::Definitions;
use super::directive::own_type;
use super::docs::doc_of;
use super::enumeration::push_enumeration;
use super::fields::tagged_text;
use super::kept::is_kept;
use super::known::KnownText;
use super::lists::{ListText, list_field};
use super::naming::{is_assigned, text_at};
use super::numbers::{are_small, is_closed};
use super::sequence::SequenceText;
use super::sequence_part::PartText;
use super::tagged::tagged_name;
use super::types::list_text;
use asn1_check::{Module, RustKind, RustType, TagSet, are_numbered};
use asn1_syntax::{Component, Failure, NamedNumber, TypeForm, TypeNode, push_line};
use std::alloc::{AllocError, Global};
use std::fmt::Write;

/// A module, and the Rust names and types for its types.
#[derive(Clone, Copy)]
pub struct Written<'m, 'a> {
    /// The module that is compiled.
    pub module: &'m Module<'a>,
    /// The Rust name of each type of the module, by the index of the type.
    pub names: &'m Vec<String>,
    /// The Rust type for each type of the module, by the index of the type.
    pub types: &'m Vec<RustType>,
    /// The tags that each type knows where its extension marker is, by the index of the type.
    /// `None` for a type that keeps no unknown elements.
    pub kept: &'m Vec<Option<TagSet>>,
}

// A type of the module, with its index and the name that it has in Rust.
#[derive(Clone, Copy)]
struct Named<'m, 'a> {
    index: usize,
    node: &'m TypeNode<'a>,
    name: &'m str,
}

impl<'m, 'a> Written<'m, 'a> {
    /// Makes the definitions for all types of the module, sorted by the names of their files.
    pub fn definitions(&self, alloc: Global) -> Result<Vec<Definition>, Failure<'a>> {
        let mut definitions = Definitions::new(alloc);
        for (index, node) in self.module.nodes.iter().enumerate() {
            let name = text_at(self.names, index);
            if !name.is_empty() && own_type(self.module, index).is_none() {
                self.add_definitions(alloc, &mut definitions, Named { index, node, name })?;
            }
        }
        Ok(definitions.in_order(alloc)?)
    }

    // Adds the definitions of one type.
    fn add_definitions(
        &self,
        alloc: Global,
        definitions: &mut Definitions,
        of: Named<'_, 'a>,
    ) -> Result<(), Failure<'a>> {
        match &of.node.form {
            TypeForm::Sequence(components) => self.add_sequence(alloc, definitions, of, components),
            TypeForm::Choice(components) => self.add_choice(alloc, definitions, of, components),
            TypeForm::Enumerated(items) if are_small(items) => {
                self.add_enumeration(alloc, definitions, of, items)
            }
            TypeForm::Integer(items) if is_closed(self.module, of.index, items) => {
                self.add_enumeration(alloc, definitions, of, items)
            }
            TypeForm::SequenceOf(_) | TypeForm::SetOf(_) => match list_field(
                self.module,
                of.index,
            ) {
                Some(field) => Ok(self.add_list(alloc, definitions, of, field)?),
                None => self.add_alias(alloc, definitions, of),
            },
            TypeForm::Tagged(_, inside) => {
                self.add_tagged_choice(alloc, definitions, *inside)?;
                self.add_alias(alloc, definitions, of)
            }
            _ => self.add_alias(alloc, definitions, of),
        }
    }

    fn add_sequence(
        &self,
        alloc: Global,
        definitions: &mut Definitions,
        of: Named<'_, 'a>,
        components: &Vec<Component<'a>>,
    ) -> Result<(), Failure<'a>> {
        let additions = match (&of.node.mark, is_kept(self.kept, of.index)) {
            (Some(mark), true) => Some(mark.insertion),
            _ => None,
        };
        let fields = self.fields(alloc, of.name, components, additions)?;
        let doc = self.doc(alloc, of)?;
        let text = SequenceText::new(alloc, of.name, doc, fields)?;
        add_fields(alloc, definitions, &text)?;
        self.add_known(alloc, definitions, of)?;
        self.add_numbered_choices(alloc, definitions, components)
    }

    fn add_choice(
        &self,
        alloc: Global,
        definitions: &mut Definitions,
        of: Named<'_, 'a>,
        components: &Vec<Component<'a>>,
    ) -> Result<(), Failure<'a>> {
        let keeping = if is_kept(self.kept, of.index) {
            Some(of.name)
        } else {
            None
        };
        let text = ChoiceText {
            name: String::from_str(alloc, of.name)?,
            doc: self.doc(alloc, of)?,
            alternatives: alternatives(alloc, self.module, self.types, components, keeping)?,
        };
        add_alternatives(alloc, definitions, &text)?;
        self.add_known(alloc, definitions, of)?;
        self.add_numbered_choices(alloc, definitions, components)
    }

    // Adds the definition of the tags that a type knows at its extension mark, if it keeps others.
    fn add_known(
        &self,
        alloc: Global,
        definitions: &mut Definitions,
        of: Named<'_, 'a>,
    ) -> Result<(), AllocError> {
        let Some(Some(tags)) = self.kept.get(of.index) else {
            return Ok(());
        };
        let (owner, text) = (
            of.name,
            KnownText {
                name: of.name,
                tags,
            },
        );
        let name = format!(in alloc; "{owner}Known")?;
        let mut definition = Definition::new(alloc, name.as_str(), "", DefinitionKind::Known)?;
        text.push_body(&mut definition.body)?;
        definitions.add(definition)
    }

    fn add_enumeration(
        &self,
        alloc: Global,
        definitions: &mut Definitions,
        of: Named<'_, 'a>,
        items: &Vec<NamedNumber<'a>>,
    ) -> Result<(), Failure<'a>> {
        let mut definition = Definition::new(alloc, of.name, "", DefinitionKind::Enumeration)?;
        let doc = self.doc(alloc, of)?;
        push_enumeration(
            alloc,
            &mut definition.body,
            doc.as_str(),
            of.name,
            items,
            true,
        )?;
        Ok(definitions.add(definition)?)
    }

    // Adds the definition of a list that is a struct with this field.
    fn add_list(
        &self,
        alloc: Global,
        definitions: &mut Definitions,
        of: Named<'_, 'a>,
        field: &str,
    ) -> Result<(), AllocError> {
        let mut definition = Definition::new(alloc, of.name, "", DefinitionKind::List)?;
        let list = list_text(alloc, self.types, of.node)?;
        let doc = self.doc(alloc, of)?;
        let text = ListText {
            doc: doc.as_str(),
            name: of.name,
            field,
            list: list.as_str(),
        };
        text.push_body(&mut definition.body)?;
        definitions.add(definition)
    }

    // Adds the definitions of tags in front of a CHOICE, for components that the module numbers.
    fn add_numbered_choices(
        &self,
        alloc: Global,
        definitions: &mut Definitions,
        components: &Vec<Component<'a>>,
    ) -> Result<(), Failure<'a>> {
        if are_numbered(components) {
            for component in components.iter() {
                self.add_tagged_choice(alloc, definitions, component.of)?;
            }
        }
        Ok(())
    }

    // Adds the definition of a tag in front of the type with this index, if that is a CHOICE.
    fn add_tagged_choice(
        &self,
        alloc: Global,
        definitions: &mut Definitions,
        index: usize,
    ) -> Result<(), AllocError> {
        match self.types.get(index) {
            Some(of) if of.kind == RustKind::Choice => add_tagged(alloc, definitions, of),
            _ => Ok(()),
        }
    }

    // What the module says of a type.
    fn doc(&self, alloc: Global, of: Named<'_, 'a>) -> Result<String, AllocError> {
        match self.module.assignment(of.index) {
            Some(assigned) => doc_of(alloc, &assigned.name, "", "The type"),
            None => String::from_str(
                alloc,
                "/// A type inside another type, to which the ASN.1 module gives no name. Its name here is made of the\n/// names of the types and components around it.\n",
            ),
        }
    }

    // Adds the definition of a type that has a name in the module, as another name of a type of Rust.
    fn add_alias(
        &self,
        alloc: Global,
        definitions: &mut Definitions,
        of: Named<'_, 'a>,
    ) -> Result<(), Failure<'a>> {
        if !is_assigned(self.module, of.index) {
            return Ok(());
        }
        let end = if named_bits(of.node).is_some() {
            "Bit"
        } else {
            ""
        };
        let mut definition = Definition::new(alloc, of.name, end, DefinitionKind::Alias)?;
        self.push_alias(alloc, &mut definition.body, of)?;
        if let Some(bits) = named_bits(of.node) {
            push_bits(alloc, &mut definition.body, of.name, bits)?;
        }
        Ok(definitions.add(definition)?)
    }

    fn push_alias(
        &self,
        alloc: Global,
        out: &mut String,
        of: Named<'_, 'a>,
    ) -> Result<(), AllocError> {
        let Some(found) = self.types.get(of.index) else {
            return Ok(());
        };
        out.push_str(self.doc(alloc, of)?.as_str())?;
        let lifetime = if found.has_lifetime { "<'a>" } else { "" };
        let (name, text) = (of.name, found.text.as_str());
        write!(out, "pub type {name}{lifetime} = {text};\n")
    }
}

// The named bits of a BIT STRING that has any.
fn named_bits<'n, 'a>(node: &'n TypeNode<'a>) -> Option<&'n Vec<NamedNumber<'a>>> {
    match &node.form {
        TypeForm::BitString(bits) if !bits.is_empty() => Some(bits),
        _ => None,
    }
}

// Adds the enum of the named bits of the type with this name.
fn push_bits<'a>(
    alloc: Global,
    out: &mut String,
    name: &str,
    bits: &Vec<NamedNumber<'a>>,
) -> Result<(), Failure<'a>> {
    let doc = format!(in alloc; "\n/// The named bits of a [`{name}`], with their numbers.\n")?;
    let bit = format!(in alloc; "{name}Bit")?;
    push_enumeration(alloc, out, doc.as_str(), bit.as_str(), bits, false)
}

// Adds the definition of a tag in front of this CHOICE, unless it is there.
fn add_tagged(
    alloc: Global,
    definitions: &mut Definitions,
    of: &RustType,
) -> Result<(), AllocError> {
    let name = tagged_name(alloc, of)?;
    if !definitions.begins(alloc, name.as_str())? {
        return Ok(());
    }
    let text = tagged_text(alloc, name, of)?;
    add_fields(alloc, definitions, &text)
}

// Adds the definitions of a SEQUENCE.
fn add_fields(
    alloc: Global,
    definitions: &mut Definitions,
    text: &SequenceText,
) -> Result<(), AllocError> {
    definitions.add(sequence_definition(alloc, text)?)?;
    if !text.has_parts() {
        return Ok(());
    }
    for index in 0..text.part_count() {
        definitions.add(part_definition(alloc, &text.part(index))?)?;
    }
    Ok(())
}

fn sequence_definition(alloc: Global, text: &SequenceText) -> Result<Definition, AllocError> {
    let mut definition = Definition::new(
        alloc,
        text.name.as_str(),
        "Fields",
        DefinitionKind::Sequence,
    )?;
    text.push_body(&mut definition.body)?;
    for field in text.fields.iter() {
        if let Some(own) = &field.own {
            push_line(&mut definition.names, own.name.as_str())?;
        }
    }
    Ok(definition)
}

fn part_definition(alloc: Global, part: &PartText<'_>) -> Result<Definition, AllocError> {
    let name = part.name(alloc)?;
    let mut definition = Definition::new(
        alloc,
        name.as_str(),
        "Fields",
        DefinitionKind::SequencePart,
    )?;
    part.push_body(&mut definition.body)?;
    Ok(definition)
}

// Adds the definitions of a CHOICE.
fn add_alternatives(
    alloc: Global,
    definitions: &mut Definitions,
    text: &ChoiceText,
) -> Result<(), AllocError> {
    definitions.add(choice_definition(alloc, text)?)?;
    if !text.has_parts() {
        return Ok(());
    }
    for index in 0..text.part_count() {
        definitions.add(choice_part_definition(alloc, &text.part(index))?)?;
    }
    Ok(())
}

fn choice_definition(alloc: Global, text: &ChoiceText) -> Result<Definition, AllocError> {
    let end = if text.has_parts() { "" } else { "Alternatives" };
    let mut definition = Definition::new(alloc, text.name.as_str(), end, DefinitionKind::Choice)?;
    text.push_body(&mut definition.body)?;
    definition.proofs = text.proofs(alloc)?;
    Ok(definition)
}

fn choice_part_definition(alloc: Global, part: &ChoicePart<'_>) -> Result<Definition, AllocError> {
    let name = part.name(alloc)?;
    let mut definition = Definition::new(alloc, name.as_str(), "", DefinitionKind::ChoicePart)?;
    part.push_body(&mut definition.body)?;
    Ok(definition)
}
