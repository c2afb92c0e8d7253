//! The names that each assignment refers to.

use asn1_syntax::{
    Component, Constraint, Endpoint, Item, ItemKind, NamedNumber, ParsedModule, Presence, Range,
    Setting, TypeForm, TypeNode, Value, ValueForm,
};
use std::alloc::{AllocError, Global};

/// An assignment, and the names that it refers to.
#[derive(Drop)]
pub struct Used<'a> {
    /// The name of the type, value, object or object set that is assigned.
    pub name: Item<'a>,
    /// The names of types and values that the assignment refers to. If one of these types or values
    /// is left out, the assignment is left out, too. The list may also have other names.
    pub names: Vec<Item<'a>>,
    /// The names of objects and object sets that the assignment refers to. The assignment is kept
    /// even if some of these are left out.
    pub members: Vec<Item<'a>>,
}

/// The supported assignments of a module, in the order of the text, each with the names that it
/// refers to. If `are_types` is true, information objects and object sets are not included.
pub fn used_by<'a>(
    alloc: Global,
    parsed: &ParsedModule<'a>,
    are_types: bool,
) -> Result<Vec<Used<'a>>, AllocError> {
    let mut found = Vec::new(alloc);
    for assigned in parsed.types.iter() {
        let mut used = Used::new(alloc, assigned.name);
        used.add_types(parsed, assigned.first, assigned.of)?;
        found.push(used)?;
    }
    for assigned in parsed.values.iter() {
        let mut used = Used::new(alloc, assigned.name);
        used.add_types(parsed, assigned.first, assigned.of)?;
        used.add_value(&assigned.value)?;
        found.push(used)?;
    }
    if !are_types {
        add_members(alloc, parsed, &mut found)?;
    }
    found.sort_by_key(|used| used.name.offset)?;
    Ok(found)
}

// Adds the objects and the sets.
fn add_members<'a>(
    alloc: Global,
    parsed: &ParsedModule<'a>,
    found: &mut Vec<Used<'a>>,
) -> Result<(), AllocError> {
    for object in parsed.objects.iter() {
        let mut used = Used::new(alloc, object.name);
        if object.first < object.end {
            used.add_types(parsed, object.first, object.end - 1)?;
        }
        for field in object.fields.iter() {
            if let Setting::Value(value) = &field.setting {
                used.add_value(value)?;
            }
        }
        found.push(used)?;
    }
    for set in parsed.sets.iter() {
        let mut used = Used::new(alloc, set.name);
        for member in set.members.iter() {
            used.members.push(*member)?;
        }
        found.push(used)?;
    }
    Ok(())
}

impl<'a> Used<'a> {
    fn new(alloc: Global, name: Item<'a>) -> Self {
        Used {
            name,
            names: Vec::new(alloc),
            members: Vec::new(alloc),
        }
    }

    // Adds the names in the types from one index to the other.
    fn add_types(
        &mut self,
        parsed: &ParsedModule<'a>,
        first: usize,
        last: usize,
    ) -> Result<(), AllocError> {
        for index in first..=last {
            if let Some(node) = parsed.nodes.get(index) {
                self.add_type(parsed, node)?;
            }
        }
        Ok(())
    }

    fn add_type(
        &mut self,
        parsed: &ParsedModule<'a>,
        node: &TypeNode<'a>,
    ) -> Result<(), AllocError> {
        for constraint in node.constraints.iter() {
            match constraint {
                Constraint::Range(range) | Constraint::Size(range) => self.add_range(range)?,
                Constraint::Table(number) => self.add_table(parsed, *number)?,
                _ => {}
            }
        }
        match &node.form {
            TypeForm::Reference => self.names.push(node.item)?,
            TypeForm::Sequence(components) | TypeForm::Set(components) => {
                self.add_defaults(components)?;
            }
            TypeForm::Integer(numbers) | TypeForm::BitString(numbers) => {
                self.add_numbers(numbers)?;
            }
            TypeForm::Enumerated(numbers) => self.add_numbers(numbers)?,
            _ => {}
        }
        Ok(())
    }

    fn add_table(&mut self, parsed: &ParsedModule<'a>, number: usize) -> Result<(), AllocError> {
        if let Some(table) = parsed.tables.get(number) {
            for member in table.members.iter() {
                self.members.push(*member)?;
            }
        }
        Ok(())
    }

    fn add_defaults(&mut self, components: &Vec<Component<'a>>) -> Result<(), AllocError> {
        for component in components.iter() {
            if let Presence::Default(value) = &component.presence {
                self.add_value(value)?;
            }
        }
        Ok(())
    }

    fn add_numbers(&mut self, numbers: &Vec<NamedNumber<'a>>) -> Result<(), AllocError> {
        for named in numbers.iter() {
            if let Some(number) = named.number {
                self.add_endpoint(number)?;
            }
        }
        Ok(())
    }

    fn add_range(&mut self, range: &Range<'a>) -> Result<(), AllocError> {
        self.add_endpoint(range.low)?;
        self.add_endpoint(range.high)
    }

    fn add_endpoint(&mut self, endpoint: Endpoint<'a>) -> Result<(), AllocError> {
        match endpoint {
            Endpoint::Name(name) => {
                self.names.push(name)?;
                Ok(())
            }
            _ => Ok(()),
        }
    }

    fn add_value(&mut self, value: &Value<'a>) -> Result<(), AllocError> {
        if value.item.kind == ItemKind::LowerName {
            self.names.push(value.item)?;
        }
        if let ValueForm::Braces(items) = &value.form {
            for item in items.iter() {
                if item.kind == ItemKind::LowerName {
                    self.names.push(*item)?;
                }
            }
        }
        Ok(())
    }
}
