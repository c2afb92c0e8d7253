//! Finds which types other types are made of.

use super::names::find_type;
use crate::bounds::contained;
use crate::module::Module;
use asn1_syntax::{Component, TypeForm, TypeNode};
use std::alloc::{AllocError, Global};

/// Helps to put types in an order in which each type comes after the types that it is made of. It
/// keeps which types each type is made of, and how many of these are not in the order yet.
#[derive(Drop)]
pub struct Parts {
    // The number of parts of each type that are not in the order, by index.
    missing: Vec<usize>,
    // The types of which each type is a part, as often as it is one, by index.
    wholes: Vec<Vec<usize>>,
}

impl Parts {
    /// Finds what each type of a module is made of. The order that this helps to make is empty at
    /// first: it has no type yet.
    pub fn of(alloc: Global, module: &Module<'_>) -> Result<Self, AllocError> {
        let mut parts = Parts {
            missing: vec![in alloc; 0usize; module.nodes.len()]?,
            wholes: Vec::new(alloc),
        };
        for _ in 0..module.nodes.len() {
            parts.wholes.push(Vec::new(alloc))?;
        }
        for (index, node) in module.nodes.iter().enumerate() {
            parts.add_node(module, index, node)?;
        }
        Ok(parts)
    }

    // Adds the parts of one type.
    fn add_node(
        &mut self,
        module: &Module<'_>,
        index: usize,
        node: &TypeNode<'_>,
    ) -> Result<(), AllocError> {
        if let Some(of) = contained(node) {
            self.add(index, of)?;
        }
        match &node.form {
            TypeForm::Reference => match find_type(module, node.item.text) {
                Some(of) => self.add(index, of),
                None => Ok(()),
            },
            TypeForm::Sequence(components)
            | TypeForm::Set(components)
            | TypeForm::Choice(components) => self.add_components(index, components),
            TypeForm::SequenceOf(of) | TypeForm::SetOf(of) | TypeForm::Tagged(_, of) => {
                self.add(index, *of)
            }
            _ => Ok(()),
        }
    }

    fn add_components(
        &mut self,
        index: usize,
        components: &Vec<Component<'_>>,
    ) -> Result<(), AllocError> {
        for component in components.iter() {
            self.add(index, component.of)?;
        }
        Ok(())
    }

    // Adds a part of the type with this index.
    fn add(&mut self, index: usize, part: usize) -> Result<(), AllocError> {
        if let (Some(missing), Some(wholes)) = (
            self.missing.get_mut(index),
            self.wholes.get_mut(part),
        ) {
            *missing = missing.saturating_add(1);
            wholes.push(index)?;
        }
        Ok(())
    }

    /// The indices of the types that are not made of other types. They can be first in the order.
    pub fn without_parts(&self, alloc: Global) -> Result<Vec<usize>, AllocError> {
        let mut found = Vec::new(alloc);
        for (index, missing) in self.missing.iter().enumerate() {
            if *missing == 0 {
                found.push(index)?;
            }
        }
        Ok(found)
    }

    /// Tells that the type with this index is in the order, and appends to `order` the types that
    /// can come next. A type can come next if all types that it is made of are in the order, and
    /// this type is the last of them.
    pub fn add_complete(&mut self, index: usize, order: &mut Vec<usize>) -> Result<(), AllocError> {
        let Some(wholes) = self.wholes.get(index) else {
            return Ok(());
        };
        for whole in wholes.iter() {
            if let Some(missing) = self.missing.get_mut(*whole) {
                *missing = missing.saturating_sub(1);
                if *missing == 0 {
                    order.push(*whole)?;
                }
            }
        }
        Ok(())
    }
}
