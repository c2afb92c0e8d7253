//! Assignments.

use super::{MAX_DEPTH, Parser, refused, unsupported};
use crate::constraint::Constraint;
use crate::failure::Failure;
use crate::item::Item;
use crate::item_kind::ItemKind;
use crate::left_out::LeftOut;
use crate::module::{ParsedModule, TypeAssignment, ValueAssignment};
use crate::octet_class::is_lower;
use crate::reserved::is_reserved;
use crate::simple_type::SimpleType;
use crate::type_node::TypeForm;

const NO_MACRO: &str = "no notation of a macro, which is not read";

impl<'a> Parser<'a> {
    /// Parses the assignments of one module, up to and with its `END`, and adds them to `module`.
    /// `number` is the index of the module in the text, from 0. After the first module, another
    /// module or the end of the text must come next; otherwise this fails.
    pub(super) fn assignments_of(
        &mut self,
        number: usize,
        module: &mut ParsedModule<'a>,
    ) -> Result<(), Failure<'a>> {
        if let Some(outline) = self.modules.get(number) {
            self.at = outline.start;
        }
        for _ in 0..self.items.len() {
            if self.peek().kind == ItemKind::End && number > 0 || self.takes("END") {
                break;
            }
            self.supported_assignment(number, module)?;
        }
        if number > 0 || self.begins_module() {
            return Ok(());
        }
        self.expect_end()
    }

    // Parses an assignment. It is left out if it is not supported, or wrong in another module than the
    // first one.
    fn supported_assignment(
        &mut self,
        number: usize,
        module: &mut ParsedModule<'a>,
    ) -> Result<(), Failure<'a>> {
        let (start, nodes) = (self.at, self.nodes.len());
        let (warnings, objects) = (self.warnings.len(), self.objects.len());
        self.frame = number;
        self.expansions = 0;
        let name = self.next();
        let refusal = match self.assignment(number, name, module) {
            Err(Failure::Unsupported(refusal)) => refusal,
            Err(Failure::Refused(refusal)) if number > 0 => refusal,
            parsed => return parsed,
        };
        self.nodes.truncate(nodes);
        self.warnings.truncate(warnings);
        self.objects.truncate(objects);
        self.defined_by.truncate(0);
        self.frames.truncate(self.modules.len());
        self.frame = number;
        self.versions = 0;
        self.field = None;
        self.field_type = None;
        if let Ok(name) = self.name_in(number, name) {
            module.left_out.push(LeftOut { name, refusal })?;
        }
        self.to_next_assignment(start);
        Ok(())
    }

    /// Parses what follows the `name` of an assignment. Classes, macros and assignments with
    /// parameters are skipped here, since the parser reads them where they are used.
    fn assignment(
        &mut self,
        number: usize,
        name: Item<'a>,
        module: &mut ParsedModule<'a>,
    ) -> Result<(), Failure<'a>> {
        if !matches!(name.kind, ItemKind::UpperName | ItemKind::LowerName) {
            return Err(refused(name, "an assignment or END"));
        }
        let is_type = name.kind == ItemKind::UpperName;
        if is_type && is_reserved(name.text) {
            return Err(refused(name, "an assignment or END"));
        }
        if is_type && SimpleType::of(name.text).is_some() {
            return Err(unsupported(name, "a name that no type of the notation has"));
        }
        if self.peek().is_one_of(&["{", "MACRO"]) || is_type && self.is_class() {
            self.to_next_assignment(self.at.saturating_sub(1));
            module.passed.add(name.text, number)?;
            return Ok(());
        }
        let name = self.name_in(number, name)?;
        if !is_type {
            return self.value_or_object(name, module);
        }
        let first = self.nodes.len();
        let of = if self.sees("::=") {
            self.at = self.at.saturating_add(1);
            let of = self.whole_type()?;
            self.check_macro(number, of)?;
            of
        } else if self.is_set_assignment() {
            match self.set_assigned(name, module)? {
                Some(of) => of,
                None => return Ok(()),
            }
        } else {
            return Err(self.refusal("::="));
        };
        module.types.push(TypeAssignment { name, of, first })?;
        Ok(())
    }

    // Checks that no notation of a macro is after a type (X.208, Annex A): no assignment begins
    // there.
    fn check_macro(&self, number: usize, of: usize) -> Result<(), Failure<'a>> {
        let item = self.peek();
        let is_next = match self.modules.get(number) {
            Some(outline) => outline.definitions.find(item.text).is_some(),
            None => true,
        };
        if is_next || item.is("END") || !self.is_macro(of) {
            return Ok(());
        }
        Err(unsupported(item, NO_MACRO))
    }

    // Whether this type is a name in capitals, as that of a macro.
    fn is_macro(&self, of: usize) -> bool {
        match self.nodes.get(of) {
            Some(node) => {
                matches!(node.form, TypeForm::Reference) && is_in_capitals(node.item.text)
            }
            None => false,
        }
    }

    fn expect_end(&mut self) -> Result<(), Failure<'a>> {
        match self.peek().kind {
            ItemKind::End => Ok(()),
            _ => Err(self.refusal("the end of the file")),
        }
    }

    // Parses a type that no other type is around.
    fn whole_type(&mut self) -> Result<usize, Failure<'a>> {
        let of = self.type_at(MAX_DEPTH)?;
        match self.defined_by.first() {
            Some(name) => Err(refused(*name, "the name of a component of a SEQUENCE around it")),
            None => Ok(of),
        }
    }

    // Parses what follows the name of a value, or of an object.
    fn value_or_object(
        &mut self,
        name: Item<'a>,
        module: &mut ParsedModule<'a>,
    ) -> Result<(), Failure<'a>> {
        if let Some(class) = self.class_named(self.peek()) {
            self.at = self.at.saturating_add(1);
            self.expect("::=")?;
            module.passed.add(name.text, 0)?;
            return self.object(name, class);
        }
        let first = self.nodes.len();
        let of = self.whole_type()?;
        if !self.sees("::=") && self.is_macro(of) {
            return Err(unsupported(name, NO_MACRO));
        }
        self.expect("::=")?;
        let value = self.value()?;
        module.values.push(ValueAssignment {
            name,
            of,
            first,
            value,
        })?;
        Ok(())
    }

    // Parses what follows the name of a set, and returns the type if it is a set of values, which are
    // not read.
    fn set_assigned(
        &mut self,
        name: Item<'a>,
        module: &mut ParsedModule<'a>,
    ) -> Result<Option<usize>, Failure<'a>> {
        if let Some(class) = self.class_named(self.peek()) {
            self.at = self.at.saturating_add(1);
            self.expect("::=")?;
            let set = self.object_set(name, class)?;
            module.sets.push(set)?;
            module.passed.add(name.text, 0)?;
            return Ok(None);
        }
        let of = self.whole_type()?;
        self.expect("::=")?;
        let constraint = Constraint::Unread(self.peek());
        self.braces()?;
        self.add_constraints(of, vec![in self.alloc; constraint]?)?;
        Ok(Some(of))
    }
}

// Whether no letter of a name is a small one.
fn is_in_capitals(name: &str) -> bool {
    for octet in name.as_bytes() {
        if is_lower(*octet) {
            return false;
        }
    }
    true
}
