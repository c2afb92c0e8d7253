//! Types.

use super::numbering::{unnumber, written_number};
use super::places::Back;
use super::{Parser, refused, unsupported};
use crate::component::{Component, Presence};
use crate::constraint::Constraint;
use crate::failure::Failure;
use crate::item::Item;
use crate::item_kind::ItemKind;
use crate::simple_type::SimpleType;
use crate::tag::{Tag, TagPrefix};
use crate::tag_class::TagClass;
use crate::tagging::{TagDefault, Tagging};
use crate::type_node::{Mark, TypeForm, TypeNode};
use std::alloc::AllocError;

const NO_STRUCTURE: &str = "a SEQUENCE or a SET of a module that is given";

impl<'a> Parser<'a> {
    /// Parses a type, and returns its index among the `nodes`. Fails if more than `depth` types are
    /// nested in one another; the type itself counts.
    #[cycle(types)]
    pub(super) fn type_at(&mut self, depth: u32) -> Result<usize, Failure<'a>> {
        let item = self.next();
        if depth == 0 {
            return Err(self.too_deep(item));
        }
        let mut constraints = Vec::new(self.alloc);
        if let Some(back) = self.expand(item)? {
            let of = self.type_at(depth - 1)?;
            self.come_back(back);
            self.constraint_after(&mut constraints, depth - 1)?;
            self.add_constraints(of, constraints)?;
            return Ok(of);
        }
        let mut mark = None;
        let form = self.form(item, &mut constraints, &mut mark, depth - 1)?;
        self.constraint_after(&mut constraints, depth - 1)?;
        let item = self.name_of(item, &form)?;
        self.add(TypeNode {
            item,
            form,
            constraints,
            mark,
        })
    }

    // The failure of a type that has too many around it, or leads back to itself by what is in the
    // place of names.
    fn too_deep(&self, item: Item<'a>) -> Failure<'a> {
        let expected = "at most 63 types around a type";
        if self.frame < self.modules.len() {
            return refused(item, expected);
        }
        unsupported(item, expected)
    }

    // The first item of a type that is made so; the name that no other module has, if it is a name.
    fn name_of(&mut self, item: Item<'a>, form: &TypeForm<'a>) -> Result<Item<'a>, Failure<'a>> {
        if !matches!(form, TypeForm::Reference) {
            return Ok(item);
        }
        if self.find(item.text).is_none() {
            self.import(item)?;
        }
        self.own_name(item)
    }

    // Parses how a type is made. The size of a list, which is in front of its items, goes to
    // `constraints`, and the extension mark to `mark`.
    #[cycle(types)]
    fn form(
        &mut self,
        item: Item<'a>,
        constraints: &mut Vec<Constraint<'a>>,
        mark: &mut Option<Mark<'a>>,
        depth: u32,
    ) -> Result<TypeForm<'a>, Failure<'a>> {
        match item.text {
            "[" => {
                let prefix = self.tag_prefix()?;
                Ok(TypeForm::Tagged(prefix, self.type_at(depth)?))
            }
            "CHOICE" => Ok(TypeForm::Choice(self.components(true, mark, depth)?)),
            "SET" if self.sees("{") => Ok(TypeForm::Set(self.components(false, mark, depth)?)),
            "SET" => Ok(TypeForm::SetOf(self.list_of(constraints, depth)?)),
            "SEQUENCE" if self.takes_unread() => Ok(TypeForm::Simple(SimpleType::Unread)),
            "SEQUENCE" if self.sees("{") => {
                Ok(TypeForm::Sequence(self.components(false, mark, depth)?))
            }
            "SEQUENCE" => Ok(TypeForm::SequenceOf(self.list_of(constraints, depth)?)),
            _ => self.leaf(item, mark),
        }
    }

    // Whether `{ ... }` is here: a SEQUENCE of which no component is known. If so, moves past it.
    fn takes_unread(&mut self) -> bool {
        let at = self.at;
        let is_unread = self.has_at(at, "{")
            && self.has_at(at.saturating_add(1), "...")
            && self.has_at(at.saturating_add(2), "}");
        if is_unread {
            self.at = at.saturating_add(3);
        }
        is_unread
    }

    // Parses what follows `SEQUENCE` or `SET` of a list: a size, `OF`, and the type of the items.
    #[cycle(types)]
    fn list_of(
        &mut self,
        constraints: &mut Vec<Constraint<'a>>,
        depth: u32,
    ) -> Result<usize, Failure<'a>> {
        if let Some(size) = self.list_size()? {
            constraints.push(size)?;
        }
        self.expect("OF")?;
        if self.peek().kind == ItemKind::LowerName && !self.sees_second("<") {
            self.at = self.at.saturating_add(1);
        }
        self.type_at(depth)
    }

    // Parses the size of a list, if there is one.
    fn list_size(&mut self) -> Result<Option<Constraint<'a>>, Failure<'a>> {
        if self.sees("SIZE") {
            return Ok(Some(self.constraint()?));
        }
        if !self.takes("(") {
            return Ok(None);
        }
        let size = self.constraint()?;
        self.expect(")")?;
        Ok(Some(size))
    }

    // Parses components or alternatives in braces.
    #[cycle(types)]
    fn components(
        &mut self,
        is_choice: bool,
        mark: &mut Option<Mark<'a>>,
        depth: u32,
    ) -> Result<Vec<Component<'a>>, Failure<'a>> {
        self.expect("{")?;
        let start = self.defined_by.len();
        let versions = self.versions;
        self.versions = 0;
        let mut components = Vec::new(self.alloc);
        let mut marks = Vec::new(self.alloc);
        for _ in 0..self.items.len() {
            if self.takes("}") {
                break;
            }
            if self.takes_version(marks.len() == 1)? {
                continue;
            }
            if self.sees("COMPONENTS") && !is_choice {
                self.components_of(&mut components, depth)?;
            } else if self.sees("...") {
                let insertion = components.len();
                let item = self.component_mark(marks.len(), is_choice, insertion == 0)?;
                marks.push(Mark { item, insertion })?;
            } else if is_choice && marks.len() == 2 {
                return Err(self.refusal("}"));
            } else {
                components.push(self.component(is_choice, marks.len() == 1, depth)?)?;
            }
            self.component_end()?;
        }
        self.versions = versions;
        self.number_components(&mut components)?;
        *mark = mark_of(&marks, components.len());
        if !is_choice {
            self.check_defined_by(start, &components)?;
        }
        Ok(components)
    }

    // Checks that each name after `DEFINED BY`, from this index on, is that of a component.
    fn check_defined_by(
        &mut self,
        start: usize,
        components: &Vec<Component<'a>>,
    ) -> Result<(), Failure<'a>> {
        for name in self.defined_by.iter().skip(start) {
            if !has_component(components, name.text) {
                return Err(refused(*name, "the name of a component of this SEQUENCE"));
            }
        }
        self.defined_by.truncate(start);
        Ok(())
    }

    #[cycle(types)]
    fn component(
        &mut self,
        is_choice: bool,
        is_addition: bool,
        depth: u32,
    ) -> Result<Component<'a>, Failure<'a>> {
        let name = self.expect_kind(ItemKind::LowerName, "the name of a component")?;
        let is_tagged = self.sees("[");
        let of = self.type_at(depth)?;
        let presence = if is_choice {
            Presence::Required
        } else {
            self.presence(is_addition)?
        };
        Ok(Component {
            name,
            of,
            presence,
            is_addition,
            number: written_number(is_tagged),
        })
    }

    // Parses COMPONENTS OF a type, and adds the components of that, but for additions (X.680, 25.5).
    #[cycle(types)]
    fn components_of(
        &mut self,
        components: &mut Vec<Component<'a>>,
        depth: u32,
    ) -> Result<(), Failure<'a>> {
        let Some(back) = self.to_components()? else {
            return Err(unsupported(self.peek(), NO_STRUCTURE));
        };
        if depth == 0 {
            return Err(unsupported(self.peek(), NO_STRUCTURE));
        }
        let mut mark = None;
        let mut more = self.components(false, &mut mark, depth - 1)?;
        unnumber(&mut more);
        self.come_back(back);
        let at = self.at;
        if self.sees("(") {
            self.at = self.end_of_group(at);
        }
        Ok(add_roots(components, more)?)
    }

    // Moves to the components of the type after COMPONENTS OF, if its module is given.
    fn to_components(&mut self) -> Result<Option<Back>, Failure<'a>> {
        self.at = self.at.saturating_add(1);
        self.expect("OF")?;
        let name = self.peek();
        let Some(place) = self.structure(name) else {
            return Ok(None);
        };
        self.at = self.at.saturating_add(1);
        self.count_expansion(name)?;
        Ok(Some(self.go(place, name, Vec::new(self.alloc))?))
    }

    // Parses whether a component may be absent, as any addition may: senders that know a former
    // version of the module have none.
    fn presence(&mut self, is_addition: bool) -> Result<Presence<'a>, Failure<'a>> {
        if self.takes("OPTIONAL") {
            return Ok(Presence::Optional);
        }
        if self.takes("DEFAULT") {
            return Ok(Presence::Default(self.value()?));
        }
        if is_addition {
            return Ok(Presence::Optional);
        }
        Ok(Presence::Required)
    }

    // Parses the constraints after a type.
    #[cycle(types)]
    fn constraint_after(
        &mut self,
        constraints: &mut Vec<Constraint<'a>>,
        depth: u32,
    ) -> Result<(), Failure<'a>> {
        let field = self.field.take();
        for _ in 0..self.items.len() {
            if !self.takes("(") {
                break;
            }
            if self.takes("CONTAINING") {
                constraints.push(Constraint::Containing(self.type_at(depth)?))?;
                self.encoded_by()?;
            } else if let Some(table) = self.table(field)? {
                constraints.push(table)?;
            } else {
                constraints.push(self.constraint()?)?;
            }
            self.pass_exception();
            self.expect(")")?;
        }
        Ok(())
    }

    fn add(&mut self, node: TypeNode<'a>) -> Result<usize, Failure<'a>> {
        let index = self.nodes.len();
        self.nodes.push(node)?;
        Ok(index)
    }

    // Parses a tag after `[`.
    fn tag_prefix(&mut self) -> Result<TagPrefix, Failure<'a>> {
        let class = if self.takes("APPLICATION") {
            TagClass::Application
        } else if self.takes("PRIVATE") {
            TagClass::Private
        } else if self.takes("UNIVERSAL") {
            TagClass::Universal
        } else {
            TagClass::ContextSpecific
        };
        let number = self.tag_number()?;
        self.expect("]")?;
        let tagging = if self.takes("EXPLICIT") {
            Some(Tagging::Explicit)
        } else if self.takes("IMPLICIT") {
            Some(Tagging::Implicit)
        } else if self.module_tags() == TagDefault::Explicit {
            Some(Tagging::Explicit)
        } else {
            None
        };
        Ok(TagPrefix {
            tag: Tag { class, number },
            tagging,
        })
    }
}

// Adds the components that are no additions.
fn add_roots<'a>(
    components: &mut Vec<Component<'a>>,
    more: Vec<Component<'a>>,
) -> Result<(), AllocError> {
    for component in more.into_iter() {
        if !component.is_addition {
            components.push(component)?;
        }
    }
    Ok(())
}

// Whether one of these components has this name.
fn has_component(components: &Vec<Component<'_>>, name: &str) -> bool {
    for component in components.iter() {
        if component.name.text == name {
            return true;
        }
    }
    false
}

// The first one of these marks, with the place in front of the second one, or after all components.
fn mark_of<'a>(marks: &Vec<Mark<'a>>, count: usize) -> Option<Mark<'a>> {
    let first = marks.first()?;
    let insertion = match marks.get(1) {
        Some(second) => second.insertion,
        None => count,
    };
    Some(Mark {
        item: first.item,
        insertion,
    })
}
