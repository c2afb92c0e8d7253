//! Tag numbers that components get from AUTOMATIC TAGS.

use super::{Parser, refused};
use crate::component::Component;
use crate::failure::Failure;
use crate::tagging::TagDefault;

const TAGGED_ADDITION: &str =
    "an addition without a tag, since the components in front of it have none";

impl<'a> Parser<'a> {
    /// Sets the `number` of each component, which is the number of its automatic tag. The
    /// components are numbered if the module has AUTOMATIC TAGS and no component of the extension
    /// root is written with a tag (X.680, 25.2 and 25.7). The components of the extension root get
    /// the first numbers, and the extension additions get the numbers after these. Otherwise each
    /// `number` is set to `None`.
    ///
    /// Fails if the components are numbered and an extension addition is written with a tag.
    pub(super) fn number_components(
        &self,
        components: &mut Vec<Component<'a>>,
    ) -> Result<(), Failure<'a>> {
        let mut is_numbered = self.module_tags() == TagDefault::Automatic;
        for component in components.iter() {
            is_numbered = is_numbered && (component.number.is_some() || component.is_addition);
        }
        let mut roots = 0usize;
        for component in components.iter() {
            if !component.is_addition {
                roots = roots.saturating_add(1);
            } else if is_numbered && component.number.is_none() {
                return Err(refused(component.name, TAGGED_ADDITION));
            }
        }
        let (mut root, mut addition) = (0usize, roots);
        for component in components.iter_mut() {
            let number = if component.is_addition {
                addition
            } else {
                root
            };
            component.number = if is_numbered { Some(number) } else { None };
            if component.is_addition {
                addition = addition.saturating_add(1);
            } else {
                root = root.saturating_add(1);
            }
        }
        Ok(())
    }

    /// Whether the module that the parser reads now has explicit, implicit or automatic tags.
    pub(super) fn module_tags(&self) -> TagDefault {
        let Some(frame) = self.frames.get(self.frame) else {
            return TagDefault::Explicit;
        };
        match self.modules.get(frame.module) {
            Some(outline) => outline.tags,
            None => TagDefault::Explicit,
        }
    }
}

/// The `number` of a component until [`Parser::number_components`] sets it: `None` if the component
/// is written with a tag, otherwise 0.
pub(super) fn written_number(is_tagged: bool) -> Option<usize> {
    if is_tagged { None } else { Some(0) }
}

/// Makes components count as written without tags. They come from a type that another type includes
/// by COMPONENTS OF. So the other type can number them as its own.
pub(super) fn unnumber(components: &mut Vec<Component<'_>>) {
    for component in components.iter_mut() {
        component.number = written_number(false);
    }
}
