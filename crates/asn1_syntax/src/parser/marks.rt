//! Extension markers, versions and commas between components.

use super::{Parser, refused};
use crate::failure::Failure;
use crate::item::Item;
use crate::item_kind::ItemKind;

const VERSION: &str = "that these components come together is not checked";

impl<'a> Parser<'a> {
    /// Moves past an extension marker (`...`), and returns it. `marks` is the number of extension
    /// markers that the type has before it. Fails if `marks` is 2 or more. Also fails if the marker
    /// comes first in a CHOICE, which must begin with an alternative.
    pub(super) fn component_mark(
        &mut self,
        marks: usize,
        is_choice: bool,
        is_first: bool,
    ) -> Result<Item<'a>, Failure<'a>> {
        match (marks, is_choice) {
            (0, true) if is_first => Err(self.refusal(
                "an alternative in front of the extension mark",
            )),
            (0 | 1, _) => {
                let mark = self.next();
                if self.takes("!") {
                    self.value()?;
                }
                Ok(mark)
            }
            _ => Err(self.refusal("at most two extension marks")),
        }
    }

    /// Moves past the end of a component: past `]]` if brackets `[[` are open, and past the comma.
    /// There is no comma if the closing brace comes next. Fails if the comma is missing between two
    /// components, or if the closing brace follows a comma.
    pub(super) fn component_end(&mut self) -> Result<(), Failure<'a>> {
        if self.ends_version() {
            return match self.versions {
                0 => Ok(()),
                _ => Err(self.refusal("]]")),
            };
        }
        self.expect(",")?;
        if self.sees("}") {
            return Err(self.refusal("a component after the comma"));
        }
        Ok(())
    }

    /// Moves past `[[`, and past the version number after it if there is one (X.680, 25.1). Returns
    /// whether `[[` was there. Nothing happens outside the extension additions (if `are_additions`
    /// is false), or while other brackets `[[` are open. The components between `[[` and `]]` are
    /// read like all other additions.
    pub(super) fn takes_version(&mut self, are_additions: bool) -> Result<bool, Failure<'a>> {
        if !self.sees("[[") || !are_additions || self.versions > 0 {
            return Ok(false);
        }
        self.mark(VERSION)?;
        if self.peek().kind == ItemKind::Number && self.sees_second(":") {
            self.at = self.at.saturating_add(2);
        }
        self.versions = 1;
        Ok(true)
    }

    // Moves past `]]` if brackets are open; whether `}` is here then.
    fn ends_version(&mut self) -> bool {
        if self.versions > 0 && self.takes("]]") {
            self.versions = 0;
        }
        self.sees("}")
    }
}
