//! The names and the types of elements.
ghost use Rattle.std.specs.Prelude.{◌≡◌, ℕ, List, Some, None, IfSome, IfNone, slice_get};
ghost use Rattle.schema_types.specs.Node.{IsNode};
ghost use Rattle.schema_read.specs.Types.{types_in};
ghost use Rattle.schema_cursor.specs.Names.{field_name, type_name, IsNamed};

use crate::cursor::Cursor;
use crate::rows;
use schema_types::{Node, NodeKind};

impl<'a> Cursor<'a> {
    /// The name of the element: its name as a component or, if it is not a component, as an
    /// alternative of a CHOICE. `None` if it is neither of them.
    pub fn name(self) -> Option<&'a str>
        ensures some { IfSome result (λ s. IsNamed (types_in self.entry.schema.now.octets.now)
            self.entry.entries.now s.now self.entry.index) }
        ensures none { IfNone result ((s : List ℕ) → IsNamed
            (types_in self.entry.schema.now.octets.now) self.entry.entries.now s self.entry.index → ⊥) }
    {
        let entry = self.entry();
        match rows::field_name(self.schema, entry.field) {
            Some(name) => Some(name),
            None => rows::field_name(self.schema, entry.alternative),
        }
    }

    /// The name of the alternative, if the element is an alternative of a CHOICE; otherwise `None`.
    pub fn alternative(self) -> Option<&'a str>
        ensures some { IfSome result (λ s. IfSome (slice_get self.entry.entries.now self.entry.index)
            (λ e. field_name (types_in self.entry.schema.now.octets.now) e.alternative ≡ Some s.now)) }
        ensures none { IfNone result (IfSome (slice_get self.entry.entries.now self.entry.index)
            (λ e. field_name (types_in self.entry.schema.now.octets.now) e.alternative ≡ None)) }
    {
        rows::field_name(self.schema, self.entry().alternative)
    }

    /// The type of the element, as a node of the table. `None` if the table has no type for the
    /// element. This is the case inside a value whose type is not known, and for an unexpected
    /// element.
    pub fn node(self) -> Option<Node>
        ensures row { IfSome (slice_get self.entry.entries.now self.entry.index) (λ e.
            slice_get (types_in self.entry.schema.now.octets.now).nodes e.kind ≡ result) }
        ensures fits { IfSome result
            (IsNode self.entry.schema.now.counts self.entry.schema.now.pool.now) }
    {
        rows::node_at(self.schema, self.entry().kind)
    }

    /// What kind of type the element has. `None` if the table has no type for the element.
    pub fn kind(self) -> Option<NodeKind> {
        match self.node() {
            Some(node) => Some(node.kind),
            None => None,
        }
    }

    /// The name of the type of the element. Empty if the type has no name. `None` if the table has
    /// no type for the element.
    pub fn type_name(self) -> Option<&'a str>
        ensures some { IfSome result (λ s. IfSome (slice_get self.entry.entries.now self.entry.index)
            (λ e. type_name (types_in self.entry.schema.now.octets.now) e.kind ≡ Some s.now)) }
        ensures none { IfNone result (IfSome (slice_get self.entry.entries.now self.entry.index)
            (λ e. type_name (types_in self.entry.schema.now.octets.now) e.kind ≡ None)) }
    {
        rows::type_name(self.schema, self.entry().kind)
    }
}
