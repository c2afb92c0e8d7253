//! Paths that lead from an element to another element inside it.
ghost use Rattle.std.specs.Prelude.{◌≡◌, ◌↔◌, ◌+◌, ◌<◌, ◌≤◌, ℕ, length, IfSome, IfNone, IsTrue};
ghost use Rattle.schema_read.specs.Types.{types_in};
ghost use Rattle.schema_cursor.specs.Children.{IsFirstChild, IsNthChild};
ghost use Rattle.schema_cursor.specs.Cursor.{IsAt};
ghost use Rattle.schema_cursor.specs.Names.{IsNamed, IsNamedChild, IsField};

use crate::child::next_child;
use crate::cursor::Cursor;
use schema_types::NodeKind;

// How many levels of elements there are.
pub(crate) const LEVELS: usize = 64;

// A step of a path.
#[derive(Clone, Copy)]
enum Step<'a> {
    Name(&'a [u8]),
    Item(usize),
}

impl<'a> Cursor<'a> {
    /// The first element directly inside this element that has this name. `None` if there is none.
    pub fn field(self, name: &str) -> Option<Self>
        ensures some { IfSome result (λ c. IsAt self.entry c.index c
            × IsField (types_in self.entry.schema.now.octets.now) self.entry.entries.now
            self.entry.index name.now c.index) }
        ensures none { IfNone result ((k : ℕ)
            → IsNamedChild (types_in self.entry.schema.now.octets.now) self.entry.entries.now
            self.entry.index name.now k → ⊥) }
    {
        self.child_named(name.as_bytes())
    }

    // The same, where the name is octets.
    fn child_named(self, name: &[u8]) -> Option<Self>
        ensures some { IfSome result (λ c. IsAt self.entry c.index c
            × IsField (types_in self.entry.schema.now.octets.now) self.entry.entries.now
            self.entry.index name.now c.index) }
        ensures none { IfNone result ((k : ℕ)
            → IsNamedChild (types_in self.entry.schema.now.octets.now) self.entry.entries.now
            self.entry.index name.now k → ⊥) }
    {
        let mut from = self.index + 1;
        while let Some(index) = next_child(self.entries, self.index, from) {
            let child = self.moved(index);
            if child.is_named(name) {
                return Some(child);
            }
            from = index + 1;
        }
        None
    }

    fn is_named(self, name: &[u8]) -> bool
        ensures { IsTrue result ↔ IsNamed (types_in self.entry.schema.now.octets.now)
            self.entry.entries.now name.now self.entry.index }
    {
        match self.name() {
            Some(own) => is_same(own.as_bytes(), name),
            None => false,
        }
    }

    /// The element with the index `number` among the elements directly inside this element. Indices
    /// begin at 0. `None` if there are too few elements.
    pub fn item(self, number: usize) -> Option<Self>
        ensures some { IfSome result (λ c. IsAt self.entry c.index c × IsNthChild
            self.entry.entries.now self.entry.index number (self.entry.index + 1) c.index) }
        ensures none { IfNone result ((k : ℕ) → IsNthChild
            self.entry.entries.now self.entry.index number (self.entry.index + 1) k → ⊥) }
    {
        let mut from = self.index + 1;
        let mut left = number;
        while let Some(index) = next_child(self.entries, self.index, from) {
            if left == 0 {
                return Some(self.moved(index));
            }
            left -= 1;
            from = index + 1;
        }
        None
    }

    /// The value inside an EXPLICIT tag, or the encoded value that a string contains. Only a string
    /// in the primitive form can contain an encoded value. The elements inside a string in the
    /// constructed form are its segments. `None` if there is no value inside.
    pub fn inner(self) -> Option<Self>
        ensures { IfSome result (λ c. IsAt self.entry c.index c
            × IsFirstChild self.entry.entries.now self.entry.index (self.entry.index + 1) c.index) }
    {
        match self.kind() {
            Some(NodeKind::Explicit) => self.item(0),
            _ if self.is_constructed() => None,
            _ => self.item(0),
        }
    }

    /// Follows a path from this element to an element inside it, such as
    /// `tbsCertificate.extensions[2].extnValue.cA`. `None` if there is no element at the end of the
    /// path, or if the path is not valid.
    ///
    /// A path consists of names with full stops between them, and of indices of items in brackets.
    /// Indices begin at 0. EXPLICIT tags, and strings that contain an encoded value, need no step
    /// of their own. If a field is a CHOICE, the name of the alternative may follow the name of the
    /// field.
    pub fn at(self, path: &str) -> Option<Self>
        ensures { IfSome result (λ c. IsAt self.entry c.index c) }
    {
        let mut found = self;
        let mut rest = path.as_bytes();
        while !rest.is_empty() {
            let (step, after) = split_step(rest)?;
            found = found.follow(step)?;
            rest = after;
        }
        Some(found)
    }

    // Where a step leads to.
    fn follow(self, step: Step<'_>) -> Option<Self>
        ensures { IfSome result (λ c. IsAt self.entry c.index c) }
    {
        let mut found = self;
        for _ in 0..LEVELS {
            if let Some(next) = found.follow_here(step) {
                return Some(next);
            }
            found = found.inner()?;
        }
        None
    }

    // Where a step leads to, if it is not into a value inside.
    fn follow_here(self, step: Step<'_>) -> Option<Self>
        ensures { IfSome result (λ c. IsAt self.entry c.index c) }
    {
        match step {
            Step::Name(name) => {
                if self.has_alternative(name) {
                    return Some(self);
                }
                self.child_named(name)
            }
            Step::Item(number) => match self.inner() {
                Some(_) => None,
                None => self.item(number),
            },
        }
    }

    // Whether it is the alternative with this name, of a field.
    fn has_alternative(self, name: &[u8]) -> bool {
        match self.alternative() {
            Some(own) => is_same(own.as_bytes(), name),
            None => false,
        }
    }
}

fn is_same(a: &[u8], b: &[u8]) -> bool
    ensures { IsTrue result ↔ (a.now ≡ b.now) }
{
    a == b
}

// The first step of a path, and the rest.
fn split_step(path: &[u8]) -> Option<(Step<'_>, &[u8])>
    ensures { IfSome result (λ r. length r.1.now < length path.now) }
{
    match path {
        [b'[', rest @ ..] => {
            let end = end_of(rest, b']', b']');
            if end == rest.len() {
                return None;
            }
            let digits = std::str::from_utf8(&rest[..end]).ok()?;
            Some((Step::Item(digits.parse().ok()?), &rest[end + 1..]))
        }
        [b'.', rest @ ..] => split_name(rest),
        _ => split_name(path),
    }
}

// The name at the start of a path, and the rest.
fn split_name(path: &[u8]) -> Option<(Step<'_>, &[u8])>
    ensures { IfSome result (λ r. length r.1.now < length path.now) }
{
    let end = end_of(path, b'.', b'[');
    if end == 0 {
        return None;
    }
    Some((Step::Name(&path[..end]), &path[end..]))
}

// The place of the first of two octets, or the end.
fn end_of(octets: &[u8], one: u8, other: u8) -> usize
    ensures { result ≤ length octets.now }
{
    for (place, octet) in octets.iter().enumerate() {
        if *octet == one || *octet == other {
            return place;
        }
    }
    octets.len()
}
