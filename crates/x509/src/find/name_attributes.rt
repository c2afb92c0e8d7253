//! The attributes of a name, one after the other.
ghost use Rattle.std.specs.Prelude.{◌≡◌, ◌+◌, [], length};
ghost use Rattle.std.specs.Iterator.{at_most};
ghost use Rattle.der.specs.Prelude.{rest_of, slice_state};
ghost use Rattle.x509.specs.Names.{GivesAttribute, HasLeft};

use crate::asn1::{AttributeTypeAndValue, Name, RelativeDistinguishedName};
use der_asn1::{Item, Iter, SetOf};
use std::alloc::Global;

/// An iterator over the attributes of all RelativeDistinguishedNames of a name, in the order of the
/// encoding. `next` returns `None` only after the last attribute. Nothing is allocated.
#[derive(Drop)]
pub struct NameAttributes<'a> {
    // the attributes that are left of a level, and the levels after it
    level: Iter<'a, AttributeTypeAndValue<'a>>,
    levels: Iter<'a, RelativeDistinguishedName<'a>>,
    alloc: Global,
}

impl<'a> Name<'a> {
    /// An iterator over the attributes of all RelativeDistinguishedNames of the name, in the order
    /// of the encoding. To find the attributes of one type, compare the field `oid` of each
    /// attribute.
    pub fn attributes(&self, alloc: Global) -> NameAttributes<'a>
        ensures level { rest_of (slice_state result.level.items.reader) ≡ [] }
        ensures levels { rest_of (slice_state result.levels.items.reader)
            ≡ self.now.levels.octets.now }
    {
        let none = SetOf::<AttributeTypeAndValue<'a>>::empty();
        NameAttributes {
            level: none.iter(alloc),
            levels: self.levels.iter(alloc),
            alloc,
        }
    }
}

impl<'a> Iterator for NameAttributes<'a> {
    type Item = AttributeTypeAndValue<'a>;

    ghost next_gives = { λ before result after. GivesAttribute
        (HasLeft ⟦<AttributeTypeAndValue<'a> as Item>⟧.item.valid
        ⟦<AttributeTypeAndValue<'a> as Item>⟧.item.octets
        ⟦<RelativeDistinguishedName<'a> as Item>⟧.item.valid
        ⟦<RelativeDistinguishedName<'a> as Item>⟧.item.octets)
        (rest_of (slice_state before.level.items.reader))
        (rest_of (slice_state before.levels.items.reader)) result
        (rest_of (slice_state after.level.items.reader))
        (rest_of (slice_state after.levels.items.reader)) };

    ghost remaining = { λ i. at_most (length (rest_of (slice_state i.level.items.reader))
        + length (rest_of (slice_state i.levels.items.reader))) };

    fn next(&mut self) -> Option<AttributeTypeAndValue<'a>> {
        'levels: loop {
            match self.level.next() {
                Some(attribute) => return Some(attribute),
                None => match self.levels.next() {
                    Some(level) => self.level = level.attributes.iter(self.alloc),
                    None => return None,
                },
            }
        }
    }
}
