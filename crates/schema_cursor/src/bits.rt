//! The names of bits.
ghost use Rattle.std.specs.Prelude.{◌-◌};
ghost use Rattle.std.specs.Iterator.{at_most};

use crate::rows::{bit_names, name_at};
use der_asn1::BitStringRef;
use schema_types::{Node, Schema};

/// An iterator over the names of those bits of a BIT STRING that are one. The names come in the
/// order of the table of types.
#[derive(Clone, Copy)]
pub struct BitNames<'a> {
    schema: &'a Schema<'a>,
    bits: &'a [u8],
    next: u32,
    end: u32,
}

impl<'a> BitNames<'a> {
    pub(crate) fn new(schema: &'a Schema<'a>, node: Node, bits: BitStringRef<'a>) -> Self {
        let names = bit_names(node);
        BitNames {
            schema,
            bits: bits.octets(),
            next: names.start,
            end: names.start.saturating_add(names.count),
        }
    }
}

impl<'a> Iterator for BitNames<'a> {
    type Item = &'a str;

    ghost remaining = { λ s. at_most (s.end - s.next) };

    fn next(&mut self) -> Option<&'a str> {
        while self.next < self.end {
            let at = self.next;
            self.next = at + 1;
            let (number, name) = name_at(self.schema, at)?;
            if has_bit(self.bits, number) {
                return Some(name);
            }
        }
        None
    }
}

// Whether a bit of the contents of a BIT STRING is one.
fn has_bit(contents: &[u8], number: i64) -> bool {
    if number < 0 {
        return false;
    }
    let place = number as usize;
    match contents.get(1 + place / 8) {
        Some(octet) => *octet >> (7 - place % 8) & 1 == 1,
        None => false,
    }
}
