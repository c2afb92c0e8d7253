//! Reads elements that follow one another.
ghost use Rattle.std.specs.Iterator.{at_most};

use crate::text::element::Element;
use der::{EncodingRules, Error, Tag};

/// A reader of elements that follow one another.
#[derive(Clone, Copy)]
pub struct Elements<'a> {
    /// The octets that are not read yet, from the next element on.
    pub rest: &'a [u8],
    /// The position of the next element, in octets from the start of the input.
    pub at: u32,
    /// The encoding rules by which elements are read.
    pub rules: EncodingRules,
    // At least how many elements can be left.
    left: usize,
}

impl<'a> Elements<'a> {
    /// Creates a reader of the elements in `octets`. `at` is the position of the first octet in the
    /// input.
    pub fn new(octets: &'a [u8], at: u32, rules: EncodingRules) -> Self {
        Elements {
            rest: octets,
            at,
            rules,
            left: octets.len(),
        }
    }

    /// Creates a reader of the elements in the contents of `element`.
    pub fn inside(element: &Element<'a>, rules: EncodingRules) -> Self {
        Elements::new(element.contents, element.contents_start, rules)
    }

    /// Whether all octets are read.
    pub fn is_finished(&self) -> bool {
        self.rest.is_empty()
    }

    /// Reads the next element, and moves past it. At an error, the reader stays where it is.
    pub fn read(&mut self) -> Result<Element<'a>, Error> {
        let element = Element::read(self.rest, self.at, self.rules)?;
        self.rest = self.rest.get(element.octets.len()..).unwrap_or(&[]);
        self.at = element.end();
        Ok(element)
    }

    /// Returns the next element, and moves past it. Returns `None` if no octets are left. If the
    /// next element cannot be read, moves to the end of the octets and returns `None`.
    pub fn take_first(&mut self) -> Option<Element<'a>> {
        if self.rest.is_empty() {
            return None;
        }
        match self.read() {
            Ok(element) => Some(element),
            Err(_) => {
                self.rest = &[];
                None
            }
        }
    }

    /// If the next element has this tag, returns the element and moves past it. Otherwise returns
    /// `None` and does not move.
    pub fn take_tagged(&mut self, tag: Tag) -> Option<Element<'a>> {
        let mut next = *self;
        match next.take_first() {
            Some(element) if element.tag == tag => {
                *self = next;
                Some(element)
            }
            _ => None,
        }
    }

    /// If the first octet of the next element is `identifier`, returns the element and moves past
    /// it. Otherwise returns `None` and does not move.
    pub fn take_identified(&mut self, identifier: u8) -> Option<Element<'a>> {
        match self.rest {
            [first, ..] if *first == identifier => self.take_first(),
            _ => None,
        }
    }
}

/// Iterates over the elements, up to the end or up to the first element that cannot be read.
impl<'a> Iterator for Elements<'a> {
    type Item = Element<'a>;

    ghost remaining = { λ s. at_most s.left };

    fn next(&mut self) -> Option<Element<'a>> {
        if self.left == 0 {
            return None;
        }
        let left = self.left - 1;
        let found = self.take_first();
        self.left = left;
        found
    }
}
