//! The elements of a tree.

ghost use Rattle.std.specs.Prelude.{◌≡◌, ◌-◌, length};
ghost use Rattle.ber.specs.Header.{IsNext};

use crate::place::Place;
use crate::role::{NO_INDEX, Role};
use ber::Header;

/// An element of the input, and its type in the table. It takes at most 40 octets of memory.
#[repr(C)]
#[derive(Debug, Clone, Copy, PartialEq, Eq)]
pub struct Entry {
    /// The offset of the element, in octets from the start of the input.
    pub offset: usize,
    /// The number of contents octets of the element, without end-of-contents octets.
    pub contents_len: usize,
    /// The index, among the entries of the tree, of the element around this element. The outermost
    /// element has its own index here.
    pub parent: usize,
    /// The index, in the table, of the node that is the type of the element. 4294967295 if the
    /// table has no type for the element.
    pub kind: u32,
    /// The index, in the table, of the field whose component the element is. 4294967295 if the
    /// element is not a component.
    pub field: u32,
    /// The index, in the table, of the field that is the alternative of a CHOICE, if the element is
    /// a value of a CHOICE. Otherwise 4294967295.
    pub alternative: u32,
    /// The number of octets of the header of the element.
    pub header_len: u8,
    /// The number of elements around the element.
    pub depth: u8,
}

impl Entry {
    /// A value that stands for no element. It fills the memory of the caller before elements are
    /// stored there.
    pub const NONE: Entry = Entry {
        offset: 0,
        contents_len: 0,
        parent: 0,
        kind: NO_INDEX,
        field: NO_INDEX,
        alternative: NO_INDEX,
        header_len: 0,
        depth: 0,
    };

    // The element of a header at a place. The length of its contents is known when they have been read, and
    // its depth when it is in a tree.
    pub(crate) fn new(header: Header, place: Place<'_>, role: Role, kind: u32) -> Self
        requires { IsNext header place.octets.now }
        ensures offset { result.offset ≡ place.entry.end - length place.entry.octets.now }
        ensures header { result.header_len ≡ header.header_len }
        ensures empty { result.contents_len ≡ 0 }
    {
        Entry {
            offset: place.offset(),
            contents_len: 0,
            parent: role.parent,
            kind,
            field: role.field,
            alternative: role.alternative,
            header_len: header.header_len as u8,
            depth: 0,
        }
    }
}
