//! Kinds of nodes.
ghost use Rattle.std.specs.Prelude.{◌≡◌, IsTrue};
ghost use Rattle.schema_types.specs.NodeKind.{kind_at, parts_room, chooser_room, insertion_in, needs_inner, allows_inner, is_choice};

use crate::counts::Counts;
use ber::Universal;

/// What kind of type a node is. A table stores the kind as a number.
#[derive(Debug, Clone, Copy, PartialEq, Eq)]
pub enum NodeKind {
    /// A type with a universal tag, such as `INTEGER` or `SEQUENCE`, but not `SEQUENCE OF` or `SET
    /// OF`. Its number in a table is the number of the universal tag.
    Universal(Universal),
    /// `SEQUENCE OF`, number 64.
    SequenceOf,
    /// `SET OF`, number 65.
    SetOf,
    /// `CHOICE`, number 66.
    Choice,
    /// A type inside an EXPLICIT tag, number 67.
    Explicit,
    /// `ANY`: a value of any type, number 68.
    Any,
    /// An open type: its actual type is chosen by an OBJECT IDENTIFIER elsewhere in the value.
    /// Number 69.
    Open,
}

impl NodeKind {
    /// Returns the kind that has this number in a table, if there is one.
    pub fn from_octet(octet: u8) -> Option<Self>
        ensures { result ≡ kind_at octet }
    {
        match octet {
            64 => Some(NodeKind::SequenceOf),
            65 => Some(NodeKind::SetOf),
            66 => Some(NodeKind::Choice),
            67 => Some(NodeKind::Explicit),
            68 => Some(NodeKind::Any),
            69 => Some(NodeKind::Open),
            _ => match Universal::from_number(octet as u32) {
                Some(universal) => Some(NodeKind::Universal(universal)),
                None => None,
            },
        }
    }

    // How many rows there are of which the parts of a node may be: fields, names or types.
    pub(crate) fn parts_room(self, counts: Counts) -> u32
        ensures { result ≡ parts_room counts self }
    {
        match self {
            NodeKind::Universal(Universal::Integer) => counts.names,
            NodeKind::Universal(Universal::BitString) => counts.names,
            NodeKind::Universal(Universal::Enumerated) => counts.names,
            NodeKind::Universal(Universal::Sequence) => counts.fields,
            NodeKind::Universal(Universal::Set) => counts.fields,
            NodeKind::Choice => counts.fields,
            NodeKind::Open => counts.opens,
            _ => 0,
        }
    }

    // How many numbers there are of which the chooser may be, in a node with an extension marker or
    // without, and with so many parts.
    pub(crate) fn chooser_room(self, counts: Counts, extensible: bool, parts: u32) -> usize
        ensures { result ≡ chooser_room counts self extensible parts }
    {
        match (self, extensible) {
            (NodeKind::Open, _) => counts.fields as usize,
            (NodeKind::Universal(Universal::Sequence), true) => parts as usize + 1,
            (NodeKind::Universal(Universal::Set), true) => parts as usize + 1,
            _ => 1,
        }
    }

    // The chooser, if it is the number of the fields before an extension insertion point.
    pub(crate) fn insertion_in(self, extensible: bool, chooser: u32) -> Option<u32>
        ensures { result ≡ insertion_in self extensible chooser }
    {
        match (self, extensible) {
            (NodeKind::Universal(Universal::Sequence), true) => Some(chooser),
            (NodeKind::Universal(Universal::Set), true) => Some(chooser),
            _ => None,
        }
    }

    // Whether a node has another node inside it.
    pub(crate) fn needs_inner(self) -> bool
        ensures { result ≡ needs_inner self }
    {
        matches!(
            self,
            NodeKind::SequenceOf | NodeKind::SetOf | NodeKind::Explicit
        )
    }

    // Whether a node may have another node inside it.
    pub(crate) fn allows_inner(self) -> bool
        ensures { result ≡ allows_inner self }
    {
        matches!(
            self,
            NodeKind::SequenceOf
                | NodeKind::SetOf
                | NodeKind::Explicit
                | NodeKind::Universal(Universal::OctetString)
                | NodeKind::Universal(Universal::BitString)
        )
    }

    // Whether it is a CHOICE.
    #[inline(always)]
    pub(crate) fn is_choice(self) -> bool
        ensures { result ≡ is_choice self }
    {
        matches!(self, NodeKind::Choice)
    }
}
