//! Nodes.
ghost use Rattle.std.specs.Prelude.{◌≡◌, ◌↔◌, ◌+◌, ◌≤◌, length, IsTrue, IfOk, IfErr};
ghost use Rattle.schema_types.specs.Node.{class_at, flag_at, inner_at, insertion_of, room_of, node_at, IsInner, IsNode, IsNodeRow, IsNodeFault};

use crate::counts::Counts;
use crate::fault::Fault;
use crate::fault_kind::FaultKind;
use crate::node_kind::NodeKind;
use crate::numbers::number_at;
use crate::pool::is_text;
use crate::span::Span;
use der_base::Class;

/// A type of the table.
#[derive(Debug, Clone, Copy, PartialEq, Eq)]
pub struct Node {
    /// What kind of type it is.
    pub kind: NodeKind,
    /// The class of the tag. It means nothing for a CHOICE, ANY or an open type: they have no tag
    /// of their own.
    pub class: Class,
    /// The number of the tag. It means nothing for a CHOICE, ANY or an open type.
    pub number: u32,
    /// Whether the type has an extension marker.
    pub extensible: bool,
    /// The octets of the name of the type, as a range of the pool.
    pub name: Span,
    /// The index of the inner node, which is one of these types:
    ///
    /// - for a SEQUENCE OF or a SET OF, the type of its items;
    /// - for a type inside an EXPLICIT tag, that type;
    /// - for an OCTET STRING or a BIT STRING that contains an encoding, the type of the encoded
    ///   value.
    ///
    /// `None` for other nodes.
    pub inner: Option<u32>,
    /// The rows that belong to the node: the fields of a SEQUENCE, a SET or a CHOICE, the names of
    /// an INTEGER, an ENUMERATED or a BIT STRING, or the types that an open type may be. Empty for
    /// other kinds of nodes.
    pub parts: Span,
    /// The rows of the limits of the node.
    pub limits: Span,
    /// A number whose meaning depends on the kind of the node:
    ///
    /// - open type: the index in the table of the field whose OBJECT IDENTIFIER chooses the type;
    /// - SEQUENCE or SET with an extension marker: the number of its fields before the insertion
    ///   point;
    /// - any other node: 0.
    pub chooser: u32,
}

impl Node {
    // The node in the 40 octets from `at` on.
    #[inline(always)]
    pub(crate) fn read(octets: &[u8], at: usize) -> Self
        requires { at + 40 ≤ length octets.now }
        ensures { result ≡ node_at octets.now at }
    {
        Node {
            kind: NodeKind::from_octet(octets[at]).unwrap_or(NodeKind::Any),
            class: class_at(octets[at + 1]),
            extensible: flag_at(octets[at + 2]),
            inner: inner_at(octets[at + 3], number_at(octets, at + 16)),
            number: number_at(octets, at + 4),
            name: Span::read(octets, at + 8),
            parts: Span::read(octets, at + 20),
            limits: Span::read(octets, at + 28),
            chooser: number_at(octets, at + 36),
        }
    }

    /// How many fields of a SEQUENCE or a SET come before its extension insertion point (X.680
    /// 25.1), where a value may have unknown components. `None` for other kinds of types, and for a
    /// type without an extension marker.
    #[inline(always)]
    pub fn insertion(self) -> Option<u32>
        ensures { result ≡ insertion_of self }
    {
        self.kind.insertion_in(self.extensible, self.chooser)
    }

    // How many numbers there are of which its chooser may be.
    fn chooser_room(self, counts: Counts) -> usize
        ensures { result ≡ room_of counts self }
    {
        self.kind
            .chooser_room(counts, self.extensible, self.parts.count)
    }

    // Whether the 40 octets from `at` on are a node.
    pub(crate) fn check(octets: &[u8], at: usize, counts: Counts, pool: &[u8]) -> Result<(), Fault>
        requires { at + 40 ≤ length octets.now }
        ensures ok { IfOk result (λ _. IsNodeRow counts pool.now octets.now at) }
        ensures fault { IfErr result (λ f. IsNodeFault counts pool.now octets.now at f) }
    {
        if NodeKind::from_octet(octets[at]).is_none() {
            return Err(Fault::new(FaultKind::Kind, at));
        }
        if octets[at + 1] % 64 != 0 {
            return Err(Fault::new(FaultKind::Class, at + 1));
        }
        if octets[at + 2] > 1 {
            return Err(Fault::new(FaultKind::Flag, at + 2));
        }
        if octets[at + 3] > 1 {
            return Err(Fault::new(FaultKind::Flag, at + 3));
        }
        Node::check_parts(octets, at, counts, pool)
    }

    // Whether what the node in the 40 octets from `at` on names is there.
    fn check_parts(octets: &[u8], at: usize, counts: Counts, pool: &[u8]) -> Result<(), Fault>
        requires { at + 40 ≤ length octets.now }
        ensures ok { IfOk result (λ _. IsNode counts pool.now (node_at octets.now at)) }
        ensures fault { IfErr result (λ f. IsNodeFault counts pool.now octets.now at f) }
    {
        let node = Node::read(octets, at);
        if !is_text(pool, node.name) {
            return Err(Fault::new(FaultKind::Name, at + 8));
        }
        if !is_inner(node.kind, node.inner, counts.nodes) {
            return Err(Fault::new(FaultKind::Inner, at + 16));
        }
        if !node.parts.is_within(node.kind.parts_room(counts) as usize) {
            return Err(Fault::new(FaultKind::Parts, at + 20));
        }
        if node.kind.is_choice() && node.parts.count == 0 {
            return Err(Fault::new(FaultKind::Parts, at + 20));
        }
        if !node.limits.is_within(counts.limits as usize) {
            return Err(Fault::new(FaultKind::Limits, at + 28));
        }
        if node.chooser as usize >= node.chooser_room(counts) {
            return Err(Fault::new(FaultKind::Chooser, at + 36));
        }
        Ok(())
    }
}

// Whether a node of this kind may have this node inside it.
fn is_inner(kind: NodeKind, inner: Option<u32>, nodes: u32) -> bool
    ensures { IsTrue result ↔ IsInner kind inner nodes }
{
    match inner {
        None => !kind.needs_inner(),
        Some(node) => kind.allows_inner() && node < nodes,
    }
}

// The class in the two highest bits of an octet.
#[inline(always)]
fn class_at(octet: u8) -> Class
    ensures { result ≡ class_at octet }
{
    match octet / 64 {
        0 => Class::Universal,
        1 => Class::Application,
        2 => Class::ContextSpecific,
        _ => Class::Private,
    }
}

#[inline(always)]
fn flag_at(octet: u8) -> bool
    ensures { result ≡ flag_at octet }
{
    octet != 0
}

#[inline(always)]
fn inner_at(octet: u8, node: u32) -> Option<u32>
    ensures { result ≡ inner_at octet node }
{
    if octet == 0 { None } else { Some(node) }
}
