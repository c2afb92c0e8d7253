//! Reading all elements that are left in a reader with one call, for C.
ghost use Rattle.std.specs.Prelude.{◌≡◌, ◌+◌, ◌^◌, ◌<◌, ◌≤◌, length, false};
ghost use Rattle.der_c_core.specs.CReader.{reader_state};
ghost use Rattle.der_c_core.specs.Around.{FillsNodes};
ghost use Rattle.der_c_core.specs.Tree.{ReadsTree, node_of};

mod around;
mod walk;

use crate::element::DerElement;
use crate::error::{DerError, c_error};
use crate::reader::DerReader;
use crate::tree::around::Around;
use crate::tree::walk::{climb, look_into, read_next};
use der_base::ErrorKind;
use der_core::Reader;

/// An element of a tree. Positions are in octets from the start of the input.
#[repr(C)]
#[derive(Clone, Copy)]
pub struct DerNode {
    /// The tag word, `der_tag` in C: the first octet of the identifier, plus 256 times the tag
    /// number if the number is 31 or more.
    pub tag: u64,
    /// The position at which the header begins.
    pub start: u32,
    /// The position at which the contents begin.
    pub contents_start: u32,
    /// The position at which the contents end, before any end-of-contents octets.
    pub end: u32,
    /// The number of elements of the tree that enclose this element. It is 0 for an outermost
    /// element.
    pub depth: u8,
    /// Whether the constructed bit of the identifier is set.
    pub constructed: bool,
    /// Whether the length was read in the indefinite form.
    pub indefinite: bool,
}

/// Reads all elements that are left in `reader`, and all elements inside constructed elements.
/// Stores them in `nodes`: each element comes before the elements inside it. Sets `count` to the
/// number of nodes stored, also if the call fails. If 32 other elements enclose a constructed
/// element, the elements inside it are not read, and it is a single node.
///
/// After a call that fails, `reader` has failed, and its position is the start of the element that
/// could not be read. Fails with:
///
/// - the errors of [`der_read_element`](crate::der_read_element);
/// - `Overlength` without a position, if there are more elements than `nodes` has items.
#[inline(always)]
pub fn der_read_tree(
    reader: &mut DerReader<'_>,
    nodes: &mut [DerNode],
    count: &mut usize,
) -> DerError
    ensures { ReadsTree (reader_state reader.old) nodes.old result count.new nodes.new
        (reader_state reader.new) }
{
    if reader.failed {
        *count = 0;
        return reader.refuse();
    }
    let filled = fill(reader, nodes);
    *count = filled.count;
    reader.position = filled.at;
    reader.failed = filled.error.kind != 0;
    filled.error
}

// How a walk over a tree ended.
#[derive(Clone, Copy)]
pub(crate) struct Filled {
    // how many nodes are stored
    pub(crate) count: usize,
    // the end of the tree, or the start of the element that was not read
    pub(crate) at: usize,
    pub(crate) error: DerError,
}

// Stores the nodes of all elements that are left in `reader`, which does not move.
#[inline(always)]
fn fill(reader: &DerReader<'_>, nodes: &mut [DerNode]) -> Filled
    requires working { reader.now.failed ≡ false }
    ensures { FillsNodes (reader_state reader.now) nodes.old result nodes.new }
{
    let mut walk = reader.fork();
    let mut around = Around::NONE;
    let space = nodes.len();
    for i in 0..space {
        climb(&mut walk, &mut around);
        let at = walk.position;
        if at == walk.end as usize {
            return Filled {
                count: i,
                at,
                error: DerError::NONE,
            };
        }
        let mut element = DerElement::NONE;
        let error = read_next(&mut walk, &mut element);
        if error.kind != 0 {
            return Filled {
                count: i,
                at,
                error,
            };
        }
        nodes[i] = node(around.level, &element);
        look_into(&mut walk, &mut around, &element);
    }
    climb(&mut walk, &mut around);
    let at = walk.position;
    if at == walk.end as usize {
        return Filled {
            count: space,
            at,
            error: DerError::NONE,
        };
    }
    Filled {
        count: space,
        at,
        error: c_error(ErrorKind::Overlength.to_error()),
    }
}

// The node of an element that is inside `level` others.
#[inline(always)]
fn node(level: usize, element: &DerElement<'_>) -> DerNode
    requires shallow { level ≤ 32 }
    requires lies { element.now.contents_start + length element.now.contents.now < 2 ^ 32 }
    ensures { result ≡ node_of level element.now }
{
    DerNode {
        tag: element.tag,
        start: element.start,
        contents_start: element.contents_start,
        end: element.contents_start + element.contents.len() as u32,
        depth: level as u8,
        constructed: element.constructed,
        indefinite: element.indefinite,
    }
}
