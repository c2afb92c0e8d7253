//! Reading the elements of a tree: entering and leaving the contents of constructed elements.
ghost use Rattle.std.specs.Prelude.{◌≡◌, ◌+◌, ◌<◌, ◌≤◌, List, [], ◌∷◌, length};
ghost use Rattle.der_core.specs.ReaderState.{ReaderState, Same};
ghost use Rattle.der_c_core.specs.CReader.{reader_state};
ghost use Rattle.der_c_core.specs.Tree.{ReadsNext, node_of};
ghost use Rattle.der_c_core.specs.Around.{AreAround, Advances, WalksNodes};

use crate::element::{DerElement, read_generally, short_value};
use crate::error::DerError;
use crate::reader::DerReader;
use crate::short::short_element;
use crate::tree::around::{Around, LEVELS};
use der_core::Reader;

/// Leaves each entered element whose end `reader` has reached, from the innermost outwards, and
/// removes it from `around`. Changes nothing if `reader` is before the end of the innermost entered
/// element.
#[inline(always)]
pub(crate) fn climb(reader: &mut DerReader<'_>, around: &mut Around)
    requires parts { AreAround around.old (reader_state reader.old) }
    ensures walks { WalksNodes around.old (reader_state reader.old) [] around.new
        (reader_state reader.new) }
    ensures climbed { reader.new.position ≡ reader.new.end → around.new.level ≡ 0 }
{
    while around.level > 0 && reader.position == reader.end as usize {
        leave(reader, around);
    }
}

// Leaves the innermost part.
#[inline(always)]
fn leave(reader: &mut DerReader<'_>, around: &mut Around)
    requires inside { 0 < around.old.level }
    requires at_end { reader.old.position ≡ reader.old.end }
    requires parts { AreAround around.old (reader_state reader.old) }
    ensures walks { WalksNodes around.old (reader_state reader.old) [] around.new
        (reader_state reader.new) }
    ensures below { around.new.level + 1 ≡ around.old.level }
{
    let level = around.level - 1;
    around.level = level;
    reader.position = around.following[level] as usize;
    reader.end = around.ends[level];
}

/// Reads the next element into `element`. A call that fails changes neither `reader` nor `element`.
#[inline(always)]
pub(crate) fn read_next<'a>(reader: &mut DerReader<'a>, element: &mut DerElement<'a>) -> DerError
    ensures same { Same (reader_state reader.old) (reader_state reader.new) }
    ensures reads { Advances (reader_state reader.old) result element.old element.new
        (reader_state reader.new) }
{
    if let Some(next) = short_element(reader) {
        *element = short_value(reader.octets, reader.position as u32, next);
        reader.position = next.to;
        return DerError::NONE;
    }
    read_on_copies(reader, element)
}

// Reads the next element, with any header.
#[inline(always)]
fn read_on_copies<'a>(reader: &mut DerReader<'a>, element: &mut DerElement<'a>) -> DerError
    ensures same { Same (reader_state reader.old) (reader_state reader.new) }
    ensures reads { Advances (reader_state reader.old) result element.old element.new
        (reader_state reader.new) }
{
    let mut copy = reader.fork();
    let mut read = *element;
    let error = read_generally(&mut copy, &mut read);
    if error.kind != 0 {
        return error;
    }
    reader.position = copy.position;
    *element = read;
    DerError::NONE
}

/// Enters the contents of `element`, which must be the element that `reader` has just read. Moves
/// `reader` to the start of the contents, and adds `element` to `around`. Changes nothing if
/// `element` is primitive, or if `around` already has 32 elements.
#[inline(always)]
pub(crate) fn look_into(reader: &mut DerReader<'_>, around: &mut Around, element: &DerElement<'_>)
    requires parts { AreAround around.old (reader_state reader.old) }
    requires lies { element.now.contents_start + length element.now.contents.now
        ≤ reader.old.position }
    ensures walks { (s : ReaderState) → ReadsNext s element.now (reader_state reader.old)
        → WalksNodes around.old s (node_of around.old.level element.now ∷ []) around.new
        (reader_state reader.new) }
{
    let level = around.level;
    if !element.constructed {
        return;
    }
    if level >= LEVELS {
        return;
    }
    around.ends[level] = reader.end;
    around.following[level] = reader.position as u32;
    around.level = level + 1;
    reader.position = element.contents_start as usize;
    reader.end = element.contents_start + element.contents.len() as u32;
}
