//! Reading, for C.
//!
//! Written by tools/c_interface: change the crates that der_c uses instead.
ghost use Rattle.der_base.specs.Error.{error_of_kind};
ghost use Rattle.der_base.specs.declared.error.ErrorKind.TheVariants.{Overflow};
ghost use Rattle.der_c_core.specs.CReader.{answer_code, reader_state, rules_of};
ghost use Rattle.der_c_core.specs.CompareCall.{Compares};
ghost use Rattle.der_c_core.specs.ElementCalls.{ExpectsElement, FindsOptional, ReadsElement, SkipsElement};
ghost use Rattle.der_c_core.specs.EnterCalls.{EntersElement, OpensElement};
ghost use Rattle.der_c_core.specs.ErrorCode.{error_code, no_error};
ghost use Rattle.der_c_core.specs.HeaderCall.{ReadsHeader};
ghost use Rattle.der_c_core.specs.Octets.{GivesOctets};
ghost use Rattle.der_c_core.specs.PeekCalls.{HasNextTag, PeeksTag};
ghost use Rattle.der_c_core.specs.ScanCall.{ScansBody};
ghost use Rattle.der_c_core.specs.Tree.{ReadsTree};
ghost use Rattle.der_core.specs.Reader.{finish_answer};
ghost use Rattle.der_core.specs.ReaderState.{Same, initial_state};
ghost use Rattle.std.specs.Prelude.{IsTrue, length, ◌<◌, ◌^◌, ◌↔◌, ◌≡◌, ◌≤◌};

use der_c_core::{DerElement, DerError, DerHeader, DerNode, DerReader, DerSpan};

/// Makes `reader` a reader of `octets`, from their start. If `ber` is true, the reader reads under
/// the Basic Encoding Rules, otherwise under the Distinguished Encoding Rules.
///
/// Fails with `Overflow` without a position if there are more than 4294967295 octets. `reader` is
/// unchanged after this error.
#[unsafe(no_mangle)]
pub extern "C" fn der_reader_init<'a>(
    octets: &'a [u8],
    ber: bool,
    reader: &mut DerReader<'a>,
) -> DerError
    ensures made { length octets.now < 2 ^ 32
        → (result ≡ no_error)
        × (reader_state reader.new ≡ initial_state (rules_of ber) octets.now) }
    ensures refused { 2 ^ 32 ≤ length octets.now
        → (result ≡ error_code (error_of_kind Overflow)) × (reader.new ≡ reader.old) }
{
    der_c_core::der_reader_init(octets, ber, reader)
}

/// The position of `reader`, in octets from the start of the input.
#[unsafe(no_mangle)]
pub extern "C" fn der_position(reader: &DerReader<'_>) -> usize
    ensures { result ≡ (reader_state reader.now).position }
{
    der_c_core::der_position(reader)
}

/// Returns true if `reader` is at the end of its octets. It does not matter whether `reader` has
/// failed.
#[unsafe(no_mangle)]
pub extern "C" fn der_is_finished(reader: &DerReader<'_>) -> bool
    ensures { IsTrue result ↔ ((reader_state reader.now).position ≡ (reader_state reader.now).end) }
{
    der_c_core::der_is_finished(reader)
}

/// Succeeds if `reader` is at its end and has not failed. `reader` is unchanged.
///
/// Each error is at the position of `reader`. Fails with:
///
/// - `Failed`, if `reader` has failed;
/// - `TrailingData`, if octets are left.
#[unsafe(no_mangle)]
pub extern "C" fn der_finish(reader: &DerReader<'_>) -> DerError
    ensures { result ≡ answer_code (finish_answer (reader_state reader.now)) }
{
    der_c_core::der_finish(reader)
}

/// Reads the header of the next element into `header`, as `der_core::decode_header` does. The
/// contents are not consumed. Under the Basic Encoding Rules, the contents of an indefinite length
/// are scanned to find their end.
///
/// A call that fails leaves `header` unchanged, and `reader` has failed after it. Fails with
/// `Failed`, `Overflow`, `Incomplete`, `TagUnknown`, `TagNumberInvalid`, `IndefiniteLength`,
/// `Length` and `NestingDepth`.
#[unsafe(no_mangle)]
pub extern "C" fn der_read_header(reader: &mut DerReader<'_>, header: &mut DerHeader) -> DerError
    ensures same { Same (reader_state reader.old) (reader_state reader.new) }
    ensures reads { ReadsHeader (reader_state reader.old) result header.old header.new
        (reader_state reader.new) }
{
    der_c_core::der_read_header(reader, header)
}

/// Reads the next element into `element`: its header, its contents, and the end-of-contents octets
/// of an indefinite length.
///
/// A call that fails leaves `element` unchanged, and `reader` has failed after it. Fails with:
///
/// - the errors of `der_read_header`;
/// - `Incomplete` or `Overflow`, if octets of the contents are missing.
#[unsafe(no_mangle)]
pub extern "C" fn der_read_element<'a>(
    reader: &mut DerReader<'a>,
    element: &mut DerElement<'a>,
) -> DerError
    ensures same { Same (reader_state reader.old) (reader_state reader.new) }
    ensures reads { ReadsElement (reader_state reader.old) result element.old element.new
        (reader_state reader.new) }
{
    der_c_core::der_read_element(reader, element)
}

/// Consumes the next element without storing it: the header, the contents, and the end-of-contents
/// octets of an indefinite length.
///
/// Fails with the errors of `der_read_element`. After an error, `reader` has failed.
#[unsafe(no_mangle)]
pub extern "C" fn der_skip(reader: &mut DerReader<'_>) -> DerError
    ensures same { Same (reader_state reader.old) (reader_state reader.new) }
    ensures skips { SkipsElement (reader_state reader.old) result (reader_state reader.new) }
{
    der_c_core::der_skip(reader)
}

/// Sets `tag` to the tag word of the next element (see
/// `DerElement::tag`). Only the identifier of the element is read.
/// `reader` is unchanged, also after an error.
///
/// A call that fails leaves `tag` unchanged. Fails with:
///
/// - `Failed` at the position of `reader`, if `reader` has failed;
/// - `Incomplete` at the end of `reader`, if the identifier is cut or no octets are left. If this
///   end is at position 4294967295, the error is `Overflow` without a position instead;
/// - `TagUnknown` at the position after the first octet, if no tag begins with this octet;
/// - `TagNumberInvalid` at the position after the octet that makes the tag number invalid.
#[unsafe(no_mangle)]
pub extern "C" fn der_peek(reader: &DerReader<'_>, tag: &mut u64) -> DerError
    ensures peeks { PeeksTag (reader_state reader.now) result tag.old tag.new }
{
    der_c_core::der_peek(reader, tag)
}

/// Whether the next element has the tag word `tag` (see
/// `DerElement::tag`). Only the identifier of the element is read.
/// `reader` is unchanged.
///
/// The result is false if `reader` has failed or is at its end, if the next octets are not a valid
/// identifier, or if `tag` is not a valid tag word.
#[unsafe(no_mangle)]
pub extern "C" fn der_next_is(reader: &DerReader<'_>, tag: u64) -> bool
    ensures { IsTrue result ↔ HasNextTag tag (reader_state reader.now) }
{
    der_c_core::der_next_is(reader, tag)
}

/// Reads the next element into `element`. This element must have the tag word `tag` (see
/// `DerElement::tag`).
///
/// A call that fails leaves `element` unchanged. Fails with:
///
/// - the errors of `der_read_element`;
/// - `TagUnexpected` at the position of `reader`, if the next element has another tag;
/// - `TagNumberInvalid` without a position, if `tag` is not a valid tag word and there is a next
///   element.
///
/// After `TagUnexpected`, `reader` is unchanged. After any other error, `reader` has failed.
#[unsafe(no_mangle)]
pub extern "C" fn der_expect<'a>(
    reader: &mut DerReader<'a>,
    tag: u64,
    element: &mut DerElement<'a>,
) -> DerError
    ensures same { Same (reader_state reader.old) (reader_state reader.new) }
    ensures reads { ExpectsElement tag (reader_state reader.old) result element.old element.new
        (reader_state reader.new) }
{
    der_c_core::der_expect(reader, tag, element)
}

/// Reads the next element into `element` if it has the tag word `tag` (see `DerElement::tag`),
/// and sets `present` to true. If the next element has another tag, or if `reader` is at its end,
/// sets `present` to false, and leaves `reader` and `element` unchanged.
///
/// A call that fails leaves `element` and `present` unchanged, and `reader` has failed after it.
/// Fails with:
///
/// - the errors of `der_read_element`; a faulty header is an error even if it has another tag;
/// - `TagNumberInvalid` without a position, if `tag` is not a valid tag word and there is a next
///   element.
#[unsafe(no_mangle)]
pub extern "C" fn der_optional<'a>(
    reader: &mut DerReader<'a>,
    tag: u64,
    element: &mut DerElement<'a>,
    present: &mut bool,
) -> DerError
    ensures same { Same (reader_state reader.old) (reader_state reader.new) }
    ensures finds { FindsOptional tag (reader_state reader.old) result element.old element.new
        present.old present.new (reader_state reader.new) }
{
    der_c_core::der_optional(reader, tag, element, present)
}

/// Consumes the next element, and makes `inside` a reader of its contents. This element must have
/// the tag word `tag` (see `DerElement::tag`).
///
/// A call that fails leaves `inside` unchanged. Fails with:
///
/// - the errors of `der_expect`;
/// - `NestingDepth` at the start of the contents, if `reader` is already inside 64 nested elements.
///   All octets of the element must be there; otherwise the error is an error of `der_expect`.
///
/// After `TagUnexpected`, `reader` is unchanged. After any other error, `reader` has failed.
#[unsafe(no_mangle)]
pub extern "C" fn der_enter<'a>(
    reader: &mut DerReader<'a>,
    tag: u64,
    inside: &mut DerReader<'a>,
) -> DerError
    ensures same { Same (reader_state reader.old) (reader_state reader.new) }
    ensures enters { EntersElement tag (reader_state reader.old) result inside.old inside.new
        (reader_state reader.new) }
{
    der_c_core::der_enter(reader, tag, inside)
}

/// Makes `inside` a reader of the contents of `element`. `element` must have been read by `reader`
/// or by a copy of `reader`. The position of `reader` does not change.
///
/// A call that fails leaves `inside` unchanged. Fails with:
///
/// - `Failed` at the position of `reader`, if `reader` has failed;
/// - `Reader` without a position, if `element` does not lie in the octets of `reader`. `reader` is
///   unchanged after this error;
/// - `NestingDepth` at the start of the contents, if `reader` is already inside 64 nested elements.
///   `reader` has failed after this error.
#[unsafe(no_mangle)]
pub extern "C" fn der_open<'a>(
    reader: &mut DerReader<'a>,
    element: &DerElement<'a>,
    inside: &mut DerReader<'a>,
) -> DerError
    ensures { OpensElement (reader_state reader.old) element.now result inside.old inside.new
        (reader_state reader.new) }
{
    der_c_core::der_open(reader, element, inside)
}

/// Sets `octets` to all octets of `element`: its header, its contents, and the end-of-contents
/// octets of an indefinite length. `octets` are borrowed from the input of `reader`. `element` must
/// have been read from this input.
///
/// A call that fails leaves `octets` unchanged. Fails with:
///
/// - `Failed` at the position of `reader`, if `reader` has failed;
/// - `Reader` without a position, if `element` does not lie in the input of `reader`.
#[unsafe(no_mangle)]
pub extern "C" fn der_element_octets<'a>(
    reader: &DerReader<'a>,
    element: &DerElement<'a>,
    octets: &mut DerSpan<'a>,
) -> DerError
    ensures { GivesOctets (reader_state reader.now) element.now result octets.old octets.new }
{
    der_c_core::der_element_octets(reader, element, octets)
}

/// Consumes indefinite-length contents and the end-of-contents octets that close them (X.690
/// 8.1.3.6). Sets `count` to the number of octets consumed, end-of-contents octets included. Before
/// the call, `reader` must be just after the length octet `0x80`. After the call, `reader` is just
/// after the end-of-contents octets.
///
/// A call that fails leaves `count` unchanged, and `reader` has failed after it. Fails with:
///
/// - the errors of `der_core::decode_indefinite_length`;
/// - `EncodingRules` without a position, if `reader` does not read under the Basic Encoding Rules.
#[unsafe(no_mangle)]
pub extern "C" fn der_scan(reader: &mut DerReader<'_>, count: &mut u32) -> DerError
    ensures { ScansBody (reader_state reader.old) result count.old count.new
        (reader_state reader.new) }
{
    der_c_core::der_scan(reader, count)
}

/// Reads all elements that are left in `reader`, and all elements inside constructed elements.
/// Stores them in `nodes`: each element comes before the elements inside it. Sets `count` to the
/// number of nodes stored, also if the call fails. If 32 other elements enclose a constructed
/// element, the elements inside it are not read, and it is a single node.
///
/// After a call that fails, `reader` has failed, and its position is the start of the element that
/// could not be read. Fails with:
///
/// - the errors of `der_read_element`;
/// - `Overlength` without a position, if there are more elements than `nodes` has items.
#[unsafe(no_mangle)]
pub extern "C" fn der_read_tree(
    reader: &mut DerReader<'_>,
    nodes: &mut [DerNode],
    count: &mut usize,
) -> DerError
    ensures { ReadsTree (reader_state reader.old) nodes.old result count.new nodes.new
        (reader_state reader.new) }
{
    der_c_core::der_read_tree(reader, nodes, count)
}

/// Compares the encodings of two elements, `first` and `second`, octet by octet. This is the order
/// in which a SET OF has its elements (X.690 11.6). Sets `order` to -1 if `first` is less than
/// `second`, to 0 if they are equal, and to 1 if `first` is greater than `second`.
///
/// Each of `first` and `second` must be exactly one element under the Distinguished Encoding Rules.
/// `first` is checked before `second`. A call that fails leaves `order` unchanged. Fails with:
///
/// - the errors of `der_read_element`;
/// - `Overflow` without a position, if `first` or `second` has more than 4294967295 octets;
/// - `TrailingData`, if octets follow the element in `first` or `second`.
#[unsafe(no_mangle)]
pub extern "C" fn der_compare(first: &[u8], second: &[u8], order: &mut i32) -> DerError
    ensures { Compares first.now second.now result order.old order.new }
{
    der_c_core::der_compare(first, second, order)
}
