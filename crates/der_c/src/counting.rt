//! Counting what a writer would write, for C.
//!
//! Written by tools/c_interface: change the crates that der_c uses instead.
ghost use Rattle.der_base.specs.Arithmetic.{element_count};
ghost use Rattle.der_c_core.specs.CounterCalls.{Counts, CountsBegin, CountsEnd, CountsTagged, GivesCount, header_count, no_count};
ghost use Rattle.std.specs.Prelude.{◌≡◌};

use der_c_core::{DerCounter, DerError, DerMark};

/// Sets `counter` to a new counter. A new counter has counted 0 octets, has not failed, and has no
/// open element.
#[unsafe(no_mangle)]
pub extern "C" fn der_counter_init(counter: &mut DerCounter)
    ensures { counter.new ≡ no_count }
{
    der_c_core::der_counter_init(counter)
}

/// Counts `length` octets, as if `der_write` had written them.
///
/// After an error, `counter` has failed. The position of each error is the number of octets counted
/// before the call. Fails with:
///
/// - `Failed`, if `counter` had already failed;
/// - `Overflow`, if `counter` would count more than 4294967295 octets.
#[unsafe(no_mangle)]
pub extern "C" fn der_count(counter: &mut DerCounter, length: usize) -> DerError
    ensures { Counts length counter.old result counter.new }
{
    der_c_core::der_count(counter, length)
}

/// Counts the octets of the header of an element. The element has the tag word `tag` (see
/// `DerElement::tag`) and `length` octets of contents, which are not counted. Fails with:
///
/// - the errors of `der_count`;
/// - `TagNumberInvalid` without a position, if `tag` is not a valid tag word.
#[unsafe(no_mangle)]
pub extern "C" fn der_count_header(counter: &mut DerCounter, tag: u64, length: u32) -> DerError
    ensures { CountsTagged (λ t. header_count t length) tag counter.old result counter.new }
{
    der_c_core::der_count_header(counter, tag, length)
}

/// Counts all octets of an element: the header, and `length` octets of contents. The element has
/// the tag word `tag` (see `DerElement::tag`). Fails with the errors of `der_count_header`.
#[unsafe(no_mangle)]
pub extern "C" fn der_count_element(counter: &mut DerCounter, tag: u64, length: u32) -> DerError
    ensures { CountsTagged (λ t. element_count t length) tag counter.old result counter.new }
{
    der_c_core::der_count_element(counter, tag, length)
}

/// Begins an element with the tag word `tag` (see `DerElement::tag`), as `der_begin` does. Counts a
/// header with one length octet, and sets `mark` for `der_count_end`. A call that fails leaves
/// `mark` unchanged. Fails with the errors of `der_count_header`.
#[unsafe(no_mangle)]
pub extern "C" fn der_count_begin(
    counter: &mut DerCounter,
    tag: u64,
    mark: &mut DerMark,
) -> DerError
    ensures { CountsBegin tag counter.old result mark.old mark.new counter.new }
{
    der_c_core::der_count_begin(counter, tag, mark)
}

/// Ends the element that `mark` marks, as `der_end` does. If the length of the contents needs more
/// than one octet, counts the further octets of the length. Fails with:
///
/// - the errors of `der_count`;
/// - kind 23 (`DER_UNBALANCED`), if the element is not the innermost open element. The position of
///   this error is the number of octets counted.
#[unsafe(no_mangle)]
pub extern "C" fn der_count_end(counter: &mut DerCounter, mark: &DerMark) -> DerError
    ensures { CountsEnd mark.now counter.old result counter.new }
{
    der_c_core::der_count_end(counter, mark)
}

/// Sets `count` to the number of octets counted.
///
/// A call that fails leaves `count` unchanged. The position of each error is the number of octets
/// counted. Fails with:
///
/// - `Failed`, if `counter` has failed;
/// - kind 23 (`DER_UNBALANCED`), if an element was begun and not ended.
#[unsafe(no_mangle)]
pub extern "C" fn der_counted(counter: &DerCounter, count: &mut u32) -> DerError
    ensures { GivesCount counter.now result count.old count.new }
{
    der_c_core::der_counted(counter, count)
}
