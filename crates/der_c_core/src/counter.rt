//! Counting the octets that a writer would write, for C.
ghost use Rattle.std.specs.Prelude.{◌≡◌, ◌<◌, ◌^◌, true, OnErr};
ghost use Rattle.der_base.specs.Arithmetic.{element_count};
ghost use Rattle.der_c_core.specs.CounterCalls.{Counts, CountsTagged, CountsBegin, CountsEnd, GivesCount, RefusesCount, failed_code, no_count, header_count, result_code};

use crate::error::{DerError, c_error};
use crate::mark::DerMark;
use crate::tag::tag_of_word;
use der_base::{ErrorKind, Length, Tag};

/// A counter: it counts the octets that a writer with a buffer of 4294967295 octets would write,
/// and writes nothing. Each function that counts has the arguments of a function that writes.
#[repr(C)]
#[derive(Clone, Copy)]
pub struct DerCounter {
    // where the contents of the innermost open element begin; 0 if none is open
    pub(crate) innermost: usize,
    pub(crate) count: u32,
    pub(crate) failed: bool,
}

impl DerCounter {
    // The error of a counter that has failed.
    fn has_failed(&self) -> DerError
        ensures { result ≡ failed_code self.now }
    {
        c_error(ErrorKind::Failed.at(Length::new(self.count)))
    }

    // Adds to the number of octets.
    fn add(&mut self, octets: u64) -> Result<(), DerError>
        ensures counts { Counts octets self.old (result_code result) self.new }
        ensures keeps { self.new.innermost ≡ self.old.innermost }
        ensures fails { OnErr result (self.new.failed ≡ true) }
    {
        if self.failed {
            return Err(self.has_failed());
        }
        if octets > (u32::MAX - self.count) as u64 {
            self.failed = true;
            return Err(c_error(ErrorKind::Overflow.at(Length::new(self.count))));
        }
        self.count += octets as u32;
        Ok(())
    }

    // Fails because a word is not that of a tag.
    #[cold]
    #[inline(never)]
    fn refuse_tag(&mut self) -> DerError
        ensures { RefusesCount self.old result self.new }
    {
        if self.failed {
            return self.has_failed();
        }
        self.failed = true;
        c_error(ErrorKind::TagNumberInvalid.to_error())
    }
}

// How many octets the header of an element has.
fn octets_of_header(tag: Tag, length: u32) -> u32
    ensures value { result ≡ header_count tag length }
    ensures few { result < 2 ^ 8 }
{
    tag.octet_count() + Length::new(length).octet_count()
}

// The C form of a result.
fn code(answer: Result<(), DerError>) -> DerError
    ensures { result ≡ result_code answer }
{
    match answer {
        Ok(()) => DerError::NONE,
        Err(error) => error,
    }
}

/// Sets `counter` to a new counter. A new counter has counted 0 octets, has not failed, and has no
/// open element.
pub fn der_counter_init(counter: &mut DerCounter)
    ensures { counter.new ≡ no_count }
{
    *counter = DerCounter {
        innermost: 0,
        count: 0,
        failed: false,
    };
}

/// Counts `length` octets, as if `der_write` had written them.
///
/// After an error, `counter` has failed. The position of each error is the number of octets counted
/// before the call. Fails with:
///
/// - `Failed`, if `counter` had already failed;
/// - `Overflow`, if `counter` would count more than 4294967295 octets.
pub fn der_count(counter: &mut DerCounter, length: usize) -> DerError
    ensures { Counts length counter.old result counter.new }
{
    code(counter.add(length as u64))
}

/// Counts the octets of the header of an element. The element has the tag word `tag` (see
/// `DerElement::tag`) and `length` octets of contents, which are not counted. Fails with:
///
/// - the errors of [`der_count`];
/// - `TagNumberInvalid` without a position, if `tag` is not a valid tag word.
pub fn der_count_header(counter: &mut DerCounter, tag: u64, length: u32) -> DerError
    ensures { CountsTagged (λ t. header_count t length) tag counter.old result counter.new }
{
    match tag_of_word(tag) {
        Some(tag) => code(counter.add(octets_of_header(tag, length) as u64)),
        None => counter.refuse_tag(),
    }
}

/// Counts all octets of an element: the header, and `length` octets of contents. The element has
/// the tag word `tag` (see `DerElement::tag`). Fails with the errors of [`der_count_header`].
pub fn der_count_element(counter: &mut DerCounter, tag: u64, length: u32) -> DerError
    ensures { CountsTagged (λ t. element_count t length) tag counter.old result counter.new }
{
    match tag_of_word(tag) {
        Some(tag) => {
            let octets = octets_of_header(tag, length) as u64 + length as u64;
            code(counter.add(octets))
        }
        None => counter.refuse_tag(),
    }
}

/// Begins an element with the tag word `tag` (see `DerElement::tag`), as `der_begin` does. Counts a
/// header with one length octet, and sets `mark` for [`der_count_end`]. A call that fails leaves
/// `mark` unchanged. Fails with the errors of [`der_count_header`].
pub fn der_count_begin(counter: &mut DerCounter, tag: u64, mark: &mut DerMark) -> DerError
    ensures { CountsBegin tag counter.old result mark.old mark.new counter.new }
{
    let Some(tag) = tag_of_word(tag) else {
        return counter.refuse_tag();
    };
    match counter.add(octets_of_header(tag, 0) as u64) {
        Ok(()) => {
            *mark = DerMark {
                start: counter.count as usize,
                outer: counter.innermost,
            };
            counter.innermost = counter.count as usize;
            DerError::NONE
        }
        Err(error) => error,
    }
}

/// Ends the element that `mark` marks, as `der_end` does. If the length of the contents needs more
/// than one octet, counts the further octets of the length. Fails with:
///
/// - the errors of [`der_count`];
/// - kind 23 (`DER_UNBALANCED`), if the element is not the innermost open element. The position of
///   this error is the number of octets counted.
pub fn der_count_end(counter: &mut DerCounter, mark: &DerMark) -> DerError
    ensures { CountsEnd mark.now counter.old result counter.new }
{
    if counter.failed {
        return counter.has_failed();
    }
    let start = mark.start;
    if start != counter.innermost || start == 0 || start > counter.count as usize {
        counter.failed = true;
        return DerError::unbalanced(counter.count);
    }
    let length = Length::new(counter.count - start as u32);
    match counter.add((length.octet_count() - 1) as u64) {
        Ok(()) => {
            counter.innermost = mark.outer;
            DerError::NONE
        }
        Err(error) => error,
    }
}

/// Sets `count` to the number of octets counted.
///
/// A call that fails leaves `count` unchanged. The position of each error is the number of octets
/// counted. Fails with:
///
/// - `Failed`, if `counter` has failed;
/// - kind 23 (`DER_UNBALANCED`), if an element was begun and not ended.
pub fn der_counted(counter: &DerCounter, count: &mut u32) -> DerError
    ensures { GivesCount counter.now result count.old count.new }
{
    if counter.failed {
        return counter.has_failed();
    }
    if counter.innermost != 0 {
        return DerError::unbalanced(counter.count);
    }
    *count = counter.count;
    DerError::NONE
}
