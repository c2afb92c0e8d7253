//! An example of a SET OF OCTET STRING. Its elements are in the order of their encodings (X.690
//! 11.6).
ghost use Rattle.std.specs.Prelude.{◌≡◌, ◌+◌, ◌++◌, ◌^◌, ◌<◌, ◌≤◌, ◌⊎◌, ℕ, List, length, Err, IfOk, IsOk, IsErrAnd, OnOk, IsPermutation};
ghost use Rattle.der.specs.Prelude.{checked_length, error_at, error_of_kind, header_octets, number, IsBefore, byte_order, Set, map_ok, Reads, Same, reader_position, rest_of, slice_state};
ghost use Rattle.der.specs.ErrorKinds.{Overflow, OutOfMemory, SetOrdering};
ghost use Rattle.der.specs.BorrowedOctets.{borrowed_octets};
ghost use Rattle.example_calls.specs.AscendingStrings.{string_octets, octets_of, joined_strings, set_octets, StringsAscend, IsReady, MayFollow, OrderAnswer, PassesStrings, ReadsAscending};

use der::example::BorrowedOctets;
use der::{
    DerOrd, Encode, Error, ErrorKind, Header, Length, Reader, ReaderExt, SliceReader, Tag,
    decode_header,
};
use std::alloc::Global;
use std::cmp::Ordering;

/// Sorts `elements` in place by their encodings, and returns the encoding of the SET OF that
/// contains the sorted elements.
///
/// # Errors
///
/// - `Overflow` without a position, if the contents have more than 4294967295 octets.
/// - `OutOfMemory` without a position, if an allocation fails.
pub fn set_of_der(alloc: Global, elements: &mut [BorrowedOctets<'_>]) -> Result<Vec<u8>, Error>
    ensures same { IsPermutation elements.old elements.new }
    ensures sorted { StringsAscend (octets_of elements.new) }
    ensures ok { IfOk result (λ v. v.items ≡ set_octets (octets_of elements.new)) }
    ensures succeeds { length (joined_strings (octets_of elements.old)) < 2 ^ 32
        → IsOk result ⊎ IsErrAnd result (λ e. e ≡ error_of_kind OutOfMemory) }
    ensures too_long { 2 ^ 32 ≤ length (joined_strings (octets_of elements.old))
        → result ≡ Err (error_of_kind Overflow) }
{
    elements.sort_unstable_by(encoding_order);
    ordered_der(alloc, elements)
}

// The order of two elements by their encodings.
#[inline(always)]
fn encoding_order(a: &BorrowedOctets<'_>, b: &BorrowedOctets<'_>) -> Ordering
    ensures { result ≡ byte_order (string_octets (borrowed_octets a.now))
        (string_octets (borrowed_octets b.now)) }
{
    match a.der_cmp(b) {
        Ok(ordering) => ordering,
        Err(_) => unreachable!(),
    }
}

// The encoding of a SET of the elements in their present order.
fn ordered_der(alloc: Global, elements: &[BorrowedOctets<'_>]) -> Result<Vec<u8>, Error>
    ensures ok { IfOk result (λ v. v.items ≡ set_octets (octets_of elements.now)) }
    ensures succeeds { length (joined_strings (octets_of elements.now)) < 2 ^ 32
        → IsOk result ⊎ IsErrAnd result (λ e. e ≡ error_of_kind OutOfMemory) }
    ensures too_long { 2 ^ 32 ≤ length (joined_strings (octets_of elements.now))
        → result ≡ Err (error_of_kind Overflow) }
{
    let len = encoded_len_of(elements)?;
    let mut out = Vec::new(alloc);
    Header::new(Tag::Set, len).encode_to_vec(&mut out)?;
    write_all(elements, &mut out)?;
    Ok(out)
}

// The number of octets of the encodings of the elements.
fn encoded_len_of(elements: &[BorrowedOctets<'_>]) -> Result<Length, Error>
    ensures { result ≡ checked_length (length (joined_strings (octets_of elements.now))) }
{
    let mut len = Length::ZERO;
    for element in elements {
        len = (len + element.encoded_len()?)?;
    }
    Ok(len)
}

// Appends the encodings of the elements.
fn write_all(elements: &[BorrowedOctets<'_>], out: &mut Vec<u8>) -> Result<(), Error>
    ensures ok { OnOk result (out.new.items
        ≡ out.old.items ++ joined_strings (octets_of elements.now)) }
    ensures succeeds { length (joined_strings (octets_of elements.now)) < 2 ^ 32
        → length out.old.items < 2 ^ 32
        → IsOk result ⊎ IsErrAnd result (λ e. e ≡ error_of_kind OutOfMemory) }
{
    for element in elements {
        element.encode_to_vec(out)?;
    }
    Ok(())
}

/// Reads `octets` as exactly one SET OF OCTET STRING, and returns the contents of the SET OF.
/// Allocates nothing.
///
/// # Errors
///
/// - `Overflow` without a position, if there are more than 4294967295 octets.
/// - The errors of [`Header::decode`](der::Decode::decode), if the header is not valid.
/// - `TagUnexpected` without a position, if the header does not have the tag SET.
/// - The errors `Overflow` and `Incomplete` of [`Reader::enter_nested`], if the contents are
///   truncated.
/// - The errors of [`ReaderExt::decode`], if an element is not a valid OCTET STRING.
/// - `SetOrdering` at the position of the first element whose encoding is smaller than the encoding
///   of the element before it (X.690 11.6). Equal elements may follow each other.
/// - `TrailingData` at the position after the SET, if octets are left.
pub fn set_of_contents(alloc: Global, octets: &[u8]) -> Result<&[u8], Error>
    ensures ok { IfOk result (λ r. (strings : List (List ℕ)) × StringsAscend strings
        × (octets.now ≡ set_octets strings) × (r.now ≡ joined_strings strings)) }
    ensures exact { (strings : List (List ℕ)) → length octets.now < 2 ^ 32
        → octets.now ≡ set_octets strings
        → OrderAnswer (length (header_octets Set (length (joined_strings strings)))) strings
        (joined_strings strings) (map_ok (λ r. r.now) result) }
{
    let mut reader = SliceReader::new(octets)?;
    let len = set_header(&mut reader)?;
    let contents = reader.remaining()?;
    pass_contents(alloc, &mut reader, len)?;
    reader.finish()?;
    Ok(contents)
}

// The length of the contents of the next SET, whose header is consumed.
fn set_header(reader: &mut SliceReader<'_>) -> Result<Length, Error>
    requires { IsReady 0 (slice_state reader.old) }
    ensures same { Same (slice_state reader.old) (slice_state reader.new) }
    ensures ok { IfOk result (λ l. Reads (slice_state reader.old) (slice_state reader.new)
        (header_octets Set (number l))) }
    ensures complete { (n : ℕ) (more : List ℕ) → n < 2 ^ 32
        → rest_of (slice_state reader.old) ≡ header_octets Set n ++ more → IsOk result }
{
    let header = decode_header(reader)?;
    header.tag().assert_eq(Tag::Set)?;
    Ok(header.length())
}

// Consumes `len` octets of contents, which are elements in ascending order.
fn pass_contents(alloc: Global, reader: &mut SliceReader<'_>, len: Length) -> Result<(), Error>
    requires { IsReady 2 (slice_state reader.old) }
    ensures same { Same (slice_state reader.old) (slice_state reader.new) }
    ensures ok { OnOk result (ReadsAscending (slice_state reader.old) (slice_state reader.new)
        × ((slice_state reader.new).position
        ≡ (slice_state reader.old).position + number len)) }
    ensures exact { (strings : List (List ℕ)) (more : List ℕ)
        → rest_of (slice_state reader.old) ≡ joined_strings strings ++ more
        → number len ≡ length (joined_strings strings)
        → OrderAnswer (slice_state reader.old).position strings tt result }
{
    reader.read_nested(len, |reader: &mut SliceReader<'_>| -> Result<(), Error> {
        pass_elements(alloc, reader)
    })
}

// Consumes the elements up to the end, which must be in ascending order.
fn pass_elements(alloc: Global, reader: &mut SliceReader<'_>) -> Result<(), Error>
    requires { IsReady 1 (slice_state reader.old) }
    ensures same { Same (slice_state reader.old) (slice_state reader.new) }
    ensures passes { PassesStrings (slice_state reader.old) result (slice_state reader.new) }
{
    if reader.is_finished() {
        return Ok(());
    }
    let mut previous = next_element(alloc, reader)?;
    while !reader.is_finished() {
        previous = next_ascending(alloc, reader, &previous)?;
    }
    Ok(())
}

// The next element, which must not come before the preceding one.
#[inline(always)]
fn next_ascending<'a>(
    alloc: Global,
    reader: &mut SliceReader<'a>,
    previous: &BorrowedOctets<'a>,
) -> Result<BorrowedOctets<'a>, Error>
    requires { IsReady 1 (slice_state reader.old) }
    ensures same { Same (slice_state reader.old) (slice_state reader.new) }
    ensures ok { IfOk result (λ v. Reads (slice_state reader.old) (slice_state reader.new)
        (string_octets (borrowed_octets v))
        × MayFollow (borrowed_octets previous.now) (borrowed_octets v)) }
    ensures exact { (x more : List ℕ)
        → rest_of (slice_state reader.old) ≡ string_octets x ++ more
        → IsOk result
        ⊎ (IsBefore (string_octets x) (string_octets (borrowed_octets previous.now))
        × (result ≡ Err (error_at SetOrdering (reader_position (slice_state reader.old))))) }
{
    let begins = reader.position();
    let element = next_element(alloc, reader)?;
    match encoding_order(&element, previous) {
        Ordering::Less => Err(ErrorKind::SetOrdering.at(begins)),
        _ => Ok(element),
    }
}

// The next element.
#[inline(always)]
fn next_element<'a>(
    alloc: Global,
    reader: &mut SliceReader<'a>,
) -> Result<BorrowedOctets<'a>, Error>
    requires { IsReady 1 (slice_state reader.old) }
    ensures same { Same (slice_state reader.old) (slice_state reader.new) }
    ensures ok { IfOk result (λ v. Reads (slice_state reader.old) (slice_state reader.new)
        (string_octets (borrowed_octets v))) }
    ensures complete { (x more : List ℕ)
        → rest_of (slice_state reader.old) ≡ string_octets x ++ more → IsOk result }
{
    reader.decode(alloc)
}
