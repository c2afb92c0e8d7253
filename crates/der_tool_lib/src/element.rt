//! Elements of any tag under DER, with their contents.
ghost use Rattle.std.specs.Prelude.{◌≡◌, IfOk, IfErr};
ghost use Rattle.std.proofs.Common.{refl};
ghost use Rattle.der.specs.Prelude.{element_octets, Gives, map_ok, read_slice_outcome, Same, slice_state, number};
ghost use Rattle.der.specs.BytesRef.{reference_octets};
ghost use Rattle.der.specs.OctetsOrder.{octets_order};
ghost use Rattle.der.specs.Octets.{IsCounted, octets_size, OctetsWritten};
ghost use Rattle.der_tool_lib.specs.Answer.{IsWholeElement, NoWholeElement};
ghost use Rattle.der_tool_lib.specs.WholeElement.{contents_of};

use der::{
    BytesRef, DerOrd, EncodeValue, Error, Header, Length, Orderly, Reader, SliceReader, Tag,
    Tagged, ValueOrd, Writer, WrittenValue, decode_header, read_value,
};
use std::cmp::Ordering;

/// An element of any tag under DER: the tag and the contents (X.690 8.1.1).
#[derive(Clone, Copy)]
pub struct Element<'a> {
    tag: Tag,
    octets: BytesRef<'a>,
}

impl<'a> Element<'a> {
    /// Reads `octets` as exactly one element under DER.
    ///
    /// # Errors
    ///
    /// - `Overflow` without a position, if `octets` are more than 4294967295 octets.
    /// - The errors `Incomplete`, `Overflow`, `TagUnknown`, `TagNumberInvalid`, `IndefiniteLength`
    ///   and `Length` of [`decode_header`], if the header is not valid.
    /// - `Overflow` without a position, if the contents would end after position 4294967295.
    /// - `Incomplete` at the end of `octets`, if the contents would end after the end of `octets`,
    ///   but not after position 4294967295.
    /// - `TrailingData` at the end of the contents, if octets are left after the contents.
    pub fn from_octets(octets: &'a [u8]) -> Result<Self, Error>
        ensures whole { IfOk result (λ e. IsWholeElement octets.now) }
        ensures ok { IfOk result (λ e. element_octets e.tag (contents_of e) ≡ octets.now) }
        ensures err { IfErr result (NoWholeElement octets.now) }
    {
        let mut reader = SliceReader::new(octets)?;
        let header = decode_header(&mut reader)?;
        let octets = read_value(
            &mut reader,
            header,
            |reader: &mut SliceReader<'_>, header: Header| -> Result<BytesRef<'_>, Error>
                ensures same { Same (slice_state reader.old) (slice_state reader.new) }
                ensures exact { Gives (read_slice_outcome (number header.length))
                    (slice_state reader.old) (map_ok reference_octets result)
                    (slice_state reader.new) }
            { BytesRef::new(reader.read_slice(header.length())?) },
        )?;
        reader.finish()?;
        Ok(Element {
            tag: header.tag(),
            octets,
        })
    }
}

impl<'a> Tagged for Element<'a> {
    ghost tag_of = { λ e. e.tag };

    fn tag(&self) -> Tag {
        self.tag
    }
}

impl<'a> WrittenValue for Element<'a> {
    ghost contents = { contents_of };

    ghost writable = { λ e. IsCounted (contents_of e) };
}

/// Writes the contents unchanged.
///
/// # Errors
///
/// - [`EncodeValue::value_len`] never fails.
/// - [`EncodeValue::encode_value`] returns the errors of [`Writer::write`].
impl<'a> EncodeValue for Element<'a> {
    ghost value_size = { octets_size contents_of };

    ghost encode_value_answers = { OctetsWritten contents_of };

    fn value_len(&self) -> Result<Length, Error> {
        self.octets.value_len()
    }

    fn encode_value<W: Writer>(&self, writer: &mut W) -> Result<(), Error> {
        self.octets.encode_value(writer)
    }
}

/// Compares the contents octets of two elements in lexicographic order. Does not compare their
/// tags. Never fails.
impl<'a> ValueOrd for Element<'a> {
    ghost value_order = { octets_order contents_of };

    fn value_cmp(&self, other: &Self) -> Result<Ordering, Error> {
        self.octets.der_cmp(&other.octets)
    }
}

impl<'a> Orderly for Element<'a> {
    ghost orderly = { λ _ _ _ _. refl };
}
