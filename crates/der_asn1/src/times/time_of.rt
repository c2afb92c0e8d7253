//! Times that are encoded as a UTCTime or a GeneralizedTime.
ghost use Rattle.std.specs.Prelude.{◌≡◌, ◌<◌, ◌↔◌, ⊤, true, false, IsSome, IfSome};
ghost use Rattle.std.proofs.Common.{arith, subst, sym};
ghost use Rattle.der_asn1.specs.Checked.{HasCheckedContents, AcceptsCheckedContents, CheckedContentsRead, contents_size};
ghost use Rattle.der_asn1.specs.Checked.{ContentsWritten, checked_contents_lawful};
ghost use Rattle.der_asn1.specs.Meaning.{of_form};

use crate::contents::form::check_form;
use crate::fields::described::Described;
use crate::fields::explicit::Nestable;
use crate::times::date_time::DateTime;
use crate::times::time_format::TimeFormat;
use der::{
    DecodeValue, EncodeValue, Error, FixedTag, Header, IsValue, Lawful, Lends, Length, ReadValue,
    Reader, Tag, Writer, WrittenValue, octets_len, place_before,
};
use std::alloc::{AllocError, Global};
use std::marker::PhantomData;

/// A time that is encoded in the format `F`, as a UTCTime or a GeneralizedTime.
pub struct TimeOf<F: TimeFormat> {
    time: DateTime,
    grammar: PhantomData<F>,
    ghost held: { F.holds time ≡ true },
}

/// A clone is the same time; cloning does not allocate.
impl<F: TimeFormat> Clone for TimeOf<F> {
    ghost is_clone = { λ p q. q ≡ p };

    ghost is_infallible = { λ _. ⊤ };

    fn clone(&self) -> Result<Self, AllocError> {
        Ok(*self)
    }
}

impl<F: TimeFormat> Copy for TimeOf<F> {}

impl<F: TimeFormat> TimeOf<F> {
    /// The value for `time`; `None` if `time` cannot be written in the format `F`.
    pub fn new(time: DateTime) -> Option<Self>
        ensures some { IsSome result ↔ (F.holds time ≡ true) }
        ensures same { IfSome result (λ v. v.time ≡ time) }
    {
        if F::can_hold(&time) {
            Some(TimeOf {
                time,
                grammar: PhantomData,
            })
        } else {
            None
        }
    }

    /// The time, as a date with a time of day.
    pub fn date_time(&self) -> DateTime
        ensures value { result ≡ self.now.time }
        ensures held { F.holds result ≡ true }
    {
        self.time
    }
}

impl<F: TimeFormat> FixedTag for TimeOf<F> {
    ghost tag_is = { F.tag_is };

    const TAG: Tag = F::TAG;

    #[inline(always)]
    fn fixed_tag() -> Tag
        ensures { result ≡ F.tag_is }
    {
        F::fixed_tag()
    }
}

impl<F: TimeFormat> ReadValue for TimeOf<F> {
    ghost valid = { HasCheckedContents F.grammar (λ v. F.contents_of v.time) };

    ghost takes = { AcceptsCheckedContents F.tag_is F.grammar (λ v. F.contents_of v.time) };

    ghost value_levels = { λ _. 0 };

    ghost allocates = { false };

    ghost takes_valid = { λ v rules h octets taken.
        subst (λ x. F.grammar x ≡ true) (sym taken.2) taken.1 };
}

/// Reads the time from the contents. Accepts only the contents that DER allows, also under BER
/// (X.690 11.7, 11.8).
///
/// # Errors
///
/// - `Noncanonical` with the header's tag, at the last octet of the header, if the header is
///   constructed. The reader is unchanged then.
/// - The errors of [`Reader::read_slice`], which reads the contents.
/// - `Value` with the tag of the type, at the position after the contents, if the contents are not
///   a time in the format `F`. The reader has failed then.
impl<'a, F: TimeFormat, R: Lends<Borrowed = &'a [u8]>> DecodeValue<R> for TimeOf<F> {
    type Error = Error;

    ghost decode_value_answers = { CheckedContentsRead F.grammar F.tag_is (λ v. F.contents_of v.time) };

    #[inline(always)]
    fn decode_value(_alloc: Global, reader: &mut R, header: Header) -> Result<Self, Error>
    where
        R: Reader,
    {
        let tag = F::fixed_tag();
        check_form(reader, &header, tag)?;
        let octets = reader.read_slice(header.length())?;
        match F::from_contents(octets) {
            Some(time) => Ok(TimeOf {
                time,
                grammar: PhantomData,
            }),
            None => Err(reader.error(tag.value_error())),
        }
    }
}

impl<F: TimeFormat> IsValue for TimeOf<F> {
    fn is_value(&self) {
        let _contents = F::to_contents(&self.time);
    }
}

impl<F: TimeFormat> WrittenValue for TimeOf<F> {
    ghost contents = { λ v. F.contents_of v.time };

    ghost writable = { HasCheckedContents F.grammar (λ v. F.contents_of v.time) };
}

/// Writes the time in the format `F`.
///
/// # Errors
///
/// `value_len` never fails. `encode_value` returns the errors of [`Writer::write`].
impl<F: TimeFormat> EncodeValue for TimeOf<F> {
    ghost value_size = { λ v. contents_size (F.contents_of v.time) };

    ghost encode_value_answers = { λ v. ContentsWritten (F.contents_of v.time) };

    #[inline(always)]
    fn value_len(&self) -> Result<Length, Error> {
        Length::new_usize(F::to_contents(&self.time).as_slice().len())
    }

    #[inline(always)]
    fn encode_value<W: Writer>(&self, writer: &mut W) -> Result<(), Error> {
        writer.write(F::to_contents(&self.time).as_slice())
    }

    #[inline(always)]
    fn value_len_before(&self) -> Option<u32> {
        octets_len(F::to_contents(&self.time).as_slice())
    }

    #[inline(always)]
    fn encode_value_before(&self, buf: &mut [u8], end: u32) -> u32 {
        place_before(F::to_contents(&self.time).as_slice(), buf, end)
    }
}

impl<F: TimeFormat> Lawful for TimeOf<F> {
    ghost lawful = { checked_contents_lawful F.tag_is F.grammar (λ v. F.contents_of v.time) F.numbered };
}

impl<F: TimeFormat> Nestable for TimeOf<F> {
    ghost nestable = { Prim.omega arith };
}

impl<F: TimeFormat> Described for TimeOf<F> {
    ghost element = { of_form F.tag_is F.grammar (λ v. F.contents_of v.time) };
}
