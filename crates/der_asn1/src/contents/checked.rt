//! Types whose contents are checked octets borrowed from the input.
ghost use Rattle.std.specs.Prelude.{◌≡◌, true, false, IfSome, IsSome, ◌↔◌, ⊤};
ghost use Rattle.std.proofs.Common.{arith, subst, sym};
ghost use Rattle.der_asn1.specs.Checked.{HasCheckedContents, AcceptsCheckedContents, CheckedContentsRead, contents_size};
ghost use Rattle.der_asn1.specs.Checked.{ContentsWritten, checked_contents_lawful};
ghost use Rattle.der_asn1.specs.Meaning.{of_form};

use crate::contents::form::check_form;
use crate::contents::grammar::ContentsGrammar;
use crate::fields::described::Described;
use crate::fields::explicit::Nestable;
use der::{
    DecodeValue, EncodeValue, Error, FixedTag, Header, IsValue, Lawful, Lends, Length, ReadValue,
    Reader, Tag, Writer, WrittenValue, octets_len, place_before,
};
use std::alloc::{AllocError, Global};
use std::marker::PhantomData;

/// A value of the type that `F` describes: octets that are borrowed from the input and are valid
/// contents of that type.
pub struct Checked<'a, F: ContentsGrammar> {
    octets: &'a [u8],
    grammar: PhantomData<F>,
    ghost checked: { F.grammar octets.now ≡ true },
}

/// A clone has the same octets; cloning does not allocate.
impl<'a, F: ContentsGrammar> Clone for Checked<'a, F> {
    ghost is_clone = { λ p q. q ≡ p };

    ghost is_infallible = { λ _. ⊤ };

    fn clone(&self) -> Result<Self, AllocError> {
        Ok(*self)
    }
}

impl<'a, F: ContentsGrammar> Copy for Checked<'a, F> {}

impl<'a, F: ContentsGrammar> Checked<'a, F> {
    /// Wraps `octets`; `None` if `octets` are not valid contents of the type that `F` describes.
    #[inline(always)]
    pub fn new(octets: &'a [u8]) -> Option<Self>
        ensures some { IsSome result ↔ (F.grammar octets.now ≡ true) }
        ensures same { IfSome result (λ v. v.octets.now ≡ octets.now) }
    {
        if F::matches_grammar(octets) {
            Some(Checked {
                octets,
                grammar: PhantomData,
            })
        } else {
            None
        }
    }

    /// Wraps octets that are known to be valid contents, such as a constant. The caller must ensure
    /// that the octets are valid contents.
    #[inline(always)]
    pub fn formed(octets: &'a [u8]) -> Self
        requires { F.grammar octets.now ≡ true }
        ensures { result.octets.now ≡ octets.now }
    {
        Checked {
            octets,
            grammar: PhantomData,
        }
    }

    /// The contents octets of the value.
    #[inline(always)]
    pub fn octets(&self) -> &'a [u8]
        ensures value { result.now ≡ self.now.octets.now }
        ensures formed { F.grammar result.now ≡ true }
    {
        self.octets
    }
}

impl<'a, F: ContentsGrammar> FixedTag for Checked<'a, F> {
    ghost tag_is = { F.tag_is };

    const TAG: Tag = F::TAG;

    #[inline(always)]
    fn fixed_tag() -> Tag
        ensures { result ≡ F.tag_is }
    {
        F::fixed_tag()
    }
}

impl<'a, F: ContentsGrammar> ReadValue for Checked<'a, F> {
    ghost valid = { HasCheckedContents F.grammar (λ v. v.octets.now) };

    ghost takes = { AcceptsCheckedContents F.tag_is F.grammar (λ v. v.octets.now) };

    ghost value_levels = { λ _. 0 };

    ghost allocates = { false };

    ghost takes_valid = { λ v rules h octets taken.
        subst (λ x. F.grammar x ≡ true) (sym taken.2) taken.1 };
}

/// Borrows the contents from the input and checks them. The check is as strict under BER as under
/// DER. The tag in the header is ignored, but the header must be primitive or constructed as the
/// tag of the type is: an OCTET STRING in segments is refused, also under BER.
///
/// # Errors
///
/// - `Noncanonical` with the header's tag, at the last octet of the header, if the header is
///   constructed and the tag of the type is not, or the other way round. The reader is unchanged
///   then.
/// - The errors of [`Reader::read_slice`], which reads the contents.
/// - `Value` with the tag of the type, at the position after the contents, if the contents are not
///   valid. The reader has failed then.
impl<'a, F: ContentsGrammar, R: Lends<Borrowed = &'a [u8]>> DecodeValue<R> for Checked<'a, F> {
    type Error = Error;

    ghost decode_value_answers = { CheckedContentsRead F.grammar F.tag_is (λ v. v.octets.now) };

    #[inline(always)]
    fn decode_value(_alloc: Global, reader: &mut R, header: Header) -> Result<Self, Error>
    where
        R: Reader,
    {
        let tag = F::fixed_tag();
        check_form(reader, &header, tag)?;
        let octets = reader.read_slice(header.length())?;
        match Checked::new(octets) {
            Some(value) => Ok(value),
            None => Err(reader.error(tag.value_error())),
        }
    }
}

impl<'a, F: ContentsGrammar> IsValue for Checked<'a, F> {
    fn is_value(&self) {
        let _octets = self.octets();
    }
}

impl<'a, F: ContentsGrammar> WrittenValue for Checked<'a, F> {
    ghost contents = { λ v. v.octets.now };

    ghost writable = { HasCheckedContents F.grammar (λ v. v.octets.now) };
}

/// Writes the contents octets unchanged.
///
/// # Errors
///
/// - `value_len` returns `Overflow` without a position, if there are more than 4294967295 contents
///   octets.
/// - `encode_value` returns the errors of [`Writer::write`].
impl<'a, F: ContentsGrammar> EncodeValue for Checked<'a, F> {
    ghost value_size = { λ v. contents_size v.octets.now };

    ghost encode_value_answers = { λ v. ContentsWritten v.octets.now };

    #[inline(always)]
    fn value_len(&self) -> Result<Length, Error> {
        Length::new_usize(self.octets.len())
    }

    #[inline(always)]
    fn encode_value<W: Writer>(&self, writer: &mut W) -> Result<(), Error> {
        writer.write(self.octets)
    }

    #[inline(always)]
    fn value_len_before(&self) -> Option<u32> {
        octets_len(self.octets)
    }

    #[inline(always)]
    fn encode_value_before(&self, buf: &mut [u8], end: u32) -> u32 {
        place_before(self.octets, buf, end)
    }
}

impl<'a, F: ContentsGrammar> Lawful for Checked<'a, F> {
    ghost lawful = { checked_contents_lawful F.tag_is F.grammar (λ v. v.octets.now) F.numbered };
}

impl<'a, F: ContentsGrammar> Nestable for Checked<'a, F> {
    ghost nestable = { Prim.omega arith };
}

impl<'a, F: ContentsGrammar> Described for Checked<'a, F> {
    ghost element = { of_form F.tag_is F.grammar (λ v. v.octets.now) };
}
