//! IMPLICIT context-specific tags.
ghost use Rattle.std.specs.Prelude.{◌≡◌, ℕ};
ghost use Rattle.std.proofs.Common.{arith};
ghost use Rattle.der.specs.Prelude.{map_ok};
ghost use Rattle.der.specs.Tag.{label};
ghost use Rattle.der_asn1.specs.ContextSpecific.{context_tag, retagged, TakesImplicit};
ghost use Rattle.der_asn1.specs.ContextSpecific.{implicit_lawful};
ghost use Rattle.der_asn1.specs.Meaning.{implicit};

use crate::fields::described::Described;
use crate::fields::explicit::Nestable;
use der::{
    DecodeValue, EncodeValue, Error, FixedTag, Header, IsValue, Lawful, Lends, Length, ReadValue,
    Reader, Tag, TagNumber, Writer, WrittenValue,
};
use std::alloc::Global;

/// A value whose own tag is replaced by the context-specific tag with the number `N` (X.690
/// 8.14.3). The new tag is constructed if and only if the value's own tag is constructed.
#[derive(Clone, Copy, Drop, PartialEq, Eq)]
pub struct Implicit<T, const N: u32>(pub T);

impl<T: FixedTag, const N: u32> FixedTag for Implicit<T, N> {
    ghost tag_is = { context_tag (label T.tag_is).constructed N };

    const TAG: Tag = Tag::ContextSpecific {
        constructed: Tag::is_constructed(T::TAG),
        number: TagNumber(N),
    };

    #[inline(always)]
    fn fixed_tag() -> Tag
        ensures { result ≡ context_tag (label T.tag_is).constructed N }
    {
        Tag::ContextSpecific {
            constructed: T::fixed_tag().is_constructed(),
            number: TagNumber(N),
        }
    }
}

impl<T: ReadValue + FixedTag, const N: u32> ReadValue for Implicit<T, N> {
    ghost valid = { λ v. T.valid v.0 };

    ghost takes = { TakesImplicit T.tag_is T.takes (λ v. v.0) };

    ghost value_levels = { T.value_levels };

    ghost allocates = { T.allocates };

    ghost takes_valid = { λ v rules h octets taken. T.takes_valid v.0 rules (retagged T.tag_is h)
        octets taken };
}

/// Decodes the contents as the contents of a value of type `T`.
///
/// # Errors
///
/// The errors of [`DecodeValue::decode_value`] for the type `T`.
impl<R: Lends, T: DecodeValue<R> + FixedTag, const N: u32> DecodeValue<R> for Implicit<T, N> {
    type Error = <T as DecodeValue<R>>::Error;

    ghost decode_value_answers = { λ h s result t. T.decode_value_answers (retagged T.tag_is h) s
        (map_ok (λ v. v.0) result) t };

    #[inline(always)]
    fn decode_value(
        alloc: Global,
        reader: &mut R,
        header: Header,
    ) -> Result<Self, <T as DecodeValue<R>>::Error>
    where
        R: Reader,
    {
        let own = Header::new(T::fixed_tag(), header.length());
        Ok(Implicit(T::decode_value(alloc, reader, own)?))
    }
}

impl<T: IsValue + FixedTag, const N: u32> IsValue for Implicit<T, N> {
    fn is_value(&self) {
        self.0.is_value()
    }
}

impl<T: WrittenValue, const N: u32> WrittenValue for Implicit<T, N> {
    ghost contents = { λ v. T.contents v.0 };

    ghost writable = { λ v. T.writable v.0 };
}

/// Writes the contents of the wrapped value of type `T`.
///
/// # Errors
///
/// The errors of `value_len` and `encode_value` for the wrapped value.
impl<T: EncodeValue, const N: u32> EncodeValue for Implicit<T, N> {
    ghost value_size = { λ v. T.value_size v.0 };

    ghost encode_value_answers = { λ v. T.encode_value_answers v.0 };

    #[inline(always)]
    fn value_len(&self) -> Result<Length, Error> {
        self.0.value_len()
    }

    #[inline(always)]
    fn encode_value<W: Writer>(&self, writer: &mut W) -> Result<(), Error> {
        self.0.encode_value(writer)
    }

    #[inline(always)]
    fn value_len_before(&self) -> Option<u32> {
        self.0.value_len_before()
    }

    #[inline(always)]
    fn encode_value_before(&self, buf: &mut [u8], end: u32) -> u32 {
        self.0.encode_value_before(buf, end)
    }
}

impl<T: Lawful, const N: u32> Lawful for Implicit<T, N> {
    ghost lawful = { implicit_lawful (context_tag (label T.tag_is).constructed N) (λ v. v.0)
        (Prim.omega arith) T.lawful };
}

impl<T: Nestable + FixedTag, const N: u32> Nestable for Implicit<T, N> {
    ghost nestable = { T.nestable };
}

impl<T: Described, const N: u32> Described for Implicit<T, N> {
    ghost element = { implicit N T.element (λ v. v.0) };
}
