//! Encoding of tuples of seven to twelve fields, one member after the other.
ghost use Rattle.std.specs.Prelude.{◌≡◌, ◌++◌};
ghost use Rattle.der_core.specs.Fields.{fields_size, FieldsWritten};
ghost use Rattle.der_core.specs.Tuples.{
  halves_seven,
  halves_eight,
  halves_nine,
  halves_ten,
  halves_eleven,
  halves_twelve,
};

use crate::encode::Encode;
use crate::field_refs;
use crate::writer::Writer;
use der_base::{Error, Length};

/// Writes the seven members, first to last.
///
/// # Errors
///
/// Those of the first member that fails. [`Encode::encoded_len`] also fails with `Overflow` without
/// a position, if the members together have more than 4294967295 octets.
impl<A: Encode, B: Encode, C: Encode, D: Encode, E: Encode, F: Encode, G: Encode> Encode
    for (A, B, C, D, E, F, G) {
    ghost encoding = { λ v. ⟦<(A, B, C, D) as Encode>⟧.encoding (halves_seven v).0 ++
        ⟦<(E, F, G) as Encode>⟧.encoding (halves_seven v).1 };

    ghost encodable = { λ v. ⟦<(A, B, C, D) as Encode>⟧.encodable (halves_seven v).0 ×
        ⟦<(E, F, G) as Encode>⟧.encodable (halves_seven v).1 };

    ghost size = { λ v. fields_size (⟦<(A, B, C, D) as Encode>⟧.size (halves_seven v).0)
        (⟦<(E, F, G) as Encode>⟧.size (halves_seven v).1) };

    ghost encode_answers = { λ v. FieldsWritten (⟦<(A, B, C, D) as Encode>⟧.encode_answers
        (halves_seven v).0) (⟦<(E, F, G) as Encode>⟧.encode_answers (halves_seven v).1) };

    #[inline(always)]
    fn encoded_len(&self) -> Result<Length, Error> {
        field_refs!(self, ((0, 1, 2, 3), (4, 5, 6))).encoded_len()
    }

    #[inline(always)]
    fn encode<W: Writer>(&self, writer: &mut W) -> Result<(), Error> {
        field_refs!(self, ((0, 1, 2, 3), (4, 5, 6))).encode(writer)
    }

    #[inline(always)]
    fn len_before(&self) -> Option<u32> {
        field_refs!(self, ((0, 1, 2, 3), (4, 5, 6))).len_before()
    }

    #[inline(always)]
    fn encode_before(&self, buf: &mut [u8], end: u32) -> u32 {
        field_refs!(self, ((0, 1, 2, 3), (4, 5, 6))).encode_before(buf, end)
    }
}

/// Writes the eight members, first to last.
///
/// # Errors
///
/// Those of the first member that fails. [`Encode::encoded_len`] also fails with `Overflow` without
/// a position, if the members together have more than 4294967295 octets.
impl<A: Encode, B: Encode, C: Encode, D: Encode, E: Encode, F: Encode, G: Encode, H: Encode> Encode
    for (A, B, C, D, E, F, G, H) {
    ghost encoding = { λ v. ⟦<(A, B, C, D) as Encode>⟧.encoding (halves_eight v).0 ++
        ⟦<(E, F, G, H) as Encode>⟧.encoding (halves_eight v).1 };

    ghost encodable = { λ v. ⟦<(A, B, C, D) as Encode>⟧.encodable (halves_eight v).0 ×
        ⟦<(E, F, G, H) as Encode>⟧.encodable (halves_eight v).1 };

    ghost size = { λ v. fields_size (⟦<(A, B, C, D) as Encode>⟧.size (halves_eight v).0)
        (⟦<(E, F, G, H) as Encode>⟧.size (halves_eight v).1) };

    ghost encode_answers = { λ v. FieldsWritten (⟦<(A, B, C, D) as Encode>⟧.encode_answers
        (halves_eight v).0) (⟦<(E, F, G, H) as Encode>⟧.encode_answers (halves_eight v).1) };

    #[inline(always)]
    fn encoded_len(&self) -> Result<Length, Error> {
        field_refs!(self, ((0, 1, 2, 3), (4, 5, 6, 7))).encoded_len()
    }

    #[inline(always)]
    fn encode<W: Writer>(&self, writer: &mut W) -> Result<(), Error> {
        field_refs!(self, ((0, 1, 2, 3), (4, 5, 6, 7))).encode(writer)
    }

    #[inline(always)]
    fn len_before(&self) -> Option<u32> {
        field_refs!(self, ((0, 1, 2, 3), (4, 5, 6, 7))).len_before()
    }

    #[inline(always)]
    fn encode_before(&self, buf: &mut [u8], end: u32) -> u32 {
        field_refs!(self, ((0, 1, 2, 3), (4, 5, 6, 7))).encode_before(buf, end)
    }
}

/// Writes the nine members, first to last.
///
/// # Errors
///
/// Those of the first member that fails. [`Encode::encoded_len`] also fails with `Overflow` without
/// a position, if the members together have more than 4294967295 octets.
impl<
    A: Encode,
    B: Encode,
    C: Encode,
    D: Encode,
    E: Encode,
    F: Encode,
    G: Encode,
    H: Encode,
    I: Encode,
> Encode for (A, B, C, D, E, F, G, H, I) {
    ghost encoding = { λ v. ⟦<(A, B, C, D, E) as Encode>⟧.encoding (halves_nine v).0 ++
        ⟦<(F, G, H, I) as Encode>⟧.encoding (halves_nine v).1 };

    ghost encodable = { λ v. ⟦<(A, B, C, D, E) as Encode>⟧.encodable (halves_nine v).0 ×
        ⟦<(F, G, H, I) as Encode>⟧.encodable (halves_nine v).1 };

    ghost size = { λ v. fields_size (⟦<(A, B, C, D, E) as Encode>⟧.size (halves_nine v).0)
        (⟦<(F, G, H, I) as Encode>⟧.size (halves_nine v).1) };

    ghost encode_answers = { λ v. FieldsWritten (⟦<(A, B, C, D, E) as Encode>⟧.encode_answers
        (halves_nine v).0) (⟦<(F, G, H, I) as Encode>⟧.encode_answers (halves_nine v).1) };

    #[inline(always)]
    fn encoded_len(&self) -> Result<Length, Error> {
        field_refs!(self, ((0, 1, 2, 3, 4), (5, 6, 7, 8))).encoded_len()
    }

    #[inline(always)]
    fn encode<W: Writer>(&self, writer: &mut W) -> Result<(), Error> {
        field_refs!(self, ((0, 1, 2, 3, 4), (5, 6, 7, 8))).encode(writer)
    }

    #[inline(always)]
    fn len_before(&self) -> Option<u32> {
        field_refs!(self, ((0, 1, 2, 3, 4), (5, 6, 7, 8))).len_before()
    }

    #[inline(always)]
    fn encode_before(&self, buf: &mut [u8], end: u32) -> u32 {
        field_refs!(self, ((0, 1, 2, 3, 4), (5, 6, 7, 8))).encode_before(buf, end)
    }
}

/// Writes the ten members, first to last.
///
/// # Errors
///
/// Those of the first member that fails. [`Encode::encoded_len`] also fails with `Overflow` without
/// a position, if the members together have more than 4294967295 octets.
impl<
    A: Encode,
    B: Encode,
    C: Encode,
    D: Encode,
    E: Encode,
    F: Encode,
    G: Encode,
    H: Encode,
    I: Encode,
    J: Encode,
> Encode for (A, B, C, D, E, F, G, H, I, J) {
    ghost encoding = { λ v. ⟦<(A, B, C, D, E) as Encode>⟧.encoding (halves_ten v).0 ++
        ⟦<(F, G, H, I, J) as Encode>⟧.encoding (halves_ten v).1 };

    ghost encodable = { λ v. ⟦<(A, B, C, D, E) as Encode>⟧.encodable (halves_ten v).0 ×
        ⟦<(F, G, H, I, J) as Encode>⟧.encodable (halves_ten v).1 };

    ghost size = { λ v. fields_size (⟦<(A, B, C, D, E) as Encode>⟧.size (halves_ten v).0)
        (⟦<(F, G, H, I, J) as Encode>⟧.size (halves_ten v).1) };

    ghost encode_answers = { λ v. FieldsWritten (⟦<(A, B, C, D, E) as Encode>⟧.encode_answers
        (halves_ten v).0) (⟦<(F, G, H, I, J) as Encode>⟧.encode_answers (halves_ten v).1) };

    #[inline(always)]
    fn encoded_len(&self) -> Result<Length, Error> {
        field_refs!(self, ((0, 1, 2, 3, 4), (5, 6, 7, 8, 9))).encoded_len()
    }

    #[inline(always)]
    fn encode<W: Writer>(&self, writer: &mut W) -> Result<(), Error> {
        field_refs!(self, ((0, 1, 2, 3, 4), (5, 6, 7, 8, 9))).encode(writer)
    }

    #[inline(always)]
    fn len_before(&self) -> Option<u32> {
        field_refs!(self, ((0, 1, 2, 3, 4), (5, 6, 7, 8, 9))).len_before()
    }

    #[inline(always)]
    fn encode_before(&self, buf: &mut [u8], end: u32) -> u32 {
        field_refs!(self, ((0, 1, 2, 3, 4), (5, 6, 7, 8, 9))).encode_before(buf, end)
    }
}

/// Writes the eleven members, first to last.
///
/// # Errors
///
/// Those of the first member that fails. [`Encode::encoded_len`] also fails with `Overflow` without
/// a position, if the members together have more than 4294967295 octets.
impl<
    A: Encode,
    B: Encode,
    C: Encode,
    D: Encode,
    E: Encode,
    F: Encode,
    G: Encode,
    H: Encode,
    I: Encode,
    J: Encode,
    K: Encode,
> Encode for (A, B, C, D, E, F, G, H, I, J, K) {
    ghost encoding = { λ v. ⟦<(A, B, C, D, E, F) as Encode>⟧.encoding (halves_eleven v).0 ++
        ⟦<(G, H, I, J, K) as Encode>⟧.encoding (halves_eleven v).1 };

    ghost encodable = { λ v. ⟦<(A, B, C, D, E, F) as Encode>⟧.encodable (halves_eleven v).0 ×
        ⟦<(G, H, I, J, K) as Encode>⟧.encodable (halves_eleven v).1 };

    ghost size = { λ v. fields_size (⟦<(A, B, C, D, E, F) as Encode>⟧.size (halves_eleven v).0)
        (⟦<(G, H, I, J, K) as Encode>⟧.size (halves_eleven v).1) };

    ghost encode_answers = { λ v. FieldsWritten (⟦<(A, B, C, D, E, F) as Encode>⟧.encode_answers
        (halves_eleven v).0) (⟦<(G, H, I, J, K) as Encode>⟧.encode_answers (halves_eleven v).1) };

    #[inline(always)]
    fn encoded_len(&self) -> Result<Length, Error> {
        field_refs!(self, ((0, 1, 2, 3, 4, 5), (6, 7, 8, 9, 10))).encoded_len()
    }

    #[inline(always)]
    fn encode<W: Writer>(&self, writer: &mut W) -> Result<(), Error> {
        field_refs!(self, ((0, 1, 2, 3, 4, 5), (6, 7, 8, 9, 10))).encode(writer)
    }

    #[inline(always)]
    fn len_before(&self) -> Option<u32> {
        field_refs!(self, ((0, 1, 2, 3, 4, 5), (6, 7, 8, 9, 10))).len_before()
    }

    #[inline(always)]
    fn encode_before(&self, buf: &mut [u8], end: u32) -> u32 {
        field_refs!(self, ((0, 1, 2, 3, 4, 5), (6, 7, 8, 9, 10))).encode_before(buf, end)
    }
}

/// Writes the twelve members, first to last.
///
/// # Errors
///
/// Those of the first member that fails. [`Encode::encoded_len`] also fails with `Overflow` without
/// a position, if the members together have more than 4294967295 octets.
impl<
    A: Encode,
    B: Encode,
    C: Encode,
    D: Encode,
    E: Encode,
    F: Encode,
    G: Encode,
    H: Encode,
    I: Encode,
    J: Encode,
    K: Encode,
    L: Encode,
> Encode for (A, B, C, D, E, F, G, H, I, J, K, L) {
    ghost encoding = { λ v. ⟦<(A, B, C, D, E, F) as Encode>⟧.encoding (halves_twelve v).0 ++
        ⟦<(G, H, I, J, K, L) as Encode>⟧.encoding (halves_twelve v).1 };

    ghost encodable = { λ v. ⟦<(A, B, C, D, E, F) as Encode>⟧.encodable (halves_twelve v).0 ×
        ⟦<(G, H, I, J, K, L) as Encode>⟧.encodable (halves_twelve v).1 };

    ghost size = { λ v. fields_size (⟦<(A, B, C, D, E, F) as Encode>⟧.size (halves_twelve v).0)
        (⟦<(G, H, I, J, K, L) as Encode>⟧.size (halves_twelve v).1) };

    ghost encode_answers = { λ v. FieldsWritten (⟦<(A, B, C, D, E, F) as Encode>⟧.encode_answers
        (halves_twelve v).0) (⟦<(G, H, I, J, K, L) as Encode>⟧.encode_answers (halves_twelve v).1) };

    #[inline(always)]
    fn encoded_len(&self) -> Result<Length, Error> {
        field_refs!(self, ((0, 1, 2, 3, 4, 5), (6, 7, 8, 9, 10, 11))).encoded_len()
    }

    #[inline(always)]
    fn encode<W: Writer>(&self, writer: &mut W) -> Result<(), Error> {
        field_refs!(self, ((0, 1, 2, 3, 4, 5), (6, 7, 8, 9, 10, 11))).encode(writer)
    }

    #[inline(always)]
    fn len_before(&self) -> Option<u32> {
        field_refs!(self, ((0, 1, 2, 3, 4, 5), (6, 7, 8, 9, 10, 11))).len_before()
    }

    #[inline(always)]
    fn encode_before(&self, buf: &mut [u8], end: u32) -> u32 {
        field_refs!(self, ((0, 1, 2, 3, 4, 5), (6, 7, 8, 9, 10, 11))).encode_before(buf, end)
    }
}
