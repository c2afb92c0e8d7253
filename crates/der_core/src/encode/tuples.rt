//! Encoding of tuples of three to six fields, one member after the other.
ghost use Rattle.std.specs.Prelude.{◌≡◌, ◌++◌};
ghost use Rattle.der_core.specs.Fields.{fields_size, FieldsWritten};

use crate::encode::Encode;
use crate::field_refs;
use crate::writer::Writer;
use der_base::{Error, Length};

/// Writes the three members, first to last.
///
/// # Errors
///
/// Those of the first member that fails. [`Encode::encoded_len`] also fails with `Overflow` without
/// a position, if the members together have more than 4294967295 octets.
impl<A: Encode, B: Encode, C: Encode> Encode for (A, B, C) {
    ghost encoding = { λ v. A.encoding v.0 ++ (B.encoding v.1 ++ C.encoding v.2) };

    ghost encodable = { λ v. A.encodable v.0 × (B.encodable v.1 × C.encodable v.2) };

    ghost size = { λ v. fields_size (A.size v.0) (fields_size (B.size v.1) (C.size v.2)) };

    ghost encode_answers = { λ v. FieldsWritten (A.encode_answers v.0) (FieldsWritten
        (B.encode_answers v.1) (C.encode_answers v.2)) };

    #[inline(always)]
    fn encoded_len(&self) -> Result<Length, Error> {
        field_refs!(self, (0, (1, 2))).encoded_len()
    }

    #[inline(always)]
    fn encode<W: Writer>(&self, writer: &mut W) -> Result<(), Error> {
        field_refs!(self, (0, (1, 2))).encode(writer)
    }

    #[inline(always)]
    fn len_before(&self) -> Option<u32> {
        field_refs!(self, (0, (1, 2))).len_before()
    }

    #[inline(always)]
    fn encode_before(&self, buf: &mut [u8], end: u32) -> u32 {
        field_refs!(self, (0, (1, 2))).encode_before(buf, end)
    }
}

/// Writes the four members, first to last.
///
/// # Errors
///
/// Those of the first member that fails. [`Encode::encoded_len`] also fails with `Overflow` without
/// a position, if the members together have more than 4294967295 octets.
impl<A: Encode, B: Encode, C: Encode, D: Encode> Encode for (A, B, C, D) {
    ghost encoding = { λ v. A.encoding v.0 ++ (B.encoding v.1 ++ (C.encoding v.2 ++ D.encoding v.3)) };

    ghost encodable = { λ v. A.encodable v.0 × (B.encodable v.1 × (C.encodable v.2 × D.encodable
        v.3)) };

    ghost size = { λ v. fields_size (A.size v.0) (fields_size (B.size v.1) (fields_size (C.size v.2)
        (D.size v.3))) };

    ghost encode_answers = { λ v. FieldsWritten (A.encode_answers v.0) (FieldsWritten
        (B.encode_answers v.1) (FieldsWritten (C.encode_answers v.2) (D.encode_answers v.3))) };

    #[inline(always)]
    fn encoded_len(&self) -> Result<Length, Error> {
        field_refs!(self, (0, (1, (2, 3)))).encoded_len()
    }

    #[inline(always)]
    fn encode<W: Writer>(&self, writer: &mut W) -> Result<(), Error> {
        field_refs!(self, (0, (1, (2, 3)))).encode(writer)
    }

    #[inline(always)]
    fn len_before(&self) -> Option<u32> {
        field_refs!(self, (0, (1, (2, 3)))).len_before()
    }

    #[inline(always)]
    fn encode_before(&self, buf: &mut [u8], end: u32) -> u32 {
        field_refs!(self, (0, (1, (2, 3)))).encode_before(buf, end)
    }
}

/// Writes the five members, first to last.
///
/// # Errors
///
/// Those of the first member that fails. [`Encode::encoded_len`] also fails with `Overflow` without
/// a position, if the members together have more than 4294967295 octets.
impl<A: Encode, B: Encode, C: Encode, D: Encode, E: Encode> Encode for (A, B, C, D, E) {
    ghost encoding = { λ v. A.encoding v.0 ++ (B.encoding v.1 ++ (C.encoding v.2 ++ (D.encoding v.3
        ++ E.encoding v.4))) };

    ghost encodable = { λ v. A.encodable v.0 × (B.encodable v.1 × (C.encodable v.2 × (D.encodable
        v.3 × E.encodable v.4))) };

    ghost size = { λ v. fields_size (A.size v.0) (fields_size (B.size v.1) (fields_size (C.size v.2)
        (fields_size (D.size v.3) (E.size v.4)))) };

    ghost encode_answers = { λ v. FieldsWritten (A.encode_answers v.0) (FieldsWritten
        (B.encode_answers v.1) (FieldsWritten (C.encode_answers v.2) (FieldsWritten
        (D.encode_answers v.3) (E.encode_answers v.4)))) };

    #[inline(always)]
    fn encoded_len(&self) -> Result<Length, Error> {
        field_refs!(self, (0, (1, (2, (3, 4))))).encoded_len()
    }

    #[inline(always)]
    fn encode<W: Writer>(&self, writer: &mut W) -> Result<(), Error> {
        field_refs!(self, (0, (1, (2, (3, 4))))).encode(writer)
    }

    #[inline(always)]
    fn len_before(&self) -> Option<u32> {
        field_refs!(self, (0, (1, (2, (3, 4))))).len_before()
    }

    #[inline(always)]
    fn encode_before(&self, buf: &mut [u8], end: u32) -> u32 {
        field_refs!(self, (0, (1, (2, (3, 4))))).encode_before(buf, end)
    }
}

/// Writes the six members, first to last.
///
/// # Errors
///
/// Those of the first member that fails. [`Encode::encoded_len`] also fails with `Overflow` without
/// a position, if the members together have more than 4294967295 octets.
impl<A: Encode, B: Encode, C: Encode, D: Encode, E: Encode, F: Encode> Encode
    for (A, B, C, D, E, F) {
    ghost encoding = { λ v. A.encoding v.0 ++ (B.encoding v.1 ++ (C.encoding v.2 ++ (D.encoding v.3
        ++ (E.encoding v.4 ++ F.encoding v.5)))) };

    ghost encodable = { λ v. A.encodable v.0 × (B.encodable v.1 × (C.encodable v.2 × (D.encodable
        v.3 × (E.encodable v.4 × F.encodable v.5)))) };

    ghost size = { λ v. fields_size (A.size v.0) (fields_size (B.size v.1) (fields_size (C.size v.2)
        (fields_size (D.size v.3) (fields_size (E.size v.4) (F.size v.5))))) };

    ghost encode_answers = { λ v. FieldsWritten (A.encode_answers v.0) (FieldsWritten
        (B.encode_answers v.1) (FieldsWritten (C.encode_answers v.2) (FieldsWritten
        (D.encode_answers v.3) (FieldsWritten (E.encode_answers v.4) (F.encode_answers v.5))))) };

    #[inline(always)]
    fn encoded_len(&self) -> Result<Length, Error> {
        field_refs!(self, (0, (1, (2, (3, (4, 5)))))).encoded_len()
    }

    #[inline(always)]
    fn encode<W: Writer>(&self, writer: &mut W) -> Result<(), Error> {
        field_refs!(self, (0, (1, (2, (3, (4, 5)))))).encode(writer)
    }

    #[inline(always)]
    fn len_before(&self) -> Option<u32> {
        field_refs!(self, (0, (1, (2, (3, (4, 5)))))).len_before()
    }

    #[inline(always)]
    fn encode_before(&self, buf: &mut [u8], end: u32) -> u32 {
        field_refs!(self, (0, (1, (2, (3, (4, 5)))))).encode_before(buf, end)
    }
}
