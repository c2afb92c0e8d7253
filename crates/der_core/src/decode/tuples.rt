//! Decoding of tuples of three to six fields, one member after the other.
ghost use Rattle.std.specs.Prelude.{◌≡◌, ◌||◌};
ghost use Rattle.der_core.specs.Fields.{FieldsNext, FieldsRead, fields_levels};
ghost use Rattle.der_core.specs.Tuples.{nested_three, nested_four, nested_five, nested_six};
ghost use Rattle.der_core.specs.Outcome.{map_ok};

use crate::decode::Decode;
use crate::from_fields::{FromFields, decode_fields};
use crate::reader::{Lends, Reader};
use der_base::Error;
use std::alloc::Global;

impl<A: Drop, B: Drop, C: Drop> FromFields<(A, (B, C))> for (A, B, C) {
    ghost fields = { nested_three };

    #[inline(always)]
    fn from_fields(members: (A, (B, C))) -> Self {
        let (a, (b, c)) = members;
        (a, b, c)
    }
}

/// Decodes the three members, first to last.
///
/// # Errors
///
/// Those of the first member that fails to decode.
impl<
    R: Lends,
    A: Decode<R, Error = Error>,
    B: Decode<R, Error = Error>,
    C: Decode<R, Error = Error>,
> Decode<R> for (A, B, C) {
    type Error = Error;

    ghost is_next = { λ v. FieldsNext A.is_next (FieldsNext B.is_next C.is_next) (nested_three v) };

    ghost decode_levels = { fields_levels A.decode_levels (fields_levels B.decode_levels
        C.decode_levels) };

    ghost allocates = { A.allocates || (B.allocates || C.allocates) };

    ghost decode_answers = { λ s result t. FieldsRead A.decode_answers (FieldsRead B.decode_answers
        C.decode_answers) s (map_ok nested_three result) t };

    #[inline(always)]
    fn decode(alloc: Global, reader: &mut R) -> Result<Self, Error>
    where
        R: Reader,
    {
        decode_fields::<R, (A, (B, C)), Self>(alloc, reader)
    }
}

impl<A: Drop, B: Drop, C: Drop, D: Drop> FromFields<(A, (B, (C, D)))> for (A, B, C, D) {
    ghost fields = { nested_four };

    #[inline(always)]
    fn from_fields(members: (A, (B, (C, D)))) -> Self {
        let (a, (b, (c, d))) = members;
        (a, b, c, d)
    }
}

/// Decodes the four members, first to last.
///
/// # Errors
///
/// Those of the first member that fails to decode.
impl<
    R: Lends,
    A: Decode<R, Error = Error>,
    B: Decode<R, Error = Error>,
    C: Decode<R, Error = Error>,
    D: Decode<R, Error = Error>,
> Decode<R> for (A, B, C, D) {
    type Error = Error;

    ghost is_next = { λ v. FieldsNext A.is_next (FieldsNext B.is_next (FieldsNext C.is_next
        D.is_next)) (nested_four v) };

    ghost decode_levels = { fields_levels A.decode_levels (fields_levels B.decode_levels
        (fields_levels C.decode_levels D.decode_levels)) };

    ghost allocates = { A.allocates || (B.allocates || (C.allocates || D.allocates)) };

    ghost decode_answers = { λ s result t. FieldsRead A.decode_answers (FieldsRead B.decode_answers
        (FieldsRead C.decode_answers D.decode_answers)) s (map_ok nested_four result) t };

    #[inline(always)]
    fn decode(alloc: Global, reader: &mut R) -> Result<Self, Error>
    where
        R: Reader,
    {
        decode_fields::<R, (A, (B, (C, D))), Self>(alloc, reader)
    }
}

impl<A: Drop, B: Drop, C: Drop, D: Drop, E: Drop> FromFields<(A, (B, (C, (D, E))))>
    for (A, B, C, D, E) {
    ghost fields = { nested_five };

    #[inline(always)]
    fn from_fields(members: (A, (B, (C, (D, E))))) -> Self {
        let (a, (b, (c, (d, e)))) = members;
        (a, b, c, d, e)
    }
}

/// Decodes the five members, first to last.
///
/// # Errors
///
/// Those of the first member that fails to decode.
impl<
    R: Lends,
    A: Decode<R, Error = Error>,
    B: Decode<R, Error = Error>,
    C: Decode<R, Error = Error>,
    D: Decode<R, Error = Error>,
    E: Decode<R, Error = Error>,
> Decode<R> for (A, B, C, D, E) {
    type Error = Error;

    ghost is_next = { λ v. FieldsNext A.is_next (FieldsNext B.is_next (FieldsNext C.is_next
        (FieldsNext D.is_next E.is_next))) (nested_five v) };

    ghost decode_levels = { fields_levels A.decode_levels (fields_levels B.decode_levels
        (fields_levels C.decode_levels (fields_levels D.decode_levels E.decode_levels))) };

    ghost allocates = { A.allocates || (B.allocates || (C.allocates || (D.allocates ||
        E.allocates))) };

    ghost decode_answers = { λ s result t. FieldsRead A.decode_answers (FieldsRead B.decode_answers
        (FieldsRead C.decode_answers (FieldsRead D.decode_answers E.decode_answers))) s (map_ok
        nested_five result) t };

    #[inline(always)]
    fn decode(alloc: Global, reader: &mut R) -> Result<Self, Error>
    where
        R: Reader,
    {
        decode_fields::<R, (A, (B, (C, (D, E)))), Self>(alloc, reader)
    }
}

impl<A: Drop, B: Drop, C: Drop, D: Drop, E: Drop, F: Drop> FromFields<(A, (B, (C, (D, (E, F)))))>
    for (A, B, C, D, E, F) {
    ghost fields = { nested_six };

    #[inline(always)]
    fn from_fields(members: (A, (B, (C, (D, (E, F)))))) -> Self {
        let (a, (b, (c, (d, (e, f))))) = members;
        (a, b, c, d, e, f)
    }
}

/// Decodes the six members, first to last.
///
/// # Errors
///
/// Those of the first member that fails to decode.
impl<
    R: Lends,
    A: Decode<R, Error = Error>,
    B: Decode<R, Error = Error>,
    C: Decode<R, Error = Error>,
    D: Decode<R, Error = Error>,
    E: Decode<R, Error = Error>,
    F: Decode<R, Error = Error>,
> Decode<R> for (A, B, C, D, E, F) {
    type Error = Error;

    ghost is_next = { λ v. FieldsNext A.is_next (FieldsNext B.is_next (FieldsNext C.is_next
        (FieldsNext D.is_next (FieldsNext E.is_next F.is_next)))) (nested_six v) };

    ghost decode_levels = { fields_levels A.decode_levels (fields_levels B.decode_levels
        (fields_levels C.decode_levels (fields_levels D.decode_levels (fields_levels E.decode_levels
        F.decode_levels)))) };

    ghost allocates = { A.allocates || (B.allocates || (C.allocates || (D.allocates || (E.allocates
        || F.allocates)))) };

    ghost decode_answers = { λ s result t. FieldsRead A.decode_answers (FieldsRead B.decode_answers
        (FieldsRead C.decode_answers (FieldsRead D.decode_answers (FieldsRead E.decode_answers
        F.decode_answers)))) s (map_ok nested_six result) t };

    #[inline(always)]
    fn decode(alloc: Global, reader: &mut R) -> Result<Self, Error>
    where
        R: Reader,
    {
        decode_fields::<R, (A, (B, (C, (D, (E, F))))), Self>(alloc, reader)
    }
}
