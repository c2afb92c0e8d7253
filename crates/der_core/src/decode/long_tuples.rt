//! Decoding of tuples of seven to twelve fields, one member after the other.
ghost use Rattle.std.specs.Prelude.{◌≡◌, ◌||◌};
ghost use Rattle.der_core.specs.Fields.{FieldsNext, FieldsRead, fields_levels};
ghost use Rattle.der_core.specs.Tuples.{
  halves_seven,
  halves_eight,
  halves_nine,
  halves_ten,
  halves_eleven,
  halves_twelve,
};
ghost use Rattle.der_core.specs.Outcome.{map_ok};

use crate::decode::Decode;
use crate::from_fields::{FromFields, decode_fields};
use crate::reader::{Lends, Reader};
use der_base::Error;
use std::alloc::Global;

impl<A: Drop, B: Drop, C: Drop, D: Drop, E: Drop, F: Drop, G: Drop> FromFields<
    ((A, B, C, D), (E, F, G)),
> for (A, B, C, D, E, F, G) {
    ghost fields = { halves_seven };

    #[inline(always)]
    fn from_fields(members: ((A, B, C, D), (E, F, G))) -> Self {
        let ((a, b, c, d), (e, f, g)) = members;
        (a, b, c, d, e, f, g)
    }
}

/// Decodes the seven members, first to last.
///
/// # Errors
///
/// Those of the first member that fails to decode.
impl<
    R: Lends,
    A: Decode<R, Error = Error>,
    B: Decode<R, Error = Error>,
    C: Decode<R, Error = Error>,
    D: Decode<R, Error = Error>,
    E: Decode<R, Error = Error>,
    F: Decode<R, Error = Error>,
    G: Decode<R, Error = Error>,
> Decode<R> for (A, B, C, D, E, F, G) {
    type Error = Error;

    ghost is_next = { λ v. FieldsNext ⟦<(A, B, C, D) as Decode<R>>⟧.is_next
        ⟦<(E, F, G) as Decode<R>>⟧.is_next (halves_seven v) };

    ghost decode_levels = { fields_levels ⟦<(A, B, C, D) as Decode<R>>⟧.decode_levels
        ⟦<(E, F, G) as Decode<R>>⟧.decode_levels };

    ghost allocates = { ⟦<(A, B, C, D) as Decode<R>>⟧.allocates ||
        ⟦<(E, F, G) as Decode<R>>⟧.allocates };

    ghost decode_answers = { λ s result t. FieldsRead ⟦<(A, B, C, D) as Decode<R>>⟧.decode_answers
        ⟦<(E, F, G) as Decode<R>>⟧.decode_answers s (map_ok halves_seven result) t };

    #[inline(always)]
    fn decode(alloc: Global, reader: &mut R) -> Result<Self, Error>
    where
        R: Reader,
    {
        decode_fields::<R, ((A, B, C, D), (E, F, G)), Self>(alloc, reader)
    }
}

impl<A: Drop, B: Drop, C: Drop, D: Drop, E: Drop, F: Drop, G: Drop, H: Drop> FromFields<
    ((A, B, C, D), (E, F, G, H)),
> for (A, B, C, D, E, F, G, H) {
    ghost fields = { halves_eight };

    #[inline(always)]
    fn from_fields(members: ((A, B, C, D), (E, F, G, H))) -> Self {
        let ((a, b, c, d), (e, f, g, h)) = members;
        (a, b, c, d, e, f, g, h)
    }
}

/// Decodes the eight members, first to last.
///
/// # Errors
///
/// Those of the first member that fails to decode.
impl<
    R: Lends,
    A: Decode<R, Error = Error>,
    B: Decode<R, Error = Error>,
    C: Decode<R, Error = Error>,
    D: Decode<R, Error = Error>,
    E: Decode<R, Error = Error>,
    F: Decode<R, Error = Error>,
    G: Decode<R, Error = Error>,
    H: Decode<R, Error = Error>,
> Decode<R> for (A, B, C, D, E, F, G, H) {
    type Error = Error;

    ghost is_next = { λ v. FieldsNext ⟦<(A, B, C, D) as Decode<R>>⟧.is_next
        ⟦<(E, F, G, H) as Decode<R>>⟧.is_next (halves_eight v) };

    ghost decode_levels = { fields_levels ⟦<(A, B, C, D) as Decode<R>>⟧.decode_levels
        ⟦<(E, F, G, H) as Decode<R>>⟧.decode_levels };

    ghost allocates = { ⟦<(A, B, C, D) as Decode<R>>⟧.allocates ||
        ⟦<(E, F, G, H) as Decode<R>>⟧.allocates };

    ghost decode_answers = { λ s result t. FieldsRead ⟦<(A, B, C, D) as Decode<R>>⟧.decode_answers
        ⟦<(E, F, G, H) as Decode<R>>⟧.decode_answers s (map_ok halves_eight result) t };

    #[inline(always)]
    fn decode(alloc: Global, reader: &mut R) -> Result<Self, Error>
    where
        R: Reader,
    {
        decode_fields::<R, ((A, B, C, D), (E, F, G, H)), Self>(alloc, reader)
    }
}

impl<A: Drop, B: Drop, C: Drop, D: Drop, E: Drop, F: Drop, G: Drop, H: Drop, I: Drop> FromFields<
    ((A, B, C, D, E), (F, G, H, I)),
> for (A, B, C, D, E, F, G, H, I) {
    ghost fields = { halves_nine };

    #[inline(always)]
    fn from_fields(members: ((A, B, C, D, E), (F, G, H, I))) -> Self {
        let ((a, b, c, d, e), (f, g, h, i)) = members;
        (a, b, c, d, e, f, g, h, i)
    }
}

/// Decodes the nine members, first to last.
///
/// # Errors
///
/// Those of the first member that fails to decode.
impl<
    R: Lends,
    A: Decode<R, Error = Error>,
    B: Decode<R, Error = Error>,
    C: Decode<R, Error = Error>,
    D: Decode<R, Error = Error>,
    E: Decode<R, Error = Error>,
    F: Decode<R, Error = Error>,
    G: Decode<R, Error = Error>,
    H: Decode<R, Error = Error>,
    I: Decode<R, Error = Error>,
> Decode<R> for (A, B, C, D, E, F, G, H, I) {
    type Error = Error;

    ghost is_next = { λ v. FieldsNext ⟦<(A, B, C, D, E) as Decode<R>>⟧.is_next
        ⟦<(F, G, H, I) as Decode<R>>⟧.is_next (halves_nine v) };

    ghost decode_levels = { fields_levels ⟦<(A, B, C, D, E) as Decode<R>>⟧.decode_levels
        ⟦<(F, G, H, I) as Decode<R>>⟧.decode_levels };

    ghost allocates = { ⟦<(A, B, C, D, E) as Decode<R>>⟧.allocates ||
        ⟦<(F, G, H, I) as Decode<R>>⟧.allocates };

    ghost decode_answers = { λ s result t. FieldsRead
        ⟦<(A, B, C, D, E) as Decode<R>>⟧.decode_answers ⟦<(F, G, H, I) as Decode<R>>⟧.decode_answers
        s (map_ok halves_nine result) t };

    #[inline(always)]
    fn decode(alloc: Global, reader: &mut R) -> Result<Self, Error>
    where
        R: Reader,
    {
        decode_fields::<R, ((A, B, C, D, E), (F, G, H, I)), Self>(alloc, reader)
    }
}

impl<
    A: Drop,
    B: Drop,
    C: Drop,
    D: Drop,
    E: Drop,
    F: Drop,
    G: Drop,
    H: Drop,
    I: Drop,
    J: Drop,
> FromFields<((A, B, C, D, E), (F, G, H, I, J))> for (A, B, C, D, E, F, G, H, I, J) {
    ghost fields = { halves_ten };

    #[inline(always)]
    fn from_fields(members: ((A, B, C, D, E), (F, G, H, I, J))) -> Self {
        let ((a, b, c, d, e), (f, g, h, i, j)) = members;
        (a, b, c, d, e, f, g, h, i, j)
    }
}

/// Decodes the ten members, first to last.
///
/// # Errors
///
/// Those of the first member that fails to decode.
impl<
    R: Lends,
    A: Decode<R, Error = Error>,
    B: Decode<R, Error = Error>,
    C: Decode<R, Error = Error>,
    D: Decode<R, Error = Error>,
    E: Decode<R, Error = Error>,
    F: Decode<R, Error = Error>,
    G: Decode<R, Error = Error>,
    H: Decode<R, Error = Error>,
    I: Decode<R, Error = Error>,
    J: Decode<R, Error = Error>,
> Decode<R> for (A, B, C, D, E, F, G, H, I, J) {
    type Error = Error;

    ghost is_next = { λ v. FieldsNext ⟦<(A, B, C, D, E) as Decode<R>>⟧.is_next
        ⟦<(F, G, H, I, J) as Decode<R>>⟧.is_next (halves_ten v) };

    ghost decode_levels = { fields_levels ⟦<(A, B, C, D, E) as Decode<R>>⟧.decode_levels
        ⟦<(F, G, H, I, J) as Decode<R>>⟧.decode_levels };

    ghost allocates = { ⟦<(A, B, C, D, E) as Decode<R>>⟧.allocates ||
        ⟦<(F, G, H, I, J) as Decode<R>>⟧.allocates };

    ghost decode_answers = { λ s result t. FieldsRead
        ⟦<(A, B, C, D, E) as Decode<R>>⟧.decode_answers
        ⟦<(F, G, H, I, J) as Decode<R>>⟧.decode_answers s (map_ok halves_ten result) t };

    #[inline(always)]
    fn decode(alloc: Global, reader: &mut R) -> Result<Self, Error>
    where
        R: Reader,
    {
        decode_fields::<R, ((A, B, C, D, E), (F, G, H, I, J)), Self>(alloc, reader)
    }
}

impl<
    A: Drop,
    B: Drop,
    C: Drop,
    D: Drop,
    E: Drop,
    F: Drop,
    G: Drop,
    H: Drop,
    I: Drop,
    J: Drop,
    K: Drop,
> FromFields<((A, B, C, D, E, F), (G, H, I, J, K))> for (A, B, C, D, E, F, G, H, I, J, K) {
    ghost fields = { halves_eleven };

    #[inline(always)]
    fn from_fields(members: ((A, B, C, D, E, F), (G, H, I, J, K))) -> Self {
        let ((a, b, c, d, e, f), (g, h, i, j, k)) = members;
        (a, b, c, d, e, f, g, h, i, j, k)
    }
}

/// Decodes the eleven members, first to last.
///
/// # Errors
///
/// Those of the first member that fails to decode.
impl<
    R: Lends,
    A: Decode<R, Error = Error>,
    B: Decode<R, Error = Error>,
    C: Decode<R, Error = Error>,
    D: Decode<R, Error = Error>,
    E: Decode<R, Error = Error>,
    F: Decode<R, Error = Error>,
    G: Decode<R, Error = Error>,
    H: Decode<R, Error = Error>,
    I: Decode<R, Error = Error>,
    J: Decode<R, Error = Error>,
    K: Decode<R, Error = Error>,
> Decode<R> for (A, B, C, D, E, F, G, H, I, J, K) {
    type Error = Error;

    ghost is_next = { λ v. FieldsNext ⟦<(A, B, C, D, E, F) as Decode<R>>⟧.is_next
        ⟦<(G, H, I, J, K) as Decode<R>>⟧.is_next (halves_eleven v) };

    ghost decode_levels = { fields_levels ⟦<(A, B, C, D, E, F) as Decode<R>>⟧.decode_levels
        ⟦<(G, H, I, J, K) as Decode<R>>⟧.decode_levels };

    ghost allocates = { ⟦<(A, B, C, D, E, F) as Decode<R>>⟧.allocates ||
        ⟦<(G, H, I, J, K) as Decode<R>>⟧.allocates };

    ghost decode_answers = { λ s result t. FieldsRead
        ⟦<(A, B, C, D, E, F) as Decode<R>>⟧.decode_answers
        ⟦<(G, H, I, J, K) as Decode<R>>⟧.decode_answers s (map_ok halves_eleven result) t };

    #[inline(always)]
    fn decode(alloc: Global, reader: &mut R) -> Result<Self, Error>
    where
        R: Reader,
    {
        decode_fields::<R, ((A, B, C, D, E, F), (G, H, I, J, K)), Self>(alloc, reader)
    }
}

impl<
    A: Drop,
    B: Drop,
    C: Drop,
    D: Drop,
    E: Drop,
    F: Drop,
    G: Drop,
    H: Drop,
    I: Drop,
    J: Drop,
    K: Drop,
    L: Drop,
> FromFields<((A, B, C, D, E, F), (G, H, I, J, K, L))> for (A, B, C, D, E, F, G, H, I, J, K, L) {
    ghost fields = { halves_twelve };

    #[inline(always)]
    fn from_fields(members: ((A, B, C, D, E, F), (G, H, I, J, K, L))) -> Self {
        let ((a, b, c, d, e, f), (g, h, i, j, k, l)) = members;
        (a, b, c, d, e, f, g, h, i, j, k, l)
    }
}

/// Decodes the twelve members, first to last.
///
/// # Errors
///
/// Those of the first member that fails to decode.
impl<
    R: Lends,
    A: Decode<R, Error = Error>,
    B: Decode<R, Error = Error>,
    C: Decode<R, Error = Error>,
    D: Decode<R, Error = Error>,
    E: Decode<R, Error = Error>,
    F: Decode<R, Error = Error>,
    G: Decode<R, Error = Error>,
    H: Decode<R, Error = Error>,
    I: Decode<R, Error = Error>,
    J: Decode<R, Error = Error>,
    K: Decode<R, Error = Error>,
    L: Decode<R, Error = Error>,
> Decode<R> for (A, B, C, D, E, F, G, H, I, J, K, L) {
    type Error = Error;

    ghost is_next = { λ v. FieldsNext ⟦<(A, B, C, D, E, F) as Decode<R>>⟧.is_next
        ⟦<(G, H, I, J, K, L) as Decode<R>>⟧.is_next (halves_twelve v) };

    ghost decode_levels = { fields_levels ⟦<(A, B, C, D, E, F) as Decode<R>>⟧.decode_levels
        ⟦<(G, H, I, J, K, L) as Decode<R>>⟧.decode_levels };

    ghost allocates = { ⟦<(A, B, C, D, E, F) as Decode<R>>⟧.allocates ||
        ⟦<(G, H, I, J, K, L) as Decode<R>>⟧.allocates };

    ghost decode_answers = { λ s result t. FieldsRead
        ⟦<(A, B, C, D, E, F) as Decode<R>>⟧.decode_answers
        ⟦<(G, H, I, J, K, L) as Decode<R>>⟧.decode_answers s (map_ok halves_twelve result) t };

    #[inline(always)]
    fn decode(alloc: Global, reader: &mut R) -> Result<Self, Error>
    where
        R: Reader,
    {
        decode_fields::<R, ((A, B, C, D, E, F), (G, H, I, J, K, L)), Self>(alloc, reader)
    }
}
