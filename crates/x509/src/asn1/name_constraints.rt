//! Written by asn1_compile from the module X509: change the module instead.
//!
//! NameConstraints.
ghost use Rattle.std.specs.Prelude.{◌≡◌};
ghost use Rattle.std.proofs.Common.{refl};
ghost use Rattle.der.specs.Prelude.{map_ok};
ghost use Rattle.der_asn1.specs.Meaning.{alternative, is_lawful_item, optional, sequence, sequence_item, two_fields};

use crate::asn1::general_subtrees::GeneralSubtrees;
use der::{
    Decode, DecodeValue, Encode, Error, FieldsCall, FromFields, HasFields, Header, IsValue, Lends,
    Reader, Sequence, SliceReader, decode_sequence, field_refs,
};
use der_asn1::{Described, Implicit, Item, LawfulItem, Optional};
use std::alloc::Global;

/// The names for which a certification authority may issue certificates (RFC 5280, 4.2.1.10),
/// borrowed from the input. That at least one list is present is not checked.
#[derive(Clone, Copy, Debug, Drop, PartialEq, Eq)]
pub struct NameConstraints<'a> {
    /// The names that are permitted; if absent, all are.
    pub permitted_subtrees: Optional<Implicit<GeneralSubtrees<'a>, 0>>,
    /// The names that are excluded; if absent, none are.
    pub excluded_subtrees: Optional<Implicit<GeneralSubtrees<'a>, 1>>,
}

/// The fields of [`NameConstraints`] as one type, in the order in which they are encoded.
pub type NameConstraintsFields<'a> = (
    Optional<Implicit<GeneralSubtrees<'a>, 0>>,
    Optional<Implicit<GeneralSubtrees<'a>, 1>>,
);

impl<'a> FromFields<NameConstraintsFields<'a>> for NameConstraints<'a> {
    ghost fields = { λ v. (v.permitted_subtrees, v.excluded_subtrees) };

    fn from_fields(fields: NameConstraintsFields<'a>) -> Self {
        let (permitted_subtrees, excluded_subtrees) = fields;
        NameConstraints {
            permitted_subtrees,
            excluded_subtrees,
        }
    }
}

impl<'a> Sequence for NameConstraints<'a> {
    ghost meaning = { sequence (two_fields (optional (alternative
        ⟦<Implicit<GeneralSubtrees<'a>, 0> as Described>⟧.element)) (optional (alternative
        ⟦<Implicit<GeneralSubtrees<'a>, 1> as Described>⟧.element)))
        ⟦<NameConstraints<'a> as FromFields<NameConstraintsFields<'a>>>⟧.fields };

    ghost fits = { (refl, refl) };
}

/// Decodes the fields, first to last. The errors are those that [`Sequence`] lists.
impl<'a, R: Lends<Borrowed = &'a [u8]>> DecodeValue<R> for NameConstraints<'a> {
    type Error = Error;

    ghost decode_value_answers = { λ h s result t.
        ⟦<NameConstraintsFields<'a> as Decode<SliceReader<'a>>>⟧.decode_answers s (map_ok
        ⟦<NameConstraints<'a> as FromFields<NameConstraintsFields<'a>>>⟧.fields result) t };

    fn decode_value(alloc: Global, reader: &mut R, header: Header) -> Result<Self, Error>
    where
        R: Reader,
    {
        decode_sequence::<R, NameConstraintsFields<'a>, Self>(alloc, reader, header)
    }
}

impl<'a> IsValue for NameConstraints<'a> {
    fn is_value(&self) {
        if let Some(value) = &self.permitted_subtrees.0 {
            value.is_value();
        }
        if let Some(value) = &self.excluded_subtrees.0 {
            value.is_value();
        }
    }
}

/// Writes the fields, first to last. The errors are those that [`Sequence`] lists.
impl<'a> HasFields for NameConstraints<'a> {
    ghost fields_size = { λ v. ⟦<NameConstraintsFields<'a> as Encode>⟧.size
        (⟦<NameConstraints<'a> as FromFields<NameConstraintsFields<'a>>>⟧.fields v) };

    ghost fields_answers = { λ v. ⟦<NameConstraintsFields<'a> as Encode>⟧.encode_answers
        (⟦<NameConstraints<'a> as FromFields<NameConstraintsFields<'a>>>⟧.fields v) };

    fn call_fields<S, C: FieldsCall<S>>(
        &self,
        call: &C,
        state: &mut S,
        buf: &mut [u8],
    ) -> C::Output {
        call.call(
            &field_refs!(self, (permitted_subtrees, excluded_subtrees)),
            state,
            buf,
        )
    }
}

impl<'a> Item for NameConstraints<'a> {
    ghost item = { sequence_item ⟦<NameConstraints<'a> as Described>⟧.element };
}

impl<'a> LawfulItem for NameConstraints<'a> {
    ghost is_lawful_item = { is_lawful_item ⟦<NameConstraints<'a> as Described>⟧.element refl };
}
