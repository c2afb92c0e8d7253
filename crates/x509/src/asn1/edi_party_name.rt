//! Written by asn1_compile from the module X509: change the module instead.
//!
//! EdiPartyName.
ghost use Rattle.std.specs.Prelude.{◌≡◌};
ghost use Rattle.std.proofs.Common.{refl};
ghost use Rattle.der.specs.Prelude.{map_ok};
ghost use Rattle.der_asn1.specs.Meaning.{alternative, field, is_lawful_item, optional, sequence, sequence_item, two_fields};

use crate::asn1::directory_string_tagged::DirectoryStringTagged;
use der::{
    Decode, DecodeValue, Encode, Error, FieldsCall, FromFields, HasFields, Header, IsValue, Lends,
    Reader, Sequence, SliceReader, decode_sequence, field_refs,
};
use der_asn1::{Described, Implicit, Item, LawfulItem, Optional};
use std::alloc::Global;

/// The name of one party in an exchange of business data (RFC 5280, 4.2.1.6), borrowed from the
/// input.
#[derive(Clone, Copy, Debug, Drop, PartialEq, Eq)]
pub struct EdiPartyName<'a> {
    /// Who assigned the name, if present.
    pub name_assigner: Optional<Implicit<DirectoryStringTagged<'a>, 0>>,
    /// The name of the party.
    pub party_name: Implicit<DirectoryStringTagged<'a>, 1>,
}

/// The fields of [`EdiPartyName`] as one type, in the order in which they are encoded.
pub type EdiPartyNameFields<'a> = (
    Optional<Implicit<DirectoryStringTagged<'a>, 0>>,
    Implicit<DirectoryStringTagged<'a>, 1>,
);

impl<'a> FromFields<EdiPartyNameFields<'a>> for EdiPartyName<'a> {
    ghost fields = { λ v. (v.name_assigner, v.party_name) };

    fn from_fields(fields: EdiPartyNameFields<'a>) -> Self {
        let (name_assigner, party_name) = fields;
        EdiPartyName {
            name_assigner,
            party_name,
        }
    }
}

impl<'a> Sequence for EdiPartyName<'a> {
    ghost meaning = { sequence (two_fields (optional (alternative
        ⟦<Implicit<DirectoryStringTagged<'a>, 0> as Described>⟧.element)) (field (alternative
        ⟦<Implicit<DirectoryStringTagged<'a>, 1> as Described>⟧.element)))
        ⟦<EdiPartyName<'a> as FromFields<EdiPartyNameFields<'a>>>⟧.fields };

    ghost fits = { (refl, refl) };
}

/// Decodes the fields, first to last. The errors are those that [`Sequence`] lists.
impl<'a, R: Lends<Borrowed = &'a [u8]>> DecodeValue<R> for EdiPartyName<'a> {
    type Error = Error;

    ghost decode_value_answers = { λ h s result t.
        ⟦<EdiPartyNameFields<'a> as Decode<SliceReader<'a>>>⟧.decode_answers s (map_ok
        ⟦<EdiPartyName<'a> as FromFields<EdiPartyNameFields<'a>>>⟧.fields result) t };

    fn decode_value(alloc: Global, reader: &mut R, header: Header) -> Result<Self, Error>
    where
        R: Reader,
    {
        decode_sequence::<R, EdiPartyNameFields<'a>, Self>(alloc, reader, header)
    }
}

impl<'a> IsValue for EdiPartyName<'a> {
    fn is_value(&self) {
        if let Some(value) = &self.name_assigner.0 {
            value.is_value();
        }
        self.party_name.is_value();
    }
}

/// Writes the fields, first to last. The errors are those that [`Sequence`] lists.
impl<'a> HasFields for EdiPartyName<'a> {
    ghost fields_size = { λ v. ⟦<EdiPartyNameFields<'a> as Encode>⟧.size
        (⟦<EdiPartyName<'a> as FromFields<EdiPartyNameFields<'a>>>⟧.fields v) };

    ghost fields_answers = { λ v. ⟦<EdiPartyNameFields<'a> as Encode>⟧.encode_answers
        (⟦<EdiPartyName<'a> as FromFields<EdiPartyNameFields<'a>>>⟧.fields v) };

    fn call_fields<S, C: FieldsCall<S>>(
        &self,
        call: &C,
        state: &mut S,
        buf: &mut [u8],
    ) -> C::Output {
        call.call(&field_refs!(self, (name_assigner, party_name)), state, buf)
    }
}

impl<'a> Item for EdiPartyName<'a> {
    ghost item = { sequence_item ⟦<EdiPartyName<'a> as Described>⟧.element };
}

impl<'a> LawfulItem for EdiPartyName<'a> {
    ghost is_lawful_item = { is_lawful_item ⟦<EdiPartyName<'a> as Described>⟧.element refl };
}
