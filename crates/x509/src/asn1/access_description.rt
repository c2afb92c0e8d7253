//! Written by asn1_compile from the module X509: change the module instead.
//!
//! AccessDescription.
ghost use Rattle.std.specs.Prelude.{◌≡◌};
ghost use Rattle.std.proofs.Common.{refl};
ghost use Rattle.der.specs.Prelude.{map_ok};
ghost use Rattle.der_asn1.specs.Meaning.{alternative, field, is_lawful_item, sequence, sequence_item, two_fields};

use crate::asn1::general_name::GeneralName;
use der::{
    Decode, DecodeValue, Encode, Error, FieldsCall, FromFields, HasFields, Header, IsValue, Lends,
    Reader, Sequence, SliceReader, decode_sequence, field_refs,
};
use der_asn1::{Described, DescribedChoice, Item, LawfulItem, ObjectIdentifierRef};
use std::alloc::Global;

/// Where to find information of one kind (RFC 5280, 4.2.2.1), borrowed from the input.
#[derive(Clone, Copy, Debug, Drop, PartialEq, Eq)]
pub struct AccessDescription<'a> {
    /// The kind of the information, as an object identifier, such as id-ad-ocsp.
    pub access_method: ObjectIdentifierRef<'a>,
    /// Where to find the information, such as a URI.
    pub access_location: GeneralName<'a>,
}

/// The fields of [`AccessDescription`] as one type, in the order in which they are encoded.
pub type AccessDescriptionFields<'a> = (ObjectIdentifierRef<'a>, GeneralName<'a>);

impl<'a> FromFields<AccessDescriptionFields<'a>> for AccessDescription<'a> {
    ghost fields = { λ v. (v.access_method, v.access_location) };

    fn from_fields(fields: AccessDescriptionFields<'a>) -> Self {
        let (access_method, access_location) = fields;
        AccessDescription {
            access_method,
            access_location,
        }
    }
}

impl<'a> Sequence for AccessDescription<'a> {
    ghost meaning = { sequence (two_fields (field (alternative
        ⟦<ObjectIdentifierRef<'a> as Described>⟧.element)) (field
        ⟦<GeneralName<'a> as DescribedChoice>⟧.alternative))
        ⟦<AccessDescription<'a> as FromFields<AccessDescriptionFields<'a>>>⟧.fields };

    ghost fits = { (refl, refl) };
}

/// Decodes the fields, first to last. The errors are those that [`Sequence`] lists.
impl<'a, R: Lends<Borrowed = &'a [u8]>> DecodeValue<R> for AccessDescription<'a> {
    type Error = Error;

    ghost decode_value_answers = { λ h s result t.
        ⟦<AccessDescriptionFields<'a> as Decode<SliceReader<'a>>>⟧.decode_answers s (map_ok
        ⟦<AccessDescription<'a> as FromFields<AccessDescriptionFields<'a>>>⟧.fields result) t };

    fn decode_value(alloc: Global, reader: &mut R, header: Header) -> Result<Self, Error>
    where
        R: Reader,
    {
        decode_sequence::<R, AccessDescriptionFields<'a>, Self>(alloc, reader, header)
    }
}

impl<'a> IsValue for AccessDescription<'a> {
    fn is_value(&self) {
        self.access_method.is_value();
        match &self.access_location {
            GeneralName::OtherName(value) => value.is_value(),
            GeneralName::Rfc822Name(value) => value.is_value(),
            GeneralName::DnsName(value) => value.is_value(),
            GeneralName::X400Address(value) => value.is_value(),
            GeneralName::DirectoryName(value) => value.is_value(),
            GeneralName::EdiPartyName(value) => value.is_value(),
            GeneralName::UniformResourceIdentifier(value) => value.is_value(),
            GeneralName::IpAddress(value) => value.is_value(),
            GeneralName::RegisteredId(value) => value.is_value(),
        }
    }
}

/// Writes the fields, first to last. The errors are those that [`Sequence`] lists.
impl<'a> HasFields for AccessDescription<'a> {
    ghost fields_size = { λ v. ⟦<AccessDescriptionFields<'a> as Encode>⟧.size
        (⟦<AccessDescription<'a> as FromFields<AccessDescriptionFields<'a>>>⟧.fields v) };

    ghost fields_answers = { λ v. ⟦<AccessDescriptionFields<'a> as Encode>⟧.encode_answers
        (⟦<AccessDescription<'a> as FromFields<AccessDescriptionFields<'a>>>⟧.fields v) };

    fn call_fields<S, C: FieldsCall<S>>(
        &self,
        call: &C,
        state: &mut S,
        buf: &mut [u8],
    ) -> C::Output {
        call.call(
            &field_refs!(self, (access_method, access_location)),
            state,
            buf,
        )
    }
}

impl<'a> Item for AccessDescription<'a> {
    ghost item = { sequence_item ⟦<AccessDescription<'a> as Described>⟧.element };
}

impl<'a> LawfulItem for AccessDescription<'a> {
    ghost is_lawful_item = { is_lawful_item ⟦<AccessDescription<'a> as Described>⟧.element refl };
}
