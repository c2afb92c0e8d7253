//! Written by asn1_compile from the module KerberosV5Spec2: change the module instead.
//!
//! TicketContents.
ghost use Rattle.std.specs.Prelude.{◌≡◌};
ghost use Rattle.std.proofs.Common.{refl};
ghost use Rattle.der.specs.Prelude.{map_ok};
ghost use Rattle.der_asn1.specs.Meaning.{alternative, field, is_lawful_item, sequence, sequence_item};
ghost use Rattle.der_asn1.specs.TupleFields.{four_fields};

use crate::asn1::encrypted_data::EncryptedData;
use crate::asn1::principal_name::PrincipalName;
use crate::asn1::realm::Realm;
use der::{
    Decode, DecodeValue, Encode, Error, FieldsCall, FromFields, HasFields, Header, IsValue, Lends,
    Reader, Sequence, SliceReader, decode_sequence, field_refs,
};
use der_asn1::{Described, Explicit, IntegerIn, Item, LawfulItem};
use std::alloc::Global;

/// A type inside another type, to which the ASN.1 module gives no name. Its name here is made of the
/// names of the types and components around it.
#[derive(Clone, Copy, Debug, Drop, PartialEq, Eq)]
pub struct TicketContents<'a> {
    /// The version of the ticket's format, which is 5.
    pub tkt_vno: Explicit<IntegerIn<5, 5>, 0>,
    /// The realm of the server.
    pub realm: Explicit<Realm<'a>, 1>,
    /// The name of the server.
    pub sname: Explicit<PrincipalName<'a>, 2>,
    /// The part that only the server can read: an encrypted EncTicketPart.
    pub enc_part: Explicit<EncryptedData<'a>, 3>,
}

/// The fields of [`TicketContents`] as one type, in the order in which they are encoded.
pub type TicketContentsFields<'a> = (
    Explicit<IntegerIn<5, 5>, 0>,
    Explicit<Realm<'a>, 1>,
    Explicit<PrincipalName<'a>, 2>,
    Explicit<EncryptedData<'a>, 3>,
);

impl<'a> FromFields<TicketContentsFields<'a>> for TicketContents<'a> {
    ghost fields = { λ v. (v.tkt_vno, v.realm, v.sname, v.enc_part) };

    fn from_fields(fields: TicketContentsFields<'a>) -> Self {
        let (tkt_vno, realm, sname, enc_part) = fields;
        TicketContents {
            tkt_vno,
            realm,
            sname,
            enc_part,
        }
    }
}

impl<'a> Sequence for TicketContents<'a> {
    ghost meaning = { sequence (four_fields (field (alternative
        ⟦<Explicit<IntegerIn<5, 5>, 0> as Described>⟧.element)) (field (alternative
        ⟦<Explicit<Realm<'a>, 1> as Described>⟧.element)) (field (alternative
        ⟦<Explicit<PrincipalName<'a>, 2> as Described>⟧.element)) (field (alternative
        ⟦<Explicit<EncryptedData<'a>, 3> as Described>⟧.element)))
        ⟦<TicketContents<'a> as FromFields<TicketContentsFields<'a>>>⟧.fields };

    ghost fits = { (refl, refl) };
}

/// Decodes the fields, first to last. The errors are those that [`Sequence`] lists.
impl<'a, R: Lends<Borrowed = &'a [u8]>> DecodeValue<R> for TicketContents<'a> {
    type Error = Error;

    ghost decode_value_answers = { λ h s result t.
        ⟦<TicketContentsFields<'a> as Decode<SliceReader<'a>>>⟧.decode_answers s (map_ok
        ⟦<TicketContents<'a> as FromFields<TicketContentsFields<'a>>>⟧.fields result) t };

    fn decode_value(alloc: Global, reader: &mut R, header: Header) -> Result<Self, Error>
    where
        R: Reader,
    {
        decode_sequence::<R, TicketContentsFields<'a>, Self>(alloc, reader, header)
    }
}

impl<'a> IsValue for TicketContents<'a> {
    fn is_value(&self) {
        self.tkt_vno.is_value();
        self.realm.is_value();
        self.sname.is_value();
        self.enc_part.is_value();
    }
}

/// Writes the fields, first to last. The errors are those that [`Sequence`] lists.
impl<'a> HasFields for TicketContents<'a> {
    ghost fields_size = { λ v. ⟦<TicketContentsFields<'a> as Encode>⟧.size
        (⟦<TicketContents<'a> as FromFields<TicketContentsFields<'a>>>⟧.fields v) };

    ghost fields_answers = { λ v. ⟦<TicketContentsFields<'a> as Encode>⟧.encode_answers
        (⟦<TicketContents<'a> as FromFields<TicketContentsFields<'a>>>⟧.fields v) };

    fn call_fields<S, C: FieldsCall<S>>(
        &self,
        call: &C,
        state: &mut S,
        buf: &mut [u8],
    ) -> C::Output {
        call.call(
            &field_refs!(self, (tkt_vno, realm, sname, enc_part)),
            state,
            buf,
        )
    }
}

impl<'a> Item for TicketContents<'a> {
    ghost item = { sequence_item ⟦<TicketContents<'a> as Described>⟧.element };
}

impl<'a> LawfulItem for TicketContents<'a> {
    ghost is_lawful_item = { is_lawful_item ⟦<TicketContents<'a> as Described>⟧.element refl };
}
