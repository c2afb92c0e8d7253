//! Written by asn1_compile from the module KerberosV5Spec2: change the module instead.
//!
//! ApReqContents.
ghost use Rattle.std.specs.Prelude.{◌≡◌};
ghost use Rattle.std.proofs.Common.{refl};
ghost use Rattle.der.specs.Prelude.{map_ok};
ghost use Rattle.der_asn1.specs.Meaning.{alternative, field, is_lawful_item, sequence, sequence_item};
ghost use Rattle.der_asn1.specs.TupleFields.{five_fields};

use crate::asn1::ap_options::ApOptions;
use crate::asn1::encrypted_data::EncryptedData;
use crate::asn1::ticket::Ticket;
use der::{
    Decode, DecodeValue, Encode, Error, FieldsCall, FromFields, HasFields, Header, IsValue, Lends,
    Reader, Sequence, SliceReader, decode_sequence, field_refs,
};
use der_asn1::{Described, Explicit, IntegerIn, Item, LawfulItem};
use std::alloc::Global;

/// A type inside another type, to which the ASN.1 module gives no name. Its name here is made of the
/// names of the types and components around it.
#[derive(Clone, Copy, Debug, Drop, PartialEq, Eq)]
pub struct ApReqContents<'a> {
    /// The version of the protocol, which is 5.
    pub pvno: Explicit<IntegerIn<5, 5>, 0>,
    /// The type of the message, which is 14.
    pub msg_type: Explicit<IntegerIn<14, 14>, 1>,
    /// The options of the message.
    pub ap_options: Explicit<ApOptions<'a>, 2>,
    /// The ticket for the server.
    pub ticket: Explicit<Ticket<'a>, 3>,
    /// The proof that the client has the session key: an encrypted Authenticator.
    pub authenticator: Explicit<EncryptedData<'a>, 4>,
}

/// The fields of [`ApReqContents`] as one type, in the order in which they are encoded.
pub type ApReqContentsFields<'a> = (
    Explicit<IntegerIn<5, 5>, 0>,
    Explicit<IntegerIn<14, 14>, 1>,
    Explicit<ApOptions<'a>, 2>,
    Explicit<Ticket<'a>, 3>,
    Explicit<EncryptedData<'a>, 4>,
);

impl<'a> FromFields<ApReqContentsFields<'a>> for ApReqContents<'a> {
    ghost fields = { λ v. (v.pvno, v.msg_type, v.ap_options, v.ticket, v.authenticator) };

    fn from_fields(fields: ApReqContentsFields<'a>) -> Self {
        let (pvno, msg_type, ap_options, ticket, authenticator) = fields;
        ApReqContents {
            pvno,
            msg_type,
            ap_options,
            ticket,
            authenticator,
        }
    }
}

impl<'a> Sequence for ApReqContents<'a> {
    ghost meaning = { sequence (five_fields (field (alternative
        ⟦<Explicit<IntegerIn<5, 5>, 0> as Described>⟧.element)) (field (alternative
        ⟦<Explicit<IntegerIn<14, 14>, 1> as Described>⟧.element)) (field (alternative
        ⟦<Explicit<ApOptions<'a>, 2> as Described>⟧.element)) (field (alternative
        ⟦<Explicit<Ticket<'a>, 3> as Described>⟧.element)) (field (alternative
        ⟦<Explicit<EncryptedData<'a>, 4> as Described>⟧.element)))
        ⟦<ApReqContents<'a> as FromFields<ApReqContentsFields<'a>>>⟧.fields };

    ghost fits = { (refl, refl) };
}

/// Decodes the fields, first to last. The errors are those that [`Sequence`] lists.
impl<'a, R: Lends<Borrowed = &'a [u8]>> DecodeValue<R> for ApReqContents<'a> {
    type Error = Error;

    ghost decode_value_answers = { λ h s result t.
        ⟦<ApReqContentsFields<'a> as Decode<SliceReader<'a>>>⟧.decode_answers s (map_ok
        ⟦<ApReqContents<'a> as FromFields<ApReqContentsFields<'a>>>⟧.fields result) t };

    fn decode_value(alloc: Global, reader: &mut R, header: Header) -> Result<Self, Error>
    where
        R: Reader,
    {
        decode_sequence::<R, ApReqContentsFields<'a>, Self>(alloc, reader, header)
    }
}

impl<'a> IsValue for ApReqContents<'a> {
    fn is_value(&self) {
        self.pvno.is_value();
        self.msg_type.is_value();
        self.ap_options.is_value();
        self.ticket.is_value();
        self.authenticator.is_value();
    }
}

/// Writes the fields, first to last. The errors are those that [`Sequence`] lists.
impl<'a> HasFields for ApReqContents<'a> {
    ghost fields_size = { λ v. ⟦<ApReqContentsFields<'a> as Encode>⟧.size
        (⟦<ApReqContents<'a> as FromFields<ApReqContentsFields<'a>>>⟧.fields v) };

    ghost fields_answers = { λ v. ⟦<ApReqContentsFields<'a> as Encode>⟧.encode_answers
        (⟦<ApReqContents<'a> as FromFields<ApReqContentsFields<'a>>>⟧.fields v) };

    fn call_fields<S, C: FieldsCall<S>>(
        &self,
        call: &C,
        state: &mut S,
        buf: &mut [u8],
    ) -> C::Output {
        call.call(
            &field_refs!(self, (pvno, msg_type, ap_options, ticket, authenticator)),
            state,
            buf,
        )
    }
}

impl<'a> Item for ApReqContents<'a> {
    ghost item = { sequence_item ⟦<ApReqContents<'a> as Described>⟧.element };
}

impl<'a> LawfulItem for ApReqContents<'a> {
    ghost is_lawful_item = { is_lawful_item ⟦<ApReqContents<'a> as Described>⟧.element refl };
}
