//! Written by asn1_compile from the module X509: change the module instead.
//!
//! NoticeReference.
ghost use Rattle.std.specs.Prelude.{◌≡◌};
ghost use Rattle.std.proofs.Common.{refl};
ghost use Rattle.der.specs.Prelude.{map_ok};
ghost use Rattle.der_asn1.specs.Meaning.{alternative, field, is_lawful_item, sequence, sequence_item, two_fields};

use crate::asn1::display_text::DisplayText;
use der::{
    Decode, DecodeValue, Encode, Error, FieldsCall, FromFields, HasFields, Header, IsValue, Lends,
    Reader, Sequence, SliceReader, decode_sequence, field_refs,
};
use der_asn1::{Described, DescribedChoice, IntRef, Item, LawfulItem, SequenceOf};
use std::alloc::Global;

/// Notices of an organization, which their numbers identify (RFC 5280, 4.2.1.4), borrowed from the
/// input.
#[derive(Clone, Copy, Debug, Drop, PartialEq, Eq)]
pub struct NoticeReference<'a> {
    /// The name of the organization.
    pub organization: DisplayText<'a>,
    /// The numbers of the notices.
    pub notice_numbers: SequenceOf<'a, IntRef<'a>>,
}

/// The fields of [`NoticeReference`] as one type, in the order in which they are encoded.
pub type NoticeReferenceFields<'a> = (DisplayText<'a>, SequenceOf<'a, IntRef<'a>>);

impl<'a> FromFields<NoticeReferenceFields<'a>> for NoticeReference<'a> {
    ghost fields = { λ v. (v.organization, v.notice_numbers) };

    fn from_fields(fields: NoticeReferenceFields<'a>) -> Self {
        let (organization, notice_numbers) = fields;
        NoticeReference {
            organization,
            notice_numbers,
        }
    }
}

impl<'a> Sequence for NoticeReference<'a> {
    ghost meaning = { sequence (two_fields (field
        ⟦<DisplayText<'a> as DescribedChoice>⟧.alternative) (field (alternative
        ⟦<SequenceOf<'a, IntRef<'a>> as Described>⟧.element)))
        ⟦<NoticeReference<'a> as FromFields<NoticeReferenceFields<'a>>>⟧.fields };

    ghost fits = { (refl, refl) };
}

/// Decodes the fields, first to last. The errors are those that [`Sequence`] lists.
impl<'a, R: Lends<Borrowed = &'a [u8]>> DecodeValue<R> for NoticeReference<'a> {
    type Error = Error;

    ghost decode_value_answers = { λ h s result t.
        ⟦<NoticeReferenceFields<'a> as Decode<SliceReader<'a>>>⟧.decode_answers s (map_ok
        ⟦<NoticeReference<'a> as FromFields<NoticeReferenceFields<'a>>>⟧.fields result) t };

    fn decode_value(alloc: Global, reader: &mut R, header: Header) -> Result<Self, Error>
    where
        R: Reader,
    {
        decode_sequence::<R, NoticeReferenceFields<'a>, Self>(alloc, reader, header)
    }
}

impl<'a> IsValue for NoticeReference<'a> {
    fn is_value(&self) {
        match &self.organization {
            DisplayText::Ia5String(value) => value.is_value(),
            DisplayText::VisibleString(value) => value.is_value(),
            DisplayText::BmpString(value) => value.is_value(),
            DisplayText::Utf8String(value) => value.is_value(),
        }
        self.notice_numbers.is_value();
    }
}

/// Writes the fields, first to last. The errors are those that [`Sequence`] lists.
impl<'a> HasFields for NoticeReference<'a> {
    ghost fields_size = { λ v. ⟦<NoticeReferenceFields<'a> as Encode>⟧.size
        (⟦<NoticeReference<'a> as FromFields<NoticeReferenceFields<'a>>>⟧.fields v) };

    ghost fields_answers = { λ v. ⟦<NoticeReferenceFields<'a> as Encode>⟧.encode_answers
        (⟦<NoticeReference<'a> as FromFields<NoticeReferenceFields<'a>>>⟧.fields v) };

    fn call_fields<S, C: FieldsCall<S>>(
        &self,
        call: &C,
        state: &mut S,
        buf: &mut [u8],
    ) -> C::Output {
        call.call(
            &field_refs!(self, (organization, notice_numbers)),
            state,
            buf,
        )
    }
}

impl<'a> Item for NoticeReference<'a> {
    ghost item = { sequence_item ⟦<NoticeReference<'a> as Described>⟧.element };
}

impl<'a> LawfulItem for NoticeReference<'a> {
    ghost is_lawful_item = { is_lawful_item ⟦<NoticeReference<'a> as Described>⟧.element refl };
}
