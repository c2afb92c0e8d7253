//! Written by asn1_compile from the module X509: change the module instead.
//!
//! UserNotice.
ghost use Rattle.std.specs.Prelude.{◌≡◌};
ghost use Rattle.std.proofs.Common.{refl};
ghost use Rattle.der.specs.Prelude.{map_ok};
ghost use Rattle.der_asn1.specs.Meaning.{alternative, is_lawful_item, optional, sequence, sequence_item, two_fields};

use crate::asn1::display_text::DisplayText;
use crate::asn1::notice_reference::NoticeReference;
use der::{
    Decode, DecodeValue, Encode, Error, FieldsCall, FromFields, HasFields, Header, IsValue, Lends,
    Reader, Sequence, SliceReader, decode_sequence, field_refs,
};
use der_asn1::{Described, DescribedChoice, Item, LawfulItem, Optional};
use std::alloc::Global;

/// A notice to the user of a certificate (RFC 5280, 4.2.1.4), borrowed from the input.
#[derive(Clone, Copy, Debug, Drop, PartialEq, Eq)]
pub struct UserNotice<'a> {
    /// Where the text of the notice is found, if present: the numbers of an organization's notices.
    pub notice_ref: Optional<NoticeReference<'a>>,
    /// The text itself, if present.
    pub explicit_text: Optional<DisplayText<'a>>,
}

/// The fields of [`UserNotice`] as one type, in the order in which they are encoded.
pub type UserNoticeFields<'a> = (Optional<NoticeReference<'a>>, Optional<DisplayText<'a>>);

impl<'a> FromFields<UserNoticeFields<'a>> for UserNotice<'a> {
    ghost fields = { λ v. (v.notice_ref, v.explicit_text) };

    fn from_fields(fields: UserNoticeFields<'a>) -> Self {
        let (notice_ref, explicit_text) = fields;
        UserNotice {
            notice_ref,
            explicit_text,
        }
    }
}

impl<'a> Sequence for UserNotice<'a> {
    ghost meaning = { sequence (two_fields (optional (alternative
        ⟦<NoticeReference<'a> as Described>⟧.element)) (optional
        ⟦<DisplayText<'a> as DescribedChoice>⟧.alternative))
        ⟦<UserNotice<'a> as FromFields<UserNoticeFields<'a>>>⟧.fields };

    ghost fits = { (refl, refl) };
}

/// Decodes the fields, first to last. The errors are those that [`Sequence`] lists.
impl<'a, R: Lends<Borrowed = &'a [u8]>> DecodeValue<R> for UserNotice<'a> {
    type Error = Error;

    ghost decode_value_answers = { λ h s result t.
        ⟦<UserNoticeFields<'a> as Decode<SliceReader<'a>>>⟧.decode_answers s (map_ok
        ⟦<UserNotice<'a> as FromFields<UserNoticeFields<'a>>>⟧.fields result) t };

    fn decode_value(alloc: Global, reader: &mut R, header: Header) -> Result<Self, Error>
    where
        R: Reader,
    {
        decode_sequence::<R, UserNoticeFields<'a>, Self>(alloc, reader, header)
    }
}

impl<'a> IsValue for UserNotice<'a> {
    fn is_value(&self) {
        if let Some(value) = &self.notice_ref.0 {
            value.is_value();
        }
        if let Some(value) = &self.explicit_text.0 {
            match value {
                DisplayText::Ia5String(value) => value.is_value(),
                DisplayText::VisibleString(value) => value.is_value(),
                DisplayText::BmpString(value) => value.is_value(),
                DisplayText::Utf8String(value) => value.is_value(),
            }
        }
    }
}

/// Writes the fields, first to last. The errors are those that [`Sequence`] lists.
impl<'a> HasFields for UserNotice<'a> {
    ghost fields_size = { λ v. ⟦<UserNoticeFields<'a> as Encode>⟧.size
        (⟦<UserNotice<'a> as FromFields<UserNoticeFields<'a>>>⟧.fields v) };

    ghost fields_answers = { λ v. ⟦<UserNoticeFields<'a> as Encode>⟧.encode_answers
        (⟦<UserNotice<'a> as FromFields<UserNoticeFields<'a>>>⟧.fields v) };

    fn call_fields<S, C: FieldsCall<S>>(
        &self,
        call: &C,
        state: &mut S,
        buf: &mut [u8],
    ) -> C::Output {
        call.call(&field_refs!(self, (notice_ref, explicit_text)), state, buf)
    }
}

impl<'a> Item for UserNotice<'a> {
    ghost item = { sequence_item ⟦<UserNotice<'a> as Described>⟧.element };
}

impl<'a> LawfulItem for UserNotice<'a> {
    ghost is_lawful_item = { is_lawful_item ⟦<UserNotice<'a> as Described>⟧.element refl };
}
