//! Written by asn1_compile from the module OCSP: change the module instead.
//!
//! RevokedInfo.
ghost use Rattle.std.specs.Prelude.{◌≡◌};
ghost use Rattle.std.proofs.Common.{refl};
ghost use Rattle.der.specs.Prelude.{map_ok};
ghost use Rattle.der_asn1.specs.Meaning.{alternative, field, is_lawful_item, optional, sequence, sequence_item, two_fields};

use der::{
    Decode, DecodeValue, Encode, Error, FieldsCall, FromFields, HasFields, Header, IsValue, Lends,
    Reader, Sequence, SliceReader, decode_sequence, field_refs,
};
use der_asn1::{Described, Enumerated, Explicit, GeneralizedTime, Item, LawfulItem, Optional};
use std::alloc::Global;
use x509::CrlReason;

/// When and why a certificate was revoked (RFC 6960, 4.2.1).
#[derive(Clone, Copy, Debug, Drop, PartialEq, Eq)]
pub struct RevokedInfo {
    /// When the certificate was revoked.
    pub revocation_time: GeneralizedTime,
    /// Why the certificate was revoked, if present.
    pub revocation_reason: Optional<Explicit<Enumerated<CrlReason>, 0>>,
}

/// The fields of [`RevokedInfo`] as one type, in the order in which they are encoded.
pub type RevokedInfoFields = (
    GeneralizedTime,
    Optional<Explicit<Enumerated<CrlReason>, 0>>,
);

impl FromFields<RevokedInfoFields> for RevokedInfo {
    ghost fields = { λ v. (v.revocation_time, v.revocation_reason) };

    fn from_fields(fields: RevokedInfoFields) -> Self {
        let (revocation_time, revocation_reason) = fields;
        RevokedInfo {
            revocation_time,
            revocation_reason,
        }
    }
}

impl Sequence for RevokedInfo {
    ghost meaning = { sequence (two_fields (field (alternative
        ⟦<GeneralizedTime as Described>⟧.element)) (optional (alternative
        ⟦<Explicit<Enumerated<CrlReason>, 0> as Described>⟧.element)))
        ⟦<RevokedInfo as FromFields<RevokedInfoFields>>⟧.fields };

    ghost fits = { (refl, refl) };
}

/// Decodes the fields, first to last. The errors are those that [`Sequence`] lists.
impl<'a, R: Lends<Borrowed = &'a [u8]>> DecodeValue<R> for RevokedInfo {
    type Error = Error;

    ghost decode_value_answers = { λ h s result t.
        ⟦<RevokedInfoFields as Decode<SliceReader<'a>>>⟧.decode_answers s (map_ok
        ⟦<RevokedInfo as FromFields<RevokedInfoFields>>⟧.fields result) t };

    fn decode_value(alloc: Global, reader: &mut R, header: Header) -> Result<Self, Error>
    where
        R: Reader,
    {
        decode_sequence::<R, RevokedInfoFields, Self>(alloc, reader, header)
    }
}

impl IsValue for RevokedInfo {
    fn is_value(&self) {
        self.revocation_time.is_value();
        if let Some(value) = &self.revocation_reason.0 {
            value.is_value();
        }
    }
}

/// Writes the fields, first to last. The errors are those that [`Sequence`] lists.
impl HasFields for RevokedInfo {
    ghost fields_size = { λ v. ⟦<RevokedInfoFields as Encode>⟧.size
        (⟦<RevokedInfo as FromFields<RevokedInfoFields>>⟧.fields v) };

    ghost fields_answers = { λ v. ⟦<RevokedInfoFields as Encode>⟧.encode_answers
        (⟦<RevokedInfo as FromFields<RevokedInfoFields>>⟧.fields v) };

    fn call_fields<S, C: FieldsCall<S>>(
        &self,
        call: &C,
        state: &mut S,
        buf: &mut [u8],
    ) -> C::Output {
        call.call(
            &field_refs!(self, (revocation_time, revocation_reason)),
            state,
            buf,
        )
    }
}

impl Item for RevokedInfo {
    ghost item = { sequence_item ⟦<RevokedInfo as Described>⟧.element };
}

impl LawfulItem for RevokedInfo {
    ghost is_lawful_item = { is_lawful_item ⟦<RevokedInfo as Described>⟧.element refl };
}
