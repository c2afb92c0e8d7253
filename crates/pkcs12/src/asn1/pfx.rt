//! Written by asn1_compile from the module PKCS-12: change the module instead.
//!
//! Pfx.
ghost use Rattle.std.specs.Prelude.{◌≡◌};
ghost use Rattle.std.proofs.Common.{refl};
ghost use Rattle.der.specs.Prelude.{map_ok};
ghost use Rattle.der_asn1.specs.Meaning.{alternative, field, is_lawful_item, optional, sequence, sequence_item};
ghost use Rattle.der_asn1.specs.TupleFields.{three_fields};

use crate::asn1::mac_data::MacData;
use cms::ContentInfo;
use der::{
    Decode, DecodeValue, Encode, Error, FieldsCall, FromFields, HasFields, Header, IsValue, Lends,
    Reader, Sequence, SliceReader, decode_sequence, field_refs,
};
use der_asn1::{Described, IntRef, Item, LawfulItem, Optional};
use std::alloc::Global;

/// A file with private keys and certificates (RFC 7292, 4), borrowed from the input. Nothing is
/// verified or decrypted.
#[derive(Clone, Copy, Debug, Drop, PartialEq, Eq)]
pub struct Pfx<'a> {
    /// The version, which is 3. Decoding does not check this.
    pub version: IntRef<'a>,
    /// The contents of the file: a SignedData if a key protects the file against changes, or octets
    /// of type id-data if a password does. In both, the octets are the DER encoding of an
    /// AuthenticatedSafe.
    pub auth_safe: ContentInfo<'a>,
    /// The message authentication code of the contents, if present. Only a file that a password
    /// protects against changes has it, but decoding does not check this.
    pub mac_data: Optional<MacData<'a>>,
}

/// The fields of [`Pfx`] as one type, in the order in which they are encoded.
pub type PfxFields<'a> = (IntRef<'a>, ContentInfo<'a>, Optional<MacData<'a>>);

impl<'a> FromFields<PfxFields<'a>> for Pfx<'a> {
    ghost fields = { λ v. (v.version, v.auth_safe, v.mac_data) };

    fn from_fields(fields: PfxFields<'a>) -> Self {
        let (version, auth_safe, mac_data) = fields;
        Pfx {
            version,
            auth_safe,
            mac_data,
        }
    }
}

impl<'a> Sequence for Pfx<'a> {
    ghost meaning = { sequence (three_fields (field (alternative
        ⟦<IntRef<'a> as Described>⟧.element)) (field (alternative
        ⟦<ContentInfo<'a> as Described>⟧.element)) (optional (alternative
        ⟦<MacData<'a> as Described>⟧.element))) ⟦<Pfx<'a> as FromFields<PfxFields<'a>>>⟧.fields };

    ghost fits = { (refl, refl) };
}

/// Decodes the fields, first to last. The errors are those that [`Sequence`] lists.
impl<'a, R: Lends<Borrowed = &'a [u8]>> DecodeValue<R> for Pfx<'a> {
    type Error = Error;

    ghost decode_value_answers = { λ h s result t.
        ⟦<PfxFields<'a> as Decode<SliceReader<'a>>>⟧.decode_answers s (map_ok
        ⟦<Pfx<'a> as FromFields<PfxFields<'a>>>⟧.fields result) t };

    fn decode_value(alloc: Global, reader: &mut R, header: Header) -> Result<Self, Error>
    where
        R: Reader,
    {
        decode_sequence::<R, PfxFields<'a>, Self>(alloc, reader, header)
    }
}

impl<'a> IsValue for Pfx<'a> {
    fn is_value(&self) {
        self.version.is_value();
        self.auth_safe.is_value();
        if let Some(value) = &self.mac_data.0 {
            value.is_value();
        }
    }
}

/// Writes the fields, first to last. The errors are those that [`Sequence`] lists.
impl<'a> HasFields for Pfx<'a> {
    ghost fields_size = { λ v. ⟦<PfxFields<'a> as Encode>⟧.size
        (⟦<Pfx<'a> as FromFields<PfxFields<'a>>>⟧.fields v) };

    ghost fields_answers = { λ v. ⟦<PfxFields<'a> as Encode>⟧.encode_answers
        (⟦<Pfx<'a> as FromFields<PfxFields<'a>>>⟧.fields v) };

    fn call_fields<S, C: FieldsCall<S>>(
        &self,
        call: &C,
        state: &mut S,
        buf: &mut [u8],
    ) -> C::Output {
        call.call(
            &field_refs!(self, (version, auth_safe, mac_data)),
            state,
            buf,
        )
    }
}

impl<'a> Item for Pfx<'a> {
    ghost item = { sequence_item ⟦<Pfx<'a> as Described>⟧.element };
}

impl<'a> LawfulItem for Pfx<'a> {
    ghost is_lawful_item = { is_lawful_item ⟦<Pfx<'a> as Described>⟧.element refl };
}
