//! Written by asn1_compile from the module PKCS-12: change the module instead.
//!
//! MacData.
ghost use Rattle.std.specs.Prelude.{◌≡◌};
ghost use Rattle.std.proofs.Common.{refl};
ghost use Rattle.der.specs.Prelude.{map_ok};
ghost use Rattle.der_asn1.specs.Meaning.{alternative, defaulted, field, is_lawful_item, sequence, sequence_item};
ghost use Rattle.der_asn1.specs.TupleFields.{three_fields};

use der::{
    Decode, DecodeValue, Encode, Error, FieldsCall, FromFields, HasFields, Header, IsValue, Lends,
    Reader, Sequence, SliceReader, decode_sequence, field_refs,
};
use der_asn1::{
    DefaultU64, DefaultValue, Defaulted, Described, IntegerOf, Item, LawfulItem, OctetStringRef,
    WithDefault,
};
use pkcs1::DigestInfo;
use std::alloc::Global;

/// A message authentication code with a key from a password (RFC 7292, 4), borrowed from the input.
#[derive(Clone, Copy, Debug, Drop, PartialEq, Eq)]
pub struct MacData<'a> {
    /// The code and its algorithm: the digest algorithm of HMAC, or PBMAC1 with its parameters (RFC
    /// 9579).
    pub mac: DigestInfo<'a>,
    /// The salt of the key. PBMAC1 does not use it.
    pub mac_salt: OctetStringRef<'a>,
    /// The number of iterations. The default is 1. Decoding accepts every number from 0 to 2^64 -
    /// 1.
    pub iterations: Defaulted<WithDefault<IntegerOf<u64>, DefaultU64<1>>>,
}

/// The fields of [`MacData`] as one type, in the order in which they are encoded.
pub type MacDataFields<'a> = (
    DigestInfo<'a>,
    OctetStringRef<'a>,
    Defaulted<WithDefault<IntegerOf<u64>, DefaultU64<1>>>,
);

impl<'a> FromFields<MacDataFields<'a>> for MacData<'a> {
    ghost fields = { λ v. (v.mac, v.mac_salt, v.iterations) };

    fn from_fields(fields: MacDataFields<'a>) -> Self {
        let (mac, mac_salt, iterations) = fields;
        MacData {
            mac,
            mac_salt,
            iterations,
        }
    }
}

impl<'a> Sequence for MacData<'a> {
    ghost meaning = { sequence (three_fields (field (alternative
        ⟦<DigestInfo<'a> as Described>⟧.element)) (field (alternative
        ⟦<OctetStringRef<'a> as Described>⟧.element)) (defaulted
        ⟦<WithDefault<IntegerOf<u64>, DefaultU64<1>> as DefaultValue>⟧.is_default (alternative
        ⟦<WithDefault<IntegerOf<u64>, DefaultU64<1>> as Described>⟧.element)))
        ⟦<MacData<'a> as FromFields<MacDataFields<'a>>>⟧.fields };

    ghost fits = { (refl, refl) };
}

/// Decodes the fields, first to last. The errors are those that [`Sequence`] lists.
impl<'a, R: Lends<Borrowed = &'a [u8]>> DecodeValue<R> for MacData<'a> {
    type Error = Error;

    ghost decode_value_answers = { λ h s result t.
        ⟦<MacDataFields<'a> as Decode<SliceReader<'a>>>⟧.decode_answers s (map_ok
        ⟦<MacData<'a> as FromFields<MacDataFields<'a>>>⟧.fields result) t };

    fn decode_value(alloc: Global, reader: &mut R, header: Header) -> Result<Self, Error>
    where
        R: Reader,
    {
        decode_sequence::<R, MacDataFields<'a>, Self>(alloc, reader, header)
    }
}

impl<'a> IsValue for MacData<'a> {
    fn is_value(&self) {
        self.mac.is_value();
        self.mac_salt.is_value();
        self.iterations.0.is_value();
    }
}

/// Writes the fields, first to last. The errors are those that [`Sequence`] lists.
impl<'a> HasFields for MacData<'a> {
    ghost fields_size = { λ v. ⟦<MacDataFields<'a> as Encode>⟧.size
        (⟦<MacData<'a> as FromFields<MacDataFields<'a>>>⟧.fields v) };

    ghost fields_answers = { λ v. ⟦<MacDataFields<'a> as Encode>⟧.encode_answers
        (⟦<MacData<'a> as FromFields<MacDataFields<'a>>>⟧.fields v) };

    fn call_fields<S, C: FieldsCall<S>>(
        &self,
        call: &C,
        state: &mut S,
        buf: &mut [u8],
    ) -> C::Output {
        call.call(&field_refs!(self, (mac, mac_salt, iterations)), state, buf)
    }
}

impl<'a> Item for MacData<'a> {
    ghost item = { sequence_item ⟦<MacData<'a> as Described>⟧.element };
}

impl<'a> LawfulItem for MacData<'a> {
    ghost is_lawful_item = { is_lawful_item ⟦<MacData<'a> as Described>⟧.element refl };
}
