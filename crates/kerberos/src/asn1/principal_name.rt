//! Written by asn1_compile from the module KerberosV5Spec2: change the module instead.
//!
//! PrincipalName.
ghost use Rattle.std.specs.Prelude.{◌≡◌};
ghost use Rattle.std.proofs.Common.{refl};
ghost use Rattle.der.specs.Prelude.{map_ok};
ghost use Rattle.der_asn1.specs.Meaning.{alternative, field, is_lawful_item, sequence, sequence_item, two_fields};

use crate::asn1::int32::Int32;
use crate::asn1::kerberos_string::KerberosString;
use der::{
    Decode, DecodeValue, Encode, Error, FieldsCall, FromFields, HasFields, Header, IsValue, Lends,
    Reader, Sequence, SliceReader, decode_sequence, field_refs,
};
use der_asn1::{Described, Explicit, Item, LawfulItem, SequenceOf};
use std::alloc::Global;

/// The name of a client or of a server (RFC 4120, 5.2.2).
#[derive(Clone, Copy, Debug, Drop, PartialEq, Eq)]
pub struct PrincipalName<'a> {
    /// The kind of the name, as a number (RFC 4120, 6.2).
    pub name_type: Explicit<Int32<'a>, 0>,
    /// The components of the name, first to last.
    pub name_string: Explicit<SequenceOf<'a, KerberosString<'a>>, 1>,
}

/// The fields of [`PrincipalName`] as one type, in the order in which they are encoded.
pub type PrincipalNameFields<'a> = (
    Explicit<Int32<'a>, 0>,
    Explicit<SequenceOf<'a, KerberosString<'a>>, 1>,
);

impl<'a> FromFields<PrincipalNameFields<'a>> for PrincipalName<'a> {
    ghost fields = { λ v. (v.name_type, v.name_string) };

    fn from_fields(fields: PrincipalNameFields<'a>) -> Self {
        let (name_type, name_string) = fields;
        PrincipalName {
            name_type,
            name_string,
        }
    }
}

impl<'a> Sequence for PrincipalName<'a> {
    ghost meaning = { sequence (two_fields (field (alternative
        ⟦<Explicit<Int32<'a>, 0> as Described>⟧.element)) (field (alternative
        ⟦<Explicit<SequenceOf<'a, KerberosString<'a>>, 1> as Described>⟧.element)))
        ⟦<PrincipalName<'a> as FromFields<PrincipalNameFields<'a>>>⟧.fields };

    ghost fits = { (refl, refl) };
}

/// Decodes the fields, first to last. The errors are those that [`Sequence`] lists.
impl<'a, R: Lends<Borrowed = &'a [u8]>> DecodeValue<R> for PrincipalName<'a> {
    type Error = Error;

    ghost decode_value_answers = { λ h s result t.
        ⟦<PrincipalNameFields<'a> as Decode<SliceReader<'a>>>⟧.decode_answers s (map_ok
        ⟦<PrincipalName<'a> as FromFields<PrincipalNameFields<'a>>>⟧.fields result) t };

    fn decode_value(alloc: Global, reader: &mut R, header: Header) -> Result<Self, Error>
    where
        R: Reader,
    {
        decode_sequence::<R, PrincipalNameFields<'a>, Self>(alloc, reader, header)
    }
}

impl<'a> IsValue for PrincipalName<'a> {
    fn is_value(&self) {
        self.name_type.is_value();
        self.name_string.is_value();
    }
}

/// Writes the fields, first to last. The errors are those that [`Sequence`] lists.
impl<'a> HasFields for PrincipalName<'a> {
    ghost fields_size = { λ v. ⟦<PrincipalNameFields<'a> as Encode>⟧.size
        (⟦<PrincipalName<'a> as FromFields<PrincipalNameFields<'a>>>⟧.fields v) };

    ghost fields_answers = { λ v. ⟦<PrincipalNameFields<'a> as Encode>⟧.encode_answers
        (⟦<PrincipalName<'a> as FromFields<PrincipalNameFields<'a>>>⟧.fields v) };

    fn call_fields<S, C: FieldsCall<S>>(
        &self,
        call: &C,
        state: &mut S,
        buf: &mut [u8],
    ) -> C::Output {
        call.call(&field_refs!(self, (name_type, name_string)), state, buf)
    }
}

impl<'a> Item for PrincipalName<'a> {
    ghost item = { sequence_item ⟦<PrincipalName<'a> as Described>⟧.element };
}

impl<'a> LawfulItem for PrincipalName<'a> {
    ghost is_lawful_item = { is_lawful_item ⟦<PrincipalName<'a> as Described>⟧.element refl };
}
