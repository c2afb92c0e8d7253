//! Written by asn1_compile from the module X509: change the module instead.
//!
//! BasicConstraints.
ghost use Rattle.std.specs.Prelude.{◌≡◌};
ghost use Rattle.std.proofs.Common.{refl};
ghost use Rattle.der.specs.Prelude.{map_ok};
ghost use Rattle.der_asn1.specs.Meaning.{alternative, defaulted, is_lawful_item, optional, sequence, sequence_item, two_fields};

use der::{
    Decode, DecodeValue, Encode, Error, FieldsCall, FromFields, HasFields, Header, IsValue, Lends,
    Reader, Sequence, SliceReader, decode_sequence, field_refs,
};
use der_asn1::{
    BooleanRef, DefaultValue, Defaulted, Described, IntRef, Item, LawfulItem, Optional,
};
use std::alloc::Global;

/// Whether the subject is a certification authority, and how many further authorities may follow it
/// in a chain of certificates (RFC 5280, 4.2.1.9), borrowed from the input.
#[derive(Clone, Copy, Debug, Drop, PartialEq, Eq)]
pub struct BasicConstraints<'a> {
    /// Whether the subject is a certification authority. The default is false.
    pub ca: Defaulted<BooleanRef<'a>>,
    /// How many further authorities may follow in a chain of certificates; if absent, there is no
    /// limit. That the number is not negative is not checked.
    pub path_len_constraint: Optional<IntRef<'a>>,
}

/// The fields of [`BasicConstraints`] as one type, in the order in which they are encoded.
pub type BasicConstraintsFields<'a> = (Defaulted<BooleanRef<'a>>, Optional<IntRef<'a>>);

impl<'a> FromFields<BasicConstraintsFields<'a>> for BasicConstraints<'a> {
    ghost fields = { λ v. (v.ca, v.path_len_constraint) };

    fn from_fields(fields: BasicConstraintsFields<'a>) -> Self {
        let (ca, path_len_constraint) = fields;
        BasicConstraints {
            ca,
            path_len_constraint,
        }
    }
}

impl<'a> Sequence for BasicConstraints<'a> {
    ghost meaning = { sequence (two_fields (defaulted ⟦<BooleanRef<'a> as DefaultValue>⟧.is_default
        (alternative ⟦<BooleanRef<'a> as Described>⟧.element)) (optional (alternative
        ⟦<IntRef<'a> as Described>⟧.element)))
        ⟦<BasicConstraints<'a> as FromFields<BasicConstraintsFields<'a>>>⟧.fields };

    ghost fits = { (refl, refl) };
}

/// Decodes the fields, first to last. The errors are those that [`Sequence`] lists.
impl<'a, R: Lends<Borrowed = &'a [u8]>> DecodeValue<R> for BasicConstraints<'a> {
    type Error = Error;

    ghost decode_value_answers = { λ h s result t.
        ⟦<BasicConstraintsFields<'a> as Decode<SliceReader<'a>>>⟧.decode_answers s (map_ok
        ⟦<BasicConstraints<'a> as FromFields<BasicConstraintsFields<'a>>>⟧.fields result) t };

    fn decode_value(alloc: Global, reader: &mut R, header: Header) -> Result<Self, Error>
    where
        R: Reader,
    {
        decode_sequence::<R, BasicConstraintsFields<'a>, Self>(alloc, reader, header)
    }
}

impl<'a> IsValue for BasicConstraints<'a> {
    fn is_value(&self) {
        self.ca.0.is_value();
        if let Some(value) = &self.path_len_constraint.0 {
            value.is_value();
        }
    }
}

/// Writes the fields, first to last. The errors are those that [`Sequence`] lists.
impl<'a> HasFields for BasicConstraints<'a> {
    ghost fields_size = { λ v. ⟦<BasicConstraintsFields<'a> as Encode>⟧.size
        (⟦<BasicConstraints<'a> as FromFields<BasicConstraintsFields<'a>>>⟧.fields v) };

    ghost fields_answers = { λ v. ⟦<BasicConstraintsFields<'a> as Encode>⟧.encode_answers
        (⟦<BasicConstraints<'a> as FromFields<BasicConstraintsFields<'a>>>⟧.fields v) };

    fn call_fields<S, C: FieldsCall<S>>(
        &self,
        call: &C,
        state: &mut S,
        buf: &mut [u8],
    ) -> C::Output {
        call.call(&field_refs!(self, (ca, path_len_constraint)), state, buf)
    }
}

impl<'a> Item for BasicConstraints<'a> {
    ghost item = { sequence_item ⟦<BasicConstraints<'a> as Described>⟧.element };
}

impl<'a> LawfulItem for BasicConstraints<'a> {
    ghost is_lawful_item = { is_lawful_item ⟦<BasicConstraints<'a> as Described>⟧.element refl };
}
