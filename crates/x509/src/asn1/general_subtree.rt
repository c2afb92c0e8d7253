//! Written by asn1_compile from the module X509: change the module instead.
//!
//! GeneralSubtree.
ghost use Rattle.std.specs.Prelude.{◌≡◌};
ghost use Rattle.std.proofs.Common.{refl};
ghost use Rattle.der.specs.Prelude.{map_ok};
ghost use Rattle.der_asn1.specs.Meaning.{alternative, defaulted, field, is_lawful_item, optional, sequence, sequence_item};
ghost use Rattle.der_asn1.specs.TupleFields.{three_fields};

use crate::asn1::base_distance::BaseDistance;
use crate::asn1::general_name::GeneralName;
use der::{
    Decode, DecodeValue, Encode, Error, FieldsCall, FromFields, HasFields, Header, IsValue, Lends,
    Reader, Sequence, SliceReader, decode_sequence, field_refs,
};
use der_asn1::{
    DefaultU64, DefaultValue, Defaulted, Described, DescribedChoice, Implicit, IntegerOf, Item,
    LawfulItem, Optional, WithDefault,
};
use std::alloc::Global;

/// A subtree of names: a name, and the names below it (RFC 5280, 4.2.1.10), borrowed from the
/// input.
#[derive(Clone, Copy, Debug, Drop, PartialEq, Eq)]
pub struct GeneralSubtree<'a> {
    /// The name at the top of the subtree.
    pub base: GeneralName<'a>,
    /// The number of levels below `base` at which the subtree begins. The default is 0, and the RFC
    /// allows no other number, but decoding does not check this.
    pub minimum: Defaulted<Implicit<WithDefault<IntegerOf<u64>, DefaultU64<0>>, 0>>,
    /// The number of levels below `base` at which the subtree ends, if it is limited. The RFC does
    /// not allow a limit, but decoding does not check this.
    pub maximum: Optional<Implicit<BaseDistance<'a>, 1>>,
}

/// The fields of [`GeneralSubtree`] as one type, in the order in which they are encoded.
pub type GeneralSubtreeFields<'a> = (
    GeneralName<'a>,
    Defaulted<Implicit<WithDefault<IntegerOf<u64>, DefaultU64<0>>, 0>>,
    Optional<Implicit<BaseDistance<'a>, 1>>,
);

impl<'a> FromFields<GeneralSubtreeFields<'a>> for GeneralSubtree<'a> {
    ghost fields = { λ v. (v.base, v.minimum, v.maximum) };

    fn from_fields(fields: GeneralSubtreeFields<'a>) -> Self {
        let (base, minimum, maximum) = fields;
        GeneralSubtree {
            base,
            minimum,
            maximum,
        }
    }
}

impl<'a> Sequence for GeneralSubtree<'a> {
    ghost meaning = { sequence (three_fields (field
        ⟦<GeneralName<'a> as DescribedChoice>⟧.alternative) (defaulted
        ⟦<Implicit<WithDefault<IntegerOf<u64>, DefaultU64<0>>, 0> as DefaultValue>⟧.is_default
        (alternative
        ⟦<Implicit<WithDefault<IntegerOf<u64>, DefaultU64<0>>, 0> as Described>⟧.element)) (optional
        (alternative ⟦<Implicit<BaseDistance<'a>, 1> as Described>⟧.element)))
        ⟦<GeneralSubtree<'a> as FromFields<GeneralSubtreeFields<'a>>>⟧.fields };

    ghost fits = { (refl, refl) };
}

/// Decodes the fields, first to last. The errors are those that [`Sequence`] lists.
impl<'a, R: Lends<Borrowed = &'a [u8]>> DecodeValue<R> for GeneralSubtree<'a> {
    type Error = Error;

    ghost decode_value_answers = { λ h s result t.
        ⟦<GeneralSubtreeFields<'a> as Decode<SliceReader<'a>>>⟧.decode_answers s (map_ok
        ⟦<GeneralSubtree<'a> as FromFields<GeneralSubtreeFields<'a>>>⟧.fields result) t };

    fn decode_value(alloc: Global, reader: &mut R, header: Header) -> Result<Self, Error>
    where
        R: Reader,
    {
        decode_sequence::<R, GeneralSubtreeFields<'a>, Self>(alloc, reader, header)
    }
}

impl<'a> IsValue for GeneralSubtree<'a> {
    fn is_value(&self) {
        match &self.base {
            GeneralName::OtherName(value) => value.is_value(),
            GeneralName::Rfc822Name(value) => value.is_value(),
            GeneralName::DnsName(value) => value.is_value(),
            GeneralName::X400Address(value) => value.is_value(),
            GeneralName::DirectoryName(value) => value.is_value(),
            GeneralName::EdiPartyName(value) => value.is_value(),
            GeneralName::UniformResourceIdentifier(value) => value.is_value(),
            GeneralName::IpAddress(value) => value.is_value(),
            GeneralName::RegisteredId(value) => value.is_value(),
        }
        self.minimum.0.is_value();
        if let Some(value) = &self.maximum.0 {
            value.is_value();
        }
    }
}

/// Writes the fields, first to last. The errors are those that [`Sequence`] lists.
impl<'a> HasFields for GeneralSubtree<'a> {
    ghost fields_size = { λ v. ⟦<GeneralSubtreeFields<'a> as Encode>⟧.size
        (⟦<GeneralSubtree<'a> as FromFields<GeneralSubtreeFields<'a>>>⟧.fields v) };

    ghost fields_answers = { λ v. ⟦<GeneralSubtreeFields<'a> as Encode>⟧.encode_answers
        (⟦<GeneralSubtree<'a> as FromFields<GeneralSubtreeFields<'a>>>⟧.fields v) };

    fn call_fields<S, C: FieldsCall<S>>(
        &self,
        call: &C,
        state: &mut S,
        buf: &mut [u8],
    ) -> C::Output {
        call.call(&field_refs!(self, (base, minimum, maximum)), state, buf)
    }
}

impl<'a> Item for GeneralSubtree<'a> {
    ghost item = { sequence_item ⟦<GeneralSubtree<'a> as Described>⟧.element };
}

impl<'a> LawfulItem for GeneralSubtree<'a> {
    ghost is_lawful_item = { is_lawful_item ⟦<GeneralSubtree<'a> as Described>⟧.element refl };
}
