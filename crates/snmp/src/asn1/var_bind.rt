//! Written by asn1_compile from the module SNMPv2-PDU: change the module instead.
//!
//! VarBind.
ghost use Rattle.std.specs.Prelude.{◌≡◌};
ghost use Rattle.std.proofs.Common.{refl};
ghost use Rattle.der.specs.Prelude.{map_ok};
ghost use Rattle.der_asn1.specs.Meaning.{alternative, field, is_lawful_item, sequence, sequence_item, two_fields};

use crate::asn1::application_syntax::ApplicationSyntax;
use crate::asn1::object_name::ObjectName;
use crate::asn1::object_syntax::ObjectSyntax;
use crate::asn1::simple_syntax::SimpleSyntax;
use crate::asn1::var_bind_data::VarBindData;
use der::{
    Decode, DecodeValue, Encode, Error, FieldsCall, FromFields, HasFields, Header, IsValue, Lends,
    Reader, Sequence, SliceReader, decode_sequence, field_refs,
};
use der_asn1::{Described, DescribedChoice, Item, LawfulItem};
use std::alloc::Global;

/// A variable with its value (RFC 3416, 3). The RFC has no name for the component `data`, but X.680
/// requires one.
#[derive(Clone, Copy, Debug, Drop, PartialEq, Eq)]
pub struct VarBind<'a> {
    /// The name of the variable.
    pub name: ObjectName<'a>,
    /// The value of the variable, or why there is none.
    pub data: VarBindData<'a>,
}

/// The fields of [`VarBind`] as one type, in the order in which they are encoded.
pub type VarBindFields<'a> = (ObjectName<'a>, VarBindData<'a>);

impl<'a> FromFields<VarBindFields<'a>> for VarBind<'a> {
    ghost fields = { λ v. (v.name, v.data) };

    fn from_fields(fields: VarBindFields<'a>) -> Self {
        let (name, data) = fields;
        VarBind { name, data }
    }
}

impl<'a> Sequence for VarBind<'a> {
    ghost meaning = { sequence (two_fields (field (alternative
        ⟦<ObjectName<'a> as Described>⟧.element)) (field
        ⟦<VarBindData<'a> as DescribedChoice>⟧.alternative))
        ⟦<VarBind<'a> as FromFields<VarBindFields<'a>>>⟧.fields };

    ghost fits = { (refl, refl) };
}

/// Decodes the fields, first to last. The errors are those that [`Sequence`] lists.
impl<'a, R: Lends<Borrowed = &'a [u8]>> DecodeValue<R> for VarBind<'a> {
    type Error = Error;

    ghost decode_value_answers = { λ h s result t.
        ⟦<VarBindFields<'a> as Decode<SliceReader<'a>>>⟧.decode_answers s (map_ok
        ⟦<VarBind<'a> as FromFields<VarBindFields<'a>>>⟧.fields result) t };

    fn decode_value(alloc: Global, reader: &mut R, header: Header) -> Result<Self, Error>
    where
        R: Reader,
    {
        decode_sequence::<R, VarBindFields<'a>, Self>(alloc, reader, header)
    }
}

impl<'a> IsValue for VarBind<'a> {
    fn is_value(&self) {
        self.name.is_value();
        match &self.data {
            VarBindData::Value(value) => match value {
                ObjectSyntax::Simple(value) => match value {
                    SimpleSyntax::IntegerValue(value) => value.is_value(),
                    SimpleSyntax::StringValue(value) => value.is_value(),
                    SimpleSyntax::ObjectIdValue(value) => value.is_value(),
                },
                ObjectSyntax::ApplicationWide(value) => match value {
                    ApplicationSyntax::IpAddressValue(value) => value.is_value(),
                    ApplicationSyntax::CounterValue(value) => value.is_value(),
                    ApplicationSyntax::TimeticksValue(value) => value.is_value(),
                    ApplicationSyntax::ArbitraryValue(value) => value.is_value(),
                    ApplicationSyntax::BigCounterValue(value) => value.is_value(),
                    ApplicationSyntax::UnsignedIntegerValue(value) => value.is_value(),
                },
            },
            VarBindData::UnSpecified(value) => value.is_value(),
            VarBindData::NoSuchObject(value) => value.is_value(),
            VarBindData::NoSuchInstance(value) => value.is_value(),
            VarBindData::EndOfMibView(value) => value.is_value(),
        }
    }
}

/// Writes the fields, first to last. The errors are those that [`Sequence`] lists.
impl<'a> HasFields for VarBind<'a> {
    ghost fields_size = { λ v. ⟦<VarBindFields<'a> as Encode>⟧.size
        (⟦<VarBind<'a> as FromFields<VarBindFields<'a>>>⟧.fields v) };

    ghost fields_answers = { λ v. ⟦<VarBindFields<'a> as Encode>⟧.encode_answers
        (⟦<VarBind<'a> as FromFields<VarBindFields<'a>>>⟧.fields v) };

    fn call_fields<S, C: FieldsCall<S>>(
        &self,
        call: &C,
        state: &mut S,
        buf: &mut [u8],
    ) -> C::Output {
        call.call(&field_refs!(self, (name, data)), state, buf)
    }
}

impl<'a> Item for VarBind<'a> {
    ghost item = { sequence_item ⟦<VarBind<'a> as Described>⟧.element };
}

impl<'a> LawfulItem for VarBind<'a> {
    ghost is_lawful_item = { is_lawful_item ⟦<VarBind<'a> as Described>⟧.element refl };
}
