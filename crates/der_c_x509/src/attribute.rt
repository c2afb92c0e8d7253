//! Reading the attributes of names.
ghost use Rattle.std.specs.Prelude.{◌≡◌};
ghost use Rattle.der.specs.Prelude.{Same};
ghost use Rattle.der_asn1.specs.ListAnswers.{ItemAnswer};
ghost use Rattle.der_c_core.specs.CReader.{reader_state};
ghost use Rattle.der_c_x509.specs.Items.{IsAttributeOf};
ghost use Rattle.der_c_x509.specs.Calls.{ReadsItem, ReadsNext};

use crate::any::{DerAny, any_of};
use crate::next::next_item;
use crate::strings::span_of;
use der::{Decode, SliceReader};
use der_c_core::{DerError, DerReader, DerSpan};
use std::alloc::Global;
use x509::AttributeTypeAndValue;

/// An attribute of a distinguished name (RFC 5280, 4.1.2.4). All octets are borrowed from the
/// input.
#[repr(C)]
#[derive(Clone, Copy)]
pub struct DerAttribute<'a> {
    /// The contents octets of the OBJECT IDENTIFIER of the attribute's type.
    pub identifier: DerSpan<'a>,
    /// The value of the attribute. Its contents are not checked.
    pub value: DerAny<'a>,
}

impl DerAttribute<'_> {
    /// The value of an attribute before it is read: all fields are empty or 0.
    pub const EMPTY: DerAttribute<'static> = DerAttribute {
        identifier: DerSpan::EMPTY,
        value: DerAny::EMPTY,
    };
}

// An attribute as a struct of C.
fn attribute_of<'a>(value: &AttributeTypeAndValue<'a>) -> DerAttribute<'a>
    ensures { IsAttributeOf value.now result }
{
    DerAttribute {
        identifier: span_of(&value.oid),
        value: any_of(&value.value),
    }
}

/// Reads the next attribute of a RelativeDistinguishedName into `attribute`. A Name is a SEQUENCE
/// of RelativeDistinguishedNames, and each of them is a SET of attributes (RFC 5280, 4.1.2.4).
/// `reader` must read the contents of the SET, for example after `der_enter`.
///
/// A call that fails leaves `attribute` unchanged. At the end of the SET, the error is
/// `Incomplete`. After `TagUnexpected`, `reader` is unchanged; after any other error, `reader` has
/// failed.
pub fn der_next_attribute<'a>(
    alloc: Global,
    reader: &mut DerReader<'a>,
    attribute: &mut DerAttribute<'a>,
) -> DerError
    ensures same { Same (reader_state reader.old) (reader_state reader.new) }
    ensures reads { ReadsItem ⟦<AttributeTypeAndValue<'a> as Decode<SliceReader<'a>>>⟧.is_next
        (ItemAnswer (λ e f. f ≡ e)
        ⟦<AttributeTypeAndValue<'a> as Decode<SliceReader<'a>>>⟧.decode_answers) IsAttributeOf
        (reader_state reader.old) result attribute.old attribute.new (reader_state reader.new) }
    ensures complete { ReadsNext ⟦<AttributeTypeAndValue<'a> as Decode<SliceReader<'a>>>⟧.is_next
        ⟦<AttributeTypeAndValue<'a> as Decode<SliceReader<'a>>>⟧.decode_levels
        (reader_state reader.old) result (reader_state reader.new) }
{
    match next_item::<AttributeTypeAndValue<'a>>(alloc, reader) {
        Ok(value) => {
            *attribute = attribute_of(&value);
            DerError::NONE
        }
        Err(error) => error,
    }
}
