//! The extension authorityInfoAccess, which says where information about the issuer is found.
ghost use Rattle.std.specs.Prelude.{◌≡◌};
ghost use Rattle.der.specs.Prelude.{Same};
ghost use Rattle.der_asn1.specs.ListAnswers.{ItemAnswer};
ghost use Rattle.der_c_core.specs.CReader.{reader_state};
ghost use Rattle.x509.specs.ExtensionIdentifiers.{id_pe};
ghost use Rattle.x509.specs.Find.{WholeRead};
ghost use Rattle.der_c_x509.specs.Calls.{ReadsItem, ReadsNext};
ghost use Rattle.der_c_x509.specs.FindCalls.{FindsType, ReadsKnown, RefusesList};
ghost use Rattle.der_c_x509.specs.Items.{IsAccessDescriptionOf};
ghost use Rattle.der_c_x509.specs.Known.{IsFoundOf};

use crate::find::find_known;
use crate::found::{DerFound, found_list};
use crate::general_name::{DerGeneralName, general_name_of};
use crate::next::next_item;
use crate::strings::span_of;
use der::{Decode, DecodeValue, FixedTag, ReadValue, SliceReader, WrittenValue};
use der_asn1::{Item, SequenceOf};
use der_c_core::{DerError, DerReader, DerSpan};
use std::alloc::Global;
use x509::{AccessDescription, Extension, ext};

/// An access description: where some information is found (AccessDescription; RFC 5280, 4.2.2.1).
/// All octets are borrowed from the input.
#[repr(C)]
#[derive(Clone, Copy)]
pub struct DerAccessDescription<'a> {
    /// The contents octets of accessMethod, an OBJECT IDENTIFIER. It says what is found: for
    /// example, 1.3.6.1.5.5.7.48.1 stands for an OCSP responder, and 1.3.6.1.5.5.7.48.2 for
    /// certificates of the issuer.
    pub method: DerSpan<'a>,
    /// accessLocation: the name of the place at which the information is found, usually a URI.
    pub location: DerGeneralName<'a>,
}

impl DerAccessDescription<'_> {
    /// The value of an access description before it is read: all fields are empty or 0.
    pub const EMPTY: DerAccessDescription<'static> = DerAccessDescription {
        method: DerSpan::EMPTY,
        location: DerGeneralName::EMPTY,
    };
}

// An access description as a struct of C.
fn access_description_of<'a>(value: &AccessDescription<'a>) -> DerAccessDescription<'a>
    ensures { IsAccessDescriptionOf value.now result }
{
    DerAccessDescription {
        method: span_of(&value.access_method),
        location: general_name_of(&value.access_location),
    }
}

/// Finds the extension authorityInfoAccess (RFC 5280, 4.2.2.1). `extensions` are the contents
/// octets of a list of extensions. Stores the contents octets of the list of access descriptions in
/// `descriptions`, for `der_next_access_description`. It is not an error if the extension is
/// absent, or if its list is empty. Each access description is checked as
/// `der_next_access_description` checks it.
///
/// A call that fails leaves `descriptions` unchanged. Fails with:
///
/// - the error of decoding an extension, if the list has an extension that cannot be decoded. A
///   list that `der_certificate_read` has set has no such extension;
/// - `SetDuplicate` without a position, if the list has the extension more than once;
/// - the error of decoding the value of the extension, if the value cannot be decoded. The position
///   of the error is counted from the start of the value. If the contents of the value are cut, the
///   error is `Incomplete`, and its `first` is the position at which the value would end.
pub fn der_authority_information_access<'a>(
    alloc: Global,
    extensions: &'a [u8],
    descriptions: &mut DerFound<'a>,
) -> DerError
    ensures { ReadsKnown (FindsType (RefusesList
        ⟦<Extension<'a> as Decode<SliceReader<'a>>>⟧.decode_answers)
        ⟦<Extension<'a> as Item>⟧.item.valid ⟦<Extension<'a> as Item>⟧.item.octets (WholeRead
        ⟦<SequenceOf<'a, AccessDescription<'a>> as FixedTag>⟧.tag_is
        ⟦<SequenceOf<'a, AccessDescription<'a>> as ReadValue>⟧.valid
        ⟦<SequenceOf<'a, AccessDescription<'a>> as WrittenValue>⟧.contents
        ⟦<SequenceOf<'a, AccessDescription<'a>> as ReadValue>⟧.allocates
        ⟦<SequenceOf<'a, AccessDescription<'a>> as DecodeValue<SliceReader<'a>>>⟧.decode_value_answers)
        (id_pe 1) extensions.now) (IsFoundOf (λ v. v.octets.now)) result descriptions.old
        descriptions.new }
{
    match find_known::<ext::AuthorityInfoAccess>(alloc, extensions) {
        Ok(found) => {
            *descriptions = found_list(&found);
            DerError::NONE
        }
        Err(error) => error,
    }
}

/// Reads the next access description of a list into `description`. `reader` must read the contents
/// of a list that `der_authority_information_access` has found.
///
/// A call that fails leaves `description` unchanged. At the end of the list, the error is
/// `Incomplete`. After `TagUnexpected`, `reader` is unchanged; after any other error, `reader` has
/// failed.
pub fn der_next_access_description<'a>(
    alloc: Global,
    reader: &mut DerReader<'a>,
    description: &mut DerAccessDescription<'a>,
) -> DerError
    ensures same { Same (reader_state reader.old) (reader_state reader.new) }
    ensures reads { ReadsItem ⟦<AccessDescription<'a> as Decode<SliceReader<'a>>>⟧.is_next
        (ItemAnswer (λ e f. f ≡ e)
        ⟦<AccessDescription<'a> as Decode<SliceReader<'a>>>⟧.decode_answers) IsAccessDescriptionOf
        (reader_state reader.old) result description.old description.new
        (reader_state reader.new) }
    ensures complete { ReadsNext ⟦<AccessDescription<'a> as Decode<SliceReader<'a>>>⟧.is_next
        ⟦<AccessDescription<'a> as Decode<SliceReader<'a>>>⟧.decode_levels
        (reader_state reader.old) result (reader_state reader.new) }
{
    match next_item::<AccessDescription<'a>>(alloc, reader) {
        Ok(value) => {
            *description = access_description_of(&value);
            DerError::NONE
        }
        Err(error) => error,
    }
}
