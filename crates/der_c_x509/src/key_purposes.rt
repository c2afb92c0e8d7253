//! The extension extKeyUsage, which lists the purposes of a key.
ghost use Rattle.std.specs.Prelude.{◌≡◌};
ghost use Rattle.der.specs.Prelude.{Same};
ghost use Rattle.der_asn1.specs.ListAnswers.{ItemAnswer};
ghost use Rattle.der_c_core.specs.CReader.{reader_state};
ghost use Rattle.x509.specs.ExtensionIdentifiers.{id_ce};
ghost use Rattle.x509.specs.Find.{WholeRead};
ghost use Rattle.der_c_x509.specs.Calls.{ReadsItem, ReadsNext};
ghost use Rattle.der_c_x509.specs.FindCalls.{FindsType, ReadsKnown, RefusesList};
ghost use Rattle.der_c_x509.specs.Items.{IsSpanOf};
ghost use Rattle.der_c_x509.specs.Known.{IsFoundOf};

use crate::find::find_known;
use crate::found::{DerFound, found_list};
use crate::next::next_item;
use crate::strings::span_of;
use der::{Decode, DecodeValue, FixedTag, ReadValue, SliceReader, WrittenValue};
use der_asn1::{Item, ObjectIdentifierRef, SequenceOf};
use der_c_core::{DerError, DerReader, DerSpan};
use std::alloc::Global;
use x509::{Extension, ext};

/// Finds the extension extKeyUsage (RFC 5280, 4.2.1.12). `extensions` are the contents octets of a
/// list of extensions. Stores the contents octets of the list of purposes in `purposes`, for
/// `der_next_key_purpose`. It is not an error if the extension is absent, or if its list is empty.
/// Each purpose is checked as `der_next_key_purpose` checks it.
///
/// A call that fails leaves `purposes` unchanged. Fails with:
///
/// - the error of decoding an extension, if the list has an extension that cannot be decoded. A
///   list that `der_certificate_read` has set has no such extension;
/// - `SetDuplicate` without a position, if the list has the extension more than once;
/// - the error of decoding the value of the extension, if the value cannot be decoded. The position
///   of the error is counted from the start of the value. If the contents of the value are cut, the
///   error is `Incomplete`, and its `first` is the position at which the value would end.
pub fn der_extended_key_usage<'a>(
    alloc: Global,
    extensions: &'a [u8],
    purposes: &mut DerFound<'a>,
) -> DerError
    ensures { ReadsKnown (FindsType (RefusesList
        ⟦<Extension<'a> as Decode<SliceReader<'a>>>⟧.decode_answers)
        ⟦<Extension<'a> as Item>⟧.item.valid ⟦<Extension<'a> as Item>⟧.item.octets (WholeRead
        ⟦<SequenceOf<'a, ObjectIdentifierRef<'a>> as FixedTag>⟧.tag_is
        ⟦<SequenceOf<'a, ObjectIdentifierRef<'a>> as ReadValue>⟧.valid
        ⟦<SequenceOf<'a, ObjectIdentifierRef<'a>> as WrittenValue>⟧.contents
        ⟦<SequenceOf<'a, ObjectIdentifierRef<'a>> as ReadValue>⟧.allocates
        ⟦<SequenceOf<'a, ObjectIdentifierRef<'a>> as DecodeValue<SliceReader<'a>>>⟧.decode_value_answers)
        (id_ce 37) extensions.now) (IsFoundOf (λ v. v.octets.now)) result purposes.old purposes.new }
{
    match find_known::<ext::ExtKeyUsage>(alloc, extensions) {
        Ok(found) => {
            *purposes = found_list(&found);
            DerError::NONE
        }
        Err(error) => error,
    }
}

/// Reads the next purpose of extKeyUsage into `purpose`: the contents octets of an OBJECT
/// IDENTIFIER (KeyPurposeId; RFC 5280, 4.2.1.12). `reader` must read the contents of a list that
/// `der_extended_key_usage` has found.
///
/// A call that fails leaves `purpose` unchanged. At the end of the list, the error is `Incomplete`.
/// After `TagUnexpected`, `reader` is unchanged; after any other error, `reader` has failed.
pub fn der_next_key_purpose<'a>(
    alloc: Global,
    reader: &mut DerReader<'a>,
    purpose: &mut DerSpan<'a>,
) -> DerError
    ensures same { Same (reader_state reader.old) (reader_state reader.new) }
    ensures reads { ReadsItem ⟦<ObjectIdentifierRef<'a> as Decode<SliceReader<'a>>>⟧.is_next
        (ItemAnswer (λ e f. f ≡ e)
        ⟦<ObjectIdentifierRef<'a> as Decode<SliceReader<'a>>>⟧.decode_answers)
        (IsSpanOf (λ v. v.octets.now)) (reader_state reader.old) result purpose.old purpose.new
        (reader_state reader.new) }
    ensures complete { ReadsNext ⟦<ObjectIdentifierRef<'a> as Decode<SliceReader<'a>>>⟧.is_next
        ⟦<ObjectIdentifierRef<'a> as Decode<SliceReader<'a>>>⟧.decode_levels
        (reader_state reader.old) result (reader_state reader.new) }
{
    match next_item::<ObjectIdentifierRef<'a>>(alloc, reader) {
        Ok(value) => {
            *purpose = span_of(&value);
            DerError::NONE
        }
        Err(error) => error,
    }
}
