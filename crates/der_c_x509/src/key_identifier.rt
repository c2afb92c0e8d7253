//! The extension subjectKeyIdentifier, which identifies the subject's key.
ghost use Rattle.x509.specs.ExtensionIdentifiers.{id_ce};
ghost use Rattle.x509.specs.Find.{WholeRead};
ghost use Rattle.der_c_x509.specs.FindCalls.{FindsType, ReadsKnown, RefusesList};
ghost use Rattle.der_c_x509.specs.Known.{IsFoundOf};

use crate::find::find_known;
use crate::found::{DerFound, found_string};
use der::{Decode, DecodeValue, FixedTag, ReadValue, SliceReader, WrittenValue};
use der_asn1::{Item, OctetStringRef};
use der_c_core::DerError;
use std::alloc::Global;
use x509::{Extension, ext};

/// Finds the extension subjectKeyIdentifier (RFC 5280, 4.2.1.2), and stores the octets of the
/// identifier in `identifier`. `extensions` are the contents octets of a list of extensions. It is
/// not an error if the extension is absent. It is not checked that the identifier belongs to the
/// certificate's key.
///
/// A call that fails leaves `identifier` unchanged. Fails with:
///
/// - the error of decoding an extension, if the list has an extension that cannot be decoded. A
///   list that `der_certificate_read` has set has no such extension;
/// - `SetDuplicate` without a position, if the list has the extension more than once;
/// - the error of decoding the value of the extension, if the value cannot be decoded. The position
///   of the error is counted from the start of the value. If the contents of the value are cut, the
///   error is `Incomplete`, and its `first` is the position at which the value would end.
pub fn der_subject_key_identifier<'a>(
    alloc: Global,
    extensions: &'a [u8],
    identifier: &mut DerFound<'a>,
) -> DerError
    ensures { ReadsKnown (FindsType (RefusesList
        ⟦<Extension<'a> as Decode<SliceReader<'a>>>⟧.decode_answers)
        ⟦<Extension<'a> as Item>⟧.item.valid ⟦<Extension<'a> as Item>⟧.item.octets (WholeRead
        ⟦<OctetStringRef<'a> as FixedTag>⟧.tag_is ⟦<OctetStringRef<'a> as ReadValue>⟧.valid
        ⟦<OctetStringRef<'a> as WrittenValue>⟧.contents
        ⟦<OctetStringRef<'a> as ReadValue>⟧.allocates
        ⟦<OctetStringRef<'a> as DecodeValue<SliceReader<'a>>>⟧.decode_value_answers) (id_ce 14)
        extensions.now) (IsFoundOf (λ v. v.octets.now)) result identifier.old identifier.new }
{
    match find_known::<ext::SubjectKeyIdentifier>(alloc, extensions) {
        Ok(found) => {
            *identifier = found_string(&found);
            DerError::NONE
        }
        Err(error) => error,
    }
}
