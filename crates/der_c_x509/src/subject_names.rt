//! The extension subjectAltName, which has further names of the subject.
ghost use Rattle.std.specs.Prelude.{◌≡◌};
ghost use Rattle.x509.specs.ExtensionIdentifiers.{id_ce};
ghost use Rattle.x509.specs.Find.{WholeRead};
ghost use Rattle.der_c_x509.specs.FindCalls.{FindsType, ReadsKnown, RefusesList};
ghost use Rattle.der_c_x509.specs.Known.{IsNamesOf};

use crate::find::find_known;
use der::{Decode, DecodeValue, FixedTag, ReadValue, SliceReader, WrittenValue};
use der_asn1::{Item, SequenceOf};
use der_c_core::{DerError, DerSpan};
use std::alloc::Global;
use x509::{Extension, GeneralName, Known, ext};

/// The result of looking for the extension subjectAltName (RFC 5280, 4.2.1.6).
#[repr(C)]
#[derive(Clone, Copy)]
pub struct DerGeneralNames<'a> {
    /// The contents octets of the list of general names, for `der_next_general_name`. Empty if the
    /// extension is absent.
    pub names: DerSpan<'a>,
    /// Whether the list of extensions contains this extension.
    pub present: bool,
    /// Whether the extension is critical. False if the extension is absent.
    pub critical: bool,
}

impl DerGeneralNames<'_> {
    /// The value for an absent extension: all fields are empty, 0 or false.
    pub const EMPTY: DerGeneralNames<'static> = DerGeneralNames {
        names: DerSpan::EMPTY,
        present: false,
        critical: false,
    };
}

// The extension as a struct of C.
fn names_of<'a>(found: &Option<Known<SequenceOf<'a, GeneralName<'a>>>>) -> DerGeneralNames<'a>
    ensures { IsNamesOf (λ v. v.octets.now) found.now result }
{
    match found {
        Some(known) => DerGeneralNames {
            names: DerSpan {
                octets: known.value.octets(),
            },
            present: true,
            critical: known.critical,
        },
        None => DerGeneralNames::EMPTY,
    }
}

/// Finds the extension subjectAltName and stores its names in `names`. `extensions` are the
/// contents octets of a list of extensions. It is not an error if the extension is absent. Each
/// name is checked as `der_next_general_name` checks it.
///
/// A call that fails leaves `names` unchanged. Fails with:
///
/// - the error of decoding an extension, if the list has an extension that cannot be decoded. A
///   list that `der_certificate_read` has set has no such extension;
/// - `SetDuplicate` without a position, if the list has the extension more than once;
/// - the error of decoding the value of the extension, if the value cannot be decoded. The position
///   of the error is counted from the start of the value. If the contents of the value are cut, the
///   error is `Incomplete`, and its `first` is the position at which the value would end.
pub fn der_subject_alternative_name<'a>(
    alloc: Global,
    extensions: &'a [u8],
    names: &mut DerGeneralNames<'a>,
) -> DerError
    ensures { ReadsKnown (FindsType (RefusesList
        ⟦<Extension<'a> as Decode<SliceReader<'a>>>⟧.decode_answers)
        ⟦<Extension<'a> as Item>⟧.item.valid ⟦<Extension<'a> as Item>⟧.item.octets (WholeRead
        ⟦<SequenceOf<'a, GeneralName<'a>> as FixedTag>⟧.tag_is
        ⟦<SequenceOf<'a, GeneralName<'a>> as ReadValue>⟧.valid
        ⟦<SequenceOf<'a, GeneralName<'a>> as WrittenValue>⟧.contents
        ⟦<SequenceOf<'a, GeneralName<'a>> as ReadValue>⟧.allocates
        ⟦<SequenceOf<'a, GeneralName<'a>> as DecodeValue<SliceReader<'a>>>⟧.decode_value_answers)
        (id_ce 17) extensions.now) (IsNamesOf (λ v. v.octets.now)) result names.old names.new }
{
    match find_known::<ext::SubjectAltName>(alloc, extensions) {
        Ok(found) => {
            *names = names_of(&found);
            DerError::NONE
        }
        Err(error) => error,
    }
}
