//! The extension basicConstraints, which says whether the subject may issue certificates.
ghost use Rattle.std.specs.Prelude.{◌≡◌};
ghost use Rattle.x509.specs.ExtensionIdentifiers.{id_ce};
ghost use Rattle.x509.specs.Find.{WholeRead};
ghost use Rattle.der_c_x509.specs.Constraints.{IsConstraintsAnswer, IsPathLengthAnswer, ReadsConstraints};
ghost use Rattle.der_c_x509.specs.FindCalls.{FindsType, RefusesList};

use crate::find::find_known;
use der::{Decode, DecodeValue, ErrorKind, FixedTag, ReadValue, SliceReader, Tag, WrittenValue};
use der_asn1::{IntRef, IntegerNumber, Item, Optional};
use der_c_core::{DerError, c_error};
use std::alloc::Global;
use x509::{BasicConstraints, Extension, Known, ext};

/// The extension basicConstraints (RFC 5280, 4.2.1.9).
#[repr(C)]
#[derive(Clone, Copy)]
pub struct DerBasicConstraints {
    /// The greatest number of certificates of further authorities that may follow this certificate
    /// in a chain. It is 0 if there is no limit (see `has_path_length`).
    pub path_length: u64,
    /// Whether the list of extensions contains this extension.
    pub present: bool,
    /// Whether the extension is critical. False if the extension is absent.
    pub critical: bool,
    /// Whether the subject is a certification authority. False if the extension is absent.
    pub is_authority: bool,
    /// Whether the extension has a limit for the length of a chain. The limit is `path_length`.
    pub has_path_length: bool,
}

impl DerBasicConstraints {
    /// The value for an absent extension: all fields are empty, 0 or false.
    pub const EMPTY: DerBasicConstraints = DerBasicConstraints {
        path_length: 0,
        present: false,
        critical: false,
        is_authority: false,
        has_path_length: false,
    };
}

// The limit as a number; `None` if there is one that is not from 0 to 2^64 - 1.
fn path_length_of(value: &Optional<IntRef<'_>>) -> Option<(bool, u64)>
    ensures { IsPathLengthAnswer (λ v. v.octets.now) value.now.0 result }
{
    match &value.0 {
        Some(number) => {
            let length = u64::from_contents(number.octets())?;
            Some((true, length))
        }
        None => Some((false, 0)),
    }
}

// The extension as a struct of C; `None` if its limit is not from 0 to 2^64 - 1.
pub(crate) fn constraints_of<'a>(
    found: &Option<Known<BasicConstraints<'a>>>,
) -> Option<DerBasicConstraints>
    ensures { IsConstraintsAnswer found.now result }
{
    match found {
        Some(known) => {
            let (has_path_length, path_length) = path_length_of(&known.value.path_len_constraint)?;
            Some(DerBasicConstraints {
                path_length,
                present: true,
                critical: known.critical,
                is_authority: known.value.ca.0.is_true(),
                has_path_length,
            })
        }
        None => Some(DerBasicConstraints::EMPTY),
    }
}

/// Finds the extension basicConstraints and reads it into `constraints`. `extensions` are the
/// contents octets of a list of extensions. It is not an error if the extension is absent.
///
/// A call that fails leaves `constraints` unchanged. Fails with:
///
/// - the error of decoding an extension, if the list has an extension that cannot be decoded. A
///   list that `der_certificate_read` has set has no such extension;
/// - `SetDuplicate` without a position, if the list has the extension more than once;
/// - the error of decoding the value of the extension, if the value cannot be decoded. The position
///   of the error is counted from the start of the value. If the contents of the value are cut, the
///   error is `Incomplete`, and its `first` is the position at which the value would end;
/// - `Value` with the tag INTEGER, without a position, if the limit for the length of a chain is
///   negative or above 2^64 - 1.
pub fn der_basic_constraints<'a>(
    alloc: Global,
    extensions: &'a [u8],
    constraints: &mut DerBasicConstraints,
) -> DerError
    ensures { ReadsConstraints (FindsType (RefusesList
        ⟦<Extension<'a> as Decode<SliceReader<'a>>>⟧.decode_answers)
        ⟦<Extension<'a> as Item>⟧.item.valid ⟦<Extension<'a> as Item>⟧.item.octets (WholeRead
        ⟦<BasicConstraints<'a> as FixedTag>⟧.tag_is ⟦<BasicConstraints<'a> as ReadValue>⟧.valid
        ⟦<BasicConstraints<'a> as WrittenValue>⟧.contents
        ⟦<BasicConstraints<'a> as ReadValue>⟧.allocates
        ⟦<BasicConstraints<'a> as DecodeValue<SliceReader<'a>>>⟧.decode_value_answers) (id_ce 19)
        extensions.now) result constraints.old constraints.new }
{
    match find_known::<ext::BasicConstraints>(alloc, extensions) {
        Ok(found) => match constraints_of(&found) {
            Some(value) => {
                *constraints = value;
                DerError::NONE
            }
            None => c_error(Tag::Integer.value_error().to_error()),
        },
        Err(error) => error,
    }
}
