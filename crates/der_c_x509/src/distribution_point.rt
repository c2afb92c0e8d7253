//! The extension cRLDistributionPoints, which says where revocation lists are found.
ghost use Rattle.std.specs.Prelude.{◌≡◌, MatchOption};
ghost use Rattle.der.specs.Prelude.{Same};
ghost use Rattle.der_asn1.specs.ListAnswers.{ItemAnswer};
ghost use Rattle.der_c_core.specs.CReader.{reader_state};
ghost use Rattle.x509.specs.ExtensionIdentifiers.{id_ce};
ghost use Rattle.x509.specs.Find.{WholeRead};
ghost use Rattle.der_c_x509.specs.Calls.{ReadsItem, ReadsNext};
ghost use Rattle.der_c_x509.specs.DistributionPoint.{IsDistributionPointOf, IsNoPlace, IsPlaceOf};
ghost use Rattle.der_c_x509.specs.DistributionPoint.{IsReasonsOf};
ghost use Rattle.der_c_x509.specs.FindCalls.{FindsType, ReadsKnown, RefusesList};
ghost use Rattle.der_c_x509.specs.Known.{IsFoundOf};

use crate::find::find_known;
use crate::found::{DerFound, found_list};
use crate::key_usage::named_bits_of;
use crate::next::next_item;
use crate::strings::optional_names_of;
use der::{Decode, DecodeValue, FixedTag, ReadValue, SliceReader, WrittenValue};
use der_asn1::{Implicit, Item, NamedBitsRef, Optional, SequenceOf};
use der_c_core::{DerError, DerReader, DerSpan};
use std::alloc::Global;
use x509::{DistributionPoint, DistributionPointName, DistributionPointNameTagged, Extension, ext};

/// A distribution point: where a revocation list is found (DistributionPoint; RFC 5280, 4.2.1.13).
/// All octets are borrowed from the input.
#[repr(C)]
#[derive(Clone, Copy)]
pub struct DerDistributionPoint<'a> {
    /// The contents octets of fullName, a list of names for `der_next_general_name`. They say where
    /// the revocation list is found. Empty if the field is absent.
    pub full_name: DerSpan<'a>,
    /// The contents octets of nameRelativeToCRLIssuer, a RelativeDistinguishedName for
    /// `der_next_attribute`. It is appended to the name of the issuer of the revocation list. Empty
    /// if the field is absent.
    pub relative_name: DerSpan<'a>,
    /// The contents octets of cRLIssuer, a list of names for `der_next_general_name`. They are
    /// names of the issuer of the revocation list. Empty if the field is absent.
    pub list_issuer: DerSpan<'a>,
    /// The reasons for a revocation that the revocation list covers. Bit n of the BIT STRING is `1
    /// << n`, for n from 0 to 15. RFC 5280 gives the bits 1 to 8 a meaning. It is 0 if the field is
    /// absent. The revocation list then covers all reasons.
    pub reasons: u16,
    /// Whether the field fullName is present.
    pub has_full_name: bool,
    /// Whether the field nameRelativeToCRLIssuer is present.
    pub has_relative_name: bool,
    /// Whether the field reasons is present.
    pub has_reasons: bool,
    /// Whether the field cRLIssuer is present. If the field is absent, the issuer of the
    /// certificate also issues the revocation list.
    pub has_list_issuer: bool,
}

impl DerDistributionPoint<'_> {
    /// The value of a distribution point before it is read: all fields are empty, 0 or false.
    pub const EMPTY: DerDistributionPoint<'static> = DerDistributionPoint {
        full_name: DerSpan::EMPTY,
        relative_name: DerSpan::EMPTY,
        list_issuer: DerSpan::EMPTY,
        reasons: 0,
        has_full_name: false,
        has_relative_name: false,
        has_reasons: false,
        has_list_issuer: false,
    };
}

// The place alone.
fn place_of<'a>(
    value: &Optional<Implicit<DistributionPointNameTagged<'a>, 0>>,
) -> DerDistributionPoint<'a>
    ensures { MatchOption value.now.0 (IsNoPlace result) (λ t. IsPlaceOf t.0.value result) }
{
    match &value.0 {
        Some(place) => named_place_of(&place.0.value),
        None => DerDistributionPoint::EMPTY,
    }
}

// A place that has names, or a level.
fn named_place_of<'a>(value: &DistributionPointName<'a>) -> DerDistributionPoint<'a>
    ensures { IsPlaceOf value.now result }
{
    match value {
        DistributionPointName::FullName(names) => DerDistributionPoint {
            full_name: DerSpan {
                octets: names.0.octets(),
            },
            has_full_name: true,
            ..DerDistributionPoint::EMPTY
        },
        DistributionPointName::NameRelativeToCrlIssuer(level) => DerDistributionPoint {
            relative_name: DerSpan {
                octets: level.0.attributes.octets(),
            },
            has_relative_name: true,
            ..DerDistributionPoint::EMPTY
        },
    }
}

// The reasons as a number; 0 if they are absent.
fn reasons_of<'a>(value: &Optional<Implicit<NamedBitsRef<'a>, 1>>) -> u16
    ensures { IsReasonsOf (λ v. v.0.octets.now) value.now.0 result }
{
    match &value.0 {
        Some(reasons) => named_bits_of(&reasons.0),
        None => 0,
    }
}

// A distribution point as a struct of C.
fn distribution_point_of<'a>(value: &DistributionPoint<'a>) -> DerDistributionPoint<'a>
    ensures { IsDistributionPointOf value.now result }
{
    DerDistributionPoint {
        list_issuer: optional_names_of(&value.crl_issuer),
        reasons: reasons_of(&value.reasons),
        has_reasons: value.reasons.0.is_some(),
        has_list_issuer: value.crl_issuer.0.is_some(),
        ..place_of(&value.distribution_point)
    }
}

/// Finds the extension cRLDistributionPoints (RFC 5280, 4.2.1.13). `extensions` are the contents
/// octets of a list of extensions. Stores in `points` whether the extension is present, and the
/// contents octets of its list of distribution points, for `der_next_distribution_point`. The list
/// may be empty. Each distribution point is checked as `der_next_distribution_point` checks it.
///
/// A call that fails leaves `points` unchanged. Fails with:
///
/// - the error of decoding an extension, if the list has an extension that cannot be decoded. A
///   list that `der_certificate_read` has set has no such extension;
/// - `SetDuplicate` without a position, if the list has the extension more than once;
/// - the error of decoding the value of the extension, if the value cannot be decoded. The position
///   of the error is counted from the start of the value. If the contents of the value are cut, the
///   error is `Incomplete`, and its `first` is the position at which the value would end.
pub fn der_distribution_points<'a>(
    alloc: Global,
    extensions: &'a [u8],
    points: &mut DerFound<'a>,
) -> DerError
    ensures { ReadsKnown (FindsType (RefusesList
        ⟦<Extension<'a> as Decode<SliceReader<'a>>>⟧.decode_answers)
        ⟦<Extension<'a> as Item>⟧.item.valid ⟦<Extension<'a> as Item>⟧.item.octets (WholeRead
        ⟦<SequenceOf<'a, DistributionPoint<'a>> as FixedTag>⟧.tag_is
        ⟦<SequenceOf<'a, DistributionPoint<'a>> as ReadValue>⟧.valid
        ⟦<SequenceOf<'a, DistributionPoint<'a>> as WrittenValue>⟧.contents
        ⟦<SequenceOf<'a, DistributionPoint<'a>> as ReadValue>⟧.allocates
        ⟦<SequenceOf<'a, DistributionPoint<'a>> as DecodeValue<SliceReader<'a>>>⟧.decode_value_answers)
        (id_ce 31) extensions.now) (IsFoundOf (λ v. v.octets.now)) result points.old points.new }
{
    match find_known::<ext::CrlDistributionPoints>(alloc, extensions) {
        Ok(found) => {
            *points = found_list(&found);
            DerError::NONE
        }
        Err(error) => error,
    }
}

/// Reads the next distribution point of a list into `point`. `reader` must read the contents of a
/// list that `der_distribution_points` has found. It is not an error if the point has neither a
/// name of the place nor an issuer of the revocation list.
///
/// A call that fails leaves `point` unchanged. At the end of the list, the error is `Incomplete`.
/// After `TagUnexpected`, `reader` is unchanged; after any other error, `reader` has failed.
pub fn der_next_distribution_point<'a>(
    alloc: Global,
    reader: &mut DerReader<'a>,
    point: &mut DerDistributionPoint<'a>,
) -> DerError
    ensures same { Same (reader_state reader.old) (reader_state reader.new) }
    ensures reads { ReadsItem ⟦<DistributionPoint<'a> as Decode<SliceReader<'a>>>⟧.is_next
        (ItemAnswer (λ e f. f ≡ e)
        ⟦<DistributionPoint<'a> as Decode<SliceReader<'a>>>⟧.decode_answers) IsDistributionPointOf
        (reader_state reader.old) result point.old point.new (reader_state reader.new) }
    ensures complete { ReadsNext ⟦<DistributionPoint<'a> as Decode<SliceReader<'a>>>⟧.is_next
        ⟦<DistributionPoint<'a> as Decode<SliceReader<'a>>>⟧.decode_levels
        (reader_state reader.old) result (reader_state reader.new) }
{
    match next_item::<DistributionPoint<'a>>(alloc, reader) {
        Ok(value) => {
            *point = distribution_point_of(&value);
            DerError::NONE
        }
        Err(error) => error,
    }
}
