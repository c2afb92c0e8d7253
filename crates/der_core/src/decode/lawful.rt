//! Types for which reading is the inverse of writing.
ghost use Rattle.der_core.specs.Lawful.{IsLawful};

use crate::decode::IsValue;
use crate::encode::WrittenValue;
use crate::tag::fixed::FixedTag;

/// Types for which reading is the inverse of writing under the Distinguished Encoding Rules:
/// contents are read as a value exactly if the value is valid and is written as these contents.
/// Implementors prove this property; no function requires it. Each value that a program holds is
/// valid ([`IsValue`]): so each of them is read back from its encoding.
///
/// Ghost member (for proofs only): `lawful` is this property. Together with the contracts of the
/// functions it implies the properties in `specs/Lawful.antt`:
/// [`from_der`](crate::DecodeBytes::from_der),
/// [`from_der_partial`](crate::DecodeBytes::from_der_partial) and
/// [`decode`](crate::ReaderExt::decode) accept exactly the encodings of valid values.
pub trait Lawful: IsValue + WrittenValue + FixedTag {
    ghost lawful: { IsLawful Self.tag_is Self.takes Self.valid Self.contents Self.value_levels };
}
