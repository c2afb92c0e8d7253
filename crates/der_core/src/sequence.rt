//! SEQUENCEs.
ghost use Rattle.std.specs.Prelude.{◌≡◌, Bool, false};
ghost use Rattle.std.proofs.Common.{subst, sym};
ghost use Rattle.der_base.specs.declared.tag.Tag.TheVariants.{Sequence as SequenceTag};
ghost use Rattle.der_core.specs.ElementSpec.{ElementSpec, IsSequence};
ghost use Rattle.der_core.specs.Lawful.{IsLawful};

use crate::decode::{IsValue, Lawful, ReadValue};
use crate::described::Described;
use crate::encode::WrittenValue;
use crate::tag::fixed::FixedTag;
use der_base::Tag;

/// SEQUENCEs (X.690 8.9). A type that implements this trait has the tag SEQUENCE, is [`Described`],
/// and is [`Lawful`] if it implements [`IsValue`]. Its fields are decoded and written one after the
/// other: [`decode_sequence`](crate::decode_sequence) decodes them, and
/// [`field_refs!`](crate::field_refs) lists them for writing.
///
/// Ghost members (for proofs only):
///
/// - `meaning` is the specification of the type, composed from the specifications of its fields.
/// - `may_allocate` says whether reading allocates.
/// - `fits` is a property that implementors prove: the specification is one of a SEQUENCE, and no
///   field can be mistaken for the field before it. `(refl, refl)` proves it for a type without
///   parameters.
///
/// # Errors
///
/// - Decoding a SEQUENCE fails with the error of the first field that fails to decode.
/// - Writing a SEQUENCE fails with the error of the first field whose length cannot be computed, or
///   that cannot be written. [`EncodeValue::value_len`](crate::EncodeValue::value_len) also fails
///   with `Overflow` without a position, if the fields together have more than 4294967295 octets.
pub trait Sequence: Sized {
    ghost meaning: { ElementSpec Self };

    ghost may_allocate: { Bool } = { false };

    ghost fits: { IsSequence meaning };
}

impl<T: Sequence> Described for T {
    ghost element = { T.meaning };
}

impl<T: Sequence> FixedTag for T {
    ghost tag_is = { SequenceTag };

    const TAG: Tag = Tag::Sequence;

    #[inline(always)]
    fn fixed_tag() -> Tag {
        Tag::Sequence
    }
}

impl<T: Sequence> ReadValue for T {
    ghost valid = { T.meaning.valid };

    ghost takes = { T.meaning.takes };

    ghost value_levels = { T.meaning.levels };

    ghost allocates = { T.may_allocate };

    ghost takes_valid = { T.meaning.holds T.fits.1 };
}

impl<T: Sequence> WrittenValue for T {
    ghost contents = { T.meaning.contents };

    ghost writable = { T.meaning.valid };
}

impl<T: Sequence + IsValue> Lawful for T {
    ghost lawful = { subst
        (λ tag. IsLawful tag T.meaning.takes T.meaning.valid T.meaning.contents T.meaning.levels)
        T.fits.0 (T.meaning.lawful T.fits.1) };
}
