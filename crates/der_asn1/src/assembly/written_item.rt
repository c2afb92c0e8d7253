//! Items of lists for which writing and reading agree.
ghost use Rattle.std.specs.Prelude.{◌≡◌};
ghost use Rattle.std.proofs.Common.{refl};

use crate::contents::checked::Checked;
use crate::contents::grammar::ContentsGrammar;
use crate::elements::any::AnyRef;
use crate::lists::iter::BorrowedItem;
use crate::lists::sequence_of::SequenceOf;
use crate::lists::set_of::SetOf;
use crate::numbers::integer_number::IntegerNumber;
use crate::numbers::number_of::NumberOf;
use crate::times::time_format::TimeFormat;
use crate::times::time_of::TimeOf;
use der::Encode;

/// Types of list items for which writing and reading agree: a list reads an item from the same
/// octets that [`Encode`] writes for the item. Each valid item can be written.
///
/// Ghost members (for proofs only): `written` proves that the octets agree. `writes_valid` proves
/// that each valid item can be written.
pub trait WrittenItem: BorrowedItem + Encode {
    // An item is written as it is read.
    ghost written: { (v : Self) → Self.encoding v ≡ Self.item.octets v };

    // Each valid item can be written.
    ghost writes_valid: { (v : Self) → Self.item.valid v → Self.encodable v };
}

impl<'a> WrittenItem for AnyRef<'a> {
    ghost written = { λ v. refl };

    ghost writes_valid = { λ v is. is };
}

impl<'a, F: ContentsGrammar> WrittenItem for Checked<'a, F> {
    ghost written = { λ v. refl };

    ghost writes_valid = { λ v is. is };
}

impl<N: IntegerNumber, const ENUMERATED: bool> WrittenItem for NumberOf<N, ENUMERATED> {
    ghost written = { λ v. refl };

    ghost writes_valid = { λ v is. is };
}

impl<F: TimeFormat> WrittenItem for TimeOf<F> {
    ghost written = { λ v. refl };

    ghost writes_valid = { λ v is. is };
}

impl<'a, T: BorrowedItem> WrittenItem for SequenceOf<'a, T> {
    ghost written = { λ v. refl };

    ghost writes_valid = { λ v is. is };
}

impl<'a, T: BorrowedItem> WrittenItem for SetOf<'a, T> {
    ghost written = { λ v. refl };

    ghost writes_valid = { λ v is. is };
}
