//! Comparison of values by their contents octets, in lexicographic order.
ghost use Rattle.std.specs.Prelude.{◌≡◌};
ghost use Rattle.std.proofs.Common.{refl};
ghost use Rattle.der.specs.OctetsOrder.{octets_order};
ghost use Rattle.der_asn1.specs.AnyRef.{any_contents};

use crate::contents::checked::Checked;
use crate::contents::grammar::ContentsGrammar;
use crate::elements::any::AnyRef;
use crate::lists::item::Item;
use crate::lists::sequence_of::SequenceOf;
use crate::lists::set_of::SetOf;
use crate::numbers::integer_number::IntegerNumber;
use crate::numbers::number_of::NumberOf;
use crate::times::time_format::TimeFormat;
use crate::times::time_of::TimeOf;
use der::{Error, Orderly, ValueOrd};
use std::cmp::Ordering;

/// Compares the contents octets of two values in lexicographic order. Never fails.
impl<'a, F: ContentsGrammar> ValueOrd for Checked<'a, F> {
    ghost value_order = { octets_order (λ v. v.octets.now) };

    #[inline(always)]
    fn value_cmp(&self, other: &Self) -> Result<Ordering, Error> {
        Ok(self.octets().cmp(other.octets()))
    }
}

impl<'a, F: ContentsGrammar> Orderly for Checked<'a, F> {
    ghost orderly = { λ _ _ _ _. refl };
}

/// Compares the contents octets of two elements in lexicographic order. Never fails.
impl<'a> ValueOrd for AnyRef<'a> {
    ghost value_order = { octets_order any_contents };

    #[inline(always)]
    fn value_cmp(&self, other: &Self) -> Result<Ordering, Error> {
        Ok(self.contents.cmp(other.contents))
    }
}

impl<'a> Orderly for AnyRef<'a> {
    ghost orderly = { λ _ _ _ _. refl };
}

/// Compares the contents octets of two lists in lexicographic order. Never fails.
impl<'a, T: Item> ValueOrd for SequenceOf<'a, T> {
    ghost value_order = { octets_order (λ v. v.octets.now) };

    #[inline(always)]
    fn value_cmp(&self, other: &Self) -> Result<Ordering, Error> {
        let (items, others) = (self.octets(), other.octets());
        Ok(items.cmp(others))
    }
}

impl<'a, T: Item> Orderly for SequenceOf<'a, T> {
    ghost orderly = { λ _ _ _ _. refl };
}

/// Compares the contents octets of two sets in lexicographic order. Never fails.
impl<'a, T: Item> ValueOrd for SetOf<'a, T> {
    ghost value_order = { octets_order (λ v. v.elements.octets.now) };

    #[inline(always)]
    fn value_cmp(&self, other: &Self) -> Result<Ordering, Error> {
        let (elements, others) = (self.octets(), other.octets());
        Ok(elements.cmp(others))
    }
}

impl<'a, T: Item> Orderly for SetOf<'a, T> {
    ghost orderly = { λ _ _ _ _. refl };
}

/// Compares the contents octets of two values in lexicographic order. Never fails.
impl<N: IntegerNumber, const ENUMERATED: bool> ValueOrd for NumberOf<N, ENUMERATED> {
    ghost value_order = { octets_order (λ v. N.contents_of v.number) };

    fn value_cmp(&self, other: &Self) -> Result<Ordering, Error> {
        let (integer, others) = (self.number.to_contents(), other.number.to_contents());
        Ok(integer.as_slice().cmp(others.as_slice()))
    }
}

impl<N: IntegerNumber, const ENUMERATED: bool> Orderly for NumberOf<N, ENUMERATED> {
    ghost orderly = { λ _ _ _ _. refl };
}

/// Compares the contents octets of two values in lexicographic order. Never fails.
impl<F: TimeFormat> ValueOrd for TimeOf<F> {
    ghost value_order = { octets_order (λ v. F.contents_of v.time) };

    fn value_cmp(&self, other: &Self) -> Result<Ordering, Error> {
        let (this, that) = (self.date_time(), other.date_time());
        let (time, others) = (F::to_contents(&this), F::to_contents(&that));
        Ok(time.as_slice().cmp(others.as_slice()))
    }
}

impl<F: TimeFormat> Orderly for TimeOf<F> {
    ghost orderly = { λ _ _ _ _. refl };
}
