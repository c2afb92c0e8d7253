//! Equality of values by their contents.
ghost use Rattle.std.specs.Prelude.{◌≡◌, ℕ, List};
ghost use Rattle.std.proofs.Common.{refl, sym, ◌∙◌};
ghost use Rattle.der.specs.Prelude.{EncodingRules as Rules, Head};
ghost use Rattle.der_asn1.specs.EqualContents.{equal_contents, equal_contents-equivalence, equal_contents-partial};

use crate::contents::checked::Checked;
use crate::contents::grammar::ContentsGrammar;
use crate::lists::item::Item;
use crate::lists::sequence_of::SequenceOf;
use crate::lists::set_of::SetOf;
use crate::numbers::integer_number::IntegerNumber;
use crate::numbers::number_of::NumberOf;
use crate::times::time_format::TimeFormat;
use crate::times::time_of::TimeOf;
use der::{ReadValue, WrittenValue};

/// Types whose values are equal if and only if their contents octets are the same.
///
/// Ghost members (for proofs only): `by_contents` proves that values are compared by their contents
/// octets. `one_contents` proves that all values that are read from the same octets have the same
/// contents octets.
pub trait EqualContents: ReadValue + WrittenValue + PartialEq {
    // Values are equal exactly if their contents are the same.
    ghost by_contents: { (v w : Self) → Self.eq v w ≡ equal_contents Self.contents v w };

    // Values that are read from the same octets have the same contents.
    ghost one_contents: { (v w : Self) (rules : Rules) (h : Head) (octets : List ℕ)
        → Self.takes v rules h octets → Self.takes w rules h octets
        → Self.contents v ≡ Self.contents w };
}

/// Two values are equal if and only if their contents octets are the same.
impl<'a, F: ContentsGrammar> PartialEq for Checked<'a, F> {
    ghost eq = { equal_contents (λ v. v.octets.now) };

    ghost laws = { equal_contents-partial (λ v. v.octets.now) };

    fn eq(&self, other: &Self) -> bool {
        self.octets() == other.octets()
    }
}

impl<'a, F: ContentsGrammar> Eq for Checked<'a, F> {
    ghost laws = { equal_contents-equivalence (λ v. v.octets.now) };
}

impl<'a, F: ContentsGrammar> EqualContents for Checked<'a, F> {
    ghost by_contents = { λ v w. refl };

    ghost one_contents = { λ v w rules h octets one two. one.2 ∙ sym two.2 };
}

/// Two values are equal if and only if their contents octets are the same.
impl<N: IntegerNumber, const ENUMERATED: bool> PartialEq for NumberOf<N, ENUMERATED> {
    ghost eq = { equal_contents (λ v. N.contents_of v.number) };

    ghost laws = { equal_contents-partial (λ v. N.contents_of v.number) };

    fn eq(&self, other: &Self) -> bool {
        self.number.to_contents().as_slice() == other.number.to_contents().as_slice()
    }
}

impl<N: IntegerNumber, const ENUMERATED: bool> Eq for NumberOf<N, ENUMERATED> {
    ghost laws = { equal_contents-equivalence (λ v. N.contents_of v.number) };
}

impl<N: IntegerNumber, const ENUMERATED: bool> EqualContents for NumberOf<N, ENUMERATED> {
    ghost by_contents = { λ v w. refl };

    ghost one_contents = { λ v w rules h octets one two. one.2 ∙ sym two.2 };
}

/// Two values are equal if and only if their contents octets are the same. Equal values are the
/// same time.
impl<F: TimeFormat> PartialEq for TimeOf<F> {
    ghost eq = { equal_contents (λ v. F.contents_of v.time) };

    ghost laws = { equal_contents-partial (λ v. F.contents_of v.time) };

    fn eq(&self, other: &Self) -> bool {
        let (time, others) = (self.date_time(), other.date_time());
        F::to_contents(&time).as_slice() == F::to_contents(&others).as_slice()
    }
}

impl<F: TimeFormat> Eq for TimeOf<F> {
    ghost laws = { equal_contents-equivalence (λ v. F.contents_of v.time) };
}

impl<F: TimeFormat> EqualContents for TimeOf<F> {
    ghost by_contents = { λ v w. refl };

    ghost one_contents = { λ v w rules h octets one two. one.2 ∙ sym two.2 };
}

/// Two lists are equal if and only if their contents octets are the same. Equal lists have the same
/// items.
impl<'a, T: Item> PartialEq for SequenceOf<'a, T> {
    ghost eq = { equal_contents (λ v. v.octets.now) };

    ghost laws = { equal_contents-partial (λ v. v.octets.now) };

    fn eq(&self, other: &Self) -> bool {
        let (items, others) = (self.octets(), other.octets());
        items == others
    }
}

impl<'a, T: Item> Eq for SequenceOf<'a, T> {
    ghost laws = { equal_contents-equivalence (λ v. v.octets.now) };
}

impl<'a, T: Item> EqualContents for SequenceOf<'a, T> {
    ghost by_contents = { λ v w. refl };

    ghost one_contents = { λ v w rules h octets one two. one.2 ∙ sym two.2 };
}

/// Two sets are equal if and only if their contents octets are the same. Equal sets have the same
/// items.
impl<'a, T: Item> PartialEq for SetOf<'a, T> {
    ghost eq = { equal_contents (λ v. v.elements.octets.now) };

    ghost laws = { equal_contents-partial (λ v. v.elements.octets.now) };

    fn eq(&self, other: &Self) -> bool {
        let (elements, others) = (self.octets(), other.octets());
        elements == others
    }
}

impl<'a, T: Item> Eq for SetOf<'a, T> {
    ghost laws = { equal_contents-equivalence (λ v. v.elements.octets.now) };
}

impl<'a, T: Item> EqualContents for SetOf<'a, T> {
    ghost by_contents = { λ v w. refl };

    ghost one_contents = { λ v w rules h octets one two. one.2 ∙ sym two.2 };
}
