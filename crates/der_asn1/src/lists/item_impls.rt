//! Implementations of [`Item`] and the other traits of list items, for the types of this crate.
ghost use Rattle.std.specs.Prelude.{false, true};
ghost use Rattle.std.proofs.Common.{arith, refl};
ghost use Rattle.der.specs.Prelude.{ElementNext, TakesWhole, element_levels, element_octets};
ghost use Rattle.der.specs.Tag.{label};
ghost use Rattle.der_asn1.specs.Checked.{AcceptsCheckedContents, HasCheckedContents, checked_contents_lawful};
ghost use Rattle.der_asn1.specs.ContextSpecific.{TakesImplicit, context_tag, explicit_lawful, implicit_lawful};
ghost use Rattle.der_asn1.specs.Item.{decodes_same, element_is_item, element_item};
ghost use Rattle.der_asn1.specs.Meaning.{any_element, choice_is_item, choice_item};

use crate::contents::checked::Checked;
use crate::contents::grammar::ContentsGrammar;
use crate::elements::any::AnyRef;
use crate::fields::explicit::{Explicit, Nestable};
use crate::fields::implicit::Implicit;
use crate::lists::item::{DecodeItem, Item};
use crate::lists::iter::BorrowedItem;
use crate::lists::sequence_of::SequenceOf;
use crate::lists::set_of::SetOf;
use crate::numbers::integer_number::IntegerNumber;
use crate::times::time_format::TimeFormat;
use crate::times::time_of::TimeOf;
use der::{DecodeValue, FixedTag, Lawful, Lends, ReadValue, WrittenValue};

impl<'a> Item for AnyRef<'a> {
    ghost item = { choice_item any_element };
}

impl<'a, R: Lends<Borrowed = &'a [u8]>> DecodeItem<R> for AnyRef<'a> {
    ghost is_item = { choice_is_item any_element refl };

    ghost decodes_items = { decodes_same (choice_item any_element) };
}

impl<'a, F: ContentsGrammar> Item for Checked<'a, F> {
    ghost item = { element_item F.tag_is (AcceptsCheckedContents F.tag_is F.grammar (λ v. v.octets.now))
        (HasCheckedContents F.grammar (λ v. v.octets.now)) (λ v. v.octets.now) (λ _. 0) false };
}

impl<'a, F: ContentsGrammar, R: Lends<Borrowed = &'a [u8]>> DecodeItem<R> for Checked<'a, F> {
    ghost is_item = { element_is_item (checked_contents_lawful F.tag_is F.grammar
        (λ v. v.octets.now) F.numbered) false };

    ghost decodes_items = { decodes_same (element_item F.tag_is (AcceptsCheckedContents F.tag_is F.grammar
        (λ v. v.octets.now)) (HasCheckedContents F.grammar (λ v. v.octets.now))
        (λ v. v.octets.now) (λ _. 0) false) };
}

impl<F: TimeFormat> Item for TimeOf<F> {
    ghost item = { element_item F.tag_is (AcceptsCheckedContents F.tag_is F.grammar
        (λ v. F.contents_of v.time)) (HasCheckedContents F.grammar (λ v. F.contents_of v.time))
        (λ v. F.contents_of v.time) (λ _. 0) false };
}

impl<'a, F: TimeFormat, R: Lends<Borrowed = &'a [u8]>> DecodeItem<R> for TimeOf<F> {
    ghost is_item = { element_is_item (checked_contents_lawful F.tag_is F.grammar
        (λ v. F.contents_of v.time) F.numbered) false };

    ghost decodes_items = { decodes_same (element_item F.tag_is (AcceptsCheckedContents F.tag_is F.grammar
        (λ v. F.contents_of v.time)) (HasCheckedContents F.grammar (λ v. F.contents_of v.time))
        (λ v. F.contents_of v.time) (λ _. 0) false) };
}

impl<T: ReadValue + WrittenValue + FixedTag, const N: u32> Item for Explicit<T, N> {
    ghost item = { element_item (context_tag true N) (λ v. TakesWhole (ElementNext T.tag_is T.takes)
        v.0) (λ v. T.valid v.0) (λ v. element_octets T.tag_is (T.contents v.0))
        (element_levels T.value_levels) T.allocates };
}

impl<R: Lends, T: Lawful + Nestable + DecodeValue<R>, const N: u32> DecodeItem<R>
    for Explicit<T, N> {
    ghost is_item = { element_is_item (explicit_lawful (context_tag true N) (λ v. v.0)
        (Prim.omega arith) T.lawful T.nestable) T.allocates };

    ghost decodes_items = { decodes_same (element_item (context_tag true N)
        (λ v. TakesWhole (ElementNext T.tag_is T.takes) v.0) (λ v. T.valid v.0)
        (λ v. element_octets T.tag_is (T.contents v.0)) (element_levels T.value_levels)
        T.allocates) };
}

impl<T: ReadValue + WrittenValue + FixedTag, const N: u32> Item for Implicit<T, N> {
    ghost item = { element_item (context_tag (label T.tag_is).constructed N)
        (TakesImplicit T.tag_is T.takes (λ v. v.0)) (λ v. T.valid v.0) (λ v. T.contents v.0)
        T.value_levels T.allocates };
}

impl<R: Lends, T: Lawful + DecodeValue<R>, const N: u32> DecodeItem<R> for Implicit<T, N> {
    ghost is_item = { element_is_item (implicit_lawful (context_tag (label T.tag_is).constructed N)
        (λ v. v.0) (Prim.omega arith) T.lawful) T.allocates };

    ghost decodes_items = { decodes_same (element_item
        (context_tag (label T.tag_is).constructed N) (TakesImplicit T.tag_is T.takes (λ v. v.0))
        (λ v. T.valid v.0) (λ v. T.contents v.0) T.value_levels T.allocates) };
}

impl<'a> BorrowedItem for AnyRef<'a> {
    ghost borrowed = { refl };
}

impl<'a, F: ContentsGrammar> BorrowedItem for Checked<'a, F> {
    ghost borrowed = { refl };
}

impl<F: TimeFormat> BorrowedItem for TimeOf<F> {
    ghost borrowed = { refl };
}

impl<'a, T: BorrowedItem> BorrowedItem for SequenceOf<'a, T> {
    ghost borrowed = { T.borrowed };
}

impl<'a, T: BorrowedItem> BorrowedItem for SetOf<'a, T> {
    ghost borrowed = { T.borrowed };
}
