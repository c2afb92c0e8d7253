//! Values as text, for engineers: the name of the ASN.1 type, and the contents octets in
//! hexadecimal.
ghost use Rattle.std.specs.Prelude.{Some};
ghost use Rattle.der.specs.Prelude.{Sequence};
ghost use Rattle.der_asn1.specs.NumberTag.{number_tag};
ghost use Rattle.der.specs.Prelude.{Set as SetTag};
ghost use Rattle.der_asn1.specs.AnyRef.{any_contents};
ghost use Rattle.der_asn1.specs.Printed.{value_text};

use crate::contents::checked::Checked;
use crate::contents::grammar::ContentsGrammar;
use crate::contents::hexadecimal::Hexadecimal;
use crate::elements::any::AnyRef;
use crate::lists::item::Item;
use crate::lists::sequence_of::SequenceOf;
use crate::lists::set_of::SetOf;
use crate::numbers::integer_number::IntegerNumber;
use crate::numbers::number_of::{NumberOf, number_tag};
use crate::times::time_format::TimeFormat;
use crate::times::time_of::TimeOf;
use der::Tag;
use std::fmt;

/// Prints the tag as its `Display` does, then in parentheses the contents octets, each as two
/// upper-case hexadecimal digits, such as `INTEGER(2A)`.
impl<'a, F: ContentsGrammar> fmt::Debug for Checked<'a, F> {
    ghost debug_output = { λ v. Some (value_text F.tag_is v.octets.now) };

    fn fmt<W: fmt::Write>(&self, f: &mut fmt::Formatter<W>) -> fmt::Result {
        let (tag, octets) = (F::fixed_tag(), Hexadecimal(self.octets()));
        write!(f, "{tag}({octets})")
    }
}

/// Prints the tag as its `Display` does, then in parentheses the contents octets, each as two
/// upper-case hexadecimal digits, such as `INTEGER(2A)`.
impl<'a> fmt::Debug for AnyRef<'a> {
    ghost debug_output = { λ v. Some (value_text v.tag (any_contents v)) };

    fn fmt<W: fmt::Write>(&self, f: &mut fmt::Formatter<W>) -> fmt::Result {
        let (tag, octets) = (self.tag, Hexadecimal(self.contents));
        write!(f, "{tag}({octets})")
    }
}

/// Prints the contents octets, which are the encodings of all items, each octet as two upper-case
/// hexadecimal digits, such as `SEQUENCE(02012A0500)`.
impl<'a, T: Item> fmt::Debug for SequenceOf<'a, T> {
    ghost debug_output = { λ v. Some (value_text Sequence v.octets.now) };

    fn fmt<W: fmt::Write>(&self, f: &mut fmt::Formatter<W>) -> fmt::Result {
        let (tag, octets) = (Tag::Sequence, Hexadecimal(self.octets()));
        write!(f, "{tag}({octets})")
    }
}

/// Prints the contents octets, which are the encodings of all items, each octet as two upper-case
/// hexadecimal digits, such as `SET(02012A0500)`.
impl<'a, T: Item> fmt::Debug for SetOf<'a, T> {
    ghost debug_output = { λ v. Some (value_text SetTag v.elements.octets.now) };

    fn fmt<W: fmt::Write>(&self, f: &mut fmt::Formatter<W>) -> fmt::Result {
        let (tag, octets) = (Tag::Set, Hexadecimal(self.octets()));
        write!(f, "{tag}({octets})")
    }
}

/// Prints the tag as its `Display` does, then in parentheses the contents octets, each as two
/// upper-case hexadecimal digits.
impl<N: IntegerNumber, const ENUMERATED: bool> fmt::Debug for NumberOf<N, ENUMERATED> {
    ghost debug_output = { λ v. Some (value_text (number_tag ENUMERATED) (N.contents_of v.number)) };

    fn fmt<W: fmt::Write>(&self, f: &mut fmt::Formatter<W>) -> fmt::Result {
        let contents = self.number.to_contents();
        let (tag, octets) = (number_tag(ENUMERATED), Hexadecimal(contents.as_slice()));
        write!(f, "{tag}({octets})")
    }
}

/// Prints the tag as its `Display` does, then in parentheses the contents octets, each as two
/// upper-case hexadecimal digits.
impl<F: TimeFormat> fmt::Debug for TimeOf<F> {
    ghost debug_output = { λ v. Some (value_text F.tag_is (F.contents_of v.time)) };

    fn fmt<W: fmt::Write>(&self, f: &mut fmt::Formatter<W>) -> fmt::Result {
        let contents = F::to_contents(&self.date_time());
        let (tag, octets) = (F::fixed_tag(), Hexadecimal(contents.as_slice()));
        write!(f, "{tag}({octets})")
    }
}
