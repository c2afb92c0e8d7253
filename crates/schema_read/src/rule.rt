//! Rules that octets may break.
ghost use Rattle.std.specs.Prelude.{◌≡◌};
ghost use Rattle.schema_read.specs.Rule.{verdict_of_rule, verdict_of_contents, section_of_rule};

use crate::verdict::Verdict;
use schema_rules::ContentsRule;
use std::fmt;

/// A rule that octets break. Each variant states how they break it. [`Rule::section`] says in which
/// section of a standard the rule is.
#[derive(Debug, Clone, Copy, PartialEq, Eq)]
pub enum Rule {
    /// A length is encoded in more octets than needed, which DER forbids.
    LongLength,
    /// A length is indefinite, which DER forbids.
    IndefiniteLength,
    /// The encodings of the items of a SET OF are not in ascending order, as DER requires.
    SetOrder,
    /// The components of a SET are not in the order of their tags, as DER requires.
    ComponentOrder,
    /// A component is encoded though its value is the DEFAULT value, which DER forbids.
    DefaultEncoded,
    /// A string is in the constructed form, which DER forbids.
    ConstructedString,
    /// In a BIT STRING in the constructed form, a segment other than the last one has unused bits.
    UnusedBits,
    /// There is no valid header where an element should begin.
    Header,
    /// The octets end within the contents of an element.
    Truncated,
    /// There are end-of-contents octets where an element should be.
    EndOfContents,
    /// The end-of-contents octets after contents of indefinite length are missing.
    Unended,
    /// An encoding is primitive where the type must be constructed, or constructed where the type
    /// must be primitive.
    Form,
    /// The contents octets of a primitive encoding break this rule of their type.
    Contents(ContentsRule),
    /// An element has a tag that its type does not have.
    Tag,
    /// A SET has the same component twice.
    Duplicate,
    /// A required component is missing.
    Missing,
    /// There is an element after the last component of a value, or after the outermost value.
    Unexpected,
    /// A number is in none of the ranges that the constraints allow.
    ValueRange,
    /// The size of a value is in none of the ranges that the constraints allow.
    Size,
    /// A character of a string is not in the permitted alphabet.
    Alphabet,
    /// The number of an ENUMERATED is not the number of one of its items.
    Unlisted,
    /// Elements are nested more than 64 deep. No standard has this rule: it is a limit of this
    /// crate.
    Depth,
}

impl Rule {
    /// Whether octets that break this rule are still BER. Returns [`Verdict::Ber`] if only DER has
    /// the rule, otherwise [`Verdict::Neither`].
    pub fn verdict(self) -> Verdict
        ensures { result ≡ verdict_of_rule self }
    {
        match self {
            Rule::LongLength => Verdict::Ber,
            Rule::IndefiniteLength => Verdict::Ber,
            Rule::SetOrder => Verdict::Ber,
            Rule::ComponentOrder => Verdict::Ber,
            Rule::DefaultEncoded => Verdict::Ber,
            Rule::ConstructedString => Verdict::Ber,
            Rule::Contents(rule) => contents_verdict(rule),
            _ => Verdict::Neither,
        }
    }

    /// The standard and the section in which the rule is, such as `X.690 10.1`.
    pub const fn section(self) -> &'static str
        ensures { result.now ≡ section_of_rule self }
    {
        match self {
            Rule::LongLength => "X.690 10.1",
            Rule::IndefiniteLength => "X.690 10.1",
            Rule::SetOrder => "X.690 11.6",
            Rule::ComponentOrder => "X.690 10.3",
            Rule::DefaultEncoded => "X.690 11.5",
            Rule::ConstructedString => "X.690 10.2",
            Rule::UnusedBits => "X.690 8.6.4.1",
            Rule::Header => "X.690 8.1.2, 8.1.3",
            Rule::Truncated => "X.690 8.1.4",
            Rule::EndOfContents => "X.690 8.1.5",
            Rule::Unended => "X.690 8.1.5",
            Rule::Form => "X.690 8.2 to 8.26",
            Rule::Contents(rule) => rule.section(),
            Rule::Tag => "X.680 31",
            Rule::Duplicate => "X.680 27",
            Rule::Missing => "X.680 25, 27",
            Rule::Unexpected => "X.690 8.1.1, 8.9.2",
            Rule::ValueRange => "X.680 51.4",
            Rule::Size => "X.680 51.5",
            Rule::Alphabet => "X.680 51.7",
            Rule::Unlisted => "X.680 20",
            Rule::Depth => "no section",
        }
    }
}

/// Prints in a few words how octets break the rule.
impl fmt::Display for Rule {
    fn fmt<W: fmt::Write>(&self, f: &mut fmt::Formatter<W>) -> fmt::Result {
        let words = match self {
            Rule::LongLength => "length in more octets than needed",
            Rule::IndefiniteLength => "indefinite length",
            Rule::SetOrder => "values of a SET OF out of order",
            Rule::ComponentOrder => "components of a SET out of order",
            Rule::DefaultEncoded => "encoded value of a DEFAULT",
            Rule::ConstructedString => "constructed string",
            Rule::UnusedBits => "segment after one with unused bits",
            Rule::Header => "malformed header",
            Rule::Truncated => "contents cut off",
            Rule::EndOfContents => "end-of-contents octets in place of an element",
            Rule::Unended => "missing end-of-contents octets",
            Rule::Form => "primitive where the type is constructed, or the other way round",
            Rule::Contents(rule) => return write!(f, "contents break a rule: {rule}"),
            Rule::Tag => "tag of another type",
            Rule::Duplicate => "component that is there twice",
            Rule::Missing => "missing component",
            Rule::Unexpected => "unexpected element",
            Rule::ValueRange => "number in none of the value ranges",
            Rule::Size => "size that is none of the sizes",
            Rule::Alphabet => "character outside the permitted alphabet",
            Rule::Unlisted => "number that is no item of the ENUMERATED",
            Rule::Depth => "more than 64 levels of elements",
        };
        f.write_str(words)
    }
}

fn contents_verdict(rule: ContentsRule) -> Verdict
    ensures { result ≡ verdict_of_contents rule }
{
    if rule.is_ber() {
        Verdict::Ber
    } else {
        Verdict::Neither
    }
}
