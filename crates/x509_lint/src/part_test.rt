//! Tests of single elements.
ghost use Rattle.std.specs.Prelude.{◌≡◌, ◌≢◌, ◌↔◌, ◌≤◌, ◌+◌, ◌*◌, true, IsTrue};
ghost use Rattle.der.specs.Prelude.{ObjectIdentifier};
ghost use Rattle.der_asn1.specs.Forms.{oid_form};
ghost use Rattle.der_asn1.specs.Integer.{is_negative};
ghost use Rattle.x509_lint.specs.Parts.{IsSingle, PartKeeps, any_policy, is_display_tag};

use crate::base_rule::{BaseRule, base_keeps};
use crate::checks::attribute::character_count;
use crate::element_test::ElementTest;
use crate::elements::{is_same_tag, only_element};
use crate::form_rule::FormRule;
use crate::forms::form_keeps;
use crate::identifier::{Identifier, is_identifier_of};
use der::Tag;
use der_asn1::ObjectIdentifierRef;
use std::alloc::Global;
use x509_names::is_uri;

/// A test that an element passes or fails. Each variant says what an element must be to pass.
#[derive(Clone, Copy)]
pub enum PartTest {
    /// An element passes if it does not have this tag.
    NotTagged(Tag),
    /// An element passes if it has neither of these two tags.
    NeitherTagged(Tag, Tag),
    /// An element passes if its contents are not the contents of the object identifier anyPolicy.
    NotAnyPolicy,
    /// An element passes if it is a BOOLEAN, or if its contents are not the contents of a negative
    /// INTEGER.
    NotNegative,
    /// An element passes if it has contents octets.
    NotEmpty,
    /// An element passes if it is an OBJECT IDENTIFIER.
    Identifier,
    /// An element passes if its contents are the encoding of exactly one element.
    Single,
    /// An element passes if it keeps this rule for general names.
    Form(FormRule),
    /// An element passes if it has this tag.
    Tagged(Tag),
    /// An element passes if it does not have this tag, or if its contents are the encoding of
    /// exactly one element.
    SingleIn(Tag),
    /// An element passes if its contents are not the contents of this object identifier.
    Other(Identifier),
    /// An element passes if it is not an OBJECT IDENTIFIER. An OBJECT IDENTIFIER passes if it
    /// identifies a CPS pointer or a user notice (RFC 5280, 4.2.1.4).
    Qualifier,
    /// An IA5String, VisibleString, BMPString or UTF8String passes if it has 1 to 200 characters,
    /// as the text of a user notice must have (RFC 5280, 4.2.1.4). Other elements pass.
    NoticeText,
    /// An IA5String passes if it is a URI, as a CPS pointer must be (RFC 5280, 4.2.1.4). Other
    /// elements pass.
    Pointer,
    /// An element passes if it keeps this rule for the base of a subtree (RFC 5280, 4.2.1.10).
    Base(BaseRule),
    /// A GeneralizedTime passes if its year is 2050 or later (RFC 5280, 5.1.2.6). Other elements
    /// pass.
    LateTime,
    /// An element passes if its contents are not the value of a reasonCode with the reason
    /// removeFromCRL (RFC 5280, 5.3.1).
    NotRemoved,
}

impl ElementTest for PartTest {
    ghost keeps = { PartKeeps };

    fn keeps(&self, alloc: Global, tag: Tag, contents: &[u8]) -> bool {
        match *self {
            PartTest::NotTagged(other) => !is_same_tag(tag, other),
            PartTest::NeitherTagged(first, second) => is_neither(tag, first, second),
            PartTest::NotAnyPolicy => is_not_any_policy(contents),
            PartTest::NotNegative => is_same_tag(tag, Tag::Boolean) || !has_minus_sign(contents),
            PartTest::NotEmpty => !contents.is_empty(),
            PartTest::Identifier => is_identifier(tag, contents),
            PartTest::Single => is_single(alloc, contents),
            PartTest::Form(rule) => form_keeps(tag, contents, rule),
            PartTest::Tagged(other) => is_same_tag(tag, other),
            PartTest::SingleIn(other) => !is_same_tag(tag, other) || is_single(alloc, contents),
            PartTest::Other(identifier) => !is_identifier_of(contents, identifier),
            PartTest::Qualifier => is_known_qualifier(tag, contents),
            PartTest::NoticeText => has_length_of_notice(tag, contents),
            PartTest::Pointer => !is_same_tag(tag, Tag::Ia5String) || is_uri(contents),
            PartTest::Base(rule) => base_keeps(tag, contents, rule),
            PartTest::LateTime => is_late(tag, contents),
            PartTest::NotRemoved => contents != [0x0A, 0x01, 0x08].as_slice(),
        }
    }
}

// Whether an OBJECT IDENTIFIER is one of the two known qualifiers.
fn is_known_qualifier(tag: Tag, contents: &[u8]) -> bool
    ensures { IsTrue result ↔ PartKeeps PartTest.Qualifier tag contents.now }
{
    !is_same_tag(tag, Tag::ObjectIdentifier)
        || is_identifier_of(contents, Identifier::CpsPointer)
        || is_identifier_of(contents, Identifier::UserNotice)
}

// Whether a text of a user notice has 1 to 200 characters.
fn has_length_of_notice(tag: Tag, contents: &[u8]) -> bool
    ensures { IsTrue result ↔ PartKeeps PartTest.NoticeText tag contents.now }
{
    if !is_display_tag(tag) {
        return true;
    }
    let count = character_count(tag, contents);
    0 < count && count <= 200
}

fn is_display_tag(tag: Tag) -> bool
    ensures { result ≡ is_display_tag tag }
{
    matches!(
        tag,
        Tag::Ia5String | Tag::VisibleString | Tag::BmpString | Tag::Utf8String
    )
}

// Whether a GeneralizedTime begins with a year from 2050 on.
fn is_late(tag: Tag, contents: &[u8]) -> bool
    ensures { IsTrue result ↔ PartKeeps PartTest.LateTime tag contents.now }
{
    if !is_same_tag(tag, Tag::GeneralizedTime) {
        return true;
    }
    match contents {
        [a, b, c, d, ..] => is_from_2050(*a, *b, *c, *d),
        _ => false,
    }
}

// Whether four digits are a year from 2050 on.
fn is_from_2050(a: u8, b: u8, c: u8, d: u8) -> bool
    ensures { IsTrue result ↔ (55378 ≤ a * 1000 + b * 100 + c * 10 + d) }
{
    u32::from(a) * 1000 + u32::from(b) * 100 + u32::from(c) * 10 + u32::from(d) >= 55378
}

fn is_neither(tag: Tag, first: Tag, second: Tag) -> bool
    ensures { IsTrue result ↔ ((tag ≢ first) × (tag ≢ second)) }
{
    !is_same_tag(tag, first) && !is_same_tag(tag, second)
}

fn is_identifier(tag: Tag, contents: &[u8]) -> bool
    ensures { IsTrue result
        ↔ ((tag ≡ ObjectIdentifier) × (oid_form contents.now ≡ true)) }
{
    is_same_tag(tag, Tag::ObjectIdentifier) && ObjectIdentifierRef::new(contents).is_some()
}

fn is_not_any_policy(contents: &[u8]) -> bool
    ensures { IsTrue result ↔ (contents.now ≢ any_policy) }
{
    contents != [0x55, 0x1D, 0x20, 0x00].as_slice()
}

/// Whether `octets` are the encoding of exactly one element.
pub fn is_single(alloc: Global, octets: &[u8]) -> bool
    ensures { IsTrue result ↔ IsSingle octets.now }
{
    match only_element(alloc, octets) {
        Some(_element) => true,
        None => false,
    }
}

/// Whether an INTEGER with the contents `octets` is negative.
pub fn has_minus_sign(octets: &[u8]) -> bool
    ensures { result ≡ is_negative octets.now }
{
    match octets {
        [first, ..] => *first >= 128,
        [] => false,
    }
}
