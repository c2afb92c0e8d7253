//! Comparison of the attributes of names.
ghost use Rattle.std.specs.Prelude.{◌≡◌, ◌↔◌, ◌&&◌, IsTrue};
ghost use Rattle.x509_names.specs.PreparedText.{IsPlainText};
ghost use Rattle.x509_names.specs.NameMatching.{AreExact, ArePlainTexts, AttributesAgree, AttributesMatch, IsSameElement, ValuesAgree, ValuesMatch, is_text_tag};

use crate::matching::matching::Matching;
use crate::{is_plain_text, texts_match};
use der::Tag;
use der_asn1::AnyRef;
use x509::AttributeTypeAndValue;

/// Whether two attributes have the same type, and values that match (RFC 5280, 7.1). If each value
/// is a PrintableString, a UTF8String or an IA5String, the texts are compared by [`texts_match`],
/// which ignores the case of ASCII letters and some spaces. Other values match if they have the
/// same tag and the same contents octets.
pub fn attributes_match(
    first: &AttributeTypeAndValue<'_>,
    second: &AttributeTypeAndValue<'_>,
) -> bool
    ensures { IsTrue result ↔ AttributesMatch first.now second.now }
{
    attributes_agree(first, second, Matching::Prepared)
}

// Whether two attributes have the same type, and values that match in this sense.
pub(crate) fn attributes_agree(
    first: &AttributeTypeAndValue<'_>,
    second: &AttributeTypeAndValue<'_>,
    matching: Matching,
) -> bool
    ensures { IsTrue result ↔ AttributesAgree matching first.now second.now }
{
    first.oid.octets() == second.oid.octets() && values_agree(&first.value, &second.value, matching)
}

fn values_agree(first: &AnyRef<'_>, second: &AnyRef<'_>, matching: Matching) -> bool
    ensures { IsTrue result ↔ ValuesAgree matching first.now second.now }
{
    match matching {
        Matching::Prepared => values_match(first, second),
        Matching::Certain => are_exact(first, second) && values_match(first, second),
        Matching::Possible => !are_exact(first, second) || values_match(first, second),
    }
}

// Whether the comparison of two values gives the answer of the standard.
fn are_exact(first: &AnyRef<'_>, second: &AnyRef<'_>) -> bool
    ensures { IsTrue result ↔ AreExact first.now second.now }
{
    are_plain_texts(first, second) || elements_match(first, second)
}

fn are_plain_texts(first: &AnyRef<'_>, second: &AnyRef<'_>) -> bool
    ensures { IsTrue result ↔ ArePlainTexts first.now second.now }
{
    are_texts(first.tag, second.tag) && are_plain(first.contents, second.contents)
}

fn are_plain(first: &[u8], second: &[u8]) -> bool
    ensures { IsTrue result ↔ (IsPlainText first.now × IsPlainText second.now) }
{
    is_plain_text(first) && is_plain_text(second)
}

fn values_match(first: &AnyRef<'_>, second: &AnyRef<'_>) -> bool
    ensures { IsTrue result ↔ ValuesMatch first.now second.now }
{
    if are_texts(first.tag, second.tag) {
        return texts_match(first.contents, second.contents);
    }
    elements_match(first, second)
}

// Whether two elements have the same tag, and the same contents octet by octet.
pub(crate) fn elements_match(first: &AnyRef<'_>, second: &AnyRef<'_>) -> bool
    ensures { IsTrue result ↔ IsSameElement first.now second.now }
{
    is_same_tag(first.tag, second.tag) && first.contents == second.contents
}

fn are_texts(first: Tag, second: Tag) -> bool
    ensures { result ≡ (is_text_tag first && is_text_tag second) }
{
    is_text_tag(first) && is_text_tag(second)
}

fn is_text_tag(tag: Tag) -> bool
    ensures { result ≡ is_text_tag tag }
{
    matches!(tag, Tag::PrintableString | Tag::Utf8String | Tag::Ia5String)
}

fn is_same_tag(first: Tag, second: Tag) -> bool
    ensures { IsTrue result ↔ (first ≡ second) }
{
    first == second
}
