//! The elements of which octets consist (X.690 8.1.1).
ghost use Rattle.std.specs.Prelude.{◌≡◌, ◌↔◌, ℕ, List, IfSome, IfNone, IsTrue};
ghost use Rattle.der.specs.Prelude.{Tag as ATag};
ghost use Rattle.der_asn1.specs.AnyRef.{any_contents};
ghost use Rattle.x509_lint.specs.Elements.{EachElement, EachOfSequence, IsElement};

use crate::element_test::ElementTest;
use der::Tag;
use der_asn1::{AnyRef, SequenceOf};
use std::alloc::Global;

/// Whether each element in `octets` passes the test. `octets` are the encodings of elements, one
/// after the other. Also true if `octets` are not the encodings of elements.
pub fn each_element<'a, T: ElementTest>(alloc: Global, octets: &'a [u8], test: &T) -> bool
    ensures { IsTrue result ↔ EachElement (T.keeps test.now) octets.now }
{
    match SequenceOf::<'a, AnyRef<'a>>::new(alloc, octets) {
        Ok(elements) => all_keep(alloc, elements, test),
        Err(_) => true,
    }
}

// Whether each element of the list keeps the rule.
fn all_keep<'a, T: ElementTest>(
    alloc: Global,
    elements: SequenceOf<'a, AnyRef<'a>>,
    test: &T,
) -> bool
    ensures { IsTrue result ↔ EachElement (T.keeps test.now) elements.entry.octets.now }
{
    for element in elements.iter(alloc) {
        if !is_kept(alloc, &element, test) {
            return false;
        }
    }
    true
}

fn is_kept<T: ElementTest>(alloc: Global, element: &AnyRef<'_>, test: &T) -> bool
    ensures { IsTrue result ↔ T.keeps test.now element.now.tag (any_contents element.now) }
{
    test.keeps(alloc, element.tag, element.contents)
}

/// Whether each element inside a SEQUENCE passes the test. `octets` are the encoding of the
/// SEQUENCE. Also true if `octets` are not the encoding of exactly one SEQUENCE of elements.
pub fn each_of_sequence<'a, T: ElementTest>(alloc: Global, octets: &'a [u8], test: &T) -> bool
    ensures { IsTrue result ↔ EachOfSequence (T.keeps test.now) octets.now }
{
    match contents_with(alloc, octets, Tag::Sequence) {
        Some(contents) => each_element(alloc, contents, test),
        None => true,
    }
}

/// The contents octets of the element whose encoding is `octets`. Returns `None` if `octets` are
/// not the encoding of exactly one element, or if the element does not have the tag `tag`.
pub fn contents_with<'a>(alloc: Global, octets: &'a [u8], tag: Tag) -> Option<&'a [u8]>
    ensures some { IfSome result (λ c. IsElement octets.now tag c.now) }
    ensures none { IfNone result ((c : List ℕ) → IsElement octets.now tag c → ⊥) }
{
    match only_element(alloc, octets) {
        Some(element) => {
            if is_same_tag(element.tag, tag) {
                Some(element.contents)
            } else {
                None
            }
        }
        None => None,
    }
}

/// The element whose encoding is `octets`. Returns `None` if `octets` are not the encoding of
/// exactly one element.
pub fn only_element<'a>(alloc: Global, octets: &'a [u8]) -> Option<AnyRef<'a>>
    ensures some { IfSome result (λ v. IsElement octets.now v.tag (any_contents v)) }
    ensures none { IfNone result ((t : ATag) (c : List ℕ) → IsElement octets.now t c → ⊥) }
{
    match SequenceOf::<'a, AnyRef<'a>>::new(alloc, octets) {
        Ok(elements) => only_of_list(alloc, &elements),
        Err(_) => None,
    }
}

// The only element of a list, if it has one.
fn only_of_list<'a>(alloc: Global, elements: &SequenceOf<'a, AnyRef<'a>>) -> Option<AnyRef<'a>>
    ensures some { IfSome result (λ v. IsElement elements.now.octets.now v.tag (any_contents v)) }
    ensures none { IfNone result ((t : ATag) (c : List ℕ)
        → IsElement elements.now.octets.now t c → ⊥) }
{
    let mut items = elements.iter(alloc);
    match items.next() {
        Some(element) => {
            if items.next().is_some() {
                None
            } else {
                Some(element)
            }
        }
        None => None,
    }
}

/// Whether two tags are the same.
pub fn is_same_tag(first: Tag, second: Tag) -> bool
    ensures { IsTrue result ↔ (first ≡ second) }
{
    first == second
}
