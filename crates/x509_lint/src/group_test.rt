//! Tests of the elements inside another element.
ghost use Rattle.std.specs.Prelude.{◌≡◌, ◌↔◌, true};
ghost use Rattle.der_asn1.specs.ContextSpecific.{context_tag};
ghost use Rattle.x509_lint.specs.Groups.{GroupKeeps};

use crate::element_test::ElementTest;
use crate::elements::each_element;
use crate::form_rule::FormRule;
use crate::forms::context;
use crate::part_test::PartTest;
use der::Tag;
use std::alloc::Global;

/// A test that an element passes or fails by the elements inside it.
#[derive(Clone, Copy, Debug, PartialEq, Eq)]
pub enum GroupTest {
    /// A policy mapping passes if it does not name anyPolicy (RFC 5280, 4.2.1.5).
    Mapping,
    /// A distribution point passes if it has a distributionPoint or a cRLIssuer (RFC 5280,
    /// 4.2.1.13).
    Point,
    /// An access description passes if its location is no URI, or is a URI with a scheme (RFC 5280,
    /// 4.2.2).
    Location,
    /// A list of subtrees passes if each subtree has only a base, and neither minimum nor maximum
    /// (RFC 5280, 4.2.1.10).
    Subtrees,
}

impl ElementTest for GroupTest {
    ghost keeps = { GroupKeeps };

    fn keeps(&self, alloc: Global, _tag: Tag, contents: &[u8]) -> bool {
        match self {
            GroupTest::Mapping => each_element(alloc, contents, &PartTest::NotAnyPolicy),
            GroupTest::Point => !each_element(alloc, contents, &no_name_or_issuer()),
            GroupTest::Location => each_element(alloc, contents, &PartTest::Form(FormRule::Scheme)),
            GroupTest::Subtrees => each_element(alloc, contents, &PartTest::Single),
        }
    }
}

// A test of the fields of a distribution point: none is a name or an issuer of lists.
fn no_name_or_issuer() -> PartTest
    ensures { result ≡ PartTest.NeitherTagged (context_tag true 0) (context_tag true 2) }
{
    PartTest::NeitherTagged(context(true, 0), context(true, 2))
}
