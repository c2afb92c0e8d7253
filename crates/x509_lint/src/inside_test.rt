//! Tests that an element passes or fails by the elements inside it.
ghost use Rattle.x509_lint.specs.Tests.{EachKeeps, GuardKeeps, InsideKeeps, LackKeeps};

use crate::element_test::ElementTest;
use crate::elements::{each_element, is_same_tag};
use der::Tag;
use std::alloc::Global;

/// A test that an element passes if each element inside it passes `test`.
#[derive(Clone, Copy)]
pub struct EachTest<T> {
    /// The test that each element inside the tested element must pass.
    pub test: T,
}

impl<T: ElementTest> ElementTest for EachTest<T> {
    ghost keeps = { λ s t c. EachKeeps (T.keeps s.test) t c };

    fn keeps(&self, alloc: Global, _tag: Tag, contents: &[u8]) -> bool {
        each_element(alloc, contents, &self.test)
    }
}

/// A test for elements with the tag `tag`. An element with this tag passes if each element inside
/// it passes `test`. An element with another tag always passes.
#[derive(Clone, Copy)]
pub struct InsideTest<T> {
    /// The tag of the elements that are tested. Elements with other tags pass.
    pub tag: Tag,
    /// The test that each element inside the tested element must pass.
    pub test: T,
}

impl<T: ElementTest> ElementTest for InsideTest<T> {
    ghost keeps = { λ s t c. InsideKeeps (T.keeps s.test) s.tag t c };

    fn keeps(&self, alloc: Global, tag: Tag, contents: &[u8]) -> bool {
        !is_same_tag(tag, self.tag) || each_element(alloc, contents, &self.test)
    }
}

/// A test that an element passes in two cases: each element inside it passes `guard`, or each
/// element inside it passes `test`.
#[derive(Clone, Copy)]
pub struct GuardTest<G, T> {
    /// The first test: it is enough that each element directly inside the tested element passes it.
    pub guard: G,
    /// The second test: each element directly inside the tested element must pass it, if not all of
    /// them pass `guard`.
    pub test: T,
}

impl<G: ElementTest, T: ElementTest> ElementTest for GuardTest<G, T> {
    ghost keeps = { λ s t c. GuardKeeps (G.keeps s.guard) (T.keeps s.test) t c };

    fn keeps(&self, alloc: Global, _tag: Tag, contents: &[u8]) -> bool {
        each_element(alloc, contents, &self.guard) || each_element(alloc, contents, &self.test)
    }
}

/// A test that an element passes in two cases: each element inside it passes `guard`, or at least
/// one element inside it fails `test`.
#[derive(Clone, Copy)]
pub struct LackTest<G, T> {
    /// The first test: it is enough that each element directly inside the tested element passes it.
    pub guard: G,
    /// The second test: at least one element directly inside the tested element must fail it, if not
    /// all of them pass `guard`.
    pub test: T,
}

impl<G: ElementTest, T: ElementTest> ElementTest for LackTest<G, T> {
    ghost keeps = { λ s t c. LackKeeps (G.keeps s.guard) (T.keeps s.test) t c };

    fn keeps(&self, alloc: Global, _tag: Tag, contents: &[u8]) -> bool {
        each_element(alloc, contents, &self.guard) || !each_element(alloc, contents, &self.test)
    }
}
