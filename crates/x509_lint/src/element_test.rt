//! Tests of single elements, by their tag and contents.
ghost use Rattle.std.specs.Prelude.{◌↔◌, ℕ, List, IsTrue};
ghost use Rattle.der.specs.Prelude.{Tag as ATag};

use der::Tag;
use std::alloc::Global;

/// A test that an element passes or fails, by its tag and its contents.
///
/// Ghost member (for proofs only): `keeps` says which elements pass the test.
pub trait ElementTest {
    ghost keeps: { Self → ATag → List ℕ → Type 0 };

    /// Whether an element with this tag and these contents passes the test.
    fn keeps(&self, alloc: Global, tag: Tag, contents: &[u8]) -> bool
        ensures { IsTrue result ↔ keeps self.now tag contents.now };
}
