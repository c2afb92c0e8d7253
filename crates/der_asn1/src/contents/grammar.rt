//! ASN.1 types that are described by their tag and by a check of their contents octets.
ghost use Rattle.std.specs.Prelude.{◌≡◌, ℕ, ◌^◌, ◌<◌, Bool, List};
ghost use Rattle.der.specs.Prelude.{Tag as ATag};
ghost use Rattle.der.specs.Tag.{label};

use der::Tag;

/// Types that describe an ASN.1 type by its tag and by a check of its contents octets.
///
/// Ghost members (for proofs only): `tag_is` is the tag; `grammar` says which octets are valid
/// contents; `numbered` proves that the number of the tag fits in 32 bits.
pub trait ContentsGrammar {
    ghost tag_is: { ATag };

    /// The tag of the type.
    const TAG: Tag;

    /// Returns `Self::TAG`. Generic code calls this function, because it cannot name the constant
    /// in a contract.
    ///
    /// The implementor must ensure that the result is `Self::TAG`.
    fn fixed_tag() -> Tag
        ensures { result ≡ tag_is };

    ghost grammar: { List ℕ → Bool };

    /// Whether `octets` are valid contents of the type.
    fn matches_grammar(octets: &[u8]) -> bool
        ensures { result ≡ grammar octets.now };

    // The tag number fits in 32 bits.
    ghost numbered: { (label tag_is).number < 2 ^ 32 };
}
