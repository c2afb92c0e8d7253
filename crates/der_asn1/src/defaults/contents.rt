//! Types with a default value that is recognized by its contents octets.
ghost use Rattle.std.specs.Prelude.{◌≡◌, Bool, true, List, ℕ};
ghost use Rattle.std.proofs.Common.{ap, sym, ◌∙◌};

use crate::contents::checked::Checked;
use crate::contents::grammar::ContentsGrammar;
use crate::defaults::defaulted::DefaultValue;
use crate::defaults::element::DefaultElement;

/// Types that describe an ASN.1 type with a default value. A DEFAULT field that is absent has this
/// value. A value is the default if its contents octets are the contents octets of the default.
///
/// Ghost member (for proofs only): `default_contents` says which octets are the contents of the
/// default value.
pub trait DefaultContents: ContentsGrammar {
    ghost default_contents: { List ℕ → Bool };

    /// Returns the contents octets of the default value.
    fn default_octets() -> &'static [u8]
        ensures formed { Self.ContentsGrammar.grammar result.now ≡ true }
        ensures value { default_contents result.now ≡ true };

    /// Whether `octets` are the contents octets of the default value.
    fn is_default(octets: &[u8]) -> bool
        ensures { result ≡ default_contents octets.now };
}

impl<'a, F: DefaultContents> DefaultValue for Checked<'a, F> {
    ghost is_default = { λ v. F.default_contents v.octets.now };

    fn default_value() -> Self {
        Checked::formed(F::default_octets())
    }

    #[inline(always)]
    fn has_default(&self) -> bool {
        F::is_default(self.octets())
    }
}

impl<'a, F: DefaultContents> DefaultElement for Checked<'a, F> {
    ghost decided = { λ v w rules h octets one two. ap F.default_contents (one.2 ∙ sym two.2) };
}
