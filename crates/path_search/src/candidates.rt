//! What a search asks of its caller.
ghost use Rattle.std.specs.Prelude.{◌↔◌, ℕ, List, IsTrue};

/// What a search asks of the caller that knows the certificates. A chain lists candidates: the first
/// issues the certificate to be validated, and each other one issues the one before it.
///
/// Ghost members (for proofs only): `follows` says which candidate may follow a chain, and `is_whole`
/// which chains are paths.
pub trait Candidates {
    ghost follows: { Self → List ℕ → ℕ → Type 0 };

    ghost is_whole: { Self → List ℕ → Type 0 };

    /// Whether a candidate may follow this chain: it issues the last certificate of the chain, or, if
    /// the chain is empty, the one to be validated.
    fn may_follow(&self, chain: &[usize], candidate: usize) -> bool
        ensures { IsTrue result ↔ follows self.now chain.now candidate };

    /// Whether a trust anchor issues the last certificate of the chain, or, if the chain is empty,
    /// the one to be validated, and the chain keeps all rules.
    fn is_whole(&self, chain: &[usize]) -> bool
        ensures { IsTrue result ↔ is_whole self.now chain.now };
}
