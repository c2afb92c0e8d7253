//! Paths that are valid if their signatures verify.
ghost use Rattle.std.specs.Prelude.{◌≡◌, ◌↔◌, ◌≤◌, [], true, All, IsOk, length, MatchOption};
ghost use Rattle.x509_path.specs.Paths.{AreVerdicts, IsValidPath, KeepsRules, Verify};
ghost use Rattle.x509_path.specs.SignedPaths.{IsFirstFalse, IsObligationAt, IsSettled};

use crate::certificate::PathCertificate;
use crate::inputs::Inputs;
use crate::obligation::{Obligation, obligation_of};
use crate::unsigned::Unsigned;
use crate::valid_path::ValidPath;

/// A path that keeps all rules, so that it is valid if its signatures verify. Only
/// [`judge_path`](crate::judge_path) makes one. Verify each [`obligation`](IfSigned::obligation), and
/// hand in the verdicts with [`with_verdicts`](IfSigned::with_verdicts).
#[derive(Clone, Copy, Drop)]
pub struct IfSigned<'r, 'a> {
    pub(crate) inputs: &'r Inputs<'a>,
    pub(crate) path: &'r [PathCertificate<'a>],
    ghost keeps: { KeepsRules inputs.now path.now },
}

impl<'r, 'a> IfSigned<'r, 'a> {
    /// How many signatures have to verify: one for each certificate.
    pub fn count(&self) -> usize
        ensures { result ≡ length self.now.path.now }
    {
        self.path.len()
    }

    /// The signature of the certificate at this place of the path. `None` if there is no such place.
    pub fn obligation(&self, at: usize) -> Option<Obligation<'r, 'a>>
        ensures { MatchOption result (length self.now.path.now ≤ at)
            (λ o. IsObligationAt self.now.inputs.now self.now.path.now at o) }
    {
        if at >= self.path.len() {
            return None;
        }
        Some(obligation_of(self.inputs, &self.path[..at], &self.path[at]))
    }

    /// The valid path, if there is one verdict for each obligation, in their order, and all are true.
    /// A verdict says whether the signature verifies with the key and the algorithm of the obligation.
    ///
    /// # Errors
    ///
    /// There are too few verdicts, or too many, or one is false.
    pub fn with_verdicts(self, verdicts: &[bool]) -> Result<ValidPath<'r, 'a>, Unsigned>
        ensures settled { IsSettled result self.entry.inputs.now self.entry.path.now verdicts.now }
        ensures valid { (verify : Verify)
            → AreVerdicts verify self.entry.inputs.now [] self.entry.path.now verdicts.now
            → IsOk result ↔ IsValidPath verify self.entry.inputs.now self.entry.path.now }
    {
        if verdicts.len() < self.path.len() {
            return Err(Unsigned::TooFew);
        }
        if verdicts.len() > self.path.len() {
            return Err(Unsigned::TooMany);
        }
        match first_false(verdicts) {
            Some(at) => Err(Unsigned::Failed(at)),
            None => Ok(ValidPath {
                inputs: self.inputs,
                path: self.path,
            }),
        }
    }
}

// The place of the first verdict that is false.
fn first_false(verdicts: &[bool]) -> Option<usize>
    ensures { MatchOption result (All (λ b. b ≡ true) verdicts.now)
        (λ at. IsFirstFalse at verdicts.now) }
{
    for (at, verdict) in verdicts.iter().enumerate() {
        if !*verdict {
            return Some(at);
        }
    }
    None
}
