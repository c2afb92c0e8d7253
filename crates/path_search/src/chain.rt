//! Chains of candidates.
ghost use Rattle.std.specs.Prelude.{◌↔◌, ℕ, ◌<◌, ◌≤◌, IsTrue};
ghost use Rattle.path_search.specs.Chains.{Has, IsNext};

use crate::candidates::Candidates;

// Whether a candidate may be the next one of a chain.
pub(crate) fn is_next<G: Candidates>(
    candidates: &G,
    count: usize,
    chain: &[usize],
    candidate: usize,
) -> bool
    ensures { IsTrue result ↔ IsNext (G.follows candidates.now) count chain.now candidate }
{
    candidate < count && !has(chain, candidate) && candidates.may_follow(chain, candidate)
}

// Whether a chain has a candidate.
fn has(chain: &[usize], candidate: usize) -> bool
    ensures { IsTrue result ↔ Has chain.now candidate }
{
    chain.iter().any(|one| *one == candidate)
}

// The least number that a candidate above this one has, or one that no candidate has.
pub(crate) fn after(candidate: usize, count: usize) -> usize
    ensures { (c : ℕ) → c < count → (candidate < c) ↔ (result ≤ c) }
{
    if candidate < count {
        return candidate + 1;
    }
    count
}
