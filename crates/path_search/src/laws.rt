//! Laws of the definitions: functions that do nothing, whose contracts are proved.
ghost use Rattle.std.specs.Prelude.{◌↔◌, ℕ, List};
ghost use Rattle.path_search.specs.Chains.{IsPath};
ghost use Rattle.path_search.specs.Places.{IsLeft};
ghost use Rattle.path_search.specs.Runs.{AreDistinct, IsOneOf, Runs};
ghost use Rattle.path_search.specs.declared.place.Place.{Place as APlace};

use crate::candidates::Candidates;

// While the caller says the same of candidates, a search that ends has found exactly the paths that
// were left at its start.
#[allow(dead_code)]
fn finds_each_path<G: Candidates>(candidates: &G, count: usize, depth: usize)
    ensures { (p q : APlace) (room after : List ℕ) (found : List (List ℕ))
        → Runs (IsPath (G.follows candidates.now) (G.is_whole candidates.now) count depth)
        p room found q after
        → ((c : List ℕ) → IsPath (G.follows candidates.now) (G.is_whole candidates.now) count depth c
        → IsLeft q after c → ⊥)
        → (c : List ℕ) → IsPath (G.follows candidates.now) (G.is_whole candidates.now) count depth c
        → IsLeft p room c ↔ IsOneOf found c }
{}

// It finds no path twice.
#[allow(dead_code)]
fn finds_no_path_twice<G: Candidates>(candidates: &G, count: usize, depth: usize)
    ensures { (p q : APlace) (room after : List ℕ) (found : List (List ℕ))
        → Runs (IsPath (G.follows candidates.now) (G.is_whole candidates.now) count depth)
        p room found q after → AreDistinct found }
{}
