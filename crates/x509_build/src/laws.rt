//! Laws of the definitions: functions that do nothing, whose contracts are proved.
ghost use Rattle.std.specs.Prelude.{◌⊎◌, ℕ, List};
ghost use Rattle.path_search.specs.Places.{IsLeft};
ghost use Rattle.path_search.specs.Runs.{AreDistinct, IsOneOf};
ghost use Rattle.path_search.specs.declared.place.Place.{Place as APlace};
ghost use Rattle.x509_build.specs.Builds.{IsFound, IsKept, IsRefused};
ghost use Rattle.x509_build.specs.Runs.{Runs};

use crate::pool::Pool;
use path_search::Search;

// While the caller changes no pool, each chain that was left at the start is found, or is left, or its
// path is refused.
#[allow(dead_code)]
fn finds_each_path(pool: &Pool<'_, '_>, search: &Search)
    ensures { (p q : APlace) (room after : List ℕ) (found : List (List ℕ))
        → Runs (IsFound pool.now search.now) (IsKept pool.now) (IsRefused pool.now)
        p room found q after → (c : List ℕ) → IsFound pool.now search.now c → IsLeft p room c
        → IsOneOf found c ⊎ (IsLeft q after c ⊎ IsRefused pool.now c) }
{}

// The path of each chain that is found keeps all rules.
#[allow(dead_code)]
fn finds_paths_alone(pool: &Pool<'_, '_>, search: &Search)
    ensures { (p q : APlace) (room after : List ℕ) (found : List (List ℕ))
        → Runs (IsFound pool.now search.now) (IsKept pool.now) (IsRefused pool.now)
        p room found q after → (c : List ℕ) → IsOneOf found c
        → IsFound pool.now search.now c × IsKept pool.now c }
{}

// No chain is found twice.
#[allow(dead_code)]
fn finds_no_path_twice(pool: &Pool<'_, '_>, search: &Search)
    ensures { (p q : APlace) (room after : List ℕ) (found : List (List ℕ))
        → Runs (IsFound pool.now search.now) (IsKept pool.now) (IsRefused pool.now)
        p room found q after → AreDistinct found }
{}
