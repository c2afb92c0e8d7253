//! The turns of a search.
ghost use Rattle.std.specs.Prelude.{◌≡◌, ◌↔◌, ◌⊎◌, ◌<◌, ◌≤◌, ℕ, List, length, take, [], ◌∷◌, ◌++◌};
ghost use Rattle.path_search.specs.Chains.{AreKnown, IsChain, IsPath};
ghost use Rattle.path_search.specs.Places.{IfOn, IsLeft, IsTurn, LeavesAll};

use crate::candidates::Candidates;
use crate::chain::{after, is_next};
use crate::place::Place;

// What a turn gives.
#[derive(Clone, Copy, Drop)]
pub(crate) enum Turn {
    // The chain is a path; the search goes on here.
    Found(Place),
    // The search goes on here.
    On(Place),
}

// The place after the chain of this place.
fn passed(place: Place, count: usize, room: &[usize]) -> Place
    requires fits { place.length ≤ length room.now }
    requires bounded { place.level ≤ length room.now }
    ensures left { (chain : List ℕ) → AreKnown count chain
        → IsLeft result room.now chain → IsLeft place room.now chain }
    ensures level { place.level ≤ result.level }
    ensures shorter { result.length ≤ place.length }
    ensures whole { place.length ≡ place.level → (chain : List ℕ) → AreKnown count chain
        → IsLeft place room.now chain → (chain ≡ take place.length room.now) ⊎ IsLeft result room.now chain }
    ensures not { place.length ≡ place.level → AreKnown count (take place.length room.now)
        → IsLeft result room.now (take place.length room.now) → ⊥ }
    ensures tried { place.length < place.level → count ≤ place.next → (chain : List ℕ) → AreKnown count chain
        → IsLeft place room.now chain → IsLeft result room.now chain }
{
    if place.length == 0 {
        return Place {
            level: place.level + 1,
            length: 0,
            next: 0,
        };
    }
    let length = place.length - 1;
    Place {
        level: place.level,
        length,
        next: after(room[length], count),
    }
}

// The place after the next candidate was tried, which may be put behind the chain.
fn tried<G: Candidates>(candidates: &G, count: usize, place: Place, room: &mut [usize]) -> Place
    requires fits { place.level ≤ length room.old }
    requires short { place.length < place.level }
    requires known { place.next < count }
    requires chain { IsChain (G.follows candidates.now) count (take place.length room.old) }
    ensures same { length room.new ≡ length room.old }
    ensures level { result.level ≡ place.level }
    ensures chain { IsChain (G.follows candidates.now) count (take result.length room.new) }
    ensures left { LeavesAll (IsChain (G.follows candidates.now) count) place room.old result room.new }
{
    let next = place.next;
    if is_next(candidates, count, &room[..place.length], next) {
        room[place.length] = next;
        return Place {
            level: place.level,
            length: place.length + 1,
            next: 0,
        };
    }
    Place {
        level: place.level,
        length: place.length,
        next: next + 1,
    }
}

// One turn of a search: it asks whether the chain is a path, or tries a candidate.
pub(crate) fn take_turn<G: Candidates>(
    candidates: &G,
    count: usize,
    place: Place,
    room: &mut [usize],
) -> Turn
    requires fits { place.level ≤ length room.old }
    requires chain { IsChain (G.follows candidates.now) count (take place.length room.old) }
    ensures same { length room.new ≡ length room.old }
    ensures turn { (depth : ℕ) → place.level ≤ depth → IsTurn result
        (IsPath (G.follows candidates.now) (G.is_whole candidates.now) count depth) place room.old room.new }
    ensures on { IfOn result (λ q. IsChain (G.follows candidates.now) count (take q.length room.new)) }
{
    if place.length == place.level {
        let after = passed(place, count, room);
        if candidates.is_whole(&room[..place.length]) {
            return Turn::Found(after);
        }
        return Turn::On(after);
    }
    if place.next >= count {
        return Turn::On(passed(place, count, room));
    }
    Turn::On(tried(candidates, count, place, room))
}

// The place after the first candidate of the chain that is no longer a next one, or this place if
// there is none.
pub(crate) fn trimmed<G: Candidates>(
    candidates: &G,
    count: usize,
    place: Place,
    room: &[usize],
) -> Place
    requires fits { place.length ≤ length room.now }
    ensures level { result.level ≡ place.level }
    ensures chain { IsChain (G.follows candidates.now) count (take result.length room.now) }
    ensures left { LeavesAll (IsChain (G.follows candidates.now) count) place room.now result room.now }
{
    for length in 0..place.length {
        if !is_next(candidates, count, &room[..length], room[length]) {
            return Place {
                level: place.level,
                length,
                next: after(room[length], count),
            };
        }
    }
    place
}
