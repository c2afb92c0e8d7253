//! Searches for paths among candidates.
ghost use Rattle.std.specs.Prelude.{◌≡◌, ℕ, List, length};
ghost use Rattle.path_search.specs.Chains.{IsPath};
ghost use Rattle.path_search.specs.Places.{IsCounted, IsLeft, IsStep};

use crate::candidates::Candidates;
use crate::place::Place;
use crate::step::Step;
use crate::turn::{Turn, take_turn, trimmed};

/// A search for paths among candidates. It takes chains by their length, and chains of one length in
/// the order of their candidates.
#[derive(Clone, Copy, Debug, Drop)]
pub struct Search {
    count: usize,
    depth: usize,
    place: Place,
    /// How many steps are left. In a step the search asks whether a chain is a path, or whether a
    /// candidate may follow it.
    pub steps: u64,
}

impl Search {
    /// A search among so many candidates, for paths that have at most `depth` of them.
    pub fn new(count: usize, depth: usize, steps: u64) -> Self
        ensures count { result.count ≡ count }
        ensures depth { result.depth ≡ depth }
        ensures steps { result.steps ≡ steps }
        ensures left { (room chain : List ℕ) → IsLeft result.place room chain }
    {
        let place = Place {
            level: 0,
            length: 0,
            next: 0,
        };
        Search {
            count,
            depth,
            place,
            steps,
        }
    }

    /// Searches the next path. Its candidates are then at the front of the room: the first issues the
    /// certificate to be validated, and a trust anchor issues the last. If there are none, an anchor
    /// issues the certificate to be validated.
    ///
    /// The room must have what the call before left in it. Of what the caller says of candidates, it
    /// may have changed.
    pub fn next<G: Candidates>(&mut self, candidates: &G, room: &mut [usize]) -> Step
        ensures count { self.new.count ≡ self.old.count }
        ensures depth { self.new.depth ≡ self.old.depth }
        ensures step { IsStep result (IsPath (G.follows candidates.now)
            (G.is_whole candidates.now) self.old.count self.old.depth)
            self.old room.old self.new room.new }
        ensures counted { IsCounted result room.new self.old self.new }
    {
        let (count, depth) = (self.count, self.depth);
        if room.len() < depth {
            return Step::NoRoom;
        }
        if self.place.level > depth {
            return Step::Ended;
        }
        let mut place = trimmed(candidates, count, self.place, room);
        while place.level <= depth {
            if self.steps == 0 {
                self.place = place;
                return Step::StepsUsed;
            }
            self.steps -= 1;
            let length = place.length;
            match take_turn(candidates, count, place, room) {
                Turn::Found(after) => {
                    self.place = after;
                    return Step::Path(length);
                }
                Turn::On(next) => place = next,
            }
        }
        self.place = place;
        Step::Ended
    }
}
