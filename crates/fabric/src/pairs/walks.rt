ghost use Rattle.std.specs.Prelude.{◌≡◌, ◌≢◌, ◌<◌, ◌≤◌, ◌+◌, ◌*◌, ◌∷◌};
ghost use Rattle.std.specs.Iterator.{item_count};
ghost use Rattle.model.specs.Routes.{pairs_of};
ghost use Rattle.model.specs.Pairs.{pairs_left};
ghost use Rattle.fabric.specs.Of.{net};
ghost use Rattle.fabric.specs.Pairs.{FindsPair, NextPair, left};

use crate::network::Fabric;
use crate::pair::Pair;
use crate::pairs::Pairs;

impl Fabric {
    // These two switches as a pair; none where one is missing or both are the same.
    pub fn pair(&self, source: u32, destination: u32) -> Option<Pair>
        ensures { FindsPair (net self.now).switches source destination result }
    {
        Pair::of(self.switch_count() as u8, source, destination)
    }

    // All pairs, by source, then destination.
    #[tactic(auto, using(crate::proofs::Pairing::all_left))]
    pub fn pairs(&self) -> Pairs
        ensures size { result.switches ≡ (net self.now).switches }
        ensures all { left result ≡ pairs_of (net self.now).switches }
    {
        Pairs {
            switches: self.switch_count() as u8,
            source: 0,
            destination: 1,
        }
    }
}

impl Pairs {
    // The destination after the next pair's, but for its source; as many as there are switches where there is none.
    #[tactic(auto, using(crate::proofs::Pairing::pair_more, crate::proofs::Pairing::pair_skip))]
    fn after(&self) -> u8
        requires { self.now.source < self.now.switches }
        ensures left { left self.now ≡ record { source = self.now.source; destination = self.now.destination } ∷ pairs_left self.now.switches (self.now.source * self.now.switches + result) }
        ensures range { (result ≤ self.now.switches) × (result ≢ self.now.source) }
    {
        let after = self.destination + 1;
        if after == self.source {
            after + 1
        } else {
            after
        }
    }
}

impl Iterator for Pairs {
    type Item = Pair;

    ghost next_gives = { NextPair };

    ghost remaining = { item_count left };

    #[tactic(auto, using(crate::proofs::Pairing::pairs_more))]
    fn next(&mut self) -> Option<Pair> {
        if self.source >= self.switches {
            return None;
        }
        let next = Pair {
            source: self.source,
            destination: self.destination,
        };
        let after = self.after();
        if after < self.switches {
            self.destination = after;
        } else {
            self.source += 1;
            self.destination = 0;
        }
        Some(next)
    }
}
