ghost use Rattle.std.specs.Prelude.{◌≡◌, ℕ, false, ◌<◌, ◌≢◌, ◌==◌, ◌&&◌};
ghost use Rattle.model.specs.Net.{count};
ghost use Rattle.model.specs.Routes.{route, steps, has};
ghost use Rattle.fabric.specs.Of.{net};
ghost use Rattle.routing.specs.Edges.{edge_at, loopless};
ghost use Rattle.routing.specs.Dependencies.{leads, Adds, taking};

use crate::dependencies::Dependencies;
use crate::route::{Step, Steps};
use crate::rule::RouteRule;
use fabric::{Fabric, Pair};
use graph::Graph;

impl Graph for Dependencies {
    ghost nodes = { λ d. d.channels };

    ghost edge = { λ d b c. leads d b c };

    ghost few = { λ d. d.few };

    ghost loopless = { λ d. loopless d.channels d.cells d.among };

    fn node_count(&self) -> u32 {
        self.channels as u32
    }

    // By the count for the row and by 128 in it: with 128 for both the search tests the two at every place.
    #[tactic(auto, using(crate::proofs::Adding::row_none))]
    fn leads(&self, from: u32, to: u32) -> bool {
        from < u32::from(self.channels) && to < 128 && self.cells[from as usize * 128 + to as usize]
    }
}

impl Dependencies {
    // Those of a lane without pairs, for the channels of a fabric.
    #[tactic(auto, using(crate::proofs::Adding::edge_none))]
    pub fn none(fabric: &Fabric) -> Dependencies
        ensures size { result.channels ≡ count (net fabric.now) }
        ensures none { (b c : ℕ) → leads result b c ≡ false }
    {
        Dependencies {
            channels: fabric.channel_count() as u8,
            cells: [false; 16384],
        }
    }

    // Notes a step that joins two different channels.
    fn note(&mut self, step: Step)
        requires { (step.tail < self.old.channels) × (step.head < self.old.channels) × (step.tail ≢ step.head) }
        ensures size { self.new.channels ≡ self.old.channels }
        ensures adds { Adds (λ b c. step.tail == b && step.head == c) self.old self.new }
    {
        self.cells[step.tail as usize * 128 + step.head as usize] = true;
    }

    // Adds a step, if it joins two different channels that exist.
    pub fn add(&mut self, step: Step)
        ensures size { self.new.channels ≡ self.old.channels }
        ensures adds { Adds (taking self.old.channels step) self.old self.new }
    {
        if step.tail < self.channels && step.head < self.channels && step.tail != step.head {
            self.note(step);
        }
    }

    // Adds the dependencies of the route of a pair, where the channels are as many as the fabric's; else nothing.
    pub fn add_route<R: RouteRule>(&mut self, fabric: &Fabric, rule: &R, pair: Pair)
        ensures size { self.new.channels ≡ self.old.channels }
        ensures adds { self.old.channels ≡ count (net fabric.now) → Adds (has (steps (route (net fabric.now) (R.maps rule.now) pair.source pair.destination))) self.old self.new }
        ensures other { self.old.channels ≢ count (net fabric.now) → self.new ≡ self.old }
    {
        if u32::from(self.channels) == fabric.channel_count() {
            for step in Steps::of(fabric, rule, pair) {
                self.note(step);
            }
        }
    }
}
