ghost use Rattle.std.specs.Prelude.{◌≡◌, ◌<◌};
ghost use Rattle.std.specs.Iterator.{item_count};
ghost use Rattle.model.specs.Routes.{route, steps};
ghost use Rattle.fabric.specs.Of.{net};
ghost use Rattle.routing.specs.Ways.{steps_left, NextStep};

use crate::route::{Route, Step, Steps};
use crate::rule::RouteRule;
use fabric::{Fabric, Pair};

impl<'f, 'r, R: RouteRule> Steps<'f, 'r, R> {
    // The dependencies of the route of a pair.
    pub fn of(fabric: &'f Fabric, rule: &'r R, pair: Pair) -> Steps<'f, 'r, R>
        ensures of { result.rest.fabric.now ≡ fabric.now }
        ensures all { steps_left R.maps result ≡ steps (route (net fabric.now) (R.maps rule.now) pair.source pair.destination) }
    {
        let mut rest = Route::of(fabric, rule, pair);
        let last = rest.next().map(|hop| hop.channel);
        Steps { last, rest }
    }
}

impl<R: RouteRule> Iterator for Steps<'_, '_, R> {
    type Item = Step;

    ghost next_gives = { NextStep R.maps };

    ghost remaining = { item_count (steps_left R.maps) };

    #[tactic(auto, using(crate::proofs::Stepping::is_step))]
    fn next(&mut self) -> Option<Step> {
        let tail = self.last?;
        let Some(hop) = self.rest.next() else {
            self.last = None;
            return None;
        };
        self.last = Some(hop.channel);
        Some(Step {
            tail,
            head: hop.channel,
        })
    }
}
