ghost use Rattle.std.specs.Prelude.{◌≡◌, ◌<◌};
ghost use Rattle.std.specs.Iterator.{item_count};
ghost use Rattle.model.specs.Routes.{route, route_ends};
ghost use Rattle.fabric.specs.Of.{net};
ghost use Rattle.routing.specs.Walks.{ending_of};
ghost use Rattle.routing.specs.Ways.{way, ends_as, NextHop};

use crate::route::Route;
use crate::rule::RouteRule;
use crate::walk::{Ending, Hop, next_hop};
use fabric::{Fabric, Pair};

impl<'f, 'r, R: RouteRule> Route<'f, 'r, R> {
    // The route of a pair from its source on.
    pub fn of(fabric: &'f Fabric, rule: &'r R, pair: Pair) -> Route<'f, 'r, R>
        ensures on { result.fabric.now ≡ fabric.now }
        ensures all { way R.maps result ≡ route (net fabric.now) (R.maps rule.now) pair.source pair.destination }
        ensures ends { ends_as R.maps result ≡ route_ends (net fabric.now) (R.maps rule.now) pair.source pair.destination }
    {
        Route {
            fabric,
            rule,
            switch: pair.source,
            destination: pair.destination,
            hops: fabric.switch_count() - 1,
        }
    }

    // Takes the hops that are left, and then says how the route ends.
    #[tactic(auto, using(crate::proofs::Walking::none_left))]
    pub(crate) fn ending(mut self) -> Ending
        ensures { ending_of result ≡ ends_as R.maps self.entry }
    {
        // Nothing is counted or read: the iterator is used up.
        while self.next().is_some() {}
        if self.switch == self.destination {
            Ending::Arrives
        } else if self.hops == 0 {
            Ending::Tires
        } else {
            Ending::Stops(self.switch)
        }
    }
}

impl<R: RouteRule> Iterator for Route<'_, '_, R> {
    type Item = Hop;

    ghost next_gives = { NextHop R.maps };

    ghost remaining = { item_count (way R.maps) };

    fn next(&mut self) -> Option<Hop> {
        let hops = self.hops.checked_sub(1)?;
        let hop = next_hop(self.fabric, self.rule, self.switch, self.destination)?;
        self.switch = hop.to;
        self.hops = hops;
        Some(hop)
    }
}
