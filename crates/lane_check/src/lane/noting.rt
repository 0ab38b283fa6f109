ghost use Rattle.std.specs.Prelude.{◌≡◌, ℕ, ◌==◌};
ghost use Rattle.model.specs.Net.{count};
ghost use Rattle.model.specs.Routes.{depends};
ghost use Rattle.fabric.specs.Of.{net};
ghost use Rattle.routing.specs.Dependencies.{leads};

use fabric::{Fabric, Pair};
use routing::{Dependencies, RouteRule};

// Whether a pair is of the lane.
fn is_of_lane<R: RouteRule>(rule: &R, lane: u32, pair: Pair) -> bool
    ensures { result ≡ ((R.maps rule.now).lane pair.source pair.destination == lane) }
{
    u32::from(rule.lane(pair.source, pair.destination)) == lane
}

// The dependencies of a lane. Nothing depends in a lane that has no pairs.
pub fn dependencies<R: RouteRule>(fabric: &Fabric, rule: &R, lane: u32) -> Dependencies
    ensures size { result.channels ≡ count (net fabric.now) }
    ensures each { (b c : ℕ) → leads result b c ≡ depends (net fabric.now) (R.maps rule.now) lane b c }
{
    let mut found = Dependencies::none(fabric);
    for pair in fabric.pairs() {
        if is_of_lane(rule, lane, pair) {
            found.add_route(fabric, rule, pair);
        }
    }
    found
}
