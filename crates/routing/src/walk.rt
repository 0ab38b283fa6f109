ghost use Rattle.std.specs.Prelude.{◌≡◌, ◌<◌, IfSome};
ghost use Rattle.std.specs.Option.{option_map};
ghost use Rattle.model.specs.Routes.{hop, route_ends};
ghost use Rattle.fabric.specs.Of.{net};
ghost use Rattle.routing.specs.Walks.{ending_of, channel_of, pair_ends, JudgesRoute, Leads};

use crate::fault::RuleFault;
use crate::route::Route;
use crate::rule::RouteRule;
use fabric::{Fabric, Pair};

// One step of a route: the channel that it takes, and the switch at which that ends.
#[derive(Clone, Copy, PartialEq, Eq, Debug)]
pub struct Hop {
    pub channel: u8,
    pub to: u8,
}

// How a route ends.
#[derive(Clone, Copy, PartialEq, Eq, Debug)]
pub enum Ending {
    Arrives,
    // At this switch, whose channel is none, missing or leaves another switch.
    Stops(u8),
    // After as many channels as a route may have, and not at its destination.
    Tires,
}

// The step of a route at this switch: over the rule's channel, if it exists and leaves the switch; none at the destination.
pub fn next_hop<R: RouteRule>(fabric: &Fabric, rule: &R, switch: u8, destination: u8) -> Option<Hop>
    ensures is { option_map channel_of result ≡ hop (net fabric.now) (R.maps rule.now) switch destination }
    ensures leads { IfSome result (Leads (net fabric.now) switch) }
    ensures range { IfSome result (λ x. (x.channel < 128) × (x.to < 32)) }
{
    if switch == destination {
        return None;
    }
    let channel = rule.channel(switch, destination)?;
    let joined = fabric.channel(channel as u32)?;
    (joined.start == switch).then_some(Hop {
        channel,
        to: joined.finish,
    })
}

// How the route of a pair ends; none where a switch is missing or both are the same.
pub fn route_ending<R: RouteRule>(
    fabric: &Fabric,
    rule: &R,
    source: u32,
    destination: u32,
) -> Option<Ending>
    ensures { option_map ending_of result ≡ pair_ends (net fabric.now) (R.maps rule.now) source destination }
{
    let pair = fabric.pair(source, destination)?;
    Some(Route::of(fabric, rule, pair).ending())
}

// Whether the route of a pair arrives; else refusal 5 or 6.
pub fn judge_route<R: RouteRule>(fabric: &Fabric, rule: &R, pair: Pair) -> Result<(), RuleFault>
    ensures { JudgesRoute pair.source pair.destination (route_ends (net fabric.now) (R.maps rule.now) pair.source pair.destination) result }
{
    match Route::of(fabric, rule, pair).ending() {
        Ending::Arrives => Ok(()),
        Ending::Stops(at) => Err(RuleFault::Stopped(pair.source, pair.destination, at)),
        Ending::Tires => Err(RuleFault::Unreached(pair.source, pair.destination)),
    }
}
