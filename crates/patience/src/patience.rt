ghost use Rattle.std.specs.Prelude.{◌≡◌, ℕ};
ghost use Rattle.model.specs.Waits.{patience};
ghost use Rattle.lane_check.specs.Checks.{setup_of};
ghost use Rattle.patience.specs.Caps.{capped};
ghost use Rattle.patience.specs.Patient.{Patient};

use crate::holds::slots_of;
use crate::routes::route_cost;
use fabric::{CallFault, Fabric, Pair};
use lane_check::lane::noting::dependencies;
use lane_check::verdict::check;
use routing::{RouteRule, RuleFault};

// The patience of a pair, or 4,294,967,295 where it is more.
fn pair_patience<R: RouteRule>(fabric: &Fabric, rule: &R, pair: Pair) -> u32
    ensures { (lanes : ℕ) → result ≡ capped (patience (setup_of fabric.now lanes (R.maps rule.now)) pair.source pair.destination) }
{
    let lane = u32::from(rule.lane(pair.source, pair.destination));
    let slots = slots_of(fabric, &dependencies(fabric, rule, lane));
    route_cost(fabric, rule, &slots, pair)
}

// How many rounds a packet of this pair may need; 4,294,967,295 stands for itself and for all that is more. All that the check
// tests is tested, and the caller's two lists end as the check leaves them.
pub fn patience_of<R: RouteRule>(
    fabric: &Fabric,
    lanes: u32,
    rule: &R,
    source: u32,
    destination: u32,
    order: &mut [u8],
    cycle: &mut [u8],
) -> Result<u32, RuleFault>
    ensures { Patient (setup_of fabric.now lanes (R.maps rule.now)) source destination order.old order.new cycle.old cycle.new result }
{
    let pair = fabric
        .pair(source, destination)
        .ok_or(CallFault::MissingNumber)?;
    check(fabric, lanes, rule, order, cycle)?;
    Ok(pair_patience(fabric, rule, pair))
}
