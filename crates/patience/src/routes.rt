ghost use Rattle.std.specs.Prelude.{◌≡◌, ◌+◌};
ghost use Rattle.model.specs.Routes.{route};
ghost use Rattle.model.specs.Waits.{total};
ghost use Rattle.fabric.specs.Of.{net};
ghost use Rattle.patience.specs.Caps.{capped, costs};

use crate::holds::Slot;
use fabric::{Fabric, Pair};
use routing::{Route, RouteRule};

// 1, and what passing each channel of a pair's route costs.
pub(crate) fn route_cost<R: RouteRule>(
    fabric: &Fabric,
    rule: &R,
    slots: &[Slot; 128],
    pair: Pair,
) -> u32
    ensures { result ≡ capped (1 + total (costs slots.now) (route (net fabric.now) (R.maps rule.now) pair.source pair.destination)) }
{
    let mut cost = 1u32;
    for hop in Route::of(fabric, rule, pair) {
        cost = cost.saturating_add(slots[hop.channel as usize].turn_cost());
    }
    cost
}
