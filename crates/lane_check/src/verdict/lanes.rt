ghost use Rattle.std.specs.Prelude.{◌≡◌, ◌+◌, ◌*◌, ◌≤◌, ◌++◌, length, take, drop};
ghost use Rattle.model.specs.Net.{count};
ghost use Rattle.model.specs.Verdicts.{verdict, fine};
ghost use Rattle.fabric.specs.Of.{net};
ghost use Rattle.lane_check.specs.Checks.{plain_setup, orders};
ghost use Rattle.lane_check.specs.Answers.{Paired, CyclicOr, LanesSettled};

use crate::lane::cycle::write_cycle;
use crate::lane::noting::dependencies;
use crate::lane::order::sort;
use crate::setup::Setup;
use routing::{RouteRule, RuleFault};

// Copies a list to the place `from` on.
fn put(list: &[u8], order: &mut [u8], from: usize)
    requires { from + length list.now ≤ length order.old }
    ensures { order.new ≡ take from order.old ++ (list.now ++ drop (from + length list.now) order.old) }
{
    order[from..from + list.len()].copy_from_slice(list);
}

impl<R: RouteRule> Setup<'_, R> {
    // Whether no lane has a cycle. That of the lowest lane with one is written to the front of the list.
    fn judge_lanes(&self, cycle: &mut [u8]) -> Result<(), RuleFault>
        requires room { count (net self.now.fabric.now) ≤ length cycle.old }
        requires paired { Paired (plain_setup R.maps self.now) }
        ensures { CyclicOr (plain_setup R.maps self.now) cycle.old cycle.new result }
    {
        for lane in 0..self.lanes.get() {
            let found = dependencies(self.fabric, self.rule, lane);
            if sort(&found).is_none() {
                return Err(RuleFault::Cyclic(lane as u8, write_cycle(&found, cycle)));
            }
        }
        Ok(())
    }

    // Writes the orders of the lanes of a setup that is fine into the front of the list.
    fn write_orders(&self, order: &mut [u8])
        requires room { self.now.lanes.lanes * count (net self.now.fabric.now) ≤ length order.old }
        requires fine { verdict (plain_setup R.maps self.now) ≡ fine }
        ensures { order.new ≡ orders (plain_setup R.maps self.now) ++ drop (self.now.lanes.lanes * count (net self.now.fabric.now)) order.old }
    {
        let channels = self.fabric.channel_count() as usize;
        // By lanes: after a loop over chunks of the list nothing is known of what was written through them.
        for lane in 0..self.lanes.get() {
            let list = sort(&dependencies(self.fabric, self.rule, lane)).unwrap();
            put(&list, order, lane as usize * channels);
        }
    }

    // Once no pair is at fault: whether no lane has a cycle. A cycle is written, or else the orders of all lanes are.
    pub(crate) fn settle_lanes(&self, order: &mut [u8], cycle: &mut [u8]) -> Result<(), RuleFault>
        requires room { (self.now.lanes.lanes * count (net self.now.fabric.now) ≤ length order.old) × (count (net self.now.fabric.now) ≤ length cycle.old) }
        requires paired { Paired (plain_setup R.maps self.now) }
        ensures { LanesSettled (plain_setup R.maps self.now) order.old order.new cycle.old cycle.new result }
    {
        self.judge_lanes(cycle)?;
        self.write_orders(order);
        Ok(())
    }
}
