ghost use Rattle.std.specs.Prelude.{◌≡◌, length, Ok, Err};
ghost use Rattle.model.specs.Net.{count};
ghost use Rattle.fabric.specs.Faults.{call_refusal};
ghost use Rattle.fabric.specs.Of.{net};
ghost use Rattle.lane_check.specs.Checks.{setup_of, plain_setup, long_enough, Checked, YesExactly};
ghost use Rattle.lane_check.specs.Answers.{accepted, part};

use crate::setup::Setup;
use fabric::{CallFault, Fabric};
use routing::{RouteRule, RuleFault};

pub(crate) mod lanes;

// A yes: how many lanes the order list holds, and how many channels each has.
#[derive(Clone, Copy, PartialEq, Eq, Debug)]
pub struct Accepted {
    lanes: u8,
    channels: u8,
}

impl<R: RouteRule> Setup<'_, R> {
    // A yes to the setup.
    fn accepted(&self) -> Accepted
        ensures { result ≡ accepted (plain_setup R.maps self.now) }
    {
        Accepted {
            lanes: self.lanes.get() as u8,
            channels: self.fabric.channel_count() as u8,
        }
    }

    // Whether the order list has a byte for each channel of each lane, and the cycle list one for each channel.
    fn long_enough(&self, order: &[u8], cycle: &[u8]) -> bool
        ensures { result ≡ long_enough self.now.lanes.lanes (count (net self.now.fabric.now)) (length order.now) (length cycle.now) }
    {
        let channels = self.fabric.channel_count() as usize;
        self.lanes.get() as usize * channels <= order.len() && channels <= cycle.len()
    }
}

// The check: whether every pair arrives, in a lane below the count, and no lane has a cycle. A yes writes the channels of lane 0, lane
// 1 and so on to the front of the order list, each lane in its order. A cycle is written to the front of the cycle list. Every other
// byte stays as it was. The two lists are the caller's, and so two arguments.
pub fn check<R: RouteRule>(
    fabric: &Fabric,
    lanes: u32,
    rule: &R,
    order: &mut [u8],
    cycle: &mut [u8],
) -> Result<Accepted, RuleFault>
    ensures exact { let g = setup_of fabric.now lanes (R.maps rule.now) in Checked (accepted g) g order.old order.new cycle.old cycle.new result }
    ensures accepts { let g = setup_of fabric.now lanes (R.maps rule.now) in YesExactly (accepted g) g (length order.old) (length cycle.old) result }
{
    let setup = Setup::of(fabric, lanes, rule)?;
    if !setup.long_enough(order, cycle) {
        return Err(RuleFault::Call(CallFault::ShortList));
    }
    setup.judge_pairs()?;
    setup.settle_lanes(order, cycle)?;
    Ok(setup.accepted())
}

// What shows a verdict of the check: after a yes the named lane's part of the order list, after a cycle its part of the cycle list,
// and after any other refusal no bytes.
pub fn showing<'a>(
    verdict: &Result<Accepted, RuleFault>,
    lane: u32,
    order: &'a [u8],
    cycle: &'a [u8],
) -> Result<&'a [u8], CallFault>
    ensures { elim result [ Ok p ↦ part verdict.now lane order.now cycle.now ≡ Ok p.now | Err f ↦ part verdict.now lane order.now cycle.now ≡ Err (call_refusal f) ] }
{
    match verdict {
        Ok(accepted) => {
            if lane >= accepted.lanes as u32 {
                return Err(CallFault::MissingNumber);
            }
            let channels = accepted.channels as usize;
            let from = lane as usize * channels;
            order.get(from..from + channels).ok_or(CallFault::ShortList)
        }
        Err(RuleFault::Cyclic(_, length)) => {
            cycle.get(..*length as usize).ok_or(CallFault::ShortList)
        }
        Err(_) => Ok(&cycle[..0]),
    }
}
