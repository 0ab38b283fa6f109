ghost use Rattle.lane_check.specs.Checks.{setup_of, MakesSetup};

use fabric::{CallFault, Fabric, LaneCount};
use routing::RouteRule;

// What is judged: a fabric, a lane count and a rule. A run has such a type too: methods stand only on a type of their own crate.
#[derive(Drop)]
pub(crate) struct Setup<'a, R> {
    pub(crate) fabric: &'a Fabric,
    pub(crate) lanes: LaneCount,
    pub(crate) rule: &'a R,
}

impl<'a, R: RouteRule> Setup<'a, R> {
    // These three, if there are 1 to 8 lanes.
    pub(crate) fn of(fabric: &'a Fabric, lanes: u32, rule: &'a R) -> Result<Setup<'a, R>, CallFault>
        ensures { MakesSetup R.maps (setup_of fabric.now lanes (R.maps rule.now)) result }
    {
        let lanes = LaneCount::try_from(lanes)?;
        Ok(Setup {
            fabric,
            lanes,
            rule,
        })
    }
}
