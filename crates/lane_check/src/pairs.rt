ghost use Rattle.std.specs.Prelude.{◌≡◌, nat_lt};
ghost use Rattle.fabric.specs.Pairs.{plain_pair};
ghost use Rattle.lane_check.specs.Checks.{plain_setup};
ghost use Rattle.lane_check.specs.Findings.{PairFault, FirstFault};

use crate::setup::Setup;
use fabric::Pair;
use routing::{RouteRule, RuleFault, judge_route};

impl<R: RouteRule> Setup<'_, R> {
    // Whether the lane of a pair is below the lane count.
    fn is_laned(&self, pair: Pair) -> bool
        ensures { result ≡ nat_lt ((R.maps self.now.rule.now).lane pair.source pair.destination) self.now.lanes.lanes }
    {
        u32::from(self.rule.lane(pair.source, pair.destination)) < self.lanes.get()
    }

    // Whether a pair arrives, in a lane below the lane count.
    fn judge_pair(&self, pair: Pair) -> Result<(), RuleFault>
        ensures { PairFault (plain_setup R.maps self.now) (plain_pair pair) result }
    {
        judge_route(self.fabric, self.rule, pair)?;
        if self.is_laned(pair) {
            Ok(())
        } else {
            Err(RuleFault::Laneless(pair.source, pair.destination))
        }
    }

    // The first fault of all pairs, by source, then destination.
    pub(crate) fn judge_pairs(&self) -> Result<(), RuleFault>
        ensures { FirstFault (plain_setup R.maps self.now) result }
    {
        for pair in self.fabric.pairs() {
            self.judge_pair(pair)?;
        }
        Ok(())
    }
}
