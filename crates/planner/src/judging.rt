ghost use Rattle.model.specs.Routes.{pairs_of};
ghost use Rattle.model.specs.Planner.{path_refusal, routes_refusal};
ghost use Rattle.fabric.specs.Of.{net};
ghost use Rattle.planner.specs.Drafts.{rule_of};
ghost use Rattle.planner.specs.Faults.{topology_refusal};
ghost use Rattle.planner.specs.Stages.{Judges};

use crate::draft::Draft;
use crate::fault::TopologyFault;
use crate::rows::HopRows;
use routing::judge_route;

// Refusal 9: the first pair without a path.
pub(crate) fn judge_paths(rows: &HopRows) -> Result<(), TopologyFault>
    ensures { Judges topology_refusal (path_refusal (net rows.now.fabric.now) (pairs_of (net rows.now.fabric.now).switches)) result }
{
    for pair in rows.fabric.pairs() {
        if rows.hops(pair.source, pair.destination).is_none() {
            return Err(TopologyFault::NoPath(pair.source, pair.destination));
        }
    }
    Ok(())
}

// Refusals 5 and 6, pair by pair.
pub(crate) fn judge_routes(draft: &Draft) -> Result<(), TopologyFault>
    ensures { Judges topology_refusal (routes_refusal (net draft.now.fabric.now) (rule_of draft.now) (pairs_of (net draft.now.fabric.now).switches)) result }
{
    for pair in draft.fabric.pairs() {
        judge_route(draft.fabric, draft, pair)?;
    }
    Ok(())
}
