ghost use Rattle.std.specs.Prelude.{◌≡◌, ◌<◌, ◌≢◌};
ghost use Rattle.model.specs.Net.{count};
ghost use Rattle.fabric.specs.Of.{net};
ghost use Rattle.routing.specs.Dependencies.{leads};
ghost use Rattle.planner.specs.Boards.{Sound, Admits, Tried, Filed};
ghost use Rattle.planner.specs.Cycles.{Acyclic};
ghost use Rattle.planner.specs.Drafts.{needs};

use crate::draft::Draft;
use fabric::Pair;
use graph::Graph;
use graph::search::hops;
use routing::{Dependencies, Step, Steps};

// Adds a step, unless a cycle closes. One that is there already closes nothing.
fn admit(lane: &mut Dependencies, step: Step) -> bool
    requires from { step.tail < lane.old.channels }
    requires to { step.head < lane.old.channels }
    requires apart { step.tail ≢ step.head }
    requires free { Acyclic (leads lane.old) lane.old.channels }
    ensures size { lane.new.channels ≡ lane.old.channels }
    ensures admits { Admits step.tail step.head lane.old lane.new result }
{
    let tail = step.tail as u32;
    let head = step.head as u32;
    if lane.leads(tail, head) {
        return true;
    }
    if hops(lane, head, tail).is_some() {
        return false;
    }
    lane.add(step);
    true
}

// Adds the dependencies of the route of a pair, as far as none closes a cycle.
fn add_route(draft: &Draft, lane: &mut Dependencies, pair: Pair) -> bool
    requires { Sound (count (net draft.now.fabric.now)) lane.old }
    ensures size { lane.new.channels ≡ lane.old.channels }
    ensures tried { Tried (count (net draft.now.fabric.now)) (needs draft.now pair) lane.old lane.new result }
{
    for step in Steps::of(draft.fabric, draft, pair) {
        if !admit(lane, step) {
            return false;
        }
    }
    true
}

// Files a pair in a lane, unless a cycle closes: then the lane stays as it was.
pub(crate) fn file_in(draft: &Draft, lane: &mut Dependencies, pair: Pair) -> bool
    requires { Sound (count (net draft.now.fabric.now)) lane.old }
    ensures { Filed (count (net draft.now.fabric.now)) (needs draft.now pair) lane.old lane.new result }
{
    let before = *lane;
    if add_route(draft, lane, pair) {
        return true;
    }
    *lane = before;
    false
}
