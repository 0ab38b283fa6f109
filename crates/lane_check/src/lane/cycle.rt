ghost use Rattle.std.specs.Prelude.{◌≡◌, ℕ, ◌<◌, ◌≤◌, true, List, length, MatchOption};
ghost use Rattle.model.specs.Routes.{is_cycle};
ghost use Rattle.lane_check.specs.Circles.{Before, Open, Rounds, Looped};

use graph::Graph;
use graph::search::{Distances, distances_from};

// A shortest way from a channel round to it: how far it is from there to each channel, and to the last one, which leads back.
#[derive(Clone, Copy)]
struct Round {
    first: u32,
    row: Distances,
    last: u32,
    hops: u32,
}

// The lowest channel that is so many edges from where the row begins and leads to `to`.
fn before<G: Graph>(lane: &G, row: &Distances, hops: u32, to: u32) -> u32
    requires { (b : ℕ) × Before (G.edge lane.now) (G.nodes lane.now) row.now hops to b }
    ensures { Before (G.edge lane.now) (G.nodes lane.now) row.now hops to result }
{
    (0..lane.node_count())
        .find(|channel| row.to(*channel) == Some(hops) && lane.leads(*channel, to))
        .unwrap()
}

// A shortest way from a channel round to it; none where no way leads round.
fn way_round<G: Graph>(lane: &G, channel: u32) -> Option<Round>
    requires { channel < G.nodes lane.now }
    ensures { MatchOption result (Open (G.edge lane.now) (G.nodes lane.now) channel) (Rounds (G.edge lane.now) (G.nodes lane.now)) }
{
    let row = distances_from(lane, channel);
    let (last, hops) = (0..lane.node_count()).find_map(|last| {
        let hops = row.to(last)?;
        lane.leads(last, channel).then_some((last, hops))
    })?;
    Some(Round {
        first: channel,
        row,
        last,
        hops,
    })
}

// Writes a way round into the front of the list, from its last channel back, and returns its length.
fn write_round<G: Graph>(lane: &G, round: &Round, cycle: &mut [u8]) -> u8
    requires way { Rounds (G.edge lane.now) (G.nodes lane.now) round.now }
    requires room { G.nodes lane.now ≤ length cycle.old }
    ensures { Looped (G.edge lane.now) result cycle.old cycle.new }
{
    let mut at = round.last;
    cycle[round.hops as usize] = at as u8;
    // Backward, since each channel is found by the one after it.
    for left in (0..round.hops).rev() {
        at = before(lane, &round.row, left, at);
        cycle[left as usize] = at as u8;
    }
    round.hops as u8 + 1
}

// Writes a cycle of a lane that has one into the front of the list, and returns its length.
pub(crate) fn write_cycle<G: Graph>(lane: &G, cycle: &mut [u8]) -> u8
    requires cyclic { (cs : List ℕ) × (is_cycle (G.edge lane.now) cs ≡ true) }
    requires inside { (b c : ℕ) → G.edge lane.now b c ≡ true → (b < G.nodes lane.now) × (c < G.nodes lane.now) }
    requires room { G.nodes lane.now ≤ length cycle.old }
    ensures { Looped (G.edge lane.now) result cycle.old cycle.new }
{
    let round = (0..lane.node_count())
        .find_map(|channel| way_round(lane, channel))
        .unwrap();
    write_round(lane, &round, cycle)
}
