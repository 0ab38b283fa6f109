ghost use Rattle.std.specs.Prelude.{◌≡◌, ℕ, ◌<◌, List};
ghost use Rattle.model.specs.Routes.{Edge, has};
ghost use Rattle.lane_check.specs.Orders.{waits, FirstBlock, Watched, FreeOr, NextFree, Sorted};

use arrayvec::ArrayVec;
use graph::Graph;

// The first channel from this one on that waits and leads to `channel`.
fn first_blocker<G: Graph>(
    lane: &G,
    watch: &[Option<u8>; 128],
    channel: u32,
    from: u8,
) -> Option<u32>
    ensures { FirstBlock (G.edge lane.now) (waits watch.now) (G.nodes lane.now) channel from result }
{
    let blocks = |other: &u32| watch[*other as usize].is_some() && lane.leads(*other, channel);
    (u32::from(from)..lane.node_count()).find(blocks)
}

// Whether a channel waits and its predecessors do not. Of each channel that waits `watch` keeps a number below which no predecessor
// waits.
fn is_free<G: Graph>(lane: &G, watch: &mut [Option<u8>; 128], channel: u32) -> bool
    requires inside { channel < G.nodes lane.now }
    requires watched { Watched (G.edge lane.now) watch.old }
    ensures free { FreeOr (G.edge lane.now) (waits watch.old) (G.nodes lane.now) channel result }
    ensures same { waits watch.new ≡ waits watch.old }
    ensures watched { Watched (G.edge lane.now) watch.new }
{
    let Some(from) = watch[channel as usize] else {
        return false;
    };
    let Some(blocker) = first_blocker(lane, watch, channel, from) else {
        return true;
    };
    watch[channel as usize] = Some(blocker as u8);
    false
}

// The lowest channel that waits and whose predecessors do not.
#[tactic(auto, using(crate::proofs::Sorting::free_same, crate::proofs::Sorting::held_more))]
fn next_free<G: Graph>(lane: &G, watch: &mut [Option<u8>; 128]) -> Option<u8>
    requires { Watched (G.edge lane.now) watch.old }
    ensures free { NextFree (G.edge lane.now) (waits watch.old) (G.nodes lane.now) result }
    ensures same { waits watch.new ≡ waits watch.old }
    ensures watched { Watched (G.edge lane.now) watch.new }
{
    // No `find`: the test changes `watch`, and its closure would need a contract of its own.
    for channel in 0..lane.node_count() {
        if is_free(lane, watch, channel) {
            return Some(channel as u8);
        }
    }
    None
}

// The channels of a lane in its order; none where the lane has a cycle.
pub(crate) fn sort<G: Graph>(lane: &G) -> Option<ArrayVec<u8, 128>>
    ensures { (es : List Edge) → ((b c : ℕ) → G.edge lane.now b c ≡ has es b c) → Sorted (G.nodes lane.now) es result }
{
    let mut order = ArrayVec::new();
    let mut watch = [Some(0); 128];
    for _taken in 0..lane.node_count() {
        let channel = next_free(lane, &mut watch)?;
        watch[channel as usize] = None;
        order.push(channel);
    }
    Some(order)
}
