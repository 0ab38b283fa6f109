ghost use Rattle.std.specs.Prelude.{◌≡◌, ◌<◌};
ghost use Rattle.model.specs.Positions.{position_count};
ghost use Rattle.model.specs.Waits.{turn_cost};
ghost use Rattle.fabric.specs.Of.{net};
ghost use Rattle.patience.specs.Caps.{capped, heaviest, slot_at, costs, Row, followed};

use fabric::Fabric;
use graph::Graph;
use std::array;

// The slot of a channel in a lane: how many positions it has, and how long it may be held.
#[derive(Clone, Copy)]
pub(crate) struct Slot {
    positions: u32,
    hold: u32,
}

impl Slot {
    // What it costs to get one's turn at the slot.
    pub(crate) fn turn_cost(self) -> u32
        ensures { result ≡ capped (turn_cost self.positions self.hold) }
    {
        self.hold.saturating_add(1).saturating_mul(self.positions)
    }
}

// The hold of a channel by the slots of those that it leads to.
fn next_hold<G: Graph>(lane: &G, slots: &[Slot; 128], channel: u32) -> u32
    ensures { result ≡ heaviest (costs slots.now) (G.edge lane.now channel) (G.nodes lane.now) }
{
    (0..lane.node_count())
        .filter(|to| lane.leads(channel, *to))
        .map(|to| slots[to as usize].turn_cost())
        .fold(1, u32::max)
}

// A slot with its hold followed over one dependency more. Past the lane's channels nothing is asked, and it stays.
fn next_slot<G: Graph>(lane: &G, slots: &[Slot; 128], channel: u32) -> Slot
    requires { channel < 128 }
    ensures { channel < G.nodes lane.now → result ≡ record { positions = (slot_at slots.now channel).positions; hold = heaviest (costs slots.now) (G.edge lane.now channel) (G.nodes lane.now) } }
{
    let slot = slots[channel as usize];
    if channel >= lane.node_count() {
        return slot;
    }
    Slot {
        hold: next_hold(lane, slots, channel),
        ..slot
    }
}

// The slots with their holds followed over one dependency more.
fn next_slots<G: Graph>(lane: &G, slots: &[Slot; 128]) -> [Slot; 128]
    ensures { Row (λ c. record { positions = (slot_at slots.now c).positions; hold = heaviest (costs slots.now) (G.edge lane.now c) (G.nodes lane.now) }) (G.nodes lane.now) result }
{
    array::from_fn(|channel| next_slot(lane, slots, channel as u32))
}

// The slots of a lane's channels.
pub(crate) fn slots_of<G: Graph>(fabric: &Fabric, lane: &G) -> [Slot; 128]
    ensures { Row (followed (position_count (net fabric.now)) (G.edge lane.now) (G.nodes lane.now) (G.nodes lane.now)) (G.nodes lane.now) result }
{
    let mut slots = array::from_fn(|channel| Slot {
        positions: fabric.position_count(channel as u32),
        hold: 1,
    });
    for _more in 0..lane.node_count() {
        slots = next_slots(lane, &slots);
    }
    slots
}
