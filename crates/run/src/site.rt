ghost use Rattle.std.specs.Prelude.{◌≡◌, ◌<◌};
ghost use Rattle.model.specs.Net.{count, start_of, finish_of};
ghost use Rattle.fabric.specs.Of.{net};

use crate::place::{SenderPlace, SlotPlace};
use crate::setup::Setup;

mod serves;
mod turns;

// A slot that exists, with the sender slot of the switch that its channel leaves, and the switch where the channel ends.
#[derive(Drop)]
pub struct Site<'a, R> {
    pub setup: &'a Setup<'a, R>,
    pub slot: SlotPlace,
    pub sender: SenderPlace,
    pub finish: u8,
    ghost there: { slot.channel < count (net setup.now.fabric.now) },
    ghost in_lanes: { slot.lane < setup.now.lanes.lanes },
    ghost leaves: { sender.switch ≡ start_of (net setup.now.fabric.now) slot.channel },
    ghost beside: { sender.lane ≡ slot.lane },
    ghost ends: { finish ≡ finish_of (net setup.now.fabric.now) slot.channel },
}
