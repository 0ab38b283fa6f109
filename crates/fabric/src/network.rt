ghost use Rattle.std.specs.Prelude.{◌≤◌, map, vec_len};
ghost use Rattle.fabric.specs.Channels.{plain, Inside, Linked};

use crate::channel::Channel;

mod makes;
mod places;
mod reads;
mod switches;

pub use makes::judge;

// A fabric. Switches and channels are numbered from 0; every channel joins two different switches, and
// channels 2i and 2i + 1 are the two directions of a link.
#[derive(Drop)]
pub struct Fabric {
    switches: u8,
    channels: Vec<Channel>,
    ghost sizes: { (2 ≤ switches) × (switches ≤ 32) × (1 ≤ vec_len channels) × (vec_len channels ≤ 128) },
    ghost inside: { Inside switches (map plain channels.items) },
    ghost linked: { Linked (map plain channels.items) },
}
