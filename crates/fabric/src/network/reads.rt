ghost use Rattle.std.specs.Prelude.{◌≡◌, ◌<◌, ◌≤◌, map, length, MatchOption};
ghost use Rattle.std.specs.List.{slice_get};
ghost use Rattle.std.specs.Option.{option_map};
ghost use Rattle.model.specs.Net.{count};
ghost use Rattle.fabric.specs.Channels.{plain};
ghost use Rattle.fabric.specs.Of.{net, Joined};

use crate::channel::Channel;
use crate::network::Fabric;

impl Fabric {
    pub fn switch_count(&self) -> u32
        ensures is { result ≡ (net self.now).switches }
        ensures range { (2 ≤ result) × (result ≤ 32) }
    {
        self.switches as u32
    }

    pub fn channel_count(&self) -> u32
        ensures is { result ≡ count (net self.now) }
        ensures range { (1 ≤ result) × (result ≤ 128) }
    {
        self.channels.len() as u32
    }

    // The channels in the order of their numbers.
    pub fn channels(&self) -> &[Channel]
        ensures is { map plain result.now ≡ (net self.now).channels }
        ensures range { (1 ≤ length result.now) × (length result.now ≤ 128) }
    {
        &self.channels
    }

    // The channel of this number.
    pub fn channel(&self, channel: u32) -> Option<Channel>
        ensures is { option_map plain result ≡ slice_get (net self.now).channels channel }
        ensures joins { MatchOption result (count (net self.now) ≤ channel) (Joined (net self.now) channel) }
    {
        self.channels.get(channel as usize).copied()
    }
}
