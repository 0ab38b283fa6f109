ghost use Rattle.std.specs.Prelude.{◌≡◌, ◌<◌, ◌≤◌, length, MatchOption};
ghost use Rattle.std.specs.List.{slice_get};
ghost use Rattle.std.specs.Option.{option_map};
ghost use Rattle.model.specs.Net.{count, finish_of};
ghost use Rattle.model.specs.Positions.{position_count, position_at};
ghost use Rattle.fabric.specs.Channels.{feeders, spot};
ghost use Rattle.fabric.specs.Of.{net, Stands};

use crate::network::Fabric;
use crate::position::Position;

impl Fabric {
    // How many channels end at a switch.
    fn feeder_count(&self, switch: u8) -> u32
        ensures is { result ≡ length (feeders switch self.now.channels.items) }
        ensures range { result ≤ 128 }
    {
        // A loop: a chain of `filter` and `count` takes twice the instructions.
        let mut count = 0;
        for channel in &self.channels {
            count += u32::from(channel.finish == switch);
        }
        count
    }

    // The number of the channel at this place among those that end at a switch, ascending.
    fn feeder(&self, switch: u8, place: u32) -> Option<u8>
        ensures is { result ≡ slice_get (feeders switch self.now.channels.items) place }
        ensures ends { MatchOption result (length (feeders switch self.now.channels.items) ≤ place)
            (λ x. (x < count (net self.now)) × (finish_of (net self.now) x ≡ switch)) }
    {
        // A loop: a chain of `filter` and `nth` takes 1.5 times the instructions.
        let mut ahead = place;
        for (number, channel) in self.channels.iter().enumerate() {
            if channel.finish == switch {
                if ahead == 0 {
                    return Some(number as u8);
                }
                ahead -= 1;
            }
        }
        None
    }

    // How many positions a channel has; 0 for a channel that does not exist.
    #[tactic(auto, using(crate::proofs::Feeders::counts))]
    pub fn position_count(&self, channel: u32) -> u32
        ensures is { result ≡ position_count (net self.now) channel }
        ensures range { result ≤ 129 }
    {
        self.channel(channel)
            .map_or(0, |served| 1 + self.feeder_count(served.start))
    }

    // Position i of a channel, counted from 0: the sender slot of the switch that it leaves, then the channels that end there,
    // ascending.
    #[tactic(auto, using(crate::proofs::Feeders::places))]
    pub fn position(&self, channel: u32, i: u32) -> Option<Position>
        ensures is { option_map spot result ≡ position_at (net self.now) channel i }
        ensures stands { MatchOption result (position_count (net self.now) channel ≤ i) (Stands (net self.now) channel) }
    {
        let served = self.channel(channel)?;
        if i == 0 {
            return Some(Position::Sender);
        }
        self.feeder(served.start, i - 1).map(Position::Over)
    }
}
