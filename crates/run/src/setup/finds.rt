ghost use Rattle.std.specs.Prelude.{◌<◌};
ghost use Rattle.run.specs.Words.{packet_of};
ghost use Rattle.run.specs.Sites.{Finds, FindsSender, FindsSenderFor, Packs};
ghost use Rattle.run.specs.Runs.{plain_setup};

use crate::packet::Packet;
use crate::place::{SenderPlace, SlotPlace};
use crate::setup::Setup;
use crate::site::Site;
use fabric::CallFault;
use routing::{RouteRule, RuleFault};

impl<R: RouteRule> Setup<'_, R> {
    // The site of a channel and a lane.
    pub fn site(&self, channel: u32, lane: u32) -> Result<Site<'_, R>, CallFault>
        ensures { Finds self.now channel lane result }
    {
        if lane >= self.lanes.get() {
            return Err(CallFault::MissingNumber);
        }
        let ends = self
            .fabric
            .channel(channel)
            .ok_or(CallFault::MissingNumber)?;
        Ok(Site {
            setup: self,
            slot: SlotPlace {
                channel: channel as u8,
                lane: lane as u8,
            },
            sender: SenderPlace {
                switch: ends.start,
                lane: lane as u8,
            },
            finish: ends.finish,
        })
    }

    // The place of the sender slot of a switch and a lane.
    pub fn sender(&self, switch: u32, lane: u32) -> Result<SenderPlace, CallFault>
        ensures { FindsSender (plain_setup R.maps self.now) switch lane result }
    {
        if switch >= self.fabric.switch_count() || lane >= self.lanes.get() {
            return Err(CallFault::MissingNumber);
        }
        Ok(SenderPlace {
            switch: switch as u8,
            lane: lane as u8,
        })
    }

    // The packet from one switch to another.
    pub fn packet(&self, source: u32, destination: u32, tag: u32) -> Result<Packet, CallFault>
        ensures { Packs (plain_setup R.maps self.now) (record { source = source; destination = destination; tag = tag }) result }
    {
        let pair = self
            .fabric
            .pair(source, destination)
            .ok_or(CallFault::MissingNumber)?;
        Ok(Packet {
            source: pair.source,
            destination: pair.destination,
            tag,
        })
    }

    // The sender slot of a packet: that of its source, in its lane.
    pub fn sender_for(&self, packet: Packet) -> Result<SenderPlace, RuleFault>
        requires { (packet.source < 32) × (packet.destination < 32) }
        ensures { FindsSenderFor (plain_setup R.maps self.now) (packet_of packet) result }
    {
        let lane = self.rule.lane(packet.source, packet.destination);
        if lane as u32 >= self.lanes.get() {
            return Err(RuleFault::Laneless(packet.source, packet.destination));
        }
        Ok(SenderPlace {
            switch: packet.source,
            lane,
        })
    }
}
