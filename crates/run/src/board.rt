ghost use Rattle.std.specs.Prelude.{◌≡◌, OnErr};
ghost use Rattle.std.specs.Option.{option_map};
ghost use Rattle.model.specs.State.{empty, with_slot, with_mark, with_sender};
ghost use Rattle.run.specs.Words.{packet_of};
ghost use Rattle.run.specs.Sites.{Admits};
ghost use Rattle.run.specs.View.{view, slot_at, sender_at};

use crate::by_lane::ByLane;
use crate::packet::Packet;
use crate::place::{SenderPlace, SlotPlace};
use fabric::CallFault;

// One lane of one channel: what it holds, and its turn mark, the position to be asked first.
#[derive(Clone, Copy)]
pub struct Slot {
    pub held: Option<Packet>,
    pub mark: u8,
}

// The slots of each channel, and the sender slots of each switch.
#[derive(Drop)]
pub struct Board {
    pub slots: [ByLane<Slot>; 128],
    pub senders: [ByLane<Option<Packet>>; 32],
}

impl Board {
    // Nothing is under way, and every mark is 0.
    pub fn new() -> Board
        ensures { view result ≡ empty }
    {
        let empty = Slot {
            held: None,
            mark: 0,
        };
        Board {
            slots: [ByLane { items: [empty; 8] }; 128],
            senders: [ByLane { items: [None; 8] }; 32],
        }
    }

    // What stands in a slot.
    pub fn slot(&self, at: SlotPlace) -> Slot
        ensures { result ≡ slot_at self.now at.channel at.lane }
    {
        self.slots[at.channel as usize].get(at.lane)
    }

    // What stands in a sender slot.
    pub fn sender(&self, at: SenderPlace) -> Option<Packet>
        ensures { result ≡ sender_at self.now at.switch at.lane }
    {
        self.senders[at.switch as usize].get(at.lane)
    }

    // Puts a packet, or none, and a turn mark into a slot.
    pub fn set(&mut self, at: SlotPlace, slot: Slot)
        ensures { view self.new ≡ with_mark (with_slot (view self.old) at.channel at.lane (option_map packet_of slot.held)) at.channel at.lane slot.mark }
    {
        self.slots[at.channel as usize].put(at.lane, slot);
    }

    // Puts a packet, or none, into a slot, and leaves its turn mark.
    pub fn hold(&mut self, at: SlotPlace, held: Option<Packet>)
        ensures { view self.new ≡ with_slot (view self.old) at.channel at.lane (option_map packet_of held) }
    {
        let mark = self.slot(at).mark;
        self.set(at, Slot { held, mark });
    }

    // Puts a packet, or none, into a sender slot.
    pub fn load(&mut self, at: SenderPlace, held: Option<Packet>)
        ensures { view self.new ≡ with_sender (view self.old) at.switch at.lane (option_map packet_of held) }
    {
        self.senders[at.switch as usize].put(at.lane, held);
    }

    // Puts a packet into its sender slot, unless that is taken.
    pub fn admit(&mut self, at: SenderPlace, packet: Packet) -> Result<(), CallFault>
        ensures admits { Admits (view self.old) at (packet_of packet) (view self.new) result }
        ensures same { OnErr result (self.new ≡ self.old) }
    {
        if self.sender(at).is_some() {
            return Err(CallFault::SenderTaken);
        }
        self.load(at, Some(packet));
        Ok(())
    }
}
