ghost use Rattle.std.specs.Prelude.{◌≡◌, ◌<◌, Some};
ghost use Rattle.std.specs.Option.{option_map};
ghost use Rattle.model.specs.Run.{after, wants, held_at, cleared, granted, advanced, first_from};
ghost use Rattle.run.specs.Words.{packet_of};
ghost use Rattle.run.specs.View.{view};
ghost use Rattle.run.specs.Runs.{setup_at, position_of, positions_of, contending};

use crate::board::{Board, Slot};
use crate::packet::Packet;
use crate::place::SlotPlace;
use crate::site::Site;
use fabric::Position;
use routing::RouteRule;
use std::iter;

// The position after p of k, with 0 after the last.
fn position_after(k: u8, p: u8) -> u8
    ensures { result ≡ after k p }
{
    match p.checked_add(1) {
        Some(next) if next < k => next,
        _ => 0,
    }
}

impl<R: RouteRule> Site<'_, R> {
    // How many positions the slot's channel has.
    fn position_count(&self) -> u8
        ensures { result ≡ positions_of self.now }
    {
        self.setup.fabric.position_count(self.slot.channel as u32) as u8
    }

    // The slot of another channel, in the same lane.
    fn over(&self, channel: u8) -> SlotPlace
        requires { channel < 128 }
        ensures { (result.channel ≡ channel) × (result.lane ≡ self.now.slot.lane) }
    {
        SlotPlace {
            channel,
            lane: self.slot.lane,
        }
    }

    // What stands at position p.
    fn waiting(&self, board: &Board, p: u8) -> Option<Packet>
        ensures { option_map packet_of result ≡ held_at (view board.now) self.now.sender.switch self.now.slot.lane (position_of self.now p) }
    {
        match self
            .setup
            .fabric
            .position(self.slot.channel as u32, p as u32)?
        {
            Position::Sender => board.sender(self.sender),
            Position::Over(channel) => board.slot(self.over(channel)).held,
        }
    }

    // Whether a packet goes on by this channel: it is not destined for the switch that the channel leaves, and the rule answers the
    // channel there.
    fn wants(&self, packet: Packet) -> bool
        ensures { result ≡ wants (setup_at R.maps self.now) self.now.slot.channel self.now.sender.switch (Some (packet_of packet)) }
    {
        let switch = self.sender.switch;
        packet.destination != switch
            && self.setup.rule.channel(switch, packet.destination) == Some(self.slot.channel)
    }

    // Whether position p has a packet for the slot.
    fn contends(&self, board: &Board, p: u8) -> bool
        ensures { result ≡ contending R.maps self.now (view board.now) p }
    {
        matches!(self.waiting(board, p), Some(packet) if self.wants(packet))
    }

    // The first contending position from this one on, going round.
    fn first_from(&self, board: &Board, from: u8) -> Option<u8>
        ensures { result ≡ first_from (contending R.maps self.now (view board.now)) (positions_of self.now) from (positions_of self.now) }
    {
        let k = self.position_count();
        iter::successors(Some(from), |p| Some(position_after(k, *p)))
            .take(k as usize)
            .find(|p| self.contends(board, *p))
    }

    // The first contending position from the turn mark on, going round.
    pub(super) fn first_contending(&self, board: &Board) -> Option<u8>
        ensures { result ≡ granted (λ x. x) (λ x. x) (setup_at R.maps self.now) (view board.now) self.now.slot.channel self.now.slot.lane }
    {
        self.first_from(board, board.slot(self.slot).mark)
    }

    // Empties position p.
    fn clear(&self, board: &mut Board, p: u8)
        ensures { view board.new ≡ cleared (view board.old) self.now.sender.switch self.now.slot.lane (position_of self.now p) }
    {
        match self
            .setup
            .fabric
            .position(self.slot.channel as u32, p as u32)
        {
            None => {}
            Some(Position::Sender) => board.load(self.sender, None),
            Some(Position::Over(channel)) => board.hold(self.over(channel), None),
        }
    }

    // Moves what stands at position p into the slot, and passes the turn on.
    pub(super) fn grant(&self, board: &mut Board, p: u8)
        ensures { view board.new ≡ advanced (λ x. x) (λ x. x) (setup_at R.maps self.now) (view board.old) self.now.slot.channel self.now.slot.lane p }
    {
        let held = self.waiting(board, p);
        self.clear(board, p);
        let mark = position_after(self.position_count(), p);
        board.set(self.slot, Slot { held, mark });
    }
}
