ghost use Rattle.model.specs.Packets.{post, serve, look, look_sender};
ghost use Rattle.run.specs.Words.{post_reply, serve_reply, look_reply};
ghost use Rattle.run.specs.Runs.{Opened, Obeys, Shows};

use crate::board::Board;
use crate::packet::Packet;
use crate::setup::Setup;
use crate::words::Outcome;
use fabric::{CallFault, Fabric, LaneCount};
use routing::{RouteRule, RuleFault};

mod replays;
mod requests;

// Packets under way on a fabric: what the run was opened on, and what stands where.
#[derive(Drop)]
pub struct Run<'a, R> {
    setup: Setup<'a, R>,
    board: Board,
}

impl<'a, R: RouteRule> Run<'a, R> {
    // A run on any rule, accepted or not, with nothing under way.
    pub fn open(fabric: &'a Fabric, lanes: u32, rule: &'a R) -> Result<Run<'a, R>, CallFault>
        ensures { Opened R.maps fabric.now lanes rule.now result }
    {
        let lanes = LaneCount::try_from(lanes)?;
        Ok(Run {
            setup: Setup {
                fabric,
                lanes,
                rule,
            },
            board: Board::new(),
        })
    }

    // Takes a packet in at its source. Refused in this order: two switches that are no pair, a lane that is not below the lane count, a
    // sender slot that is taken.
    pub fn post(&mut self, source: u32, destination: u32, tag: u32) -> Result<(), RuleFault>
        ensures { Obeys R.maps self.old (post source destination tag) self.new (post_reply result) }
    {
        let packet = self.setup.packet(source, destination, tag)?;
        let at = self.setup.sender_for(packet)?;
        self.board.admit(at, packet)?;
        Ok(())
    }

    // Delivers the front of a slot that has arrived; else, where there is room, grants the first position that contends; else the slot
    // waits.
    pub fn serve(&mut self, channel: u32, lane: u32) -> Result<Outcome, CallFault>
        ensures { Obeys R.maps self.old (serve channel lane) self.new (serve_reply result) }
    {
        let site = self.setup.site(channel, lane)?;
        Ok(site.serve(&mut self.board))
    }

    // What a slot holds.
    pub fn look(&self, channel: u32, lane: u32) -> Result<Option<Packet>, CallFault>
        ensures { Shows R.maps self.now (look channel lane) (look_reply result) }
    {
        let site = self.setup.site(channel, lane)?;
        Ok(self.board.slot(site.slot).held)
    }

    // What a sender slot holds.
    pub fn look_sender(&self, switch: u32, lane: u32) -> Result<Option<Packet>, CallFault>
        ensures { Shows R.maps self.now (look_sender switch lane) (look_reply result) }
    {
        let at = self.setup.sender(switch, lane)?;
        Ok(self.board.sender(at))
    }
}
