use crate::packet::Packet;
use routing::RuleFault;
use std::fmt;

// What a serve did: it delivered the slot's packet, moved one in from this position, or did nothing, since the slot waits for its
// packet to go on, or since no position has one for it.
#[derive(Clone, Copy, PartialEq, Eq, Debug)]
pub enum Outcome {
    Delivered(Packet),
    Moved(u8),
    Waits,
    Idle,
}

// What changes a run: a post of source, destination and tag, or a serve of a channel and a lane.
#[derive(Clone, Copy, PartialEq, Eq, Debug)]
pub enum Call {
    Post(u32, u32, u32),
    Serve(u32, u32),
}

// A call, a look at the slot of a channel and a lane, or a look at the sender slot of a switch and a lane.
#[derive(Clone, Copy, PartialEq, Eq, Debug)]
pub enum Request {
    Make(Call),
    Look(u32, u32),
    LookSender(u32, u32),
}

// What a request is answered.
#[derive(Clone, Copy, PartialEq, Eq, Debug)]
pub enum Answer {
    Taken,
    Served(Outcome),
    Holds(Option<Packet>),
    Refused(RuleFault),
}

impl fmt::Display for Outcome {
    ghost use Rattle.std.specs.Prelude.{Some};
    ghost use Rattle.run.specs.Texts.{outcome_text};

    ghost output = { λ o. Some (outcome_text o) };

    fn fmt<W: fmt::Write>(&self, f: &mut fmt::Formatter<W>) -> fmt::Result {
        match self {
            Outcome::Delivered(packet) => write!(f, "delivered {packet}"),
            Outcome::Moved(position) => write!(f, "moved {position}"),
            Outcome::Waits => write!(f, "waits"),
            Outcome::Idle => write!(f, "idle"),
        }
    }
}

impl fmt::Display for Answer {
    ghost use Rattle.std.specs.Prelude.{Some};
    ghost use Rattle.run.specs.Texts.{answer_text};

    ghost output = { λ a. Some (answer_text a) };

    fn fmt<W: fmt::Write>(&self, f: &mut fmt::Formatter<W>) -> fmt::Result {
        match self {
            Answer::Taken => write!(f, "taken"),
            Answer::Served(outcome) => write!(f, "{outcome}"),
            Answer::Holds(Some(packet)) => write!(f, "holds {}", packet.tag),
            Answer::Holds(None) => write!(f, "empty"),
            Answer::Refused(fault) => match fault.number() {
                Some(number) => write!(f, "refused {number}"),
                None => write!(f, "there is no memory"),
            },
        }
    }
}
