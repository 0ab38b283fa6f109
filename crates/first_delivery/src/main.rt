#![tactic(auto)]

ghost use Rattle.std.specs.Prelude.{◌+◌, ◌*◌, slice_index_or};
ghost use Rattle.model.specs.Rules.{channel_byte};

use anyhow::anyhow;
use fabric::Fabric;
use lane_check::check;
use routing::RouteRule;
use routing::table::{NONE, Table, channel_byte};
use run::{Answer, Call, Request, Run};

// Channels by switch and destination, four to a row; every lane is 0. The program's own rule, to show that any caller's rule serves.
#[derive(Drop)]
struct Rows<'a> {
    channels: &'a [u8],
}

impl RouteRule for Rows<'_> {
    ghost maps = { λ s. record { next = λ u d. channel_byte (slice_index_or s.channels.now (u * 4 + d) 255); lane = λ _ _. 0 } };

    fn channel(&self, switch: u8, destination: u8) -> Option<u8> {
        let at = switch as usize * 4 + destination as usize;
        channel_byte(self.channels.get(at).copied().unwrap_or(NONE))
    }

    fn lane(&self, _source: u8, _destination: u8) -> u8 {
        0
    }
}

// The ring of four switches: link i joins switch i to the next, the last one to the first.
const ENDS: [u8; 8] = [0, 1, 1, 2, 2, 3, 3, 0];

// Its channels by switch and destination, and its lanes by source and destination.
const CHANNELS: [u8; 16] = [255, 0, 0, 7, 1, 255, 2, 1, 3, 3, 255, 4, 6, 5, 5, 255];

const LANES: [u8; 16] = [255, 0, 0, 0, 0, 255, 0, 0, 0, 0, 255, 0, 0, 0, 0, 255];

// A packet from switch 0 to switch 2, on its way and delivered; a second post finds the sender slot taken.
const REQUESTS: [Request; 9] = [
    Request::Make(Call::Post(0, 2, 7)),
    Request::Make(Call::Post(0, 1, 9)),
    Request::LookSender(0, 0),
    Request::Make(Call::Serve(0, 0)),
    Request::Look(0, 0),
    Request::Make(Call::Serve(0, 0)),
    Request::Make(Call::Serve(2, 0)),
    Request::Make(Call::Serve(2, 0)),
    Request::Make(Call::Serve(2, 0)),
];

// What the check says of the rule, with the order of the lane after a yes.
fn report_check<R: RouteRule>(rt: &HostRuntime, fabric: &Fabric, rule: &R) -> anyhow::Result<()> {
    let mut order = [0u8; 8];
    let mut cycle = [0u8; 8];
    match check(fabric, 1, rule, &mut order, &mut cycle) {
        Ok(_) => println!(rt; "accepted, order {order:?}")?,
        Err(fault) => println!(rt; "{}", Answer::Refused(fault))?,
    }
    Ok(())
}

// Checks a rule and plays a run on it from its opening on.
fn deliver_by<'a, R: RouteRule>(
    rt: &HostRuntime,
    fabric: &'a Fabric,
    rule: &'a R,
) -> anyhow::Result<()> {
    report_check(rt, fabric, rule)?;
    let mut answers = [Answer::Taken; 9];
    Run::replay(fabric, 1, rule, &REQUESTS, &mut answers).map_err(|_| anyhow!(
        "the run is refused"
    ))?;
    for answer in answers {
        println!(rt; "{answer}")?;
    }
    Ok(())
}

// The same packet by a stored table and by a rule that borrows its channels.
fn main(rt: HostRuntime) -> anyhow::Result<()> {
    let fabric = Fabric::new(rt.alloc(), 4, &ENDS).map_err(|_| anyhow!("no fabric"))?;
    let table = Table::new(rt.alloc(), &fabric, &CHANNELS, &LANES).map_err(|_| anyhow!(
        "no table"
    ))?;
    rt.println("by a stored table")?;
    deliver_by(&rt, &fabric, &table)?;
    rt.println("by borrowed rows")?;
    let rows = Rows {
        channels: &CHANNELS,
    };
    deliver_by(&rt, &fabric, &rows)
}
