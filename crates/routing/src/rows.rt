ghost use Rattle.std.specs.Prelude.{◌+◌, ◌*◌, slice_index_or};
ghost use Rattle.model.specs.Rules.{channel_byte};

use crate::rule::RouteRule;
use crate::table::{NONE, channel_byte};

// A route rule that borrows its channels, by switch and destination, a row for each switch, and keeps every pair in one lane.
#[derive(Clone, Copy)]
pub struct Rows<'a> {
    pub switches: u8,
    pub channels: &'a [u8],
    pub lane: u8,
}

impl RouteRule for Rows<'_> {
    ghost maps = { λ r. record { next = λ u d. channel_byte (slice_index_or r.channels.now (u * r.switches + d) 255); lane = λ _ _. r.lane } };

    fn channel(&self, switch: u8, destination: u8) -> Option<u8> {
        // By row, as the caller's bytes are.
        let at = switch as usize * self.switches as usize + destination as usize;
        channel_byte(self.channels.get(at).copied().unwrap_or(NONE))
    }

    fn lane(&self, _source: u8, _destination: u8) -> u8 {
        self.lane
    }
}
