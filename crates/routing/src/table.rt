ghost use Rattle.std.specs.Prelude.{◌≡◌, ◌+◌, ◌*◌, ◌≤◌, length, if◌then◌else◌, vec_len, slice_index_or};
ghost use Rattle.model.specs.Net.{is_pair};
ghost use Rattle.model.specs.Rules.{channel_byte, table_rule};

use crate::rule::RouteRule;
use fabric::Pair;

mod makes;

// Stands in a table for no channel, and for no lane: callers hand over tables of bytes, and so does the plan file.
pub const NONE: u8 = 255;

// A stored route rule: two lists of n × n bytes by row, channels by switch and destination, lanes by source and destination.
#[derive(Drop)]
pub struct Table {
    switches: u8,
    // Two lists, as callers and the plan file have them: each is copied whole.
    channels: Vec<u8>,
    lanes: Vec<u8>,
    ghost full: { (vec_len channels ≡ switches * switches) × (vec_len lanes ≡ switches * switches) },
}

// The channel that a byte of a table stands for.
pub fn channel_byte(byte: u8) -> Option<u8>
    ensures { result ≡ channel_byte byte }
{
    (byte < NONE).then_some(byte)
}

// The byte of a pair in a list of a row for each switch; 255 for equal or missing switches, and past the list.
pub fn cell(bytes: &[u8], switches: u8, row: u8, column: u8) -> u8
    ensures { result ≡ (if is_pair switches row column then slice_index_or bytes.now (row * switches + column) 255 else 255) }
{
    if Pair::of(switches, u32::from(row), u32::from(column)).is_none() {
        return NONE;
    }
    // By row, as the caller's bytes are.
    let at = row as usize * switches as usize + column as usize;
    bytes.get(at).copied().unwrap_or(NONE)
}

// The byte of a pair in a table's list; 255 for equal or missing switches.
// Not `cell`: that the list holds every pair spares a test at each hop.
#[tactic(auto, using(crate::proofs::Cells::cell_below, crate::proofs::Cells::cell_read))]
fn stored(bytes: &[u8], switches: u8, row: u8, column: u8) -> u8
    requires { switches * switches ≤ length bytes.now }
    ensures { result ≡ (if is_pair switches row column then slice_index_or bytes.now (row * switches + column) 255 else 255) }
{
    match Pair::of(switches, u32::from(row), u32::from(column)) {
        // By row, as the caller's bytes are.
        Some(pair) => bytes[pair.source as usize * switches as usize + pair.destination as usize],
        None => NONE,
    }
}

impl RouteRule for Table {
    ghost maps = { λ t. table_rule t.switches t.channels.items t.lanes.items };

    fn channel(&self, switch: u8, destination: u8) -> Option<u8> {
        channel_byte(stored(&self.channels, self.switches, switch, destination))
    }

    fn lane(&self, source: u8, destination: u8) -> u8 {
        stored(&self.lanes, self.switches, source, destination)
    }
}
