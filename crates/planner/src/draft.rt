ghost use Rattle.std.specs.Prelude.{◌≡◌, ℕ, ◌*◌, if◌then◌else◌, []};
ghost use Rattle.arrayvec.specs.ArrayVec.{array_vec_len};
ghost use Rattle.model.specs.Net.{is_pair};
ghost use Rattle.model.specs.Planner.{square};
ghost use Rattle.model.specs.Rules.{table_rule};
ghost use Rattle.fabric.specs.Of.{net};
ghost use Rattle.planner.specs.Rows.{TakesPairs, Gives};

use arrayvec::ArrayVec;
use fabric::{Fabric, Pair};
use routing::RouteRule;
use routing::table::{NONE, cell, channel_byte};

// A channel table in the making: for each switch of a fabric a row of bytes, one for each destination. It has no lanes yet.
#[derive(Drop)]
pub(crate) struct Draft<'a> {
    pub(crate) fabric: &'a Fabric,
    pub(crate) cells: ArrayVec<u8, 1024>,
    ghost full: { array_vec_len cells ≡ (net fabric.now).switches * (net fabric.now).switches },
}

// The byte of two switches, if they are a pair.
fn byte_at<F: Fn(Pair) -> u8>(fabric: &Fabric, byte: &F, source: u32, destination: u32) -> u8
    requires { TakesPairs (net fabric.now).switches (F.pre byte.now) }
    ensures { (f : ℕ → ℕ → ℕ) → Gives (net fabric.now).switches (F.post byte.now) f → result ≡ (if is_pair (net fabric.now).switches source destination then f source destination else 255) }
{
    match fabric.pair(source, destination) {
        Some(pair) => byte(pair),
        None => NONE,
    }
}

impl<'a> Draft<'a> {
    // The table with this byte for each pair, and none on the diagonal.
    pub(crate) fn of<F: Fn(Pair) -> u8>(fabric: &'a Fabric, byte: F) -> Draft<'a>
        requires { TakesPairs (net fabric.now).switches (F.pre byte) }
        ensures on { result.fabric.now ≡ fabric.now }
        ensures table { (f : ℕ → ℕ → ℕ) → Gives (net fabric.now).switches (F.post byte) f → result.cells.items ≡ square (net fabric.now).switches f }
    {
        let switches = fabric.switch_count();
        let mut cells = ArrayVec::new();
        // By places: a table has a byte for equal switches too, which no pair is.
        for place in 0..switches * switches {
            cells.push(byte_at(fabric, &byte, place / switches, place % switches));
        }
        Draft { fabric, cells }
    }
}

impl RouteRule for Draft<'_> {
    ghost maps = { λ x. table_rule (net x.fabric.now).switches x.cells.items [] };

    fn channel(&self, switch: u8, destination: u8) -> Option<u8> {
        let cells = &self.cells;
        let switches = self.fabric.switch_count() as u8;
        channel_byte(cell(cells, switches, switch, destination))
    }

    fn lane(&self, _source: u8, _destination: u8) -> u8 {
        NONE
    }
}
