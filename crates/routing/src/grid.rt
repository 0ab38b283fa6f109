ghost use Rattle.std.specs.Prelude.{◌≡◌, true, ◌+◌, ◌-◌, ◌*◌, ◌/◌, ◌%◌, ◌<◌, ◌≢◌};
ghost use Rattle.model.specs.Net.{is_pair};
ghost use Rattle.model.specs.Rules.{grid_hop, grid_rule};
ghost use Rattle.fabric.specs.Grids.{IsGrid};
ghost use Rattle.fabric.specs.Pairs.{FindsPair};

use crate::rule::RouteRule;
use crate::table::NONE;
use fabric::Pair;

mod makes;

// A grid of switches: switch (x, y) has number y × width + x.
#[derive(Clone, Copy, PartialEq, Eq, Debug)]
pub struct Grid {
    width: u8,
    height: u8,
    ghost fits: { IsGrid width height },
}

impl Grid {
    fn switch_count(&self) -> u8
        ensures { result ≡ self.now.width * self.now.height }
    {
        self.width * self.height
    }

    // These two switches as a pair.
    fn pair(&self, source: u8, destination: u8) -> Option<Pair>
        ensures { FindsPair (self.now.width * self.now.height) source destination result }
    {
        Pair::of(
            self.switch_count(),
            u32::from(source),
            u32::from(destination),
        )
    }

    // The link from (x, y) to (x + 1, y).
    fn row_link(&self, x: u8, y: u8) -> u8
        requires { (x + 1 < self.now.width) × (y < self.now.height) }
        ensures is { result ≡ y * (self.now.width - 1) + x }
        ensures range { result < 64 }
    {
        y * (self.width - 1) + x
    }

    // The link from (x, y) to (x, y + 1), which follows the links of all rows.
    fn column_link(&self, x: u8, y: u8) -> u8
        requires { (x < self.now.width) × (y + 1 < self.now.height) }
        ensures is { result ≡ self.now.height * (self.now.width - 1) + (y * self.now.width + x) }
        ensures range { result < 64 }
    {
        self.height * (self.width - 1) + (y * self.width + x)
    }

    // The channel at one switch for another: along the row first, then along the column.
    fn toward(&self, pair: Pair) -> u8
        requires { is_pair (self.now.width * self.now.height) pair.source pair.destination ≡ true }
        ensures is { result ≡ grid_hop self.now.width self.now.height (pair.source % self.now.width) (pair.source / self.now.width) (pair.destination % self.now.width) (pair.destination / self.now.width) }
        ensures range { result < 128 }
    {
        let x = pair.source % self.width;
        let y = pair.source / self.width;
        let to_x = pair.destination % self.width;
        let to_y = pair.destination / self.width;
        if x < to_x {
            2 * self.row_link(x, y)
        } else if to_x < x {
            2 * self.row_link(x - 1, y) + 1
        } else if y < to_y {
            2 * self.column_link(x, y)
        } else {
            2 * self.column_link(x, y - 1) + 1
        }
    }
}

// The answers are worked out, not stored. Equal or missing switches get no channel, and lane 255; every pair has lane 0.
impl RouteRule for Grid {
    ghost maps = { λ g. grid_rule g.width g.height };

    fn channel(&self, switch: u8, destination: u8) -> Option<u8> {
        let pair = self.pair(switch, destination)?;
        Some(self.toward(pair))
    }

    fn lane(&self, source: u8, destination: u8) -> u8 {
        match self.pair(source, destination) {
            Some(_) => 0,
            None => NONE,
        }
    }
}
