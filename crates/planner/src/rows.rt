ghost use Rattle.std.specs.Prelude.{◌≡◌, ◌<◌};
ghost use Rattle.model.specs.Planner.{hops};
ghost use Rattle.fabric.specs.Of.{net};
ghost use Rattle.planner.specs.Rows.{IsRow, Measured};

use fabric::Fabric;
use graph::search::{Distances, distances_from};
use std::array;

// A fabric with its hop counts: for each switch, the row of those from it.
#[derive(Drop)]
pub(crate) struct HopRows<'a> {
    pub(crate) fabric: &'a Fabric,
    rows: [Distances; 32],
    ghost measured: { Measured (net fabric.now) rows },
}

impl<'a> HopRows<'a> {
    // Searches from every switch.
    pub(crate) fn measure(fabric: &'a Fabric) -> HopRows<'a>
        ensures { result.fabric.now ≡ fabric.now }
    {
        HopRows {
            fabric,
            rows: array::from_fn(
                |switch| -> Distances
                    requires { switch < 32 }
                    ensures { IsRow (net fabric.entry.now) switch result }
                { distances_from(fabric, switch as u32) },
            ),
        }
    }

    // The fewest channels from one switch to another; none where there is no path.
    pub(crate) fn hops(&self, from: u8, to: u8) -> Option<u32>
        requires from { from < (net self.now.fabric.now).switches }
        requires to { to < (net self.now.fabric.now).switches }
        ensures { result ≡ hops (net self.now.fabric.now) from to }
    {
        let rows = &self.rows;
        rows[from as usize].to(to as u32)
    }
}
