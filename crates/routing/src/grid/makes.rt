ghost use Rattle.std.specs.Prelude.{◌≡◌, ◌+◌, ◌≤◌, ◌++◌, IfOk, OnOk};
ghost use Rattle.model.specs.Rules.{grid_ends};
ghost use Rattle.routing.specs.Links.{links};
ghost use Rattle.routing.specs.Grids.{MakesGrid, MakesGridFabric};

use crate::fault::RuleFault;
use crate::grid::Grid;
use fabric::{Fabric, grid_size};
use std::alloc::{AllocError, Global};

// Adds the ends of links: each joins a switch from `first` on, up to `end`, to the one `step` further on.
#[tactic(auto, using(crate::proofs::GridEnds::links_are, std::proofs::lemmas::Grind::common_steps))]
fn push_links(ends: &mut Vec<u8>, first: u8, end: u8, step: u8) -> Result<(), AllocError>
    requires { end + step ≤ 256 }
    ensures { OnOk result (ends.new.items ≡ ends.old.items ++ links first end step) }
{
    for switch in first..end {
        ends.push(switch)?;
        ends.push(switch + step)?;
    }
    Ok(())
}

impl Grid {
    // A grid of these sides, if it has 2 to 32 switches.
    pub fn new(width: u32, height: u32) -> Result<Grid, RuleFault>
        ensures { MakesGrid width height result }
    {
        grid_size(width, height)?;
        Ok(Grid {
            width: width as u8,
            height: height as u8,
        })
    }

    // The ends of its links: those along the rows, then those along the columns.
    #[tactic(auto, using(crate::proofs::GridEnds::grid_ends_are, std::proofs::lemmas::Grind::common_steps))]
    fn ends(&self, heap: Global) -> Result<Vec<u8>, AllocError>
        ensures { IfOk result (λ v. v.items ≡ grid_ends self.now.width self.now.height) }
    {
        let mut ends = Vec::new(heap);
        for y in 0..self.height {
            let first = y * self.width;
            push_links(&mut ends, first, first + self.width - 1, 1)?;
        }
        push_links(&mut ends, 0, self.switch_count() - self.width, self.width)?;
        Ok(ends)
    }

    // The fabric of its links, which nothing refuses.
    #[tactic(auto, using(crate::proofs::GridLinks::grid_fault))]
    pub fn fabric(&self, heap: Global) -> Result<Fabric, RuleFault>
        ensures { MakesGridFabric self.now result }
    {
        let ends = self.ends(heap)?;
        Ok(Fabric::new(heap, self.switch_count() as u32, &ends)?)
    }
}
