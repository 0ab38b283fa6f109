ghost use Rattle.fabric.specs.Grids.{SizesGrid};

use crate::fault::FabricFault;

// How many switches a grid of these sides has: 2 to 32.
pub fn grid_size(width: u32, height: u32) -> Result<u32, FabricFault>
    ensures { SizesGrid width height result }
{
    match width.checked_mul(height) {
        Some(switches @ 2..=32) => Ok(switches),
        _ => Err(FabricFault::GridSize),
    }
}
