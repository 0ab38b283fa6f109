ghost use Rattle.std.specs.Prelude.{◌≡◌, ◌<◌};

use fabric::Fabric;
use routing::Table;

pub mod decode;
pub mod round;

// What a plan file holds; whether the plan is sound is not yet checked.
#[derive(Drop)]
pub struct Plan {
    fabric: Fabric,
    lanes: u8,
    table: Table,
}

impl Plan {
    pub fn fabric(&self) -> &Fabric
        ensures { result.now ≡ self.now.fabric }
    {
        &self.fabric
    }

    pub fn lane_count(&self) -> u32
        ensures { result ≡ self.now.lanes }
    {
        self.lanes as u32
    }

    pub fn table(&self) -> &Table
        ensures { result.now ≡ self.now.table }
    {
        &self.table
    }
}
