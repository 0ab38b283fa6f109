ghost use Rattle.std.specs.Prelude.{◌≡◌, ◌≤◌};
ghost use Rattle.fabric.specs.Lanes.{Counts};

use crate::fault::CallFault;
use crate::lane_count::LaneCount;

impl TryFrom<u32> for LaneCount {
    type Error = CallFault;

    ghost try_from_gives = { Counts };

    fn try_from(lanes: u32) -> Result<LaneCount, CallFault> {
        if lanes < 1 || lanes > 8 {
            return Err(CallFault::LaneCount);
        }
        Ok(LaneCount { lanes: lanes as u8 })
    }
}

impl LaneCount {
    // The number itself.
    pub fn get(self) -> u32
        ensures is { result ≡ self.lanes }
        ensures range { (1 ≤ result) × (result ≤ 8) }
    {
        self.lanes as u32
    }
}
