ghost use Rattle.fabric.specs.Of.{net};
ghost use Rattle.routing.specs.Tables.{MakesTable};

use crate::fault::RuleFault;
use crate::table::Table;
use fabric::{CallFault, Fabric};
use std::alloc::Global;

impl Table {
    // A table for the n switches of a fabric. Bytes after the first n × n of a list are ignored.
    #[tactic(auto, using(crate::proofs::Cells::cell_front))]
    pub fn new(
        heap: Global,
        fabric: &Fabric,
        channels: &[u8],
        lanes: &[u8],
    ) -> Result<Table, RuleFault>
        ensures { MakesTable (net fabric.now).switches channels.now lanes.now result }
    {
        let switches = fabric.switch_count() as u8;
        let cells = switches as usize * switches as usize;
        let channels = channels.get(..cells).ok_or(CallFault::ShortList)?;
        let lanes = lanes.get(..cells).ok_or(CallFault::ShortList)?;
        Ok(Table {
            switches,
            channels: channels.to_vec(heap)?,
            lanes: lanes.to_vec(heap)?,
        })
    }
}
