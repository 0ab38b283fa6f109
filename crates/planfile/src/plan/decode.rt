ghost use Rattle.std.specs.Prelude.{◌≡◌, IfOk};
ghost use Rattle.planfile.specs.Decodes.{Decodes};
ghost use Rattle.planfile.specs.Refused.{lane_count_in};
ghost use Rattle.planfile.specs.Round.{Back};

use crate::bodies::Bodies;
use crate::fault::FileFault;
use crate::judge::judge;
use crate::plan::Plan;
use fabric::Fabric;
use routing::Table;
use std::alloc::Global;

// Takes a plan file apart and makes its fabric and its table. The bytes are judged first, so that want of memory hides no refusal.
pub fn decode(heap: Global, bytes: &[u8]) -> Result<Plan, FileFault>
    ensures decodes { Decodes bytes.now result }
    ensures lanes { IfOk result (λ p. p.lanes ≡ lane_count_in bytes.now) }
    ensures back { Back bytes.now result }
{
    let Bodies { links, tables } = judge(bytes)?;
    let fabric = Fabric::new(heap, links.switches as u32, links.ends)?;
    let table = Table::new(heap, &fabric, tables.hops, tables.lanes)?;
    Ok(Plan {
        fabric,
        lanes: tables.lane_count,
        table,
    })
}
