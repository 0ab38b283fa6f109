ghost use Rattle.fabric.specs.Of.{net};
ghost use Rattle.planfile.specs.Round.{Keeps, Recodes};

use crate::fault::FileFault;
use crate::plan::Plan;
use crate::plan::decode::decode;
use crate::writer::write;
use fabric::Fabric;
use routing::RouteRule;
use std::alloc::Global;

// Decodes a file and writes it again: the same bytes.
pub fn recode(heap: Global, bytes: &[u8], out: &mut [u8]) -> Result<usize, FileFault>
    ensures { Recodes bytes.now out.old out.new result }
{
    let plan = decode(heap, bytes)?;
    let length = write(&plan.fabric, plan.lanes as u32, &plan.table, out)?;
    Ok(length)
}

// Apart from `write_and_decode`, since its proof needs help, and a slip in the call shows best where none is needed.
fn decoded<R: RouteRule>(
    heap: Global,
    fabric: &Fabric,
    lanes: u32,
    rule: &R,
    out: &mut [u8],
) -> Result<Plan, FileFault>
    ensures { Keeps (net fabric.now) lanes (R.maps rule.now) out.old out.new result }
{
    let length = write(fabric, lanes, rule, out)?;
    decode(heap, &out[0..length])
}

// Writes a file and decodes it: the same plan.
pub fn write_and_decode<R: RouteRule>(
    heap: Global,
    fabric: &Fabric,
    lanes: u32,
    rule: &R,
    out: &mut [u8],
) -> Result<Plan, FileFault>
    ensures { Keeps (net fabric.now) lanes (R.maps rule.now) out.old out.new result }
{
    decoded(heap, fabric, lanes, rule, out)
}
