ghost use Rattle.std.specs.Prelude.{◌≤◌};

use crate::{TopologyFault, plan};
use fabric::{CallFault, Fabric};
use routing::RuleFault;
use std::process::Abort;
use std::test::Fail;

// The ring of four switches, and a channel table for it whose diagonal says nothing.
const RING: [u8; 8] = [0, 1, 1, 2, 2, 3, 3, 0];

const GIVEN: [u8; 16] = [9, 0, 0, 7, 1, 9, 2, 2, 4, 3, 9, 4, 6, 6, 5, 9];

// Planning answers these two tables, and leaves the bytes after them.
fn planned(
    rt: &impl Abort,
    fabric: &Fabric,
    lanes: u32,
    given: Option<&[u8]>,
    channels: [u8; 17],
    table: [u8; 17],
) -> Result<(), Fail> {
    let mut found = [1; 17];
    let mut filed = [1; 17];
    plan(fabric, lanes, given, &mut found, &mut filed)?;
    assert_eq!(rt; found, channels);
    assert_eq!(rt; filed, table);
    Ok(())
}

#[test]
fn plans_of_a_ring(rt: HostRuntime) -> Result<(), Fail> {
    let ring = Fabric::new(rt.alloc(), 4, &RING)?;
    planned(
        &rt,
        &ring,
        1,
        None,
        [255, 0, 0, 7, 1, 255, 2, 1, 3, 3, 255, 4, 6, 5, 5, 255, 1],
        [255, 0, 0, 0, 0, 255, 0, 0, 0, 0, 255, 0, 0, 0, 0, 255, 1],
    )?;
    planned(
        &rt,
        &ring,
        2,
        Some(&GIVEN),
        [255, 0, 0, 7, 1, 255, 2, 2, 4, 3, 255, 4, 6, 6, 5, 255, 1],
        [255, 0, 0, 0, 0, 255, 0, 0, 0, 0, 255, 0, 0, 1, 0, 255, 1],
    )
}

// Planning refuses so, and leaves both tables as they were.
fn refused(
    rt: &impl Abort,
    fabric: &Fabric,
    lanes: u32,
    given: Option<&[u8]>,
    size: usize,
    fault: TopologyFault,
) -> Result<(), Fail>
    requires { size ≤ 16 }
{
    let mut channels = [1; 16];
    let mut table = [2; 16];
    let answer = plan(fabric, lanes, given, &mut channels[..size], &mut table);
    assert_eq!(rt; answer, Err(fault));
    assert_eq!(rt; channels, [1; 16]);
    assert_eq!(rt; table, [2; 16]);
    Ok(())
}

#[test]
fn refusals(rt: HostRuntime) -> Result<(), Fail> {
    let ring = Fabric::new(rt.alloc(), 4, &RING)?;
    let apart = Fabric::new(rt.alloc(), 4, &[0, 1, 2, 3])?;
    let short = TopologyFault::Rule(RuleFault::Call(CallFault::ShortList));
    let lanes = TopologyFault::Rule(RuleFault::Call(CallFault::LaneCount));
    refused(&rt, &ring, 1, Some(&GIVEN), 16, TopologyFault::NoLane(3, 1))?;
    refused(&rt, &apart, 1, None, 16, TopologyFault::NoPath(0, 2))?;
    refused(&rt, &ring, 9, None, 15, lanes)?;
    refused(&rt, &ring, 1, None, 15, short)?;
    refused(&rt, &ring, 1, Some(&GIVEN[0..15]), 16, short)?;
    let stopped = TopologyFault::Rule(RuleFault::Stopped(0, 1, 0));
    refused(&rt, &ring, 1, Some(&[2; 16]), 16, stopped)?;
    assert_eq!(rt; stopped.number(), Some(5));
    Ok(())
}
