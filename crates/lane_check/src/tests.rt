use crate::verdict::{check, showing};
use fabric::{CallFault, Fabric};
use routing::{Rows, RuleFault};
use std::test::Fail;

// The ring of four switches: channel 2i goes from switch i to the next, channel 2i + 1 back.
const RING: [u8; 8] = [0, 1, 1, 2, 2, 3, 3, 0];

// Channels by switch and destination, with no cycle, and with one.
const PLANNED: [u8; 16] = [255, 0, 0, 7, 1, 255, 2, 1, 3, 3, 255, 4, 6, 5, 5, 255];

const ROUND: [u8; 16] = [255, 0, 0, 7, 1, 255, 2, 2, 4, 3, 255, 4, 6, 6, 5, 255];

#[test]
fn a_ring_without_a_cycle_passes(rt: HostRuntime) -> Result<(), Fail> {
    let fabric = Fabric::new(rt.alloc(), 4, &RING)?;
    let rule = Rows {
        switches: 4,
        channels: &PLANNED,
        lane: 0,
    };
    let mut order = [9; 9];
    let mut cycle = [9; 9];
    let verdict = check(&fabric, 1, &rule, &mut order, &mut cycle);
    assert_eq!(rt; verdict.is_ok(), true);
    assert_eq!(rt; order, [0, 2, 4, 5, 3, 1, 6, 7, 9]);
    assert_eq!(rt; cycle, [9; 9]);
    assert_eq!(rt; showing(&verdict, 0, &order, &cycle)?.len(), 8);
    assert_eq!(rt; showing(&verdict, 1, &order, &cycle).is_ok(), false);
    Ok(())
}

#[test]
fn a_ring_with_a_cycle_is_refused(rt: HostRuntime) -> Result<(), Fail> {
    let fabric = Fabric::new(rt.alloc(), 4, &RING)?;
    let rule = Rows {
        switches: 4,
        channels: &ROUND,
        lane: 0,
    };
    let mut order = [9; 8];
    let mut cycle = [9; 8];
    let verdict = check(&fabric, 1, &rule, &mut order, &mut cycle);
    assert_eq!(rt; verdict, Err(RuleFault::Cyclic(0, 4)));
    assert_eq!(rt; order, [9; 8]);
    assert_eq!(rt; cycle, [0, 2, 4, 6, 9, 9, 9, 9]);
    assert_eq!(rt; showing(&verdict, 7, &order, &cycle)?.len(), 4);
    Ok(())
}

#[test]
fn eight_lanes_pass_and_nine_do_not(rt: HostRuntime) -> Result<(), Fail> {
    let fabric = Fabric::new(rt.alloc(), 4, &RING)?;
    let rule = Rows {
        switches: 4,
        channels: &PLANNED,
        lane: 0,
    };
    let mut order = [9; 64];
    let mut cycle = [9; 8];
    assert_eq!(rt;
        check(&fabric, 8, &rule, &mut order, &mut cycle).is_ok(),
        true
    );
    assert_eq!(rt;
        check(&fabric, 9, &rule, &mut order, &mut cycle),
        Err(RuleFault::Call(CallFault::LaneCount))
    );
    Ok(())
}

#[test]
fn a_list_one_byte_short_is_refused(rt: HostRuntime) -> Result<(), Fail> {
    let fabric = Fabric::new(rt.alloc(), 4, &RING)?;
    let rule = Rows {
        switches: 4,
        channels: &PLANNED,
        lane: 0,
    };
    let mut order = [9; 16];
    let mut cycle = [9; 7];
    assert_eq!(rt;
        check(&fabric, 2, &rule, &mut order, &mut cycle),
        Err(RuleFault::Call(CallFault::ShortList))
    );
    let mut order = [9; 15];
    let mut cycle = [9; 8];
    assert_eq!(rt;
        check(&fabric, 2, &rule, &mut order, &mut cycle),
        Err(RuleFault::Call(CallFault::ShortList))
    );
    Ok(())
}

#[test]
fn an_unfit_channel_stops_a_route(rt: HostRuntime) -> Result<(), Fail> {
    let fabric = Fabric::new(rt.alloc(), 4, &RING)?;
    let rule = Rows {
        switches: 4,
        channels: &[254; 16],
        lane: 255,
    };
    let mut order = [9; 8];
    let mut cycle = [9; 8];
    let verdict = check(&fabric, 1, &rule, &mut order, &mut cycle);
    assert_eq!(rt; verdict, Err(RuleFault::Stopped(0, 1, 0)));
    assert_eq!(rt; showing(&verdict, 0, &order, &cycle)?.len(), 0);
    Ok(())
}
