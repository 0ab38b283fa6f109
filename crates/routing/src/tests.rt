use crate::{Ending, Grid, Hop, RouteRule, Rows, RuleFault, Table, next_hop, route_ending};
use fabric::{CallFault, Fabric};
use std::test::Fail;

// The ring of four switches, and the lowest channel of a shortest way for each pair.
const RING: [u8; 8] = [0, 1, 1, 2, 2, 3, 3, 0];

const CHANNELS: [u8; 16] = [255, 0, 0, 7, 1, 255, 2, 1, 3, 3, 255, 4, 6, 5, 5, 255];

const LANES: [u8; 16] = [255, 0, 1, 0, 0, 255, 0, 1, 1, 0, 255, 0, 0, 1, 0, 255];

#[test]
fn table_answers(rt: HostRuntime) -> Result<(), Fail> {
    let ring = Fabric::new(rt.alloc(), 4, &RING)?;
    let table = Table::new(rt.alloc(), &ring, &CHANNELS, &LANES)?;
    assert_eq!(rt; table.channel(0, 2), Some(0));
    assert_eq!(rt; table.channel(3, 1), Some(5));
    assert_eq!(rt; table.lane(0, 2), 1);
    assert_eq!(rt; table.channel(2, 2), None);
    assert_eq!(rt; table.channel(0, 4), None);
    assert_eq!(rt; table.lane(2, 2), 255);
    assert_eq!(rt; table.lane(4, 0), 255);
    Ok(())
}

#[test]
fn short_lists_are_refused(rt: HostRuntime) -> Result<(), Fail> {
    let ring = Fabric::new(rt.alloc(), 4, &RING)?;
    assert_eq!(rt;
        Table::new(rt.alloc(), &ring, &CHANNELS, &LANES[0..15]).err(),
        Some(RuleFault::Call(CallFault::ShortList))
    );
    Ok(())
}

#[test]
fn routes_of_a_grid(rt: HostRuntime) -> Result<(), Fail> {
    let grid = Grid::new(2, 2)?;
    let fabric = grid.fabric(rt.alloc())?;
    assert_eq!(rt;
        next_hop(&fabric, &grid, 0, 3),
        Some(Hop { channel: 0, to: 1 })
    );
    assert_eq!(rt;
        next_hop(&fabric, &grid, 1, 3),
        Some(Hop { channel: 6, to: 3 })
    );
    assert_eq!(rt;
        next_hop(&fabric, &grid, 3, 0),
        Some(Hop { channel: 3, to: 2 })
    );
    assert_eq!(rt;
        next_hop(&fabric, &grid, 2, 0),
        Some(Hop { channel: 5, to: 0 })
    );
    assert_eq!(rt; next_hop(&fabric, &grid, 0, 0), None);
    assert_eq!(rt; grid.lane(0, 3), 0);
    assert_eq!(rt; grid.lane(0, 4), 255);
    Ok(())
}

#[test]
fn sizes_of_grids(rt: HostRuntime) {
    for (width, height) in [(0, 5), (1, 1), (33, 1), (65536, 65536)] {
        let fault = Grid::new(width, height).err();
        assert_eq!(rt; fault.and_then(|fault| fault.number()), Some(20));
    }
    assert!(rt; Grid::new(4, 8).is_ok());
}

// A rule of four switches that borrows these channels.
fn rows(channels: &[u8]) -> Rows<'_> {
    Rows {
        switches: 4,
        channels,
        lane: 0,
    }
}

#[test]
fn endings_of_routes(rt: HostRuntime) -> Result<(), Fail> {
    let ring = Fabric::new(rt.alloc(), 4, &RING)?;
    let rule = rows(&CHANNELS);
    assert_eq!(rt; route_ending(&ring, &rule, 0, 2), Some(Ending::Arrives));
    assert_eq!(rt; route_ending(&ring, &rule, 2, 2), None);
    assert_eq!(rt; route_ending(&ring, &rule, 0, 4), None);
    let half = rows(&CHANNELS[0..4]);
    assert_eq!(rt; route_ending(&ring, &half, 0, 2), Some(Ending::Stops(1)));
    let back = rows(&[255, 0, 0, 0, 1, 255, 2, 1]);
    assert_eq!(rt; route_ending(&ring, &back, 0, 3), Some(Ending::Tires));
    Ok(())
}
