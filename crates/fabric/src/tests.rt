use crate::channel::Channel;
use crate::fault::FabricFault;
use crate::network::Fabric;
use crate::position::Position;
use graph::search::hops;
use std::alloc::Global;
use std::test::Fail;

// The fault of a cabling, if it has one.
fn fault(heap: Global, switches: u32, ends: &[u8]) -> Option<FabricFault> {
    Fabric::new(heap, switches, ends).err()
}

// Links that all join switches 0 and 1.
fn parallel(ends: &mut [u8]) {
    for (i, end) in ends.iter_mut().enumerate() {
        *end = (i % 2) as u8;
    }
}

#[test]
fn switch_counts(rt: HostRuntime) {
    assert_eq!(rt; fault(rt.alloc(), 2, &[0, 1]), None);
    assert_eq!(rt; fault(rt.alloc(), 32, &[0, 31]), None);
    assert_eq!(rt;
        fault(rt.alloc(), 1, &[0, 1]),
        Some(FabricFault::SwitchCount)
    );
    assert_eq!(rt;
        fault(rt.alloc(), 33, &[0, 1]),
        Some(FabricFault::SwitchCount)
    );
    assert_eq!(rt;
        fault(rt.alloc(), 4_294_967_295, &[]),
        Some(FabricFault::SwitchCount)
    );
}

#[test]
fn end_lists(rt: HostRuntime) {
    let mut most = [0u8; 128];
    parallel(&mut most);
    assert_eq!(rt; fault(rt.alloc(), 2, &most), None);
    let mut over = [0u8; 130];
    parallel(&mut over);
    assert_eq!(rt; fault(rt.alloc(), 2, &over), Some(FabricFault::EndList));
    assert_eq!(rt;
        fault(rt.alloc(), 2, &[0, 1, 0]),
        Some(FabricFault::EndList)
    );
    assert_eq!(rt; fault(rt.alloc(), 2, &[]), Some(FabricFault::EndList));
}

#[test]
fn links(rt: HostRuntime) {
    assert_eq!(rt;
        fault(rt.alloc(), 4, &[0, 1, 1, 4]),
        Some(FabricFault::MissingEnd(1))
    );
    assert_eq!(rt;
        fault(rt.alloc(), 4, &[0, 1, 1, 2, 3, 3]),
        Some(FabricFault::EqualEnds(2))
    );
    assert_eq!(rt;
        fault(rt.alloc(), 4, &[1, 1, 0, 9]),
        Some(FabricFault::EqualEnds(0))
    );
    assert_eq!(rt;
        fault(rt.alloc(), 4, &[9, 9]),
        Some(FabricFault::MissingEnd(0))
    );
}

#[test]
fn ring_of_four(rt: HostRuntime) -> Result<(), Fail> {
    let ring = Fabric::new(rt.alloc(), 4, &[0, 1, 1, 2, 2, 3, 3, 0])?;
    assert_eq!(rt; ring.switch_count(), 4);
    assert_eq!(rt; ring.channel_count(), 8);
    assert_eq!(rt;
        ring.channel(7),
        Some(Channel {
            start: 0,
            finish: 3,
        })
    );
    assert_eq!(rt; ring.channel(8), None);
    assert_eq!(rt; ring.channels().len(), 8);
    assert_eq!(rt; ring.channels().first().copied(), ring.channel(0));
    assert_eq!(rt; hops(&ring, 0, 2), Some(2));
    assert_eq!(rt; hops(&ring, 3, 0), Some(1));
    assert_eq!(rt; hops(&ring, 2, 2), Some(0));
    assert_eq!(rt; hops(&ring, 4, 4), None);
    Ok(())
}

#[test]
fn positions(rt: HostRuntime) -> Result<(), Fail> {
    let ring = Fabric::new(rt.alloc(), 4, &[0, 1, 1, 2, 2, 3, 3, 0])?;
    assert_eq!(rt; ring.position_count(2), 3);
    assert_eq!(rt; ring.position(2, 0), Some(Position::Sender));
    assert_eq!(rt; ring.position(2, 1), Some(Position::Over(0)));
    assert_eq!(rt; ring.position(2, 2), Some(Position::Over(3)));
    assert_eq!(rt; ring.position(2, 3), None);
    assert_eq!(rt; ring.position_count(8), 0);
    assert_eq!(rt; ring.position(8, 0), None);
    Ok(())
}

#[test]
fn separate_pairs(rt: HostRuntime) -> Result<(), Fail> {
    let pairs = Fabric::new(rt.alloc(), 4, &[0, 1, 2, 3])?;
    assert_eq!(rt; hops(&pairs, 0, 1), Some(1));
    assert_eq!(rt; hops(&pairs, 0, 2), None);
    assert_eq!(rt; hops(&pairs, 3, 2), Some(1));
    Ok(())
}

#[test]
fn numbers(rt: HostRuntime) {
    assert_eq!(rt; FabricFault::GridSize.number(), Some(20));
    assert_eq!(rt; FabricFault::Memory.number(), None);
}
