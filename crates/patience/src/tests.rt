use crate::patience::patience_of;
use fabric::{CallFault, Fabric};
use routing::RuleFault;
use routing::grid::Grid;
use routing::table::Table;
use std::alloc::Global;
use std::test::Fail;

// The ring of four, and a rule for it with all pairs in lane 0.
fn ring(heap: Global) -> Result<Fabric, Fail> {
    Ok(Fabric::new(heap, 4, &[0, 1, 1, 2, 2, 3, 3, 0])?)
}

fn ring_rule(heap: Global, ring: &Fabric) -> Result<Table, Fail> {
    Ok(Table::new(
        heap,
        ring,
        &[255, 0, 0, 7, 1, 255, 2, 1, 3, 3, 255, 4, 6, 5, 5, 255],
        &[0; 16],
    )?)
}

#[test]
fn ring_of_four(rt: HostRuntime) -> Result<(), Fail> {
    let ring = ring(rt.alloc())?;
    let rule = ring_rule(rt.alloc(), &ring)?;
    let mut order = [9u8; 8];
    let mut cycle = [9u8; 8];
    assert_eq!(rt;
        patience_of(&ring, 1, &rule, 0, 1, &mut order, &mut cycle),
        Ok(22)
    );
    assert_eq!(rt;
        patience_of(&ring, 1, &rule, 0, 2, &mut order, &mut cycle),
        Ok(28)
    );
    assert_eq!(rt;
        patience_of(&ring, 1, &rule, 3, 1, &mut order, &mut cycle),
        Ok(268)
    );
    assert!(rt; order[3] == 5 && cycle[0] == 9);
    Ok(())
}

#[test]
fn refusals(rt: HostRuntime) -> Result<(), Fail> {
    let ring = ring(rt.alloc())?;
    let rule = ring_rule(rt.alloc(), &ring)?;
    let mut order = [9u8; 8];
    let mut cycle = [9u8; 8];
    let missing = Err(RuleFault::Call(CallFault::MissingNumber));
    assert_eq!(rt;
        patience_of(&ring, 9, &rule, 0, 4, &mut order, &mut cycle),
        missing
    );
    assert_eq!(rt;
        patience_of(&ring, 9, &rule, 2, 2, &mut order, &mut cycle),
        missing
    );
    let lanes = Err(RuleFault::Call(CallFault::LaneCount));
    assert_eq!(rt;
        patience_of(&ring, 9, &rule, 0, 1, &mut order, &mut cycle),
        lanes
    );
    assert!(rt; order[0] == 9);
    Ok(())
}

#[test]
fn chains(rt: HostRuntime) -> Result<(), Fail> {
    let mut order = [0u8; 128];
    let mut cycle = [0u8; 128];
    let two = Grid::new(2, 1)?;
    let fabric = two.fabric(rt.alloc())?;
    assert_eq!(rt;
        patience_of(&fabric, 1, &two, 0, 1, &mut order, &mut cycle),
        Ok(5)
    );
    let long = Grid::new(32, 1)?;
    let fabric = long.fabric(rt.alloc())?;
    assert_eq!(rt;
        patience_of(&fabric, 1, &long, 0, 31, &mut order, &mut cycle),
        Ok(4_294_967_295)
    );
    Ok(())
}
