use fabric::{Fabric, LaneCount};

mod finds;

// What a run is opened on: a fabric, the lanes 0, 1 .. lanes − 1, and the rule that is asked where packets go. The check has such a
// type too: methods stand only on a type of their own crate.
#[derive(Drop)]
pub struct Setup<'a, R> {
    pub fabric: &'a Fabric,
    pub lanes: LaneCount,
    pub rule: &'a R,
}
