ghost use Rattle.std.specs.Prelude.{◌≤◌};

mod makes;

// How many lanes there are: 1 to 8.
#[derive(Clone, Copy, PartialEq, Eq, Debug)]
pub struct LaneCount {
    lanes: u8,
    ghost few: { (1 ≤ lanes) × (lanes ≤ 8) },
}
