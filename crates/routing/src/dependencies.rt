ghost use Rattle.std.specs.Prelude.{◌≤◌};
ghost use Rattle.routing.specs.Edges.{Among};

mod adds;

// Which channels of a lane lead to which: channel b to channel c where some pair takes b, and directly after it c.
#[derive(Clone, Copy)]
pub struct Dependencies {
    channels: u8,
    // The cell of b and c is b * 128 + c: rows would each need a type, since of an array of arrays a proof knows no row's length.
    cells: [bool; 16384],
    ghost few: { (1 ≤ channels) × (channels ≤ 128) },
    ghost among: { Among channels cells },
}
