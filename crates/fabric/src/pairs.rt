ghost use Rattle.std.specs.Prelude.{◌≡◌, ◌≤◌, ◌<◌, true};
ghost use Rattle.model.specs.Net.{is_pair};

mod walks;

// The pairs of a fabric's switches that are still to come, by source, then destination.
#[derive(Clone, Copy)]
pub struct Pairs {
    switches: u8,
    // The next pair; after the last, the source is no switch. Not a place in a table, which would be divided for each pair.
    source: u8,
    destination: u8,
    ghost few: { (2 ≤ switches) × (switches ≤ 32) },
    ghost next: { (source ≤ switches) × (source < switches → is_pair switches source destination ≡ true) },
}
