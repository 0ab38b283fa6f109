// One direction of a link: it leaves the switch `start` and ends at the switch `finish`.
#[derive(Clone, Copy, PartialEq, Eq, Debug)]
pub struct Channel {
    pub start: u8,
    pub finish: u8,
}
