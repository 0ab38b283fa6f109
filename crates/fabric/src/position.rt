// Where a channel's next packet may come from: the sender slot of the switch that it leaves, or a channel that ends there.
#[derive(Clone, Copy, PartialEq, Eq, Debug)]
pub enum Position {
    Sender,
    Over(u8),
}
