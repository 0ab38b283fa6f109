ghost use Rattle.std.specs.Prelude.{◌<◌};

// The place of a slot. Another type than a sender slot's, so that neither is taken for the other.
#[derive(Clone, Copy)]
pub struct SlotPlace {
    pub channel: u8,
    pub lane: u8,
    ghost inside: { (channel < 128) × (lane < 8) },
}

// The place of a sender slot.
#[derive(Clone, Copy)]
pub struct SenderPlace {
    pub switch: u8,
    pub lane: u8,
    ghost inside: { (switch < 32) × (lane < 8) },
}
