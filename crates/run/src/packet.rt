use std::fmt;

// What is posted: where it comes from, where it goes, and a tag of the sender's choice.
#[derive(Clone, Copy, PartialEq, Eq, Debug)]
pub struct Packet {
    pub source: u8,
    pub destination: u8,
    pub tag: u32,
}

impl fmt::Display for Packet {
    ghost use Rattle.std.specs.Prelude.{Some};
    ghost use Rattle.run.specs.Texts.{packet_text};

    ghost output = { λ p. Some (packet_text p) };

    fn fmt<W: fmt::Write>(&self, f: &mut fmt::Formatter<W>) -> fmt::Result {
        write!(f, "{} {} {}", self.source, self.destination, self.tag)
    }
}
