ghost use Rattle.std.specs.Prelude.{◌≡◌};
ghost use Rattle.planfile.specs.Faults.{part_number};
ghost use Rattle.planfile.specs.Refused.{tag_of};

use std::fmt;

// A part of a plan file: an entry of the contents, and the body that it places.
#[derive(Clone, Copy, PartialEq, Eq, Debug)]
pub enum Part {
    Link,
    Hops,
    Lane,
}

impl Part {
    // The number of its entry, and of its body.
    pub fn number(self) -> u8
        ensures { result ≡ part_number self }
    {
        match self {
            Part::Link => 0,
            Part::Hops => 1,
            Part::Lane => 2,
        }
    }

    // The tag of its entry.
    pub(crate) fn tag(self) -> [u8; 4]
        ensures { result ≡ tag_of (part_number self) }
    {
        match self {
            Part::Link => *b"LINK",
            Part::Hops => *b"HOPS",
            Part::Lane => *b"LANE",
        }
    }
}

impl fmt::Display for Part {
    fn fmt<W: fmt::Write>(&self, f: &mut fmt::Formatter<W>) -> fmt::Result {
        match self {
            Part::Link => write!(f, "LINK"),
            Part::Hops => write!(f, "HOPS"),
            Part::Lane => write!(f, "LANE"),
        }
    }
}
