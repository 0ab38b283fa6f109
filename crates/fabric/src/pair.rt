ghost use Rattle.fabric.specs.Pairs.{FindsPair};

// Two different switches: where a packet comes from, and where it goes.
#[derive(Clone, Copy, PartialEq, Eq, Debug)]
pub struct Pair {
    pub source: u8,
    pub destination: u8,
}

impl Pair {
    // These two of so many switches as a pair; none where one is missing or both are the same.
    pub fn of(switches: u8, source: u32, destination: u32) -> Option<Pair>
        ensures { FindsPair switches source destination result }
    {
        let switches = u32::from(switches);
        if source >= switches || destination >= switches || source == destination {
            return None;
        }
        Some(Pair {
            source: source as u8,
            destination: destination as u8,
        })
    }
}
