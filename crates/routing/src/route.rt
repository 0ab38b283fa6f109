ghost use Rattle.std.specs.Option.{ForSome};
ghost use Rattle.fabric.specs.Of.{net};
ghost use Rattle.routing.specs.Walks.{Comes};

use fabric::Fabric;

mod onward;
mod pairwise;

// The route to a switch, hop by hop: where it has come to, and how many more channels it may take.
#[derive(Drop)]
pub struct Route<'f, 'r, R> {
    fabric: &'f Fabric,
    rule: &'r R,
    switch: u8,
    destination: u8,
    hops: u32,
}

// A dependency: some pair takes the channel `tail`, and directly after it the channel `head`.
#[derive(Clone, Copy, PartialEq, Eq, Debug)]
pub struct Step {
    pub tail: u8,
    pub head: u8,
}

// The dependencies of a route that are still to come, by the channel that it took last.
#[derive(Drop)]
pub struct Steps<'f, 'r, R> {
    last: Option<u8>,
    rest: Route<'f, 'r, R>,
    ghost comes: { ForSome last (Comes (net rest.fabric.now) rest.switch) },
}
