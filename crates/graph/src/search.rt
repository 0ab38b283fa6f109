ghost use Rattle.std.specs.Prelude.{◌≡◌, ℕ, ◌<◌};
ghost use Rattle.model.specs.Walks.{Fewest};
ghost use Rattle.graph.specs.Distances.{Blank, Row, hops_to};
ghost use Rattle.graph.specs.Rounds.{Relaxed, Grown};

use crate::Graph;

// The fewest edges from one node of a graph to each of its nodes.
#[derive(Clone, Copy)]
pub struct Distances {
    row: [Option<u8>; 128],
}

impl Distances {
    // The fewest edges to a node; none where there is no way, or no such node.
    pub fn to(&self, node: u32) -> Option<u32>
        ensures { result ≡ hops_to self.now node }
    {
        self.row.get(node as usize)?.map(u32::from)
    }
}

// Follows the edges of one node, reached in this round, to the nodes that are not reached yet.
fn relax<G: Graph>(graph: &G, row: &mut [Option<u8>; 128], node: u32, round: u8) -> bool
    requires { round < 255 }
    ensures { Relaxed (G.edge graph.now node) (G.nodes graph.now) (G.nodes graph.now) round row.old row.new result }
{
    let mut changed = false;
    // By number: a graph is asked by numbers, and may have fewer nodes than the row has places. The place is copied out first: what
    // the compiler then knows of the number spares a test in `leads`.
    for to in 0..graph.node_count() {
        let reached = row[to as usize];
        if reached.is_none() && graph.leads(node, to) {
            row[to as usize] = Some(round + 1);
            changed = true;
        }
    }
    changed
}

// Follows the edges of every node reached in this round.
fn advance<G: Graph>(graph: &G, row: &mut [Option<u8>; 128], round: u8) -> bool
    requires { round < 255 }
    ensures { Grown (G.edge graph.now) (G.nodes graph.now) round (G.nodes graph.now) row.old row.new result }
{
    let mut changed = false;
    // By number: the row itself is handed on. Copied out as in `relax`.
    for node in 0..graph.node_count() {
        let reached = row[node as usize];
        if reached == Some(round) {
            changed |= relax(graph, row, node, round);
        }
    }
    changed
}

// Fills a row in which nothing is reached.
fn spread<G: Graph>(graph: &G, row: &mut [Option<u8>; 128], from: u32)
    requires inside { from < G.nodes graph.now }
    requires blank { Blank row.old }
    ensures { Row (G.edge graph.now) (G.nodes graph.now) from row.new }
{
    row[from as usize] = Some(0);
    for round in 0..128 {
        if !advance(graph, row, round) {
            break;
        }
    }
}

// The hop search: the fewest edges from one node to each.
pub fn distances_from<G: Graph>(graph: &G, from: u32) -> Distances
    ensures { (to : ℕ) → Fewest (G.edge graph.now) (G.nodes graph.now) from to (hops_to result to) }
{
    let mut row = [None; 128];
    if from < graph.node_count() {
        spread(graph, &mut row, from);
    }
    Distances { row }
}

// The fewest edges from one node to another: 0 to itself, none where there is no way or a node is missing.
pub fn hops<G: Graph>(graph: &G, from: u32, to: u32) -> Option<u32>
    ensures { Fewest (G.edge graph.now) (G.nodes graph.now) from to result }
{
    distances_from(graph, from).to(to)
}
