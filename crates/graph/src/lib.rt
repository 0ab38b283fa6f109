#![tactic(auto)]

ghost use Rattle.std.specs.Prelude.{◌≡◌, ℕ, ◌≤◌, Bool, false};

// Graphs of 1 to 128 nodes, and the search for the fewest edges from one node to another.
pub mod search;

// A graph: nodes 0, 1 and so on below the node count, and a fixed yes or no for each ordered pair of numbers.
pub trait Graph {
    ghost nodes: { Self → ℕ };

    ghost edge: { Self → ℕ → ℕ → Bool };

    // How many nodes there are.
    fn node_count(&self) -> u32
        ensures { result ≡ nodes self.now };

    // Whether an edge leads from one node to another.
    fn leads(&self, from: u32, to: u32) -> bool
        ensures { result ≡ edge self.now from to };

    ghost few: { (x : Self) → (1 ≤ nodes x) × (nodes x ≤ 128) };

    ghost loopless: { (x : Self) (u : ℕ) → edge x u u ≡ false };
}
