ghost use Rattle.std.specs.Prelude.{◌≡◌, ℕ, ◌<◌, ◌==◌, if◌then◌else◌, slice_index_or};

// What stands in each of the eight lanes of a channel or a switch. A type, since a proof knows no length of an array inside an array.
#[derive(Clone, Copy)]
pub struct ByLane<T> {
    pub items: [T; 8],
}

impl<T: Copy> ByLane<T> {
    pub fn get(&self, lane: u8) -> T
        requires { lane < 8 }
        ensures { (d : _) → result ≡ slice_index_or self.now.items lane d }
    {
        self.items[lane as usize]
    }

    pub fn put(&mut self, lane: u8, item: T)
        requires { lane < 8 }
        ensures { (j : ℕ) (d : _) → slice_index_or self.new.items j d ≡ (if j == lane then item else slice_index_or self.old.items j d) }
    {
        self.items[lane as usize] = item;
    }
}
