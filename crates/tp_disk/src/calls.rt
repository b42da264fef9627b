//! The number of a disk's calls, and which of them are to fail.
ghost use Rattle.std.specs.Prelude.{◌≡◌, ◌↔◌, IsTrue};

/// How many calls there were, and the numbers of those that fail, counted from 1.
#[derive(Clone, Copy)]
pub struct Calls {
    /// It stays at the greatest `u64`.
    pub count: u64,
    pub first_to_fail: u64,
    pub last_to_fail: u64,
}

impl Calls {
    ghost use Rattle.tp_disk.specs.Calls.{no_calls, after_call, NextFails};

    /// No call yet, and none that is to fail.
    pub fn none() -> Calls
        ensures { result ≡ no_calls }
    {
        Calls {
            count: 0,
            first_to_fail: 1,
            last_to_fail: 0,
        }
    }

    /// Counts a call, and says whether it is to fail.
    pub fn next_fails(&mut self) -> bool
        ensures after { self.new ≡ after_call self.old }
        ensures fails { IsTrue result ↔ NextFails self.old }
    {
        self.count = self.count.saturating_add(1);
        self.first_to_fail <= self.count && self.count <= self.last_to_fail
    }
}
