//! How often writes of a disk had one sector in their range.
ghost use Rattle.std.specs.Prelude.{◌≡◌, ◌+◌, ◌≤◌, ◌^◌};
ghost use Rattle.tp_disk.specs.Watch.{counted_if, is_among, watch_on, watch_write};

/// The sector, and how many calls of `write` had it, those that failed too.
#[derive(Clone, Copy)]
pub struct Watch {
    pub sector: u64,
    /// It stays at the greatest `u64`.
    pub writes: u64,
}

impl Watch {
    /// This sector, which no call had yet.
    pub fn on(sector: u64) -> Watch
        ensures { result ≡ watch_on sector }
    {
        Watch { sector, writes: 0 }
    }

    /// Counts a write of so many sectors.
    pub fn note_write(&mut self, at: u64, sectors: u64)
        requires { at + sectors ≤ 2 ^ 54 }
        ensures { self.new ≡ watch_write at sectors self.old }
    {
        self.writes = counted_if(self.is_among(at, sectors), self.writes);
    }

    fn is_among(&self, at: u64, sectors: u64) -> bool
        requires { at + sectors ≤ 2 ^ 54 }
        ensures { result ≡ is_among self.now.sector at sectors }
    {
        at <= self.sector && self.sector < at + sectors
    }
}

fn counted_if(had: bool, n: u64) -> u64
    ensures { result ≡ counted_if had n }
{
    if had { n.saturating_add(1) } else { n }
}
