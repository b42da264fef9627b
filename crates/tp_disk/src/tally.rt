//! How often calls of a disk had each sector in their range.
ghost use Rattle.std.specs.Prelude.{◌≡◌, ◌+◌, ◌≤◌, ◌^◌, length};
ghost use Rattle.tp_disk.specs.Tally.{Counted, tally_at};

/// Counts a call that has so many sectors from `at` on.
pub(crate) fn count(counts: &mut Vec<u64>, at: u64, sectors: u64)
    requires within { at + sectors ≤ length counts.old.items }
    requires fits { at + sectors ≤ 2 ^ 54 }
    ensures { Counted at sectors counts.old.items counts.new.items }
{
    for sector in at..at + sectors {
        let sector = sector as usize;
        counts[sector] = counts[sector].saturating_add(1);
    }
}

/// How many calls had the sector; none where there is no such sector.
pub(crate) fn counted(counts: &[u64], sector: u64) -> u64
    ensures { result ≡ tally_at counts.now sector }
{
    match counts.get(sector as usize) {
        Some(count) => *count,
        None => 0,
    }
}
