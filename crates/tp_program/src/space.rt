//! The free space of a pool, as its status line has it.

/// Metadata blocks that writes may not use.
const RESERVED: u64 = 512;

/// The blocks of either kind that a block of reference counts has.
const COUNTS: u64 = 1024;

/// Whether a pool accepts writes.
#[derive(Clone, Copy, Debug, PartialEq, Eq)]
pub(crate) enum Mode {
    Writable,
    OutOfData,
    ReadOnly,
}

/// How many blocks of a kind are used, of how many.
#[derive(Clone, Copy)]
pub(crate) struct Use {
    pub(crate) used: u64,
    pub(crate) all: u64,
}

/// What the status line of a pool has.
#[derive(Clone, Copy)]
pub(crate) struct Space {
    /// The metadata blocks that writes may use: those that are neither in the fixed part nor
    /// reserved.
    pub(crate) metadata: Use,
    pub(crate) data: Use,
    pub(crate) mode: Mode,
}

impl Use {
    /// Those that a word of a status line has, as `12/128`.
    fn of_word(word: &str) -> Option<Use> {
        let (used, all) = word.split_once('/')?;
        Some(Use {
            used: used.parse::<u64>().ok()?,
            all: all.parse::<u64>().ok()?,
        })
    }

    /// How many are free.
    pub(crate) fn free(self) -> u64 {
        self.all.saturating_sub(self.used)
    }

    /// Returns whether less than `percent` % are free.
    pub(crate) fn is_below(self, percent: u64) -> bool {
        self.free().saturating_mul(100) < self.all.saturating_mul(percent)
    }

    /// Of all metadata blocks, those that writes may use in a pool with so many data blocks.
    ///
    /// The fixed part is two superblocks and two areas of reference counts.
    fn for_writes(self, data_blocks: u64) -> Use {
        let areas = self
            .all
            .div_ceil(COUNTS)
            .saturating_add(data_blocks.div_ceil(COUNTS));
        let fixed = areas.saturating_mul(2).saturating_add(2);
        let all = self.all.saturating_sub(fixed).saturating_sub(RESERVED);
        let free = self.free().saturating_sub(RESERVED);
        Use {
            used: all.saturating_sub(free),
            all,
        }
    }
}

/// The mode of this name. None of a failed pool.
fn mode_of(word: &str) -> Option<Mode> {
    match word {
        "rw" => Some(Mode::Writable),
        "out_of_data_space" => Some(Mode::OutOfData),
        "ro" => Some(Mode::ReadOnly),
        _ => None,
    }
}

/// The free space and the mode in the status line of a pool. None of a failed pool.
pub(crate) fn space_in(line: &str) -> Option<Space> {
    let (_, uses) = line.split_once(' ')?;
    let (metadata, rest) = uses.split_once(' ')?;
    let (data, rest) = rest.split_once(' ')?;
    let (_, rest) = rest.split_once(' ')?;
    let (mode, _) = rest.split_once(' ')?;
    let data = Use::of_word(data)?;
    Some(Space {
        metadata: Use::of_word(metadata)?.for_writes(data.all),
        data,
        mode: mode_of(mode)?,
    })
}
