//! What a command line asks for.

/// What the words ask for: a task, and whether it is to be told why where it is refused.
#[derive(Clone, Copy, Debug, PartialEq, Eq)]
pub struct Asked<'a> {
    /// The task that the command names.
    pub task: Task<'a>,
    /// Whether `--explain` stands before or after the command: then a refusal is followed by a line that says what was refused, and why.
    pub explains: bool,
}

/// What a command asks for. Paths and lines are as the words give them.
#[derive(Clone, Copy, Debug, PartialEq, Eq)]
pub enum Task<'a> {
    /// To make a file, or a block device, the image of an empty pool of these sizes; a device whatever it holds, if `overwrites`.
    Format {
        image: &'a str,
        sizes: Sizes,
        overwrites: bool,
    },
    /// To make a file, or a block device, the image of an empty pool that holds what is wanted; a device whatever it holds, if `overwrites`.
    Create {
        image: &'a str,
        wanted: Wanted,
        overwrites: bool,
    },
    /// To give the pool of an image one message.
    Message {
        image: &'a str,
        line: &'a str,
    },
    /// To tell the status of the pool of an image, or of one of its volumes.
    Status {
        image: &'a str,
        id: Option<u64>,
    },
    /// To list what is asked of the pool of an image, as one line of JSON, if `is_json`.
    Report {
        image: &'a str,
        listing: Listing,
        is_json: bool,
    },
    /// To ask the server of this control place, page by page, where one volume may differ from another, as one line of JSON, if `is_json`.
    DeltaAt {
        place: &'a str,
        old: u64,
        new: u64,
        is_json: bool,
    },
    /// To tell whether an image is clean; and where it is, also to clear the flag by which its pool wants a check, if `clears`.
    Check {
        image: &'a str,
        clears: bool,
    },
    /// To serve one client on standard input and output, who is offered what `run` offers, if `is_extended`. A read that fails is the client's hangup.
    Feed {
        image: Image<'a>,
        is_extended: bool,
    },
    /// To play the script in a file over a pool, and then to close the pool. Its clients are offered what `run` offers, if `is_extended`.
    Play {
        image: Image<'a>,
        script: &'a str,
        is_extended: bool,
    },
    /// To serve so many clients of a TCP address, 1 to 64, and then to close the pool; meanwhile also to answer the lines of those who come to the
    /// address `control`, where there is one.
    Serve {
        image: &'a str,
        address: &'a str,
        clients: u8,
        control: Option<&'a str>,
    },
    /// To serve clients without end, 64 at a time, until it is told to stop, and then to close the pool.
    Run {
        image: &'a str,
        service: Service<'a>,
    },
    /// To send lines to a control place, and to print what is answered.
    Ask {
        place: &'a str,
        lines: Texts<'a>,
    },
}

/// How clients are served without end.
#[derive(Clone, Copy, Debug, PartialEq, Eq)]
pub struct Service<'a> {
    /// Where clients come.
    pub places: Texts<'a>,
    /// Where those come who send control lines, one of which may tell it to stop.
    pub control: Option<&'a str>,
    /// The id of the volume that a client has who names none, 0 to 16777215; without it such a client has none.
    pub default: Option<u64>,
    /// It is told when less than so many hundredths of the data or metadata blocks are free, 0 to 100; the program's own number where none was given.
    pub low_water: Option<u64>,
    /// Whether faults alone are told.
    pub is_quiet: bool,
    /// Whether a client may have a clone of a volume, which goes with it. Then ids from 8388608 on are those of clones.
    pub has_clones: bool,
    /// Whether each WRITE, TRIM and WRITE_ZEROES is durable when it is answered.
    pub writes_through: bool,
    /// Whether it ends when the pool has failed.
    pub ends_on_failure: bool,
    /// Who may connect to the socket files that the server creates.
    pub rights: SocketRights<'a>,
}

/// The rights of the socket files that a server creates.
#[derive(Clone, Copy, Debug, PartialEq, Eq)]
pub struct SocketRights<'a> {
    /// The mode, 0 to 0o777; without it 0o600.
    pub mode: Option<u32>,
    /// The name or the number of the group; without it the group of the process.
    pub group: Option<&'a str>,
}

/// The texts of what may be given once to four times, in order.
#[derive(Clone, Copy, Debug, PartialEq, Eq)]
pub struct Texts<'a> {
    pub first: &'a str,
    pub second: Option<&'a str>,
    pub third: Option<&'a str>,
    pub fourth: Option<&'a str>,
}

/// The sizes of a pool, as the words give them.
#[derive(Clone, Copy, Debug, PartialEq, Eq)]
pub struct Sizes {
    /// Of a data block, in sectors of 512 bytes.
    pub block_sectors: u64,
    /// Of each volume, in data blocks.
    pub virtual_blocks: u64,
    /// Of the metadata part, in blocks of 4096 bytes.
    pub metadata_blocks: u64,
    /// Of the data part, in data blocks.
    pub data_blocks: u64,
}

/// What a pool is to hold, as the words give it.
#[derive(Clone, Copy, Debug, PartialEq, Eq)]
pub struct Wanted {
    /// What all volumes together can hold, in bytes.
    pub size: u64,
    /// The size of each volume, in bytes.
    pub volume_size: u64,
    /// How many volumes there can be.
    pub volumes: u64,
    /// The size of a data block, in bytes; without it the program chooses.
    pub block_size: Option<u64>,
}

/// What is listed of a pool. Ids are as the words give them.
#[derive(Clone, Copy, Debug, PartialEq, Eq)]
pub enum Listing {
    /// What each volume has.
    Volumes,
    /// Which bytes of a volume are mapped.
    Map(u64),
    /// Where the second volume may differ from the first.
    Delta(u64, u64),
    /// Which bytes of the image are of data blocks that no volume has.
    Free,
}

/// Where the pool of a client or of a script is.
#[derive(Clone, Copy, Debug, PartialEq, Eq)]
pub enum Image<'a> {
    /// A fresh one, in memory.
    Memory,
    /// In a file.
    File(&'a str),
}

/// Why words are no command.
#[derive(Debug, Drop)]
pub enum Unread {
    /// Help was asked for, or the version, which is this text.
    Help(String),
    /// The words are wrong, which this text explains.
    Misused(String),
    /// There is no memory to read them.
    Memory,
}
