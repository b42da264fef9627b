//! The lines of a script.

/// Selects, of the values that each sector had since the last flush, the one that a crash leaves.
#[derive(Clone, Copy)]
pub enum CrashImage {
    Oldest,
    Newest,
    /// The second value, of those after the last flush the first.
    Second,
    /// The newest value of sectors with an even number, the oldest of all others.
    InTurn,
    /// The newest value of superblocks, the oldest of all other sectors.
    NewestSuperblocks,
    /// The oldest value of superblocks, the newest of all other sectors.
    OldestSuperblocks,
    /// The newest value from this sector on, the oldest before it.
    NewestFrom(u64),
    /// A value for each sector by a number made from this seed and the sector's number. Seed 0 is the oldest.
    Mixed(u64),
    /// A seed for superblocks and one for all other sectors; `None` is the newest.
    MixedApart(Option<u64>, Option<u64>),
}

/// The crash images that a line lists: at most 6.
pub type Picks = [Option<CrashImage>; 6];

/// What a request does to its sectors.
#[derive(Clone, Copy)]
pub enum Operation {
    /// DF: the reply must not be fragmented.
    Read { df: bool },
    Write { value: u8, fua: bool },
    Trim { fua: bool },
    Zero { no_hole: bool, fua: bool },
    /// BLOCK_STATUS, of one extent only if `is_one`.
    Status { is_one: bool },
}

impl Operation {
    /// Returns whether the operation asks for FUA: its answer makes everything durable.
    pub fn has_fua(&self) -> bool {
        match *self {
            Operation::Read { .. } | Operation::Status { .. } => false,
            Operation::Write { fua, .. } | Operation::Trim { fua } => fua,
            Operation::Zero { fua, .. } => fua,
        }
    }

    /// Returns whether the operation reports values or extents and changes nothing.
    pub fn only_reads(&self) -> bool {
        matches!(self, Operation::Read { .. } | Operation::Status { .. })
    }
}

/// A request: `count` sectors of a volume from `sector` on.
#[derive(Clone, Copy)]
pub struct Request {
    pub volume: u32,
    pub sector: u64,
    pub count: u64,
    pub operation: Operation,
}

/// The features that the server offers to a connection.
#[derive(Clone, Copy, PartialEq, Eq)]
pub enum Offer {
    Strict,
    Extended,
    /// Extended, and each change is made as one with FUA.
    Through,
    /// Extended, and the empty name is this volume.
    Default(u32),
    /// Extended, with clones of volumes; the empty name is this volume, if there is one.
    Clones(Option<u32>),
}

/// An export as a client names it.
#[derive(Clone, Copy)]
pub enum ExportName<'a> {
    Volume(u32),
    Text(&'a [u8]),
}

/// A call of a client.
#[derive(Clone, Copy)]
pub enum ClientCall<'a> {
    Connect(Offer),
    Go(ExportName<'a>),
    ExportName(ExportName<'a>),
    Info(ExportName<'a>),
    List,
    Abort,
    /// Asks for structured replies.
    StructuredReply,
    /// SET_META_CONTEXT: the volume's name, then names of contexts.
    SetContexts(&'a [u8]),
    /// LIST_META_CONTEXT.
    ListContexts(&'a [u8]),
    Request(Request),
    /// The first half of a request's bytes; the rest follows later.
    HalfOf(Request),
    RestOfRequest,
    /// A request that the server handles one part at a time, and its next part.
    Begin(Request),
    NextPart,
    /// A READ that the server answers from memory, beside other calls.
    ReadShared(Request),
    Flush,
    Disconnect,
    /// The client closes the connection without DISC.
    HangUp,
    /// Sends bytes: hexadecimal digits, and texts between quotation marks.
    Send(&'a [u8]),
}

/// A change of a closed pool's metadata blocks. Numbers have their lowest byte first.
#[derive(Clone, Copy)]
pub enum ImageChange {
    /// Block, place, value: sets a byte, a number of four bytes, or one of eight.
    Byte([u64; 3]),
    U32([u64; 3]),
    U64([u64; 3]),
    /// Block, value: sets each number of four bytes.
    FillU32(u64, u64),
    Swap(u64, u64),
    /// From, to.
    Copy(u64, u64),
    /// Block, kind, level, number of entries; the first key and the step to the next, and both of the values.
    Node([u64; 8]),
}

/// A call on the disk or the image, and one that begins or ends a lifetime of the pool.
#[derive(Clone, Copy)]
pub enum Disk {
    /// A blank disk of this many sectors.
    New(u64),
    /// Sectors of a block; blocks of a volume, of metadata, of data.
    Format([u64; 4]),
    /// The metadata blocks that the caches hold: changed ones, and ones that were read.
    Caches(u64, u64),
    Open,
    OpenReadOnly,
    Close,
    Crash(CrashImage),
    /// Flushes the disk of a closed pool.
    Sync,
    Check,
    ClearNeedsCheck,
    /// Disk calls that fail, counted from now on.
    Fail(u64, u64),
    Calls,
    /// How often each metadata block from one to another was written since the last such line.
    MetadataWrites(u64, u64),
    /// Block, place, count: bytes of the image.
    Bytes([u64; 3]),
    /// Block, place, value: reports what `open` and `check` return with this byte, and puts the old one back.
    Byte([u64; 3]),
    Change(ImageChange),
    /// Leaves this many sectors of the disk.
    Truncate(u64),
    /// From here on nothing is compared with the reference model.
    NoReference,
}

/// A call of the pool, or of the server's control lines.
#[derive(Clone, Copy)]
pub enum Pool<'a> {
    Status,
    Thin(u32),
    Size(u32),
    Volumes,
    /// The blocks of all volumes, and the values of their sectors, in the order of their numbers.
    Sizes,
    Contents,
    /// A message, which commits.
    Message(&'a [u8]),
    /// The change of a message, without its commit.
    Change(&'a [u8]),
    Request(Request),
    /// A read of the metadata snapshot.
    ReadSnapshot(Request),
    /// A read from memory, beside other calls.
    ReadShared(Request),
    /// The mapped blocks of a volume, from a block on.
    Walk(u32, u32),
    /// The same from memory, beside other calls.
    WalkShared(u32, u32),
    /// A page of a volume's mapped blocks, and of the blocks in which two volumes may differ.
    Map(u32, u32),
    Delta(u32, u32, u32),
    Flush,
}

/// A line that begins or ends a block of lines, or stands for several lines.
#[derive(Clone, Copy)]
pub enum Block<'a> {
    Case(&'a [u8]),
    IfCrashed(CrashImage),
    EachCrash(Picks),
    EachFault(Picks),
    /// Calls of which each allocation may be refused.
    EachAllocation,
    /// The images of the second lifetime, if they differ from those of the first.
    Then(Picks),
    End,
    /// Calls that `Try` and `TryEachByte` play on changed copies of the image.
    Trial,
    /// Changes, with `;` between them.
    Try(&'a [u8]),
    /// Block, bits: flips these bits of one byte of the block in each copy.
    TryEachByte(u64, u64),
    /// The line, for each number from one to another.
    Repeat(u64, u64, &'a [u8]),
    /// Seed, and number of steps.
    Random(u64, u64),
}

/// The meaning of a line.
#[derive(Clone, Copy)]
pub enum Verb<'a> {
    Disk(Disk),
    Pool(Pool<'a>),
    Client(u8, ClientCall<'a>),
    Block(Block<'a>),
}

impl Verb<'_> {
    /// Returns whether the lines after this one, up to `end`, are a block of its own.
    pub fn begins_block(&self) -> bool {
        matches!(
            self,
            Verb::Block(
                Block::IfCrashed(_)
                    | Block::EachCrash(_)
                    | Block::EachFault(_)
                    | Block::EachAllocation
                    | Block::Trial
            )
        )
    }
}

/// A line: its number in the script, its text and meaning, and the answer that it requires. An empty one requires success.
#[derive(Clone, Copy)]
pub struct Line<'a> {
    pub number: usize,
    pub text: &'a [u8],
    pub verb: Verb<'a>,
    pub expected: &'a [u8],
}
