//! The second line of an error message: the object, what failed, why, and the next command.

ghost use Rattle.std.specs.Prelude.{◌≤◌};

use crate::failure::{Cause, Failure};
use std::fmt::{self, Display, Formatter};
use std::io::{self, ErrorKind};
use tp_disk::{OpenError, Trouble};
use tp_model::Refusal;
use tp_sizing::Unfit;
use tp_words::{Image, Sizes, Task, Wanted};

const SECTOR: u64 = 512;

/// The largest data block, in bytes.
const LARGEST_BLOCK: u64 = 1_048_576;

/// The most data blocks that a pool may have.
const MOST_DATA_BLOCKS: u64 = 1_048_576;

/// The most data blocks that a volume may have.
const MOST_VIRTUAL_BLOCKS: u64 = 16_777_216;

/// The longest message, in bytes.
const LONGEST: usize = 256;

/// The explanation of a failed task. It prints as one line without a newline.
#[derive(Clone, Copy)]
pub struct Explanation<'a> {
    pub task: Task<'a>,
    pub failure: Failure,
}

/// Returns the image of a task as the command line names it, or the address of a server.
fn image_of<'a>(task: &Task<'a>) -> &'a str {
    match *task {
        Task::Format { image, .. }
        | Task::Create { image, .. }
        | Task::Message { image, .. }
        | Task::Status { image, .. }
        | Task::Check { image, .. }
        | Task::Report { image, .. }
        | Task::Serve { image, .. }
        | Task::Run { image, .. } => image,
        Task::Ask { place, .. } | Task::DeltaAt { place, .. } => place,
        Task::Feed { image, .. } | Task::Play { image, .. } => match image {
            Image::Memory => "mem:",
            Image::File(path) => path,
        },
    }
}

/// Returns the script of a task, or an empty text.
fn script_of<'a>(task: &Task<'a>) -> &'a str {
    match *task {
        Task::Play { script, .. } => script,
        _ => "",
    }
}

/// Returns the addresses of a task for clients and for control lines, or empty texts.
fn addresses_of<'a>(task: &Task<'a>) -> (&'a str, &'a str) {
    match *task {
        Task::Serve {
            address,
            control,
            ..
        } => (address, control.unwrap_or("")),
        Task::Ask { place, .. } | Task::DeltaAt { place, .. } => (place, ""),
        _ => ("", ""),
    }
}

/// Returns the listen address of this number, or an empty text: 0 to 3 are for clients, 4 is for
/// control lines.
fn place_of<'a>(task: &Task<'a>, number: u8) -> &'a str {
    let Task::Run { service, .. } = *task else {
        return "";
    };
    let places = service.places;
    let place = match number {
        0 => Some(places.first),
        1 => places.second,
        2 => places.third,
        3 => places.fourth,
        _ => service.control,
    };
    place.unwrap_or("")
}

/// The group of the socket files of a task, or nothing.
fn group_of<'a>(task: &Task<'a>) -> &'a str {
    match *task {
        Task::Run { service, .. } => service.rights.group.unwrap_or(""),
        _ => "",
    }
}

impl Display for Explanation<'_> {
    fn fmt<W: fmt::Write>(&self, f: &mut Formatter<W>) -> fmt::Result {
        let image = image_of(&self.task);
        let (address, control) = addresses_of(&self.task);
        match self.failure.cause {
            Cause::Meaning => explain_number(&self.task, self.failure.refusal, image, f),
            Cause::Image(error) => explain_opening(&self.task, image, &error, f),
            Cause::Disk(trouble) => explain_disk(image, &trouble, f),
            Cause::Script(error) => explain_script(script_of(&self.task), &error, f),
            Cause::ScriptEnded => explain_script_end(script_of(&self.task), f),
            Cause::Address(error) => explain_address(address, &error, f),
            Cause::Control(error) => explain_address(control, &error, f),
            Cause::Accept(came) => write!(
                f,
                "cannot accept further clients on {address}: {came} have connected"
            ),
            Cause::TurnedAway(count) => write!(
                f,
                "{count} clients were disconnected: out of memory or threads"
            ),
            Cause::Place(number, error) => {
                explain_address(place_of(&self.task, number), &error, f)
            }
            Cause::Group => write!(f, "group {} does not exist", group_of(&self.task)),
            Cause::Groups(error) => write!(f, "/etc/group cannot be read: {error}"),
            Cause::Threads => f.write_str(
                "cannot create a thread for each of 64 clients; the pool was closed",
            ),
            Cause::Reach(error) => write!(f, "{address} cannot be reached: {error}"),
            Cause::Answered => explain_answer(self.failure.refusal, f),
            Cause::Unwell => explain_health(self.failure.refusal, address, f),
            Cause::Unquoted => explain_unquoted(address, f),
            Cause::Unanswered(count) => {
                write!(f, "server closed the connection after {count} replies")
            }
            Cause::Output => explain_output(&self.task, image, f),
            Cause::Declined => write!(f, "{image} is unchanged"),
            Cause::Small { sectors, wanted } => explain_size(image, sectors, wanted, f),
            Cause::Taken => explain_taken(image, f),
            Cause::Unfit(unfit) => explain_unfit(&self.task, &unfit, f),
        }
    }
}

/// Explains why a server refused a control line.
fn explain_answer<W: fmt::Write>(refusal: Refusal, f: &mut Formatter<W>) -> fmt::Result {
    write!(f, "the server refused a line: {}", reason_of(refusal))
}

/// Explains why a server is not well.
fn explain_health<W: fmt::Write>(
    refusal: Refusal,
    place: &str,
    f: &mut Formatter<W>,
) -> fmt::Result {
    match refusal {
        Refusal::Failed => write!(f, "the pool of {place} failed; restart its server"),
        _ => write!(f, "the device of {place} does not answer"),
    }
}

/// Explains why the lines `stop` and `now` were not sent.
fn explain_unquoted<W: fmt::Write>(place: &str, f: &mut Formatter<W>) -> fmt::Result {
    write!(
        f,
        "nothing was sent: `stop now` is one line, so quote it: `thinpool ask {place} 'stop now'`"
    )
}

/// Explains why a script was not opened.
fn explain_script<W: fmt::Write>(
    script: &str,
    error: &io::Error,
    f: &mut Formatter<W>,
) -> fmt::Result {
    write!(f, "script {script} cannot be opened: {error}")
}

/// Explains why a read of a script failed.
fn explain_script_end<W: fmt::Write>(script: &str, f: &mut Formatter<W>) -> fmt::Result {
    write!(
        f,
        "script {script} cannot be read: it is a directory, or its disk failed"
    )
}

/// Explains that standard output failed, and what the command did before.
///
/// `create` prints the sizes before it writes the image, and `play` stops at the first reply that
/// it cannot print.
fn explain_output<W: fmt::Write>(
    task: &Task<'_>,
    image: &str,
    f: &mut Formatter<W>,
) -> fmt::Result {
    f.write_str("cannot write to standard output: it is closed or its disk is full; ")?;
    match task {
        Task::Create { .. } => write!(
            f,
            "`thinpool status {image}` prints whether the pool was created"
        ),
        Task::Play { .. } => f.write_str("the script stopped there"),
        _ => f.write_str("the operation itself completed"),
    }
}

/// Explains that an image holds data which is overwritten only with `--overwrite`.
fn explain_taken<W: fmt::Write>(image: &str, f: &mut Formatter<W>) -> fmt::Result {
    write!(
        f,
        "{image} contains data that is not a thinpool image (checked: first 8192 bytes); --overwrite destroys it"
    )
}

/// Explains why an image was not opened.
fn explain_opening<W: fmt::Write>(
    task: &Task<'_>,
    image: &str,
    error: &OpenError,
    f: &mut Formatter<W>,
) -> fmt::Result {
    write!(f, "{image} {error}")?;
    match *error {
        OpenError::NotRegular => f.write_str("; an image must be one of them"),
        OpenError::System { error, .. } => advise(task, &error, f),
        OpenError::InUse | OpenError::TooLarge | OpenError::StandardStream => Ok(()),
    }
}

/// Advises on an error of the operating system at opening.
fn advise<W: fmt::Write>(task: &Task<'_>, error: &io::Error, f: &mut Formatter<W>) -> fmt::Result {
    match (error.kind(), task) {
        (ErrorKind::NotFound, Task::Format { .. } | Task::Create { .. }) => Ok(()),
        (ErrorKind::NotFound, _) => f.write_str(
            "; `thinpool create --help` describes how to create an image",
        ),
        (ErrorKind::StorageFull | ErrorKind::QuotaExceeded, _) => {
            f.write_str("; free space on the host's disk, then try again")
        }
        (ErrorKind::PermissionDenied, _) => f.write_str(
            "; check the owner and the mode of the file",
        ),
        _ => Ok(()),
    }
}

/// Explains an I/O error of an image's disk.
fn explain_disk<W: fmt::Write>(
    image: &str,
    trouble: &Trouble,
    f: &mut Formatter<W>,
) -> fmt::Result {
    write!(f, "{image}: {trouble}")?;
    match trouble.error.kind() {
        ErrorKind::StorageFull | ErrorKind::QuotaExceeded => f.write_str(
            "; free space on the host's disk, then open the image again",
        ),
        _ => f.write_str("; see the kernel's log, then open the image again"),
    }
}

/// Explains why the server cannot listen on an address.
fn explain_address<W: fmt::Write>(
    address: &str,
    error: &io::Error,
    f: &mut Formatter<W>,
) -> fmt::Result {
    write!(f, "cannot listen on {address}: {error}")
}

/// Explains that a device is too small: its size and the size of the pool, in bytes.
fn explain_size<W: fmt::Write>(
    image: &str,
    sectors: u64,
    wanted: u64,
    f: &mut Formatter<W>,
) -> fmt::Result {
    let bytes = sectors.saturating_mul(SECTOR);
    let wanted = wanted.saturating_mul(SECTOR);
    write!(
        f,
        "{image} has {bytes} bytes; a pool of these sizes needs {wanted}"
    )
}

/// Explains why no pool has the requested sizes.
fn explain_unfit<W: fmt::Write>(
    task: &Task<'_>,
    unfit: &Unfit,
    f: &mut Formatter<W>,
) -> fmt::Result {
    let Task::Create { wanted, .. } = *task else {
        return f.write_str("a size is out of range");
    };
    match *unfit {
        Unfit::OutOfRange => explain_range(&wanted, f),
        Unfit::TooMany { fit } => write!(
            f,
            "--volumes is {}: the metadata of these volumes needs more than 65536 blocks, with data blocks of {} bytes; {fit} volumes fit",
            wanted.volumes,
            largest_block(&wanted)
        ),
    }
}

/// Returns the size of the largest data blocks that a pool may have, in bytes.
fn largest_block(wanted: &Wanted) -> u64 {
    wanted.block_size.unwrap_or(LARGEST_BLOCK)
}

/// Explains which number of a new pool is out of range.
fn explain_range<W: fmt::Write>(wanted: &Wanted, f: &mut Formatter<W>) -> fmt::Result {
    let block = largest_block(wanted);
    if !matches!(block, 65_536 | 131_072 | 262_144 | 524_288 | 1_048_576) {
        return write!(
            f,
            "--block-size is {block} bytes: it must be 64K, 128K, 256K, 512K or 1M"
        );
    }
    let most = block.saturating_mul(MOST_DATA_BLOCKS);
    if !(1..=most).contains(&wanted.size) {
        return write!(
            f,
            "--size is {} bytes: it must be in 1..={most} with data blocks of {block} bytes",
            wanted.size
        );
    }
    let most = block.saturating_mul(MOST_VIRTUAL_BLOCKS);
    if !(1..=most).contains(&wanted.volume_size) {
        return write!(
            f,
            "--volume-size is {} bytes: it must be in 1..={most} with data blocks of {block} bytes",
            wanted.volume_size
        );
    }
    write!(f, "--volumes is {}: it must be at least 1", wanted.volumes)
}

/// Explains an error number for this task.
fn explain_number<W: fmt::Write>(
    task: &Task<'_>,
    refusal: Refusal,
    image: &str,
    f: &mut Formatter<W>,
) -> fmt::Result {
    match refusal {
        Refusal::BadGeometry => match *task {
            Task::Format { sizes, .. } => explain_sizes(&sizes, f),
            _ => f.write_str("a size is out of range"),
        },
        Refusal::Damaged => write!(
            f,
            "{image} is damaged, or shorter than its pool; run `thinpool check {image}`"
        ),
        Refusal::NotAPool => write!(f, "{image} is not a thinpool image; check the name"),
        Refusal::BadVersion => write!(
            f,
            "{image} has an unknown format version; use the program that wrote it"
        ),
        Refusal::Memory => f.write_str("out of memory"),
        Refusal::ReadOnly => write!(
            f,
            "the pool needs a check and is read-only. Run `thinpool check {image} --clear-needs-check-flag`, then release the metadata snapshot or delete volumes"
        ),
        Refusal::Failed => write!(
            f,
            "the pool failed earlier, with error 5 (Fault) or 2 (Damaged); open {image} again"
        ),
        Refusal::BadSuper
        | Refusal::BadNode
        | Refusal::BadOrder
        | Refusal::BadCount
        | Refusal::OutOfPlace
        | Refusal::HalfEmpty
        | Refusal::BadMapped
        | Refusal::BadRecordSize => explain_check(refusal, image, f),
        _ => explain_message(task, refusal, f),
    }
}

/// Explains what a check found.
fn explain_check<W: fmt::Write>(
    refusal: Refusal,
    image: &str,
    f: &mut Formatter<W>,
) -> fmt::Result {
    let found = match refusal {
        Refusal::BadSuper => "no usable superblock, or the file is shorter than its pool",
        Refusal::BadNode =>
            "a block is not the tree node that it should be, or a volume record of version 1 has a size",
        Refusal::BadOrder => "the keys of a node are not ascending, or out of range",
        Refusal::BadCount =>
            "stored reference counts are wrong, or fewer than 128 metadata blocks are free",
        Refusal::OutOfPlace =>
            "a block number is out of range, or there are more than 65536 volumes",
        Refusal::HalfEmpty => "a node has too few entries",
        Refusal::BadMapped => "a volume's count of mapped blocks is wrong",
        _ => "a volume record has an invalid size",
    };
    match refusal {
        Refusal::BadSuper => write!(
            f,
            "{image}: {found}; check the name, or copy the image again"
        ),
        _ => write!(f, "{image}: {found}; use a clean copy instead"),
    }
}

/// Explains why a message, or a command on a volume, failed.
fn explain_message<W: fmt::Write>(
    task: &Task<'_>,
    refusal: Refusal,
    f: &mut Formatter<W>,
) -> fmt::Result {
    match *task {
        Task::Message { line, .. } if line.len() > LONGEST => {
            return write!(
                f,
                "the message has {} bytes; at most {LONGEST} are allowed",
                line.len()
            );
        }
        Task::Message { line, .. } => write!(f, "'{line}': ")?,
        Task::Status { id: Some(id), .. } => write!(f, "volume {id}: ")?,
        _ => {}
    }
    match refusal {
        Refusal::BadSyntax => explain_syntax(line_of(task), f),
        Refusal::NoSuchDevice => explain_missing(task, image_of(task), f),
        Refusal::StaleTransactionId => write!(
            f,
            "the current transaction id is not OLD; `thinpool status {}` prints it first",
            image_of(task)
        ),
        Refusal::HeldRootExists => write!(
            f,
            "a metadata snapshot exists; `thinpool message {} release_metadata_snap` deletes it",
            image_of(task)
        ),
        Refusal::NoMetadataSpace => write!(
            f,
            "out of metadata space; the pool is now read-only. Run `thinpool check {} --clear-needs-check-flag`, then release the metadata snapshot or delete volumes",
            image_of(task)
        ),
        _ => f.write_str(reason_of(refusal)),
    }
}

/// Returns the reason of an error that needs no name of an object.
fn reason_of(refusal: Refusal) -> &'static str {
    match refusal {
        Refusal::UnknownMessage => "unknown message; `thinpool message --help` lists all messages",
        Refusal::BadDeviceId => "a volume id must be in 0..=16777215",
        Refusal::Exists => "the volume exists",
        Refusal::Busy => "a client has the volume open; disconnect it first",
        Refusal::BadSize => "a volume cannot shrink, and has at most 16777216 blocks",
        Refusal::NoHeldRoot => "no metadata snapshot exists",
        Refusal::TooManyDevices => "the pool has 65536 volumes, the maximum; delete a volume first",
        Refusal::NoDataSpace => "out of data space; delete volumes",
        _ => "thinpool-errors(7) describes this error",
    }
}

/// Returns the line of a message, or an empty text.
fn line_of<'a>(task: &Task<'a>) -> &'a str {
    match *task {
        Task::Message { line, .. } => line,
        _ => "",
    }
}

/// Explains what is wrong with the arguments of a message.
fn explain_syntax<W: fmt::Write>(line: &str, f: &mut Formatter<W>) -> fmt::Result {
    for word in line.split(' ') {
        if word.is_empty() {
            return f.write_str("arguments must be separated by one space each");
        }
        if has_leading_zero(word) {
            return write!(f, "{word} has a leading zero");
        }
    }
    f.write_str("wrong number of arguments, or an argument is not a number")
}

/// Returns whether a word is a number after a leading zero.
fn has_leading_zero(word: &str) -> bool {
    match word.strip_prefix("0") {
        Some(rest) => rest.parse::<u64>().is_ok(),
        None => false,
    }
}

/// Explains which volume does not exist.
fn explain_missing<W: fmt::Write>(
    task: &Task<'_>,
    image: &str,
    f: &mut Formatter<W>,
) -> fmt::Result {
    match *task {
        Task::Message { line, .. } => write!(f, "volume {} does not exist", missing_id(line))?,
        Task::DeltaAt { .. } => return f.write_str("no such volume"),
        _ => f.write_str("no such volume")?,
    }
    write!(f, "; `thinpool ls {image}` lists the volumes")
}

/// Returns the id in a message that does not exist: the origin of a snapshot, otherwise the first
/// argument.
fn missing_id(line: &str) -> &str {
    let Some((name, arguments)) = line.split_once(' ') else {
        return line;
    };
    match arguments.split_once(' ') {
        Some((_, origin)) if name == "create_snap" => origin,
        Some((id, _)) => id,
        None => arguments,
    }
}

/// Explains which size is out of range.
fn explain_sizes<W: fmt::Write>(sizes: &Sizes, f: &mut Formatter<W>) -> fmt::Result {
    let Sizes {
        block_sectors,
        virtual_blocks,
        metadata_blocks,
        data_blocks,
    } = *sizes;
    if !(128..=2048).contains(&block_sectors) || !block_sectors.is_multiple_of(128) {
        return write!(
            f,
            "BLOCK_SECTORS is {block_sectors}: it must be a multiple of 128 in 128..=2048"
        );
    }
    if !(1..=16_777_216).contains(&virtual_blocks) {
        return write!(
            f,
            "VIRTUAL_BLOCKS is {virtual_blocks}: it must be in 1..=16777216"
        );
    }
    if !(1..=1_048_576).contains(&data_blocks) {
        return write!(f, "DATA_BLOCKS is {data_blocks}: it must be in 1..=1048576");
    }
    let least = least_metadata(data_blocks);
    write!(
        f,
        "METADATA_BLOCKS is {metadata_blocks}: it must be in {least}..=65536 for {data_blocks} data blocks"
    )
}

/// Returns the minimum of metadata blocks for `data_blocks` data blocks.
///
/// These are two superblocks, two areas with a count block for each 1024 blocks of both kinds, and
/// 1024 more.
fn least_metadata(data_blocks: u64) -> u64
    requires { data_blocks ≤ 1048576 }
{
    let besides = 1026 + 2 * data_blocks.div_ceil(1024);
    for blocks in 1..8 {
        let least = besides + 2 * blocks;
        if least <= 1024 * blocks {
            return least;
        }
    }
    besides
}
