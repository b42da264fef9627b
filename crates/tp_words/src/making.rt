//! The commands that make an image: `format` and `create`.

ghost use Rattle.std.specs.Prelude.{◌≡◌, IfOk, false};
ghost use Rattle.clap.specs.Words.{rule_of};
ghost use Rattle.tp_tasks.specs.CommandLine.{create_app, format_app, wanted_number_rule, wanted_rule};
ghost use Rattle.tp_words.specs.Commands.{IsMade};

use crate::command_line::{flag, number, of_image, option, with};
use clap::{Arg, Command};
use std::alloc::{AllocError, Global};

const FORMAT_HELP: &str = "\
A file is created if it does not exist (mode 0600), and gets the exact size of the pool: its data is
destroyed, and a longer file is truncated. It stays sparse unless `fallocate` allocates its space on
the host, before or after. A full host disk makes the pool fail. TRIM frees no space on the host.

A block device must be at least as large as the pool. Bytes past the end of the pool are not
changed. format fails with error 14 (Exists) if the first 8192 bytes contain data that is not a
pool, such as a file system or a partition table; with --overwrite that data is destroyed. The flag
has no effect on a regular file.

A pool of 10 GiB with blocks of 64 KiB, volumes of 100 GiB and 32 MiB of metadata, in a file of
10770972672 bytes:
  thinpool format pool.img 128 1638400 8192 163840";

const CREATE_HELP: &str = "\
Computes the four numbers of 'format', prints them on one line as arguments of 'format', and does
what 'format' does. The first number is the size of a data block, in sectors of 512 bytes. 'thinpool
format --help' describes files and block devices.

A SIZE is a number of bytes below 2^64. The suffix K, M, G, T or P multiplies it by 1024 to 1024^5:
10G is 10737418240, and 10GiB is the same. A fraction of 1 to 9 digits is allowed if the result is
an integer: 1.5T. The suffixes KB to PB are not accepted, because they may mean powers of 1000.
--size is the data that all volumes together can store. The image is larger by its metadata.

The data blocks are the smallest, of 64 KiB to 1 MiB, with which data, volumes and metadata fit;
--block-size sets their size instead. N is a guarantee, not a limit: while there are at most N
volumes and no metadata snapshot, no request runs out of metadata space. If N volumes do not fit,
create fails with error 1 (BadGeometry), prints the number of volumes that fit, and does not touch
the image.

A file or block device whose first 8192 bytes contain data that is neither zeros nor a pool is
refused with error 14 (Exists), unless --overwrite is given.

  thinpool create pool.img --size 10G --volume-size 100G --volumes 4";

/// Makes a required option `--name VALUE`.
fn wanted<'a>(alloc: Global, id: &'a str, name: &'a str, value: &'a str, help: &'a str) -> Arg<'a>
    ensures rule { rule_of result ≡ wanted_rule id.entry.now name.entry.now }
    ensures local { result.global ≡ false }
{
    option(alloc, id, name, value, help).required(true)
}

/// Makes a required option `--name VALUE` that is a 64-bit number.
fn wanted_number<'a>(
    alloc: Global,
    id: &'a str,
    name: &'a str,
    value: &'a str,
    help: &'a str,
) -> Arg<'a>
    ensures rule { rule_of result ≡ wanted_number_rule id.entry.now name.entry.now }
    ensures local { result.global ≡ false }
{
    wanted(alloc, id, name, value, help).value_parser(clap::value_parser!(u64))
}

pub(crate) fn format_command<'a>(alloc: Global) -> Result<Command<'a>, AllocError>
    ensures { IfOk result (IsMade format_app) }
{
    let about =
        "Create an empty pool in a file or block device, and print its status line. Destroys its data";
    let image = "File or block device to create the pool in";
    let overwrites = "Destroy the data of a block device, even if it is not a pool";
    let block = "Sectors of 512 bytes in a data block [128 to 2048, a multiple of 128]";
    let volume = "Data blocks in each volume [1 to 16777216]";
    let metadata =
        "Metadata blocks of 4096 bytes: at least 1026 and two for each 1024 metadata and data blocks, at most 65536";
    let data = "Data blocks of the pool [1 to 1048576]";
    let made = of_image(alloc, "format", about, image, FORMAT_HELP);
    let made = with(made, number(alloc, "BLOCK_SECTORS", block));
    let made = with(made, number(alloc, "VIRTUAL_BLOCKS", volume));
    let made = with(made, number(alloc, "METADATA_BLOCKS", metadata));
    let made = with(made, number(alloc, "DATA_BLOCKS", data));
    with(made, flag(alloc, "OVERWRITE", "overwrite", overwrites))
}

pub(crate) fn create_command<'a>(alloc: Global) -> Result<Command<'a>, AllocError>
    ensures { IfOk result (IsMade create_app) }
{
    let about =
        "Create an empty pool of a given size, for volumes of a given size and number. Destroys the data of IMAGE";
    let image = "File or block device to create the pool in";
    let size = "Data that all volumes together can store: bytes, or with K, M, G, T or P";
    let volume = "Size of each volume: bytes, or with K, M, G, T or P";
    let volumes = "Number of volumes, including snapshots, that always fit";
    let block = "Size of a data block [64K, 128K, 256K, 512K or 1M]";
    let overwrites = "Destroy the data of IMAGE, even if it is not a pool";
    let made = of_image(alloc, "create", about, image, CREATE_HELP);
    let made = with(made, wanted(alloc, "SIZE", "size", "SIZE", size));
    let made = with(
        made,
        wanted(alloc, "VOLUME_SIZE", "volume-size", "SIZE", volume),
    );
    let made = with(
        made,
        wanted_number(alloc, "VOLUMES", "volumes", "N", volumes),
    );
    let made = with(
        made,
        option(alloc, "BLOCK_SIZE", "block-size", "SIZE", block),
    );
    with(made, flag(alloc, "OVERWRITE", "overwrite", overwrites))
}
