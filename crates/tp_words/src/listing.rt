//! The commands that list what is in an image: `ls`, `map`, `delta` and `free`.

ghost use Rattle.std.specs.Prelude.{◌≡◌, IfOk, false};
ghost use Rattle.clap.specs.Words.{rule_of};
ghost use Rattle.tp_tasks.specs.CommandLine.{at_rule, delta_app, free_app, json_rule, list_app, map_app};
ghost use Rattle.tp_words.specs.Commands.{IsMade};

use crate::command_line::{flag, number, of_image, with};
use clap::{Arg, Command};
use std::alloc::{AllocError, Global};

const IMAGE: &str = "Image of the pool";

const LIST_HELP: &str = "\
The first line is 'ID SIZE MAPPED EXCLUSIVE'. One line for each volume follows, in ascending order
of ids. All numbers except the id are bytes. MAPPED is the mapped size, EXCLUSIVE the size that a
delete of the volume frees, or '-' while a metadata snapshot exists. The image is opened read-only,
with the shared lock. ls needs 4 MiB of memory.

A pool with blocks of 64 KiB and a volume of 100 GiB, of which the first two blocks are written:
  thinpool ls pool.img
    ID SIZE MAPPED EXCLUSIVE
    0 107374182400 131072 131072

With --json it prints one line of JSON, with null instead of '-':
  thinpool ls pool.img --json
    [{\"exclusive\":131072,\"id\":0,\"mapped\":131072,\"size\":107374182400}]";

const MAP_HELP: &str = "\
Prints one line 'OFFSET LENGTH' for each run of mapped blocks, in bytes of the volume and in
ascending order. The other blocks read as zeros. The image is opened read-only, with the shared
lock.

A volume with blocks of 64 KiB, of which the first two and the fifth are written:
  thinpool map pool.img 0
    0 131072
    262144 65536

With --json it prints one line of JSON:
  thinpool map pool.img 0 --json
    [{\"length\":131072,\"offset\":0},{\"length\":65536,\"offset\":262144}]";

const DELTA_HELP: &str = "\
Prints one line 'OFFSET LENGTH' for each run of blocks in which NEW may differ from OLD, and 'OFFSET
LENGTH hole' for each run between them, in bytes and in ascending order, for the whole of NEW. This
is the format of nbdkit's extentlist filter. OLD, overwritten with the listed bytes of NEW, equals
NEW; holes need not be read. The image is opened read-only, with the shared lock.

Snapshot 1 of volume 0, of 1 MiB with blocks of 64 KiB; later the third block of volume 0 was
written:
  thinpool delta pool.img 1 0
    0 131072 hole
    131072 65536
    196608 851968 hole

With --at it requests the list from the server of a pool, in pages. The list is correct if no client
writes these volumes meanwhile, as with snapshots:
  thinpool delta --at unix:/run/thinpool/control 1 2

With --json it prints one line of JSON, with \"data\" false for a hole:
  thinpool delta pool.img 1 0 --json
    [{\"data\":false,\"length\":131072,\"offset\":0},{\"data\":true,\"length\":65536,\"offset\":131072},{\"data\":false,\"length\":851968,\"offset\":196608}]";

const FREE_HELP: &str = "\
Prints one line 'OFFSET LENGTH' for each run of data blocks that no volume uses, in bytes of the
image and in ascending order. While a metadata snapshot exists, it fails with error 26
(HeldRootExists). The image is opened read-only, with the shared lock.

`fallocate -p` (file) and `blkdiscard` (device) return these bytes to the host, but only while no
process serves the image or sends it messages. Hold the lock from the listing to the last of them:
  flock -s pool.img sh -c 'thinpool free pool.img | while read offset length; do
      fallocate -p -o $offset -l $length pool.img; done'

A pool of 10 GiB with blocks of 64 KiB and 32 MiB of metadata; the first two data blocks are in use:
  thinpool free pool.img
    33685504 10737287168

With --json it prints one line of JSON:
  thinpool free pool.img --json
    [{\"length\":10737287168,\"offset\":33685504}]";

/// Makes the flag `--json`.
fn json<'a>(alloc: Global) -> Arg<'a>
    ensures rule { rule_of result ≡ json_rule }
    ensures local { result.global ≡ false }
{
    flag(alloc, "JSON", "json", "Print one line of JSON")
}

/// Makes the flag `--at`.
fn in_use<'a>(alloc: Global) -> Arg<'a>
    ensures rule { rule_of result ≡ at_rule }
    ensures local { result.global ≡ false }
{
    flag(
        alloc,
        "AT",
        "at",
        "IMAGE is the control address of a server: request the list from it",
    )
}

pub(crate) fn list_command<'a>(alloc: Global) -> Result<Command<'a>, AllocError>
    ensures { IfOk result (IsMade list_app) }
{
    let about = "List the volumes of a pool. Does not write to the image";
    let made = of_image(alloc, "ls", about, IMAGE, LIST_HELP);
    with(made, json(alloc))
}

pub(crate) fn map_command<'a>(alloc: Global) -> Result<Command<'a>, AllocError>
    ensures { IfOk result (IsMade map_app) }
{
    let about = "List the mapped bytes of a volume. Does not write to the image";
    let made = of_image(alloc, "map", about, IMAGE, MAP_HELP);
    let made = with(made, number(alloc, "ID", "Volume id [0 to 16777215]"));
    with(made, json(alloc))
}

pub(crate) fn delta_command<'a>(alloc: Global) -> Result<Command<'a>, AllocError>
    ensures { IfOk result (IsMade delta_app) }
{
    let about =
        "List the bytes in which one volume may differ from another. Does not write to the image";
    let old = "Volume to compare with [0 to 16777215]";
    let new = "Volume whose bytes are listed [0 to 16777215]";
    let made = of_image(alloc, "delta", about, IMAGE, DELTA_HELP);
    let made = with(made, number(alloc, "OLD", old));
    let made = with(made, number(alloc, "NEW", new));
    let made = with(made, json(alloc));
    with(made, in_use(alloc))
}

pub(crate) fn free_command<'a>(alloc: Global) -> Result<Command<'a>, AllocError>
    ensures { IfOk result (IsMade free_app) }
{
    let about = "List the bytes of an image that no volume uses. Does not write to the image";
    let made = of_image(alloc, "free", about, IMAGE, FREE_HELP);
    with(made, json(alloc))
}
