//! What is found of a pool is printed.
ghost use Rattle.std.specs.Prelude.{◌≡◌, ◌≤◌, MatchBool, Ok, Err};
ghost use Rattle.tp_model.specs.Geometry.{Geometry, IsWithinLimits};
ghost use Rattle.tp_model.specs.declared.refusal.Refusal.TheVariants as refusal;
ghost use Rattle.tp_reports.specs.Reports.{Reports, data_offset, unit_of};
ghost use Rattle.tp_reports.specs.declared.report.Report.TheVariants as what;

use crate::held::HoldsMapping;
use crate::printing::{print_delta, print_runs, print_usages};
use crate::report::Report;
use std::alloc::Global;
use tp_hub::Stream;
use tp_listings::{delta, free, map, usages};
use tp_model::{DevId, Geometry, Refusal};

/// The bytes of a block.
fn unit_of(geometry: Geometry) -> u64
    ensures value { result ≡ unit_of geometry }
    ensures most { result ≤ 1048576 }
{
    512 * geometry.block_sectors() as u64
}

/// Where in an image the first data block stands, in bytes.
fn data_offset(geometry: Geometry) -> u64
    ensures value { result ≡ data_offset geometry }
    ensures most { result ≤ 268435456 }
{
    4096 * geometry.metadata_blocks() as u64
}

/// A stream that did not take all is a fault.
fn printed(is_done: bool) -> Result<(), Refusal>
    ensures { MatchBool is_done (result ≡ Ok tt) (result ≡ Err refusal.Fault) }
{
    if is_done { Ok(()) } else { Err(Refusal::Fault) }
}

/// Prints what each volume has.
fn tell_volumes<V: HoldsMapping, S: Stream>(
    alloc: Global,
    pool: &mut V,
    is_json: bool,
    stream: &mut S,
) -> Result<(), Refusal>
    ensures { Reports V.view pool.old pool.new what.Volumes is_json (S.calls stream.old) (S.calls stream.new) result }
{
    match pool.is_held() {
        Ok(held) => match usages(alloc, pool) {
            Ok(list) => {
                let unit = unit_of(pool.geometry());
                printed(print_usages(stream, is_json, unit, held, &list))
            }
            Err(reason) => Err(reason),
        },
        Err(reason) => Err(reason),
    }
}

/// Prints which blocks of a volume are mapped.
fn tell_map<V: HoldsMapping, S: Stream>(
    alloc: Global,
    pool: &mut V,
    id: DevId,
    is_json: bool,
    stream: &mut S,
) -> Result<(), Refusal>
    ensures { Reports V.view pool.old pool.new (what.Map id) is_json (S.calls stream.old) (S.calls stream.new) result }
{
    match map(alloc, pool, id) {
        Ok(list) => {
            let unit = unit_of(pool.geometry());
            printed(print_runs(stream, is_json, 0, unit, &list))
        }
        Err(reason) => Err(reason),
    }
}

/// Prints in which of its blocks a volume may differ from another.
fn tell_delta<V: HoldsMapping, S: Stream>(
    alloc: Global,
    pool: &mut V,
    old: DevId,
    new: DevId,
    is_json: bool,
    stream: &mut S,
) -> Result<(), Refusal>
    ensures { Reports V.view pool.old pool.new (what.Delta old new) is_json (S.calls stream.old) (S.calls stream.new) result }
{
    match pool.volume_blocks(new) {
        Ok(blocks) => match delta(alloc, pool, old, new) {
            Ok(list) => {
                let unit = unit_of(pool.geometry());
                printed(print_delta(stream, is_json, unit, blocks, &list))
            }
            Err(reason) => Err(reason),
        },
        Err(reason) => Err(reason),
    }
}

/// Prints which data blocks no volume has, and no mapping that is held.
fn tell_free<V: HoldsMapping, S: Stream>(
    alloc: Global,
    pool: &mut V,
    is_json: bool,
    stream: &mut S,
) -> Result<(), Refusal>
    ensures { Reports V.view pool.old pool.new what.Free is_json (S.calls stream.old) (S.calls stream.new) result }
{
    match pool.is_held() {
        Ok(true) => Err(Refusal::HeldRootExists),
        Ok(false) => match free(alloc, pool) {
            Ok(list) => {
                let geometry = pool.geometry();
                let (at, unit) = (data_offset(geometry), unit_of(geometry));
                printed(print_runs(stream, is_json, at, unit, &list))
            }
            Err(reason) => Err(reason),
        },
        Err(reason) => Err(reason),
    }
}

/// Looks a pool over and prints what was found, as lines or as one line of JSON. It writes nothing to the pool. Nothing is printed where it is refused, but for a
/// stream that fails.
///
/// Refused by `Failed`, `NoSuchDevice` (there is no such volume), `HeldRootExists` (free blocks, while a mapping is held), `Memory`, `Fault` or `Damaged`.
pub fn tell<V: HoldsMapping, S: Stream>(
    alloc: Global,
    pool: &mut V,
    report: Report,
    is_json: bool,
    stream: &mut S,
) -> Result<(), Refusal>
    ensures { Reports V.view pool.old pool.new report is_json (S.calls stream.old) (S.calls stream.new) result }
{
    match report {
        Report::Volumes => tell_volumes(alloc, pool, is_json, stream),
        Report::Map(id) => tell_map(alloc, pool, id, is_json, stream),
        Report::Delta(old, new) => tell_delta(alloc, pool, old, new, is_json, stream),
        Report::Free => tell_free(alloc, pool, is_json, stream),
    }
}
