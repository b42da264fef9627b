ghost use Rattle.std.specs.Prelude.{◌≡◌, ◌+◌, ◌<◌, ◌≤◌, IfOk, length};

use std::alloc::Global;
use std::num::NonZeroUsize;
use std::test::Fail;
use tp_cache::{NodeCache, ReadCache};
use tp_disk::{Disk, Fault, MemDisk, SharedDisk};

// The sectors of the disks here, and how many metadata blocks are the first of them.
const SECTORS: u64 = 96;

const BLOCKS: usize = 8;

#[derive(Drop)]
struct Random {
    last: u64,
}

impl Random {
    fn below(&mut self, end: u64) -> u64
        requires { 0 < end }
        ensures { result < end }
    {
        self.last = self
            .last
            .wrapping_mul(6364136223846793005)
            .wrapping_add(1442695040888963407);
        (self.last >> 33) % end
    }
}

// A range of sectors: half of them a metadata block.
fn range(random: &mut Random) -> (u64, usize)
    ensures at { result.0 ≤ 80 }
    ensures sectors { result.1 ≤ 16 }
{
    if random.below(2) == 0 {
        return (8 * random.below(8), 8);
    }
    (random.below(80), 1 + random.below(16) as usize)
}

fn fill(bytes: &mut [u8; 8192], random: &mut Random) {
    let first = random.below(251);
    for i in 0..bytes.len() {
        bytes[i] = ((first + i as u64) % 251) as u8;
    }
}

fn sum(bytes: &[u8]) -> u64 {
    let mut sum = 0u64;
    for byte in bytes {
        sum = sum.wrapping_mul(31).wrapping_add(*byte as u64);
    }
    sum
}

// Writes bytes, reads as many, or flushes: the sum of what was read, or 1 after a write and 2 after a flush.
fn call_with<D: Disk>(disk: &mut D, kind: u64, at: u64, bytes: &mut [u8]) -> Result<u64, Fault> {
    let count = bytes.len() / 512;
    if bytes.len() % 512 != 0 || at > disk.sectors() || count as u64 > disk.sectors() - at {
        return Err(Fault);
    }
    if kind == 7 {
        disk.flush()?;
        return Ok(2);
    }
    if kind < 4 {
        disk.write(at, bytes)?;
        return Ok(1);
    }
    disk.read(at, bytes)?;
    Ok(sum(bytes))
}

// One random call.
fn call<D: Disk>(disk: &mut D, random: &mut Random) -> Result<u64, Fault> {
    let kind = random.below(8);
    let (at, sectors) = range(random);
    let mut bytes = [0; 8192];
    if kind < 4 {
        fill(&mut bytes, random);
    }
    call_with(disk, kind, at, &mut bytes[..512 * sectors])
}

// The same call, made again where it fails.
fn call_again<D: Disk>(disk: &mut D, random: &mut Random) -> Result<u64, Fault> {
    let last = random.last;
    for _ in 0..8 {
        random.last = last;
        match call(disk, random) {
            Ok(answer) => return Ok(answer),
            Err(Fault) => {}
        }
    }
    Err(Fault)
}

// What so many random calls answer, one after another, and the whole disk after them.
fn answers<D: Disk>(disk: &mut D, seed: u64, calls: usize) -> Result<u64, Fault> {
    let mut random = Random { last: seed };
    let mut all = 0u64;
    for _ in 0..calls {
        let answer = call_again(disk, &mut random)?;
        all = all.wrapping_mul(1000003).wrapping_add(answer);
    }
    Ok(all)
}

// A flush, made again where it fails.
fn flush_again<D: Disk>(disk: &mut D) -> Result<(), Fault> {
    for _ in 0..8 {
        if disk.flush().is_ok() {
            return Ok(());
        }
    }
    Err(Fault)
}

// The sum of the whole disk.
fn image<D: Disk>(disk: &mut D) -> Result<u64, Fault> {
    if disk.sectors() < SECTORS {
        return Err(Fault);
    }
    let mut bytes = [0; 49152];
    disk.read(0, &mut bytes)?;
    Ok(sum(&bytes))
}

// Such a cache over a disk in memory.
type Cache = NodeCache<ReadCache<MemDisk>>;

// A cache of two read blocks over a disk in memory.
fn read_cached(alloc: Global, disk: MemDisk) -> Result<ReadCache<MemDisk>, Fault>
    ensures { IfOk result (λ cache. cache.disk ≡ disk) }
{
    let Some(room) = NonZeroUsize::new(2) else {
        return Err(Fault);
    };
    match ReadCache::new(alloc, disk, BLOCKS, room) {
        Ok(cache) => Ok(cache),
        Err(_) => Err(Fault),
    }
}

// A cache of three slots over such a disk, of which some calls fail, or a fault where there is no memory for it.
fn cached(alloc: Global, first: u64, last: u64) -> Result<Cache, Fault> {
    let Ok(mut disk) = MemDisk::new(alloc, SECTORS) else {
        return Err(Fault);
    };
    disk.fail(first, last);
    let inner = read_cached(alloc, disk)?;
    match NodeCache::new(alloc, inner, BLOCKS, 3) {
        Ok(cache) => Ok(cache),
        Err(_) => Err(Fault),
    }
}

// What random calls answer, and what is on the disk then.
fn answers_and_image<D: Disk>(disk: &mut D, calls: usize) -> Result<(u64, u64), Fault> {
    let all = answers(disk, 34, calls)?;
    Ok((all, image(disk)?))
}

// The same of a plain disk.
fn wanted(alloc: Global, calls: usize) -> Result<(u64, u64), Fault> {
    match MemDisk::new(alloc, SECTORS) {
        Ok(mut disk) => answers_and_image(&mut disk, calls),
        Err(_) => Err(Fault),
    }
}

// What random calls answer, and then a flush.
fn answers_and_flush<D: Disk>(disk: &mut D, calls: usize) -> Result<u64, Fault> {
    let all = answers(disk, 34, calls)?;
    flush_again(disk)?;
    Ok(all)
}

// What is on the disk under a cache.
fn image_under(cache: Cache) -> Result<u64, Fault> {
    let mut disk = cache.into_inner().into_inner();
    disk.fail(0, 0);
    image(&mut disk)
}

// What random calls of a cache answer, and what is on the disk under it after a flush.
fn seen(alloc: Global, calls: usize, first: u64, last: u64) -> Result<(u64, u64), Fault> {
    let mut cache = cached(alloc, first, last)?;
    let all = answers_and_flush(&mut cache, calls);
    let image = image_under(cache)?;
    Ok((all?, image))
}

// The first call of which, where it and the three behind it fail, a cache answers something else than this.
fn first_other(alloc: Global, want: (u64, u64)) -> Result<Option<u64>, Fault> {
    for first in 1..60u64 {
        if seen(alloc, 40, first, first + 3)? != want {
            return Ok(Some(first));
        }
    }
    Ok(None)
}

// Four calls one after another fail, at each place of the run in turn.
#[test]
fn a_cache_answers_as_its_disk(rt: HostRuntime) -> Result<(), Fail> {
    let want = wanted(rt.alloc(), 2000)?;
    let few = wanted(rt.alloc(), 40)?;
    let told = (seen(rt.alloc(), 2000, 0, 0), first_other(rt.alloc(), few));
    assert!(rt; told == (Ok(want), Ok(None)));
    Ok(())
}

// Fills a metadata block with its number.
fn fill_block<D: Disk>(disk: &mut D, block: u64) -> Result<(), Fault> {
    if disk.sectors() < SECTORS || block >= 8 {
        return Err(Fault);
    }
    disk.write(8 * block, &[(block % 8) as u8; 4096])
}

// The first byte of a metadata block.
fn first_of_block<D: Disk>(disk: &mut D, block: u64) -> Result<u8, Fault> {
    let mut bytes = [9; 4096];
    if disk.sectors() < SECTORS || block >= 8 {
        return Err(Fault);
    }
    disk.read(8 * block, &mut bytes)?;
    Ok(bytes[0])
}

// Blocks 1 to 3 written and flushed, of which each is read then.
fn filled_and_read<D: Disk>(disk: &mut D) -> Result<[u8; 3], Fault> {
    fill_block(disk, 1)?;
    fill_block(disk, 2)?;
    fill_block(disk, 3)?;
    disk.flush()?;
    Ok([
        first_of_block(disk, 1)?,
        first_of_block(disk, 2)?,
        first_of_block(disk, 3)?,
    ])
}

// How often the disk under a cache was called.
fn calls_under(cache: Cache) -> u64 {
    cache.into_inner().into_inner().calls()
}

// The same of a cache, and how often the disk under it was called.
fn read_after_flush(alloc: Global) -> Result<([u8; 3], u64), Fault> {
    let mut cache = cached(alloc, 0, 0)?;
    let bytes = filled_and_read(&mut cache);
    let calls = calls_under(cache);
    Ok((bytes?, calls))
}

#[test]
fn flushed_blocks_are_read_in_memory(rt: HostRuntime) {
    assert!(rt; read_after_flush(rt.alloc()) == Ok(([1, 2, 3], 2)));
}

// The first byte of a block, where a shared read gives it.
fn shared_block<D: SharedDisk>(disk: &D, block: u64) -> Option<u8> {
    let mut bytes = [9; 4096];
    if disk.sectors() < SECTORS || block >= 12 {
        return None;
    }
    if !disk.read_shared(8 * block, &mut bytes) {
        return None;
    }
    Some(bytes[0])
}

// The first bytes of the last sector of block 2 and of the first one of block 3, where a shared read gives them.
fn shared_sectors<D: SharedDisk>(disk: &D) -> Option<(u8, u8)> {
    let mut bytes = [9; 1024];
    if disk.sectors() < SECTORS {
        return None;
    }
    if !disk.read_shared(23, &mut bytes) {
        return None;
    }
    Some((bytes[0], bytes[512]))
}

// Shared reads of a dirty block, of one behind the metadata, and of a metadata block before an ordinary read of it and after that; and of sectors of the block
// before the dirty one and of that.
fn shared_reads<D: SharedDisk>(disk: &mut D) -> Result<([Option<u8>; 4], Option<(u8, u8)>), Fault> {
    fill_block(disk, 3)?;
    let sectors = shared_sectors(disk);
    let dirty = shared_block(disk, 3);
    let data = shared_block(disk, 9);
    let before = shared_block(disk, 4);
    first_of_block(disk, 4)?;
    Ok(([dirty, data, before, shared_block(disk, 4)], sectors))
}

// The same of a cache.
fn shared_reads_of_cache(alloc: Global) -> Result<([Option<u8>; 4], Option<(u8, u8)>), Fault> {
    let mut cache = cached(alloc, 0, 0)?;
    shared_reads(&mut cache)
}

#[test]
fn shared_reads_give_what_is_in_memory(rt: HostRuntime) {
    let told = shared_reads_of_cache(rt.alloc());
    assert!(rt; told == Ok(([Some(3), Some(0), None, Some(0)], Some((0, 3)))));
}
