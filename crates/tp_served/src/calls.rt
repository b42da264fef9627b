//! The calls of a pool on a cache since a moment that the caller picks. Both are taken out of their place for a call, and put back behind it.
ghost use Rattle.std.specs.Prelude.{◌≡◌, ◌≢◌, ◌/◌, ◌%◌, ◌+◌, ◌⊎◌, ◌<◌, ◌≤◌, length, IfErr, IfOk, MatchResult, OnOk, take};
ghost use Rattle.tp_model.specs.Sectors.{sectors_of};
ghost use Rattle.tp_model.specs.Pool.{PlainPool, copy_id, hold_count, hold_total};
ghost use Rattle.tp_model.specs.declared.mode.Mode.TheVariants as mode;
ghost use Rattle.tp_model.specs.Calls.{Done, Flush, Found, Gave, HeldRead, Hold, LetGo, Line, Listed, NextId, Read, Refused, Sized, Status, ThinStatus, Trim, VolumeBlocks, Walk, Write, WriteZeroes};
ghost use Rattle.tp_model.specs.Clauses.{EndsInVolume, Meets, MetBy};
ghost use Rattle.tp_holders.specs.Holders.{holds_of};
ghost use Rattle.tp_msg.specs.Asked.{IsMessageBegun};
ghost use Rattle.tp_model.specs.Disk.{IsSettled};
ghost use Rattle.tp_pool.specs.AtMetadata.{shows};
ghost use Rattle.tp_model.specs.Slots.{listed};
ghost use Rattle.tp_served.specs.AtMetadata.{IsClosed, StaysInPlace, cached};
ghost use Rattle.tp_served.specs.Served.{IsUnwritten, got, on_cache};

use crate::inside::end;
use crate::lent::Lent;
use tp_cache::Start;
use tp_disk::Disk;
use tp_meta::Metadata;
use tp_model::{DevId, Refusal, Slots, Vb, Volumes};
use tp_msg::{LineBuffer, Message};

pub(crate) fn flush_on<D: Disk + Drop, M: Metadata + Drop, K: Start>(
    lent: &mut Lent<D, M>,
) -> Result<(), Refusal>
    requires { K.start ≡ (got lent.old.inside lent.old.there).cache }
    ensures { MetBy (cached M.Metadata) (got lent.old.inside lent.old.there) (got lent.new.inside lent.new.there) Flush (λ _. Done) result }
{
    let inside = lent.inside.take().unwrap();
    inside.facts();
    let mut pool = inside.begin::<K>();
    let answer = pool.flush();
    let after = end(pool);
    after.facts();
    lent.inside = Some(after);
    answer
}

pub(crate) fn read_on<D: Disk + Drop, M: Metadata + Drop, K: Start>(
    lent: &mut Lent<D, M>,
    id: DevId,
    sector: u64,
    out: &mut [u8],
) -> Result<(), Refusal>
    requires now { K.start ≡ (got lent.old.inside lent.old.there).cache }
    requires whole { length out.old % 512 ≡ 0 }
    requires range { EndsInVolume (cached M.Metadata) (got lent.old.inside lent.old.there) id (sector + length out.old / 512) }
    requires most { length out.old / 512 ≤ 2048 }
    ensures length { length out.new ≡ length out.old }
    ensures met { MetBy (cached M.Metadata) (got lent.old.inside lent.old.there) (got lent.new.inside lent.new.there) (Read id sector (length out.old / 512)) (λ _. Gave (sectors_of out.new)) result }
{
    let inside = lent.inside.take().unwrap();
    inside.facts();
    let mut pool = inside.begin::<K>();
    let answer = pool.read(id, sector, out);
    let after = end(pool);
    after.facts();
    lent.inside = Some(after);
    answer
}

pub(crate) fn held_read_on<D: Disk + Drop, M: Metadata + Drop, K: Start>(
    lent: &mut Lent<D, M>,
    id: DevId,
    sector: u64,
    out: &mut [u8],
) -> Result<(), Refusal>
    requires now { K.start ≡ (got lent.old.inside lent.old.there).cache }
    requires whole { length out.old % 512 ≡ 0 }
    requires range { EndsInVolume (cached M.Metadata) (got lent.old.inside lent.old.there) (copy_id id) (sector + length out.old / 512) }
    ensures length { length out.new ≡ length out.old }
    ensures met { MetBy (cached M.Metadata) (got lent.old.inside lent.old.there) (got lent.new.inside lent.new.there) (HeldRead id sector (length out.old / 512)) (λ _. Gave (sectors_of out.new)) result }
{
    let inside = lent.inside.take().unwrap();
    inside.facts();
    let mut pool = inside.begin::<K>();
    let answer = pool.held_read(id, sector, out);
    let after = end(pool);
    after.facts();
    lent.inside = Some(after);
    answer
}

pub(crate) fn write_on<D: Disk + Drop, M: Metadata + Drop, K: Start>(
    lent: &mut Lent<D, M>,
    id: DevId,
    sector: u64,
    bytes: &[u8],
    fua: bool,
) -> Result<(), Refusal>
    requires now { K.start ≡ (got lent.old.inside lent.old.there).cache }
    requires whole { length bytes.now % 512 ≡ 0 }
    requires range { EndsInVolume (cached M.Metadata) (got lent.old.inside lent.old.there) id (sector + length bytes.now / 512) }
    requires most { length bytes.now / 512 ≤ 2048 }
    ensures met { MetBy (cached M.Metadata) (got lent.old.inside lent.old.there) (got lent.new.inside lent.new.there) (Write id sector (sectors_of bytes.now) fua) (λ _. Done) result }
    ensures in_place { OnOk result (StaysInPlace M.Metadata (got lent.old.inside lent.old.there) (got lent.new.inside lent.new.there) (Write id sector (sectors_of bytes.now) fua)) }
    ensures read_only { (got lent.old.inside lent.old.there).besides.mode ≢ mode.Writable → IsUnwritten (got lent.old.inside lent.old.there) (got lent.new.inside lent.new.there) result }
{
    let inside = lent.inside.take().unwrap();
    inside.facts();
    let mut pool = inside.begin::<K>();
    let answer = pool.write(id, sector, bytes, fua);
    let after = end(pool);
    after.facts();
    lent.inside = Some(after);
    answer
}

pub(crate) fn trim_on<D: Disk + Drop, M: Metadata + Drop, K: Start>(
    lent: &mut Lent<D, M>,
    id: DevId,
    sector: u64,
    count: u64,
    fua: bool,
) -> Result<(), Refusal>
    requires now { K.start ≡ (got lent.old.inside lent.old.there).cache }
    requires range { EndsInVolume (cached M.Metadata) (got lent.old.inside lent.old.there) id (sector + count) }
    requires most { count ≤ 2048 }
    ensures met { MetBy (cached M.Metadata) (got lent.old.inside lent.old.there) (got lent.new.inside lent.new.there) (Trim id sector count fua) (λ _. Done) result }
    ensures read_only { (got lent.old.inside lent.old.there).besides.mode ≢ mode.Writable → IsUnwritten (got lent.old.inside lent.old.there) (got lent.new.inside lent.new.there) result }
{
    let inside = lent.inside.take().unwrap();
    inside.facts();
    let mut pool = inside.begin::<K>();
    let answer = pool.trim(id, sector, count, fua);
    let after = end(pool);
    after.facts();
    lent.inside = Some(after);
    answer
}

pub(crate) fn write_zeroes_on<D: Disk + Drop, M: Metadata + Drop, K: Start>(
    lent: &mut Lent<D, M>,
    id: DevId,
    sector: u64,
    count: u64,
    no_hole: bool,
    fua: bool,
) -> Result<(), Refusal>
    requires now { K.start ≡ (got lent.old.inside lent.old.there).cache }
    requires range { EndsInVolume (cached M.Metadata) (got lent.old.inside lent.old.there) id (sector + count) }
    requires most { count ≤ 2048 }
    ensures { MetBy (cached M.Metadata) (got lent.old.inside lent.old.there) (got lent.new.inside lent.new.there) (WriteZeroes id sector count no_hole fua) (λ _. Done) result }
{
    let inside = lent.inside.take().unwrap();
    inside.facts();
    let mut pool = inside.begin::<K>();
    let answer = Volumes::write_zeroes(&mut pool, id, sector, count, no_hole, fua);
    let after = end(pool);
    after.facts();
    lent.inside = Some(after);
    answer
}

pub(crate) fn next_id_on<D: Disk + Drop, M: Metadata + Drop, K: Start>(
    lent: &mut Lent<D, M>,
    from: DevId,
) -> Result<Option<DevId>, Refusal>
    requires { K.start ≡ (got lent.old.inside lent.old.there).cache }
    ensures { MetBy (cached M.Metadata) (got lent.old.inside lent.old.there) (got lent.new.inside lent.new.there) (NextId from) (λ found. Found found) result }
{
    let inside = lent.inside.take().unwrap();
    inside.facts();
    let mut pool = inside.begin::<K>();
    let answer = Volumes::next_id(&mut pool, from);
    let after = end(pool);
    after.facts();
    lent.inside = Some(after);
    answer
}

pub(crate) fn volume_blocks_on<D: Disk + Drop, M: Metadata + Drop, K: Start>(
    lent: &mut Lent<D, M>,
    id: DevId,
) -> Result<u32, Refusal>
    requires { K.start ≡ (got lent.old.inside lent.old.there).cache }
    ensures told { MetBy (cached M.Metadata) (got lent.old.inside lent.old.there) (got lent.new.inside lent.new.there) (VolumeBlocks id) (λ blocks. Sized blocks) result }
    ensures most { IfOk result (λ blocks. blocks ≤ 16777216) }
{
    let inside = lent.inside.take().unwrap();
    inside.facts();
    let mut pool = inside.begin::<K>();
    let answer = Volumes::volume_blocks(&mut pool, id);
    let after = end(pool);
    after.facts();
    lent.inside = Some(after);
    answer
}

pub(crate) fn status_on<D: Disk + Drop, M: Metadata + Drop, K: Start>(
    lent: &mut Lent<D, M>,
    out: &mut LineBuffer,
) -> usize
    requires { K.start ≡ (got lent.old.inside lent.old.there).cache }
    ensures met { Meets (cached M.Metadata) (got lent.old.inside lent.old.there) (got lent.new.inside lent.new.there) Status (Line (take result out.new)) }
    ensures fits { result ≤ 192 }
{
    let inside = lent.inside.take().unwrap();
    inside.facts();
    let pool = inside.begin::<K>();
    let length = pool.status(out);
    let after = end(pool);
    after.facts();
    lent.inside = Some(after);
    length
}

pub(crate) fn thin_status_on<D: Disk + Drop, M: Metadata + Drop, K: Start>(
    lent: &mut Lent<D, M>,
    id: DevId,
    out: &mut LineBuffer,
) -> Result<usize, Refusal>
    requires { K.start ≡ (got lent.old.inside lent.old.there).cache }
    ensures met { MetBy (cached M.Metadata) (got lent.old.inside lent.old.there) (got lent.new.inside lent.new.there) (ThinStatus id) (λ length. Line (take length out.new)) result }
    ensures fits { IfOk result (λ length. length ≤ 192) }
{
    let inside = lent.inside.take().unwrap();
    inside.facts();
    let mut pool = inside.begin::<K>();
    let answer = pool.thin_status(id, out);
    let after = end(pool);
    after.facts();
    lent.inside = Some(after);
    answer
}

pub(crate) fn walk_on<D: Disk + Drop, M: Metadata + Drop, K: Start>(
    lent: &mut Lent<D, M>,
    id: DevId,
    from: Vb,
    slots: &mut Slots,
) -> Result<(), Refusal>
    requires { K.start ≡ (got lent.old.inside lent.old.there).cache }
    ensures { MetBy (cached M.Metadata) (got lent.old.inside lent.old.there) (got lent.new.inside lent.new.there) (Walk id from) (λ _. Listed (listed slots.new.items)) result }
{
    let inside = lent.inside.take().unwrap();
    inside.facts();
    let mut pool = inside.begin::<K>();
    let answer = pool.walk(id, from, slots);
    let after = end(pool);
    after.facts();
    lent.inside = Some(after);
    answer
}

pub(crate) fn hold_on<D: Disk + Drop, M: Metadata + Drop, K: Start>(
    lent: &mut Lent<D, M>,
    id: DevId,
) -> Result<(), Refusal>
    requires now { K.start ≡ (got lent.old.inside lent.old.there).cache }
    requires few { hold_total (holds_of (got lent.old.inside lent.old.there).besides.holders) < 128 }
    ensures { MetBy (cached M.Metadata) (got lent.old.inside lent.old.there) (got lent.new.inside lent.new.there) (Hold id) (λ _. Done) result }
{
    let inside = lent.inside.take().unwrap();
    inside.facts();
    let mut pool = inside.begin::<K>();
    let answer = Volumes::hold(&mut pool, id);
    let after = end(pool);
    after.facts();
    lent.inside = Some(after);
    answer
}

pub(crate) fn let_go_on<D: Disk + Drop, M: Metadata + Drop, K: Start>(
    lent: &mut Lent<D, M>,
    id: DevId,
)
    requires now { K.start ≡ (got lent.old.inside lent.old.there).cache }
    requires held { 0 < hold_count (holds_of (got lent.old.inside lent.old.there).besides.holders) id }
    ensures { Meets (cached M.Metadata) (got lent.old.inside lent.old.there) (got lent.new.inside lent.new.there) (LetGo id) Done }
{
    let inside = lent.inside.take().unwrap();
    inside.facts();
    let mut pool = inside.begin::<K>();
    Volumes::let_go(&mut pool, id);
    let after = end(pool);
    after.facts();
    lent.inside = Some(after);
}

/// Makes what a message asks for, but for the commit behind it.
pub(crate) fn change_on<D: Disk + Drop, M: Metadata + Drop, K: Start>(
    lent: &mut Lent<D, M>,
    message: &Message,
) -> Option<Result<(), Refusal>>
    requires { K.start ≡ (got lent.old.inside lent.old.there).cache }
    ensures { IsMessageBegun (cached M.Metadata) (got lent.old.inside lent.old.there) (got lent.new.inside lent.new.there) message.now result }
{
    let inside = lent.inside.take().unwrap();
    inside.facts();
    let mut pool = inside.begin::<K>();
    let answer = pool.change(message);
    let after = end(pool);
    after.facts();
    lent.inside = Some(after);
    answer
}

pub(crate) fn close_on<D: Disk + Drop, M: Metadata + Drop, K: Start>(
    lent: Lent<D, M>,
) -> (Result<(), Refusal>, D)
    requires { K.start ≡ (got lent.inside lent.there).cache }
    ensures closed { MatchResult result.0
        (λ _. IsClosed M.Metadata (got lent.inside lent.there) (D.state result.1) Done)
        (λ reason. IsClosed M.Metadata (got lent.inside lent.there) (D.state result.1) (Refused reason)) }
    ensures settled { OnOk result.0 ((s : PlainPool) → shows M.Metadata (on_cache (got lent.inside lent.there)) s → IsSettled (D.state result.1).cells) }
    ensures only { IfErr result.0 (λ reason. (reason ≡ Refusal.Failed) ⊎ (reason ≡ Refusal.Fault)) }
{
    let inside = lent.into_inside();
    inside.facts();
    let pool = inside.begin::<K>();
    let (answer, life) = pool.close();
    let cache = life.end();
    cache.facts();
    (answer, cache.into_inner())
}
