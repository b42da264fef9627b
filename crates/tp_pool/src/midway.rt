//! A flush in parts, between which the pool is read.
//!
//! Between two parts the pool shows nothing, since a stop leaves what was kept or what is being kept. So no call is to be made of it then but the
//! next part and shared reads (`Besides::read_midway`): of others nothing is said. Whoever hands it on gives it a type of its own (`tp_served`).
ghost use Rattle.std.specs.Prelude.{◌≡◌, ◌+◌, ◌/◌, ◌%◌, ◌≤◌, Bool, Err, IfErr, IfOk, IsTrue, MatchOption, OnOk, false, length, true};
ghost use Rattle.tp_model.specs.declared.mode.Mode.TheVariants as mode;
ghost use Rattle.tp_model.specs.Geometry.{sectors_of_image};
ghost use Rattle.tp_model.specs.Sectors.{sectors_of};
ghost use Rattle.tp_model.specs.Clauses.{EndsInVolume};
ghost use Rattle.tp_pool.specs.Besides.{besides_of};
ghost use Rattle.tp_pool.specs.Held.{Fits, Held, failed_by};
ghost use Rattle.tp_pool.specs.AtMetadata.{IsFlushed, IsMidFlush, IsSharedRead, view};

use crate::pool::{Besides, Pool};
use crate::shared::read_parts;
use tp_disk::{Disk, Fault, SharedDisk};
use tp_meta::Metadata;
use tp_model::{DevId, Mode, Refusal, Volumes};

impl<D: Disk, M: Metadata> Pool<D, M> {
    /// The first part of a commit of all that was done. False where nothing has changed.
    fn begin_all(&mut self) -> Result<bool, Refusal>
        requires works { self.old.mode ≡ mode.Writable }
        ensures held { self.new ≡ record self.old { disk = self.new.disk } }
        ensures begun { IfOk result (λ is_midway. is_midway ≡ true → IsMidFlush M.Metadata self.old false self.new.disk) }
        ensures none { IfOk result (λ is_midway. is_midway ≡ false → self.new ≡ self.old) }
        ensures failed { IfErr result (λ reason. IsFlushed M.Metadata self.old (failed_by reason self.new) (Err reason)) }
    {
        let is_midway = match self.metadata.begin(&mut self.disk) {
            Ok(is_midway) => is_midway,
            Err(Fault) => return Err(Refusal::Fault),
        };
        Ok(is_midway)
    }

    /// The second part of a commit that was begun.
    fn go_on_all(&mut self) -> Result<(), Refusal>
        ensures held { self.new ≡ record self.old { disk = self.new.disk } }
        ensures named { OnOk result ((old : Held M) → self.old ≡ record old { disk = self.old.disk } → IsMidFlush M.Metadata old false self.old.disk
            → IsMidFlush M.Metadata old true self.new.disk) }
        ensures failed { IfErr result (λ reason. (old : Held M) → self.old ≡ record old { disk = self.old.disk } → IsMidFlush M.Metadata old false self.old.disk
            → IsFlushed M.Metadata old (failed_by reason self.new) (Err reason)) }
    {
        match self.metadata.go_on(&mut self.disk) {
            Ok(()) => {}
            Err(Fault) => return Err(Refusal::Fault),
        }
        Ok(())
    }

    /// The last part.
    fn end_all(&mut self) -> Result<(), Refusal>
        ensures done { OnOk result ((old : Held M) → self.old ≡ record old { disk = self.old.disk } → IsMidFlush M.Metadata old true self.old.disk
            → IsFlushed M.Metadata old self.new result) }
        ensures failed { IfErr result (λ reason. (old : Held M) → self.old ≡ record old { disk = self.old.disk } → IsMidFlush M.Metadata old true self.old.disk
            → IsFlushed M.Metadata old (failed_by reason self.new) (Err reason)) }
    {
        match self.metadata.end(&mut self.disk) {
            Ok(()) => {}
            Err(Fault) => return Err(Refusal::Fault),
        }
        Ok(())
    }

    /// Begins a commit, and has failed where the disk did.
    fn begin_or_fail(&mut self) -> Option<Result<(), Refusal>>
        requires works { self.old.mode ≡ mode.Writable }
        ensures { MatchOption result
            ((self.new ≡ record self.old { disk = self.new.disk }) × IsMidFlush M.Metadata self.old false self.new.disk)
            (λ answer. IsFlushed M.Metadata self.old self.new answer) }
    {
        match self.begin_all() {
            Ok(is_midway) => {
                if is_midway {
                    return None;
                }
                Some(Volumes::flush(self))
            }
            Err(reason) => Some(self.settle(Err(reason))),
        }
    }

    /// The first part of a flush: its answer where that is all of it, as where nothing has changed. None where parts are left: then what it wrote can be
    /// brought to the device (`sync_ahead`) while READs go on, and `go_on_flush` is to be called.
    pub fn begin_flush(&mut self) -> Option<Result<(), Refusal>>
        ensures { MatchOption result
            ((self.new ≡ record self.old { disk = self.new.disk }) × IsMidFlush M.Metadata self.old false self.new.disk)
            (λ answer. IsFlushed M.Metadata self.old self.new answer) }
    {
        match self.mode {
            Mode::Failed => Some(Volumes::flush(self)),
            Mode::ReadOnly => Some(Volumes::flush(self)),
            Mode::Writable => self.begin_or_fail(),
        }
    }

    /// The last part of a commit that was begun; the pool has failed where the disk did.
    fn end_or_fail(&mut self) -> Result<(), Refusal>
        ensures { (old : Held M) → self.old ≡ record old { disk = self.old.disk } → IsMidFlush M.Metadata old true self.old.disk
            → IsFlushed M.Metadata old self.new result }
    {
        let answer = self.end_all();
        self.settle(answer)
    }

    /// The second part of a flush, behind `begin_flush`: its answer where the disk failed, and else None. What it wrote can then be brought to the device while READs
    /// go on, and `end_flush` is to be called.
    pub fn go_on_flush(&mut self) -> Option<Result<(), Refusal>>
        ensures { (old : Held M) → self.old ≡ record old { disk = self.old.disk } → IsMidFlush M.Metadata old false self.old.disk
            → MatchOption result
            ((self.new ≡ record old { disk = self.new.disk }) × IsMidFlush M.Metadata old true self.new.disk)
            (λ answer. IsFlushed M.Metadata old self.new answer) }
    {
        match self.go_on_all() {
            Ok(()) => None,
            Err(reason) => Some(self.settle(Err(reason))),
        }
    }

    /// All parts that are left of a flush, behind `go_on_flush` where `is_named`, else behind `begin_flush`. The whole is a flush of the pool as it was.
    pub fn end_flush(&mut self, is_named: bool) -> Result<(), Refusal>
        ensures { (old : Held M) → self.old ≡ record old { disk = self.old.disk } → IsMidFlush M.Metadata old is_named self.old.disk
            → IsFlushed M.Metadata old self.new result }
    {
        if is_named {
            return self.end_or_fail();
        }
        match self.go_on_flush() {
            Some(answer) => answer,
            None => self.end_or_fail(),
        }
    }
}

impl<M: Metadata> Besides<M> {
    /// Reads sectors of a volume of a pool in the midst of a flush, which these make on a disk: true where `out` has what `read_shared` gave before the flush was
    /// begun. False says nothing, and `out` may hold anything behind it.
    pub fn read_midway<D: SharedDisk>(
        &self,
        disk: &D,
        id: DevId,
        sector: u64,
        out: &mut [u8],
    ) -> bool
        requires disk { sectors_of_image (M.geometry self.now.metadata) ≤ (D.state disk.now).size }
        requires whole { length out.old % 512 ≡ 0 }
        requires within { Fits (M.geometry self.now.metadata) (sector + length out.old / 512) }
        ensures length { length out.new ≡ length out.old }
        ensures read { IsTrue result → (old : Held M) (is_named : Bool) → besides_of old ≡ self.now → IsMidFlush M.Metadata old is_named (D.state disk.now)
            → EndsInVolume (view M.Metadata) old id (sector + length out.old / 512)
            → IsSharedRead M.Metadata old id sector (length out.old / 512) (sectors_of out.new) }
    {
        read_parts(
            disk,
            &self.metadata,
            &self.blocks,
            self.mode,
            id,
            sector,
            out,
        )
    }
}
