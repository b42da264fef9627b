//! The status lines of a pool and of its volumes.
ghost use Rattle.std.specs.Prelude.{◌≡◌, ◌<◌, ◌≤◌, [], ◌∷◌, Err, IfErr, IfOk, MatchResult, None, false, is_some, not, take};
ghost use Rattle.tp_model.specs.Pool.{PlainPool};
ghost use Rattle.tp_model.specs.Refusals.{is_fault};
ghost use Rattle.tp_model.specs.Calls.{IsOneOf, Line, Refused, Status, ThinStatus, is_failed, refusal_of};
ghost use Rattle.tp_model.specs.Clauses.{Flushes, IsAnswered};
ghost use Rattle.tp_model.specs.Disk.{after_read};
ghost use Rattle.tp_sharing.specs.Volumes.{device_of};
ghost use Rattle.tp_stored.specs.Contents.{Contents};
ghost use Rattle.tp_pool.specs.AtMetadata.{PoolCalled, PoolRefused, served, shows, view};
ghost use Rattle.tp_pool.specs.Telling.{TellsLine, TellsVolumeLine};

use crate::pool::{Pool, is_failed};
use tp_disk::Disk;
use tp_meta::Metadata;
use tp_model::{DevId, Refusal, Vb};
use tp_msg::{LineBuffer, PoolStatus, VolumeStatus, print_status, print_thin};

fn number_of(block: Option<Vb>) -> Option<u32>
    ensures { result ≡ block }
{
    match block {
        Some(block) => Some(block.number()),
        None => None,
    }
}

/// A number that fits, or the greatest.
fn narrowed(number: u64) -> u32
    ensures { number < 4294967296 → result ≡ number }
{
    if number > u32::MAX as u64 {
        return u32::MAX;
    }
    number as u32
}

impl<D: Disk, M: Metadata> Pool<D, M> {
    /// What the pool's line tells.
    fn pool_status(&self) -> PoolStatus
        ensures { (s : PlainPool) → shows M.Metadata self.now s → TellsLine result s }
    {
        let geometry = self.metadata.geometry();
        PoolStatus {
            transaction_id: self.metadata.transaction_id(),
            used_metadata: self.metadata.used_metadata(),
            metadata_blocks: geometry.metadata_blocks(),
            used_data: narrowed(self.metadata.used_data()),
            data_blocks: geometry.data_blocks(),
            mode: self.mode,
            needs_check: self.metadata.needs_check(),
            held_root: self.metadata.held_root(),
        }
    }

    /// Writes the pool's status line into a buffer and answers its length; the bytes behind it are of no meaning. No call of the disk is made.
    ///
    /// It tells how many data blocks some volume maps; those that only wait for a commit are not counted. A failed pool's line is `Fail`.
    pub fn status(&self, out: &mut LineBuffer) -> usize
        ensures called { PoolCalled M.Metadata self.now self.now Status (Line (take result out.new)) }
        ensures answered { IsAnswered (view M.Metadata) self.now self.now Status (Line (take result out.new)) }
        ensures flushes { Flushes (served M.Metadata) self.now self.now Status (Line (take result out.new)) }
        ensures fits { result ≤ 192 }
    {
        let status = self.pool_status();
        print_status(&status, out)
    }

    /// What a volume's line tells. A failed pool has a line for every id.
    fn volume_status(&mut self, id: DevId) -> Result<VolumeStatus, Refusal>
        ensures told { IfOk result (λ status. (s : PlainPool) → shows M.Metadata self.old s → (refusal_of s (ThinStatus id) ≡ None) × TellsVolumeLine status s id) }
        ensures sectors { IfOk result (λ status. 0 < status.block_sectors) }
        ensures absent { result ≡ Err Refusal.NoSuchDevice → (now kept : Contents) → M.stands self.old.metadata self.old.disk now kept → false ≡ is_some (device_of id now.volumes) }
        ensures damaged { result ≡ Err Refusal.Damaged → (now kept : Contents) → M.stands self.old.metadata self.old.disk now kept → ⊥ }
        ensures only { IfErr result (λ reason. IsOneOf reason (Refusal.NoSuchDevice ∷ Refusal.Fault ∷ Refusal.Damaged ∷ [])) }
        ensures works { IfErr result (λ reason. is_failed self.old.mode ≡ false) }
        ensures held { self.new ≡ record self.old { disk = after_read (not (is_fault result)) self.old.disk } }
    {
        let block_sectors = self.metadata.geometry().block_sectors();
        if is_failed(self.mode) {
            return Ok(VolumeStatus {
                mode: self.mode,
                block_sectors,
                mapped_blocks: 0,
                highest_block: None,
            });
        }
        let Some(mapped_blocks) = self.metadata.mapped(&mut self.disk, id)? else {
            return Err(Refusal::NoSuchDevice);
        };
        let highest = self.metadata.highest(&mut self.disk, id)?;
        Ok(VolumeStatus {
            mode: self.mode,
            block_sectors,
            mapped_blocks,
            highest_block: number_of(highest),
        })
    }

    /// Writes a volume's status line into a buffer and answers its length, the bytes behind it being of no meaning. It changes nothing, whatever it
    /// answers.
    ///
    /// The line tells how many sectors of 512 bytes are mapped, and the last sector of the highest block that is. In a failed pool it is `Fail`, for every
    /// id.
    ///
    /// Refused by `NoSuchDevice` or `Fault`.
    pub fn thin_status(&mut self, id: DevId, out: &mut LineBuffer) -> Result<usize, Refusal>
        ensures called { MatchResult result
            (λ length. PoolCalled M.Metadata self.old self.new (ThinStatus id) (Line (take length out.new)))
            (λ reason. PoolRefused M.Metadata self.old self.new (ThinStatus id) reason) }
        ensures answered { MatchResult result
            (λ length. IsAnswered (view M.Metadata) self.old self.new (ThinStatus id) (Line (take length out.new)))
            (λ reason. IsAnswered (view M.Metadata) self.old self.new (ThinStatus id) (Refused reason)) }
        ensures flushes { MatchResult result
            (λ length. Flushes (served M.Metadata) self.old self.new (ThinStatus id) (Line (take length out.new)))
            (λ reason. Flushes (served M.Metadata) self.old self.new (ThinStatus id) (Refused reason)) }
        ensures held { self.new ≡ record self.old { disk = after_read (not (is_fault result)) self.old.disk } }
        ensures fits { IfOk result (λ length. length ≤ 192) }
    {
        let status = self.volume_status(id)?;
        Ok(print_thin(&status, out))
    }
}
