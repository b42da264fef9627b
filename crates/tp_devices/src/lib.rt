//! What a device holds before a pool is made on it.
//!
//! A pool has its two superblock slots in the first 8192 bytes, where file systems and partition tables have theirs. A device that has other bytes there than zeros or
//! a pool's is somebody else's.
#![tactic(auto)]

ghost use Rattle.std.specs.Prelude.{◌≡◌, ◌<◌, ◌≤◌, IfOk, IsTrue, MatchBool, bytes_eq, is_ok};
ghost use Rattle.tp_model.specs.Sectors.{sector_at, zero_sector};
ghost use Rattle.tp_model.specs.Disk.{after_read, seen};
ghost use Rattle.tp_devices.specs.Heads.{HasOther, IsBlank, IsForeign, IsFree};

use tp_disk::{Disk, Fault, zeros};
use tp_model::Refusal;
use tp_super::load;

/// The two superblock slots of a pool stand in so many sectors.
const HEAD: u64 = 16;

/// Whether the first 8192 bytes of a disk are zeros, or those of a pool, also of a damaged one or of another version. It writes nothing. `Fault` where a read failed.
pub fn is_free<D: Disk>(disk: &mut D) -> Result<bool, Fault>
    requires { 16 ≤ (D.state disk.old).size }
    ensures found { IfOk result (λ free. IsTrue (D.state disk.old).is_honest
        → MatchBool free (IsFree (seen (D.state disk.old).cells)) (IsForeign (seen (D.state disk.old).cells))) }
    ensures state { D.state disk.new ≡ after_read (is_ok result) (D.state disk.old) }
{
    match load(disk) {
        Ok(_) => Ok(true),
        Err(Refusal::NotAPool) => is_blank(disk),
        Err(Refusal::Fault) => Err(Fault),
        Err(_) => Ok(true),
    }
}

/// Whether the first 8192 bytes of a disk are zeros.
fn is_blank<D: Disk>(disk: &mut D) -> Result<bool, Fault>
    requires { 16 ≤ (D.state disk.old).size }
    ensures found { IfOk result (λ blank. IsTrue (D.state disk.old).is_honest
        → MatchBool blank (IsBlank (seen (D.state disk.old).cells)) (HasOther (seen (D.state disk.old).cells))) }
    ensures state { D.state disk.new ≡ after_read (is_ok result) (D.state disk.old) }
{
    for at in 0..HEAD {
        let blank = is_zero_at(disk, at)?;
        if !blank {
            return Ok(false);
        }
    }
    Ok(true)
}

/// Whether a sector of a disk is zero.
fn is_zero_at<D: Disk>(disk: &mut D, at: u64) -> Result<bool, Fault>
    requires { at < (D.state disk.old).size }
    ensures found { IfOk result (λ zero. IsTrue (D.state disk.old).is_honest → zero ≡ bytes_eq (sector_at (seen (D.state disk.old).cells) at) zero_sector) }
    ensures state { D.state disk.new ≡ after_read (is_ok result) (D.state disk.old) }
{
    let mut sector = [0; 512];
    disk.read(at, &mut sector)?;
    Ok(is_zero(&sector))
}

/// Whether all bytes of a sector are zero.
fn is_zero(sector: &[u8]) -> bool
    ensures { result ≡ bytes_eq sector.now zero_sector }
{
    sector == zeros(1)
}
