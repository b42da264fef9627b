//! The superblock of the image.
ghost use Rattle.std.specs.Prelude.{◌≡◌, ◌≤◌, ◌⊎◌, Err, Ok, IfErr, IfOk, IsTrue, not};
ghost use Rattle.tp_model.specs.Geometry.{sectors_of_image};
ghost use Rattle.tp_model.specs.Disk.{after_read, seen};
ghost use Rattle.tp_image.specs.Faults.{HasBadSuper};
ghost use Rattle.tp_image.specs.Slots.{Chooses};
ghost use Rattle.tp_check.specs.Errors.{is_fault};
ghost use Rattle.tp_check.specs.declared.error.CheckError.{CheckError};

use crate::error::CheckError;
use tp_disk::Disk;
use tp_layout::Superblock;
use tp_model::Refusal;
use tp_super::load;

/// The superblock that the slots give, where the disk is as long as it says: else `BadSuper`.
pub(crate) fn superblock_on<D: Disk>(disk: &mut D) -> Result<Superblock, CheckError>
    ensures found { IfOk result (λ s. IsTrue (D.state disk.old).is_honest → Chooses (seen (D.state disk.old).cells) (Ok s)) }
    ensures whole { IfOk result (λ s. sectors_of_image s.geometry ≤ (D.state disk.old).size) }
    ensures bad { result ≡ Err CheckError.BadSuper → IsTrue (D.state disk.old).is_honest → HasBadSuper (seen (D.state disk.old).cells) }
    ensures only { IfErr result (λ e. (e ≡ CheckError.Fault) ⊎ (e ≡ CheckError.BadSuper)) }
    ensures state { D.state disk.new ≡ after_read (not (is_fault result)) (D.state disk.old) }
{
    match load(disk) {
        Ok(superblock) => {
            if disk.sectors() < superblock.geometry.image_sectors() {
                return Err(CheckError::BadSuper);
            }
            Ok(superblock)
        }
        Err(Refusal::Fault) => Err(CheckError::Fault),
        Err(_) => Err(CheckError::BadSuper),
    }
}
