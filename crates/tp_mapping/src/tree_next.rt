//! The devices of a mapping on trees in the order of their ids.

ghost use Rattle.std.specs.Prelude.{◌≡◌, ◌≤◌, ◌^◌, IfErr, IfOk};
ghost use Rattle.tp_model.specs.Geometry.{sectors_of_image};
ghost use Rattle.tp_mapping.specs.Mapping.{LooksUp};
ghost use Rattle.tp_mapping.specs.Next.{IsNext};
ghost use Rattle.tp_mapping.specs.Trees.{StandForVolumes};

use crate::trees::TreeMapping;
use tp_btree::least_from;
use tp_counts::StoreError;
use tp_disk::Disk;
use tp_layout::TreeKind;
use tp_model::DevId;

/// The device of this number, or `Damaged` where there is none.
fn device_of(number: u64) -> Result<DevId, StoreError>
    ensures value { IfOk result (λ device. device ≡ number) }
    ensures err { IfErr result (λ error. (error ≡ StoreError.Damaged) × (2 ^ 24 ≤ number)) }
{
    if number >= 16_777_216 {
        return Err(StoreError::Damaged);
    }
    Ok(DevId::new(number as u32))
}

impl TreeMapping {
    pub(crate) fn next_device<D: Disk>(
        &self,
        disk: &mut D,
        from: DevId,
    ) -> Result<Option<DevId>, StoreError>
        requires disk { sectors_of_image self.now.tm.geometry ≤ (D.state disk.old).size }
        ensures { LooksUp (StandForVolumes self.now) (D.state disk.old) (D.state disk.new) result (λ answer now. IsNext from now answer) }
    {
        let root = self.device_root()?;
        let first = from.number() as u64;
        let Some(entry) = least_from(&self.tm, disk, TreeKind::Device, root, first)? else {
            return Ok(None);
        };
        Ok(Some(device_of(entry.key)?))
    }
}
