//! How many devices a pool has, where that is known.

ghost use Rattle.std.specs.Prelude.{◌≡◌, ◌+◌, ◌≤◌, ℕ, IfOk, IfSome, IsTrue, is_err, not};
ghost use Rattle.tp_model.specs.Geometry.{sectors_of_image};
ghost use Rattle.tp_model.specs.Disk.{after_read};
ghost use Rattle.tp_sharing.specs.Volumes.{Volumes, devices_in};
ghost use Rattle.tp_mapping.specs.Trees.{StandForVolumes};

use tp_counts::StoreError;
use tp_disk::{Disk, Fault};
use tp_mapping::{Mapping, TreeMapping};

/// Counts the devices. `None` where what was read is no tree of devices.
pub(crate) fn count_devices<D: Disk>(
    mapping: &TreeMapping,
    disk: &mut D,
) -> Result<Option<u32>, Fault>
    requires disk { sectors_of_image mapping.now.tm.geometry ≤ (D.state disk.old).size }
    ensures counted { IfOk result (λ devices. IsTrue (D.state disk.old).is_honest → (now kept : Volumes) → StandForVolumes mapping.now (D.state disk.old) now kept
        → IfSome devices (λ n. n ≡ devices_in now)) }
    ensures state { D.state disk.new ≡ after_read (not (is_err result)) (D.state disk.old) }
{
    match mapping.devices(disk) {
        Ok(count) => Ok(Some(count)),
        Err(StoreError::Damaged) => Ok(None),
        Err(StoreError::Fault) => Err(Fault),
    }
}

/// The number when a device was added.
pub(crate) fn one_more(devices: Option<u32>) -> Option<u32>
    ensures { (n : ℕ) → IfSome devices (λ m. m ≡ n) → IfSome result (λ m. m ≡ n + 1) }
{
    let Some(count) = devices else {
        return None;
    };
    count.checked_add(1)
}

/// The number when a device was removed.
pub(crate) fn one_fewer(devices: Option<u32>) -> Option<u32>
    ensures { (n : ℕ) → IfSome devices (λ m. m ≡ n + 1) → IfSome result (λ m. m ≡ n) }
{
    let Some(count) = devices else {
        return None;
    };
    count.checked_sub(1)
}
