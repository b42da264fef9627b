//! Users of walks over the slots of a volume.
ghost use Rattle.std.specs.Prelude.{◌≡◌, IfOk, is_some};
ghost use Rattle.tp_model.specs.Pool.{PlainPool, slot_at};
ghost use Rattle.tp_served.specs.AtMetadata.{cached};
ghost use Rattle.tp_users.specs.Walked.{begins_at};

use tp_disk::Disk;
use tp_meta::Metadata;
use tp_model::{DevId, Refusal, Slot, Slots, Vb, Walked};
use tp_served::Served;

/// Whether the first of some slots is that of a block.
fn begins_at(slots: &[Slot], block: Vb) -> bool
    ensures { result ≡ begins_at block slots.now }
{
    if slots.is_empty() {
        return false;
    }
    slots[0].block() == block
}

/// Whether a block of a volume has a slot.
pub fn has_slot<D: Disk + Drop, M: Metadata + Drop>(
    pool: &mut Served<D, M>,
    id: DevId,
    block: Vb,
) -> Result<bool, Refusal>
    ensures { IfOk result (λ answer. (s : PlainPool) → (cached M.Metadata).shows pool.old s → answer ≡ is_some (slot_at s id block)) }
{
    let mut slots = Slots::new();
    pool.walk(id, block, &mut slots)?;
    Ok(begins_at(&slots, block))
}
