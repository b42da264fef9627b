//! Slots and their sharing, over the list of all slots of a pool.
ghost use Rattle.std.specs.Prelude.{◌≡◌, ◌==◌, ◌||◌, ◌&&◌, not, map};
ghost use Rattle.std.specs.List.{list_all, list_any};
ghost use Rattle.tp_model.specs.Pool.{PlainPool, all_slots, slot_at, different};
ghost use Rattle.tp_model.specs.Pool as pool;
ghost use Rattle.tp_plain.specs.Slots.{triples, is_alone};

/// A mapped block of a volume, and the label of its data block.
#[derive(Clone, Copy, Debug)]
pub struct Slot {
    pub volume: u32,
    pub block: u32,
    pub label: u32,
}

fn has_label(labels: &[u32], label: u32) -> bool
    ensures { result ≡ list_any (λ y. y == label) labels.now }
{
    labels.iter().any(|other| *other == label)
}

fn count_labels(labels: &[u32]) -> usize
    ensures { result ≡ different labels.now }
{
    let mut count = 0;
    for i in 0..labels.len() {
        if !has_label(&labels[i + 1..], labels[i]) {
            count += 1;
        }
    }
    count
}

/// How many data blocks a pool uses whose slots have these labels.
pub fn used(labels: &[u32]) -> usize
    ensures { (p : PlainPool) → map (λ s. s.2) (all_slots p) ≡ labels.now → result ≡ pool.used p }
{
    count_labels(labels)
}

fn is_alone_with(slots: &[Slot], volume: u32, block: u32, label: u32) -> bool
    ensures { result ≡ list_all (λ s. not (s.label == label) || (s.volume == volume && s.block == block)) slots.now }
{
    slots.iter().all(|slot| !(slot.label == label)
        || (slot.volume == volume && slot.block == block))
}

pub(crate) fn is_alone(slots: &[Slot], volume: u32, block: u32, label: Option<u32>) -> bool
    ensures { result ≡ is_alone slots.now volume block label }
{
    match label {
        None => false,
        Some(label) => is_alone_with(slots, volume, block, label),
    }
}

/// Whether no other slot of a pool with these slots has the label of this one.
pub fn is_exclusive(slots: &[Slot], volume: u32, block: u32, label: Option<u32>) -> bool
    ensures { (p : PlainPool) → all_slots p ≡ triples slots.now → slot_at p volume block ≡ label → result ≡ pool.is_exclusive p volume block }
{
    is_alone(slots, volume, block, label)
}
