//! The names of data blocks.

ghost use Rattle.std.specs.Prelude.{◌≡◌, ◌+◌, ◌-◌, ◌<◌, ◌^◌, ◌∷◌, ℕ, List, Err, IfErr, IfSome, MatchOption, OnOk, not, set, slice_index};
ghost use Rattle.tp_model.specs.Disk.{DiskState};
ghost use Rattle.tp_counts.specs.Counts.{IsFree, IsLeastFree};
ghost use Rattle.tp_refs.specs.Store.{Store, count_of, with_count};
ghost use Rattle.tp_tm.specs.Tm.{IsSized, data_counts, free_data};
ghost use Rattle.tp_tm.specs.Holds.{Holds};

use crate::Tm;
use tp_counts::StoreError;
use tp_model::Pb;

impl Tm {
    /// Takes a free data block, the least one, with one reference, which is held. `None` exactly where no data block is
    /// free; then nothing changes.
    pub fn fresh_data(&mut self) -> Option<Pb>
        ensures found { MatchOption result ((b : ℕ) → IsFree (data_counts self.old) b → ⊥) (λ place. IsLeastFree (data_counts self.old) place) }
        ensures count { MatchOption result (free_data self.old ≡ 0) (λ place. 0 < free_data self.old) }
        ensures taken { MatchOption result (self.new ≡ self.old) (λ place. self.new ≡ record self.old { data_now = set self.old.data_now place 1 }) }
        ensures holds { IfSome result (λ place. (disk : DiskState) (opens held : List ℕ) (s : Store) → Holds self.old disk opens held s
            → Holds self.new disk opens ((self.old.geometry.metadata_blocks + place) ∷ held) (with_count s (self.old.geometry.metadata_blocks + place) 1)) }
    {
        let place = self.find_free_data()?;
        self.name_data(place);
        Some(place)
    }

    /// The least data block that is free. It is not taken by that.
    fn find_free_data(&mut self) -> Option<Pb>
        ensures found { MatchOption result ((b : ℕ) → IsFree (data_counts self.old) b → ⊥) (λ place. IsLeastFree (data_counts self.old) place) }
        ensures count { MatchOption result (free_data self.old ≡ 0) (λ place. 0 < free_data self.old) }
        ensures unchanged { self.new ≡ self.old }
    {
        let place = self.data_counts.find_free()?;
        Some(Pb::new(place as u32))
    }

    /// One name more of a data block.
    fn name_data(&mut self, place: Pb)
        requires inside { place < self.old.geometry.data_blocks }
        requires room { slice_index self.old.data_now place + 1 < 2 ^ 32 }
        ensures more { self.new ≡ record self.old { data_now = set self.old.data_now place (slice_index self.old.data_now place + 1) } }
        ensures sized { IsSized self.old }
    {
        self.data_counts.inc(place.number() as u64);
    }

    /// One name fewer of a data block.
    fn unname_data(&mut self, place: Pb)
        requires inside { place < self.old.geometry.data_blocks }
        requires named { 0 < slice_index self.old.data_now place }
        ensures fewer { self.new ≡ record self.old { data_now = set self.old.data_now place (slice_index self.old.data_now place - 1) } }
        ensures sized { IsSized self.old }
    {
        self.data_counts.dec(place.number() as u64);
    }

    /// One reference more to a data block that is held.
    ///
    /// `Damaged` exactly where its count is the greatest `u32`, which no count of references is.
    pub fn share_data(&mut self, place: Pb) -> Result<(), StoreError>
        requires inside { place < self.old.geometry.data_blocks }
        ensures more { OnOk result (self.new ≡ record self.old { data_now = set self.old.data_now place (slice_index self.old.data_now place + 1) }) }
        ensures holds { OnOk result ((disk : DiskState) (opens held : List ℕ) (s : Store) → Holds self.old disk opens ((self.old.geometry.metadata_blocks + place) ∷ held) s
            → Holds self.new disk opens ((self.old.geometry.metadata_blocks + place) ∷ (self.old.geometry.metadata_blocks + place) ∷ held)
            (with_count s (self.old.geometry.metadata_blocks + place) (count_of s (self.old.geometry.metadata_blocks + place) + 1))) }
        ensures err { IfErr result (λ error. (error ≡ StoreError.Damaged) × (self.new ≡ self.old) × (slice_index self.old.data_now place + 1 ≡ 2 ^ 32)) }
    {
        if self.data_count(place) == u32::MAX {
            return Err(StoreError::Damaged);
        }
        self.name_data(place);
        Ok(())
    }

    /// Gives up a reference to a data block that is held. A block that nothing names any more is free after the next
    /// commit, or at once where the last one does not name it.
    ///
    /// `Damaged` exactly where its count is zero, which that of a held block is not.
    pub fn release_data(&mut self, place: Pb) -> Result<(), StoreError>
        requires inside { place < self.old.geometry.data_blocks }
        ensures fewer { OnOk result (self.new ≡ record self.old { data_now = set self.old.data_now place (slice_index self.old.data_now place - 1) }) }
        ensures holds { OnOk result ((disk : DiskState) (opens held : List ℕ) (s : Store) → Holds self.old disk opens ((self.old.geometry.metadata_blocks + place) ∷ held) s
            → Holds self.new disk opens held (with_count s (self.old.geometry.metadata_blocks + place) (count_of s (self.old.geometry.metadata_blocks + place) - 1))) }
        ensures err { IfErr result (λ error. (error ≡ StoreError.Damaged) × (self.new ≡ self.old) × (slice_index self.old.data_now place ≡ 0)) }
    {
        if self.data_count(place) == 0 {
            return Err(StoreError::Damaged);
        }
        self.unname_data(place);
        Ok(())
    }
}
