//! Laws of the definitions, each the contract of a function that does nothing.
ghost use Rattle.std.specs.Prelude.{◌≡◌, ◌⊎◌, length};
ghost use Rattle.tp_model.specs.Disk.{DiskState, seen};
ghost use Rattle.tp_model.specs.DiskStops.{Leaves, LeavesOnly};
ghost use Rattle.tp_layout.specs.declared.superblock.Superblock.{Superblock};
ghost use Rattle.tp_refs.specs.Store.{Store};
ghost use Rattle.tp_stored.specs.Commit.{IsCommit, IsSound};
ghost use Rattle.tp_stored.specs.Contents.{SameData, contents_of};
ghost use Rattle.tp_tm.specs.Tm.{Tm};
ghost use Rattle.tp_tm.specs.Keeps.{LeavesKept};
ghost use Rattle.tp_meta.specs.Committing.{IsNextCommit, IsStillCommit, KeepsCounts};
ghost use Rattle.tp_meta.specs.Metadata.{IsChanging, IsCommitting};

/// While nothing is changed that the counts of the last commit name, a stop leaves that commit, with the data blocks that
/// it might have left before.
pub fn changes_leave_the_last_commit()
    ensures left { (t : Tm) (last : Superblock) (kept : Store) (old new : DiskState) → Leaves (λ image. IsCommit image last kept) old.cells
        → length t.metadata_kept ≡ last.geometry.metadata_blocks → KeepsCounts t last kept → LeavesKept t.metadata_kept old new → Leaves (λ image. IsCommit image last kept) new.cells }
    ensures changing { (t : Tm) (last : Superblock) (kept : Store) (old new : DiskState) → Leaves (λ image. IsCommit image last kept) old.cells
        → length t.metadata_kept ≡ last.geometry.metadata_blocks → KeepsCounts t last kept → LeavesKept t.metadata_kept old new
        → IsChanging last.geometry (contents_of last kept) old new }
{}

/// What a stop leaves while a store of nodes is committed, in words of contents.
pub fn commits_leave_contents()
    ensures { (last next : Superblock) (kept s : Store) (old new : DiskState) → next.geometry ≡ last.geometry → IsSound next.geometry next.root next.held_root s
        → LeavesOnly old new (λ image. IsStillCommit last kept old.cells image ⊎ IsNextCommit next s old.cells image)
        → SameData last.geometry (seen old.cells) (seen new.cells) → IsCommitting last.geometry (contents_of next s) (contents_of last kept) old new }
{}
