//! Laws of the definitions, each the contract of a function that does nothing.

ghost use Rattle.std.specs.Prelude.{◌≡◌, ◌+◌, ◌≤◌, ℕ, List};
ghost use Rattle.tp_layout.specs.declared.superblock.Superblock.{Superblock};
ghost use Rattle.tp_image.specs.Clean.{IsClean};
ghost use Rattle.tp_model.specs.Sectors.{Sector};
ghost use Rattle.tp_refs.specs.Store.{Store};
ghost use Rattle.tp_stored.specs.Commit.{IsCommit};
ghost use Rattle.tp_stored.specs.Contents.{contents_of};
ghost use Rattle.tp_stored.specs.Laws.{CleanAreCommits, CleanStandForOpened, CommitsAreBounded, CommitsAreMetadata, CommitsCount, CommitsKeepTheRules, SoundAreBounded, StandsForOpened};

/// A commit leaves room to go on from it.
pub fn a_commit_has_room()
    ensures { (image : List Sector) (superblock : Superblock) (s : Store) → IsCommit image superblock s
        → (contents_of superblock s).meta_used + 128 ≤ superblock.geometry.metadata_blocks }
{}

/// An image with the contents of a commit stands for exactly the pools that are opened with them, and its stored counts are
/// those of the nodes that can be reached in it.
pub fn commits_stand_for_pools()
    ensures stands { StandsForOpened }
    ensures counts { CommitsCount }
{}

/// An image with the same metadata blocks has the same contents, whatever stands in the data blocks.
pub fn commits_are_metadata()
    ensures { CommitsAreMetadata }
{}

/// The image of a commit is clean.
pub fn commits_are_clean()
    ensures { (image : List Sector) (superblock : Superblock) (s : Store) → IsCommit image superblock s → IsClean image }
{}

/// A clean image is that of a commit, whoever wrote it: of the store that it has, made of its reachable nodes and its stored counts. So it
/// stands for exactly the pools that are opened with what is in it.
pub fn clean_images_are_commits()
    ensures commits { CleanAreCommits }
    ensures stands { CleanStandForOpened }
{}

/// The trees of a commit keep the rules of the layout.
pub fn commits_keep_the_rules()
    ensures { CommitsKeepTheRules }
{}

/// How many metadata blocks the trees use at most where no root is held, by how many blocks each volume maps.
pub fn trees_are_bounded()
    ensures sound { SoundAreBounded }
    ensures commits { CommitsAreBounded }
{}
