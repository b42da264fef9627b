//! The contract of images by name.

use tp_disk::{OpenError, SharedDisk, TellsTrouble};

/// Images by name, each of which is one disk at a time.
///
/// What contracts see is the list of all that became of calls by name. An image that is opened is a disk of which no call was made, and where it is
/// honest a stop leaves what its reads give. Where an image was closed as an honest disk, and no call by its name came between, it is opened as an honest disk
/// of that size, as it was closed or as a stop left it since: so no two names lead to one image, and nobody else writes it.
pub trait Images {
    ghost use Rattle.std.specs.Prelude.{◌≡◌, ◌∷◌, IfOk, List};
    ghost use Rattle.tp_images.specs.Deeds.{Answers, Closes, Deed};
    ghost use Rattle.tp_images.specs.declared.way.Way.TheVariants.{ToWrite, ToRead, ToMake};

    type Disk: SharedDisk + TellsTrouble + Drop + Send + Sync;

    ghost deeds: { Self → List Deed };

    /// The image of a name that is there, to read and write it.
    fn open(&mut self, name: &str) -> Result<Self::Disk, OpenError>
        ensures { Answers ToWrite name.now (deeds self.old) (deeds self.new) Self.Disk.state result };

    /// The image of a name that is there, to read it alone.
    fn open_to_read(&mut self, name: &str) -> Result<Self::Disk, OpenError>
        ensures { Answers ToRead name.now (deeds self.old) (deeds self.new) Self.Disk.state result };

    /// The image of a name, of this many sectors. It is made where it is not there, and refused where a device is.
    fn create(&mut self, name: &str, sectors: u64) -> Result<Self::Disk, OpenError>
        ensures told { Answers ToMake name.now (deeds self.old) (deeds self.new) Self.Disk.state result }
        ensures size { IfOk result (λ disk. (Self.Disk.state disk).size ≡ sectors) };

    /// Gives back the disk of an image that was opened.
    fn close(&mut self, name: &str, disk: Self::Disk)
        ensures { deeds self.new ≡ Closes name.now (Self.Disk.state disk) ∷ deeds self.old };

    /// The length of what stands under a name, in bytes, for who is asked before that is destroyed.
    fn length(&self, name: &str) -> Option<u64>;

    /// Whether a device stands under a name, which is as large as it is: it is opened, and `create` refuses it. False where that cannot be told.
    fn is_device(&self, name: &str) -> bool;
}
