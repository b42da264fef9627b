//! Laws of the definitions, each the contract of a function that does nothing.

ghost use Rattle.tp_sharing.specs.Changes.{DeviceChanges, SizeChanges, SlotChanges, VolumesWithDevice, VolumesWithSlot, VolumesWithoutDevice, VolumesWithoutSlot};
ghost use Rattle.tp_sharing.specs.Forest.{SharedExactly, TestIsWithin};
ghost use Rattle.tp_sharing.specs.Later.{ForestsOfBoth, HeldStays, CopiesStay, ContentIsPairs, ContentStays, DevicePut, DeviceTaken, EmptyForest, ForestAfter, ForestStays, LowBlocksStay, NewVolume, SlotsOfDevice, VolumeKept, VolumeWithEntry, VolumeWithoutEntry, VolumesAreLive, VolumesStay};
ghost use Rattle.tp_sharing.specs.Paths.{PathsAreDown, SharedByPaths};
ghost use Rattle.tp_sharing.specs.Sizes.{NodesAreFew, UseByDevices};
ghost use Rattle.tp_sharing.specs.Volumes.{CopiesAreListed, FreeIsUnused, ListsAscend, LookupsAreListed, MappedIsTold, SharedIsOther, SlotsAreListed, SlotsAreWithin, UsedIsDifferent};

/// A look-up's test of the path from a root through a volume's root to a data block is true exactly where another slot has the data block, below that root or
/// another one, and exactly where some block on that path has a count of 2 or more. The path is the one whose intervals hold the keys.
pub fn shared_slots_have_shared_paths()
    ensures exactly { SharedExactly }
    ensures within { TestIsWithin }
    ensures paths { SharedByPaths }
    ensures same { PathsAreDown }
{}

/// The lists of the volumes have the slots of the trees, in order, and tell which of them share a data block. A device's
/// entry tells how many it has.
pub fn trees_stand_for_lists()
    ensures slots { SlotsAreListed }
    ensures lookups { LookupsAreListed }
    ensures copies { CopiesAreListed }
    ensures within { SlotsAreWithin }
    ensures ascend { ListsAscend }
    ensures shared { SharedIsOther }
    ensures mapped { MappedIsTold }
{}

/// The data blocks with a count over 0 are those that slots have, and they are as many as the different ones of the slots.
pub fn counts_tell_data_in_use()
    ensures used { UsedIsDifferent }
    ensures free { FreeIsUnused }
{}

/// What look-ups in the lists find after a change, and the lists of trees that were changed by one entry: a device's or a
/// slot's.
pub fn changes_are_those_of_lists()
    ensures devices { DeviceChanges }
    ensures slots { SlotChanges }
    ensures sizes { SizeChanges }
    ensures with_device { VolumesWithDevice }
    ensures without_device { VolumesWithoutDevice }
    ensures with_slot { VolumesWithSlot }
    ensures without_slot { VolumesWithoutSlot }
{}

/// What stays of the volumes while trees are changed. The forest stands again where the device tree is whole and each volume
/// stays or is a new one.
pub fn volumes_stay_or_are_new()
    ensures live { VolumesAreLive }
    ensures low { LowBlocksStay }
    ensures content { ContentStays }
    ensures kept { VolumeKept }
    ensures volumes { VolumesStay }
    ensures after { ForestAfter }
    ensures all { ForestStays }
{}

/// A held copy stands beside the device tree, and stays with its lists while what stands under its root does.
pub fn held_copies_stay()
    ensures both { ForestsOfBoth }
    ensures stays { HeldStays }
    ensures copies { CopiesStay }
{}

/// What an operation on the device tree makes of the forest and its lists. A device whose entry names a changed copy of its
/// volume's tree has one slot more or less.
pub fn device_trees_can_change()
    ensures put { DevicePut }
    ensures taken { DeviceTaken }
    ensures slots { SlotsOfDevice }
{}

/// Which trees are new volumes, and the forest of a new pool.
pub fn changed_trees_are_volumes()
    ensures content { ContentIsPairs }
    ensures new { NewVolume }
    ensures with_entry { VolumeWithEntry }
    ensures without_entry { VolumeWithoutEntry }
    ensures empty { EmptyForest }
{}

/// How many metadata blocks have a count over 0 at most, by what the volumes map, and how many more after a change of the
/// device tree alone.
pub fn trees_use_few_blocks()
    ensures few { NodesAreFew }
    ensures by_devices { UseByDevices }
{}
