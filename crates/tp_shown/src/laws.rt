//! Laws of the definitions, each the contract of a function that does nothing.

ghost use Rattle.tp_shown.specs.Laws.{ContentsAreSound, CopyIsListed, CountIsListed, CreateMakes, DeleteMakes, EditsAreListed, ExistsIsListed, GrowMakes, HighestIsLast, MappedIsListed, NeedIsWanted, NeedZeroes, OpenedExists, PartlyReopens, PoolIsBounded, ReadGives, ReleaseMakes, ReserveMakes, SlotsAreEntries, SnapshotMakes, TrimMakes, UnnamedMayChange, UsedFits, UsedIsListed, ValuesAreListed};

/// There is a pool with the contents of a commit over an image, and it has them over each other image that differs only where
/// no slot's data block stands. It is sound.
pub fn contents_are_of_pools()
    ensures opened { OpenedExists }
    ensures sound { ContentsAreSound }
    ensures unnamed { UnnamedMayChange }
{}

/// What the tests of calls ask of a pool is what its lists tell.
pub fn tests_are_of_lists()
    ensures used { UsedIsListed }
    ensures fits { UsedFits }
    ensures exists { ExistsIsListed }
    ensures copy { CopyIsListed }
    ensures count { CountIsListed }
    ensures need { NeedIsWanted }
    ensures zeroes { NeedZeroes }
    ensures slots { SlotsAreEntries }
    ensures highest { HighestIsLast }
{}

/// What a plain pool's calls answer and leave is what lists and image tell.
pub fn calls_are_of_lists()
    ensures read { ReadGives }
    ensures edit { EditsAreListed }
    ensures create { CreateMakes }
    ensures snapshot { SnapshotMakes }
    ensures grow { GrowMakes }
    ensures delete { DeleteMakes }
    ensures reserve { ReserveMakes }
    ensures release { ReleaseMakes }
    ensures trim { TrimMakes }
{}

/// What a stop leaves while a request is done is a pool that may be found, where the contents of the last commit stand.
pub fn stops_are_of_lists()
    ensures reopens { PartlyReopens }
    ensures values { ValuesAreListed }
{}

/// How many blocks of each volume of a pool are mapped is what lists tell, and so is the bound on its metadata blocks.
pub fn bounds_are_of_lists()
    ensures mapped { MappedIsListed }
    ensures bounded { PoolIsBounded }
{}
