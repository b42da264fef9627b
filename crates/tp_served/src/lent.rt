//! A pool and the cache that it stands on, which are away for the time of a call.
ghost use Rattle.std.specs.Prelude.{◌≡◌, ◌+◌, ◌/◌, ◌%◌, IsSome, IsTrue, length};
ghost use Rattle.tp_model.specs.Sectors.{sectors_of};
ghost use Rattle.tp_model.specs.Slots.{listed};
ghost use Rattle.tp_model.specs.Calls.{Gave, Listed, Read, Walk};
ghost use Rattle.tp_model.specs.Clauses.{EndsInVolume, Meets};
ghost use Rattle.tp_served.specs.AtMetadata.{cached};
ghost use Rattle.tp_served.specs.Served.{IsKnown, disk_of, got};

use crate::inside::Inside;
use tp_disk::{Disk, SharedDisk};
use tp_meta::Metadata;
use tp_model::{DevId, Geometry, Mode, Slots, Vb};

/// The parts, which are there between calls.
#[derive(Drop)]
pub(crate) struct Lent<D: Disk, M: Metadata> {
    pub(crate) inside: Option<Inside<D, M>>,
    pub(crate) ghost there: { IsSome inside },
}

impl<D: Disk + Drop, M: Metadata + Drop> Lent<D, M> {
    pub(crate) fn of(inside: Inside<D, M>) -> Lent<D, M>
        ensures { got result.inside result.there ≡ inside }
    {
        Lent {
            inside: Some(inside),
        }
    }

    pub(crate) fn into_inside(self) -> Inside<D, M>
        ensures { result ≡ got self.inside self.there }
    {
        let Lent { inside } = self;
        inside.unwrap()
    }

    pub(crate) fn into_disk(self) -> D
        ensures { D.state result ≡ disk_of (got self.inside self.there) }
    {
        let Lent { inside } = self;
        inside.unwrap().into_disk()
    }

    pub(crate) fn geometry(&self) -> Geometry
        ensures { result ≡ M.geometry (got self.now.inside self.now.there).besides.metadata }
    {
        self.inside.as_ref().unwrap().geometry()
    }

    pub(crate) fn facts(&self)
        ensures { IsKnown M.geometry (got self.now.inside self.now.there) }
    {
        self.inside.as_ref().unwrap().facts();
    }

    pub(crate) fn disk(&self) -> &D
        ensures { D.state result.now ≡ disk_of (got self.now.inside self.now.there) }
    {
        self.inside.as_ref().unwrap().disk()
    }

    pub(crate) fn mode(&self) -> Mode
        ensures { result ≡ (got self.now.inside self.now.there).besides.mode }
    {
        self.inside.as_ref().unwrap().mode()
    }
}

impl<D: SharedDisk, M: Metadata> Lent<D, M> {
    pub(crate) fn read_shared(&self, id: DevId, sector: u64, out: &mut [u8]) -> bool
        requires whole { length out.old % 512 ≡ 0 }
        requires range { EndsInVolume (cached M.Metadata) (got self.now.inside self.now.there) id (sector + length out.old / 512) }
        ensures length { length out.new ≡ length out.old }
        ensures met { IsTrue result → Meets (cached M.Metadata) (got self.now.inside self.now.there) (got self.now.inside self.now.there) (Read id sector (length out.old / 512)) (Gave (sectors_of out.new)) }
    {
        self.inside.as_ref().unwrap().read_shared(id, sector, out)
    }

    pub(crate) fn walk_shared(&self, id: DevId, from: Vb, slots: &mut Slots) -> bool
        ensures { IsTrue result → Meets (cached M.Metadata) (got self.now.inside self.now.there) (got self.now.inside self.now.there) (Walk id from) (Listed (listed slots.new.items)) }
    {
        self.inside.as_ref().unwrap().walk_shared(id, from, slots)
    }

    pub(crate) fn sync_ahead(&self) {
        self.inside.as_ref().unwrap().sync_ahead();
    }
}
