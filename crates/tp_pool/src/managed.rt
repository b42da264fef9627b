//! The messages of a pool and its status lines, for those who lead it.
use crate::pool::Pool;
use tp_disk::Disk;
use tp_meta::Metadata;
use tp_model::{Cloned, DevId, Refusal};
use tp_msg::{LineBuffer, Managed, Message};

impl<D: Disk, M: Metadata> Cloned for Pool<D, M> {
    fn create_snap(&mut self, id: DevId, origin: DevId) -> Result<(), Refusal> {
        self.create_snap(id, origin)
    }

    fn delete(&mut self, id: DevId) -> Result<(), Refusal> {
        self.delete(id)
    }
}

impl<D: Disk, M: Metadata> Managed for Pool<D, M> {
    fn change(&mut self, message: &Message) -> Option<Result<(), Refusal>> {
        self.change(message)
    }

    // Named by its type, since a call by the receiver is this very method: the pool's own takes it shared.
    fn status(&mut self, out: &mut LineBuffer) -> usize {
        Pool::status(self, out)
    }

    fn thin_status(&mut self, id: DevId, out: &mut LineBuffer) -> Result<usize, Refusal> {
        self.thin_status(id, out)
    }
}
