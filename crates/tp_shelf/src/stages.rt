//! What is noted of flushes that are made in parts.

use std::sync::atomic::{AtomicBool, AtomicU64, Ordering};
use std::thread;

/// Of how many parts a flush is, and what came between them.
#[derive(Drop)]
pub(crate) struct Stages {
    /// How many parts a flush has before its last one: with none it is made at once.
    pub(crate) parts: u8,
    /// Whether each sync between two parts waits for a shared read or walk.
    waits: bool,
    is_syncing: AtomicBool,
    syncs: AtomicU64,
    reads: AtomicU64,
    in_vain: AtomicBool,
}

impl Stages {
    /// Flushes of so many parts and a last one. With `waits` each sync between two stays until a shared read or walk has come to it.
    pub(crate) fn of(parts: u8, waits: bool) -> Stages {
        Stages {
            parts,
            waits,
            is_syncing: AtomicBool::new(false),
            syncs: AtomicU64::new(0),
            reads: AtomicU64::new(0),
            in_vain: AtomicBool::new(false),
        }
    }

    /// How many syncs between parts there were, how many shared reads and walks came to one, and whether one waited in vain.
    pub(crate) fn told(&self) -> (u64, u64, bool) {
        (
            self.syncs.load(Ordering::SeqCst),
            self.reads.load(Ordering::SeqCst),
            self.in_vain.load(Ordering::SeqCst),
        )
    }

    /// Looks at most 2^20 times until more shared reads and walks came than so many.
    fn wait(&self, reads: u64) -> bool {
        for _ in 0..1u32 << 20 {
            if self.reads.load(Ordering::SeqCst) > reads {
                return true;
            }
            thread::yield_now();
        }
        false
    }

    /// A sync between two parts.
    pub(crate) fn sync(&self) {
        self.syncs.fetch_add(1, Ordering::SeqCst);
        if !self.waits {
            return;
        }
        let reads = self.reads.load(Ordering::SeqCst);
        self.is_syncing.store(true, Ordering::SeqCst);
        if !self.wait(reads) {
            self.in_vain.store(true, Ordering::SeqCst);
        }
        self.is_syncing.store(false, Ordering::SeqCst);
    }

    /// A shared read or walk between two parts, which counts where it comes to a sync.
    pub(crate) fn read(&self) {
        if self.is_syncing.load(Ordering::SeqCst) {
            self.reads.fetch_add(1, Ordering::SeqCst);
        }
    }
}
