//! Who has the hub alone next, of those who wait for it, and who makes the next commit.

ghost use Rattle.std.specs.Prelude.{◌<◌, IfSome};

use crate::patience::{Patience, now};
use std::sync::atomic::{AtomicBool, AtomicU64, Ordering};
use std::sync::{Condvar, Mutex, MutexGuard, Wait};
use std::time::Duration;

/// How many times a waiting thread looks for its turn before it takes the next one that comes.
const TRIES: u32 = 4000;

/// A thread that has not been told sleeps for no longer than this, in nanoseconds, before it looks
/// again.
const NAP: u64 = 10_000_000;

/// At most so many threads are awake for the turn.
const MOST_AWAKE: u64 = 2;

/// Less than this, in nanoseconds, is not waited for the FLUSHes of others.
const SHORTEST_GRACE: u64 = 20_000;

/// A call that takes less, in nanoseconds, had nothing to sync.
const SHORTEST_SYNC: u64 = 20_000;

/// The turn of one who keeps what was written.
pub(crate) struct Keeping<'a> {
    pub(crate) turn: MutexGuard<'a, ()>,
    /// It makes a commit. Else the last one kept all that was written.
    pub(crate) leads: bool,
}

/// A lock with two kinds of waiters: one thread has the turn, and all others wait.
///
/// Of those who are to keep what was written one leads: it makes a commit, and those who came before its end are told by it. Before the commit it
/// lets those go first who wait to change something, and waits for the FLUSH of those whose change was answered, where they are known to flush, for no longer than
/// an eighth of the last sync. Behind the commit those whom it told go first.
#[derive(Drop)]
pub(crate) struct Order {
    turn: Mutex<()>,
    waiters: Waiters,
    commits: Commits,
    /// Told to those who keep when a commit has ended, and to those who change when they may.
    ended: Condvar,
    free: Condvar,
    patience: Patience,
}

/// The threads that wait for a turn, and the changes that were made.
#[derive(Drop)]
struct Waiters {
    /// Threads that wait to keep what was written, and those that wait to change something.
    keepers: AtomicU64,
    changers: AtomicU64,
    /// Threads of both kinds that are awake.
    awake: AtomicU64,
    /// Turns that were taken to change something.
    changes: AtomicU64,
    /// A bit for each session whose change was answered since the last commit began.
    unkept: AtomicU64,
    /// A bit for each session that has flushed of late.
    flushers: AtomicU64,
}

impl Waiters {
    fn none() -> Waiters {
        Waiters {
            keepers: AtomicU64::new(0),
            changers: AtomicU64::new(0),
            awake: AtomicU64::new(0),
            changes: AtomicU64::new(0),
            unkept: AtomicU64::new(0),
            flushers: AtomicU64::new(0),
        }
    }
}

/// The commit in progress, and the last one. Times are in nanoseconds.
#[derive(Drop)]
struct Commits {
    /// A thread leads.
    has_leader: AtomicBool,
    /// The leader's commit has begun.
    is_committing: AtomicBool,
    /// Nothing was changed since the last commit began.
    is_kept: AtomicBool,
    /// The longest sync of the commit in progress, and that of the last commit.
    sync_so_far: AtomicU64,
    last_sync: AtomicU64,
    /// When the last commit ended.
    ended_at: AtomicU64,
    /// When the sync or the change of the current turn began, or 0 if there is none.
    began_at: AtomicU64,
}

impl Commits {
    fn none() -> Commits {
        Commits {
            has_leader: AtomicBool::new(false),
            is_committing: AtomicBool::new(false),
            is_kept: AtomicBool::new(true),
            sync_so_far: AtomicU64::new(0),
            last_sync: AtomicU64::new(0),
            ended_at: AtomicU64::new(0),
            began_at: AtomicU64::new(0),
        }
    }
}

/// The bit of a session, if there is one.
fn bit_of(session: Option<u8>) -> u64
    requires { IfSome session (λ number. number < 64) }
{
    match session {
        None => 0,
        Some(number) => 1 << number,
    }
}

impl Order {
    /// At first no thread has the turn, and nothing is to be kept.
    pub(crate) fn new() -> Order {
        Order {
            turn: Mutex::new(()),
            waiters: Waiters::none(),
            commits: Commits::none(),
            ended: Condvar::new(),
            free: Condvar::new(),
            patience: Patience::new(),
        }
    }

    /// How long it pays to wait awake for a turn, or in one for the hub.
    pub(crate) fn patience(&self) -> &Patience {
        &self.patience
    }

    /// The turn, if one has it soon, for which one waits awake as long as that pays.
    fn lock_awake(&self) -> Option<MutexGuard<'_, ()>> {
        let mut waiting = self.patience.begin();
        for _ in 0..TRIES {
            if let Some(turn) = self.turn.try_lock() {
                return Some(turn);
            }
            if !waiting.goes_on() {
                break;
            }
        }
        None
    }

    /// The turn, for which few wait awake.
    fn lock<R: Wait>(&self, rt: &R) -> MutexGuard<'_, ()> {
        let others = self.waiters.awake.fetch_add(1, Ordering::SeqCst);
        let turn = if others < MOST_AWAKE {
            self.lock_awake()
        } else {
            None
        };
        self.waiters.awake.fetch_sub(1, Ordering::SeqCst);
        match turn {
            Some(turn) => turn,
            None => self.turn.lock(rt),
        }
    }

    /// For how many nanoseconds those go first who keep what was written: while a commit is on its way, and
    /// then until those whom it told have had their turn, for no longer than a sync. 0 if they do not.
    fn left_to_wait(&self) -> u64 {
        if self.commits.is_committing.load(Ordering::SeqCst) {
            return NAP;
        }
        if self.waiters.keepers.load(Ordering::SeqCst) == 0
            || !self.commits.is_kept.load(Ordering::SeqCst)
        {
            return 0;
        }
        let since = now().saturating_sub(self.commits.ended_at.load(Ordering::SeqCst));
        self.commits
            .last_sync
            .load(Ordering::SeqCst)
            .saturating_sub(since)
    }

    fn wait_to_change<R: Wait>(&self, rt: &R) -> MutexGuard<'_, ()> {
        for _ in 0..TRIES {
            let told = self.free.notifications();
            let left = self.left_to_wait();
            if left > 0 {
                self.free.sleep(rt, told, Duration::from_nanos(left));
                continue;
            }
            let turn = self.lock(rt);
            if self.left_to_wait() == 0 {
                return turn;
            }
        }
        self.turn.lock(rt)
    }

    /// The turn of one who changes something.
    pub(crate) fn change<R: Wait>(&self, rt: &R) -> MutexGuard<'_, ()> {
        self.waiters.changers.fetch_add(1, Ordering::SeqCst);
        let turn = self.wait_to_change(rt);
        self.waiters.changers.fetch_sub(1, Ordering::SeqCst);
        turn
    }

    /// Ends that turn, of this session where it has one.
    pub(crate) fn changed(&self, session: Option<u8>, turn: MutexGuard<'_, ()>)
        requires { IfSome session (λ number. number < 64) }
    {
        self.commits.is_kept.store(false, Ordering::SeqCst);
        self.waiters
            .unkept
            .fetch_or(bit_of(session), Ordering::SeqCst);
        self.waiters.changes.fetch_add(1, Ordering::SeqCst);
        self.commits.began_at.store(0, Ordering::SeqCst);
        drop(turn);
        self.free.notify_all();
    }

    /// Lets those go first who wait to change something, and waits for the FLUSHes of sessions that
    /// have flushed of late, and whose change was answered. Those who do not come in time are not waited
    /// for again before they flush.
    fn wait_for_others<R: Wait>(&self, rt: &R) {
        let began = now();
        let most = self.commits.last_sync.load(Ordering::SeqCst) / 8;
        let waited_for = self.waiters.changers.load(Ordering::SeqCst);
        let so_far = self.waiters.changes.load(Ordering::SeqCst);
        for _ in 0..TRIES {
            let late = self.waiters.unkept.load(Ordering::SeqCst)
                & self.waiters.flushers.load(Ordering::SeqCst);
            let went = self
                .waiters
                .changes
                .load(Ordering::SeqCst)
                .wrapping_sub(so_far);
            if late == 0 && went >= waited_for {
                return;
            }
            let left = most.saturating_sub(now().saturating_sub(began));
            if left < SHORTEST_GRACE {
                self.waiters.flushers.fetch_and(!late, Ordering::SeqCst);
                return;
            }
            let told = self.ended.notifications();
            self.ended
                .sleep(rt, told, Duration::from_nanos(left.min(SHORTEST_GRACE)));
        }
    }

    /// The turn of one who leads.
    fn lead<R: Wait>(&self, rt: &R) -> Keeping<'_> {
        self.wait_for_others(rt);
        let turn = self.lock(rt);
        self.commits.is_committing.store(true, Ordering::SeqCst);
        self.waiters.unkept.store(0, Ordering::SeqCst);
        self.commits.sync_so_far.store(0, Ordering::SeqCst);
        Keeping { turn, leads: true }
    }

    /// The turn of one who is told by the last commit, where that kept all that was written.
    fn follow<R: Wait>(&self, rt: &R) -> Option<Keeping<'_>> {
        if !self.commits.is_kept.load(Ordering::SeqCst) {
            return None;
        }
        let turn = self.lock(rt);
        if !self.commits.is_kept.load(Ordering::SeqCst) {
            return None;
        }
        Some(Keeping { turn, leads: false })
    }

    fn wait_to_keep<R: Wait>(&self, rt: &R) -> Keeping<'_> {
        for _ in 0..TRIES {
            let told = self.ended.notifications();
            if let Some(keeping) = self.follow(rt) {
                return keeping;
            }
            if !self.commits.has_leader.swap(true, Ordering::SeqCst) {
                return self.lead(rt);
            }
            self.ended.sleep(rt, told, Duration::from_nanos(NAP));
        }
        self.lead(rt)
    }

    /// The turn of one who keeps what was written, for a FLUSH of this session where it has one.
    pub(crate) fn keep<R: Wait>(&self, rt: &R, session: Option<u8>) -> Keeping<'_>
        requires { IfSome session (λ number. number < 64) }
    {
        let bit = bit_of(session);
        self.waiters.unkept.fetch_and(!bit, Ordering::SeqCst);
        self.waiters.flushers.fetch_or(bit, Ordering::SeqCst);
        self.waiters.keepers.fetch_add(1, Ordering::SeqCst);
        let keeping = self.wait_to_keep(rt);
        self.waiters.keepers.fetch_sub(1, Ordering::SeqCst);
        keeping
    }

    /// The turn of one who changes something and makes a commit behind it.
    pub(crate) fn change_and_keep<R: Wait>(&self, rt: &R) -> Keeping<'_> {
        for _ in 0..TRIES {
            let told = self.ended.notifications();
            if !self.commits.has_leader.swap(true, Ordering::SeqCst) {
                break;
            }
            self.ended.sleep(rt, told, Duration::from_nanos(NAP));
        }
        self.lead(rt)
    }

    /// Records that a sync or a change of the current turn begins. Returns the time, as [`now`] does.
    pub(crate) fn begin(&self) -> u64 {
        let began = now();
        self.commits.began_at.store(began, Ordering::SeqCst);
        began
    }

    /// The age of the sync or the change in progress, in seconds, or 0 if there is none.
    pub(crate) fn seconds_in_turn(&self) -> u64 {
        let began = self.commits.began_at.load(Ordering::SeqCst);
        if began == 0 {
            return 0;
        }
        now().saturating_sub(began) / 1_000_000_000
    }

    /// How long a sync took of the commit that is on its way, in nanoseconds.
    pub(crate) fn synced(&self, time: u64) {
        let so_far = self.commits.sync_so_far.load(Ordering::SeqCst);
        self.commits
            .sync_so_far
            .store(so_far.max(time), Ordering::SeqCst);
    }

    /// Ends the commit of one who led. Of one that had nothing to sync nothing is learned about the device.
    fn end_commit(&self) {
        let sync = self.commits.sync_so_far.load(Ordering::SeqCst);
        if sync >= SHORTEST_SYNC {
            self.commits.last_sync.store(sync, Ordering::SeqCst);
        }
        self.commits.ended_at.store(now(), Ordering::SeqCst);
        self.commits.is_committing.store(false, Ordering::SeqCst);
        self.commits.has_leader.store(false, Ordering::SeqCst);
    }

    /// Ends the turn of one who kept what was written, or has not.
    pub(crate) fn kept(&self, keeping: Keeping<'_>, is_done: bool) {
        let Keeping { turn, leads } = keeping;
        self.commits.is_kept.store(is_done, Ordering::SeqCst);
        if leads {
            self.end_commit();
        }
        self.commits.began_at.store(0, Ordering::SeqCst);
        drop(turn);
        if leads {
            self.ended.notify_all();
        }
        if self.left_to_wait() == 0 {
            self.free.notify_all();
        }
    }
}
