//! A workload that is crashed at each of its disk calls, or in which each disk call fails, and what
//! its crash images show.

use crate::counts::{Counts, Kind, Place, Seen};
use crate::disk::ScriptDisk;
use crate::lifetimes::{Course, Ending, Kept, begins_closed};
use crate::world::{NO_CALLS, World};
use std::alloc::{AllocError, Global};
use tp_model::Refusal;
use tp_reference::Found;
use tp_script::{Answer, CrashImage, Line, Picks};

/// A matrix: a workload, and a second one on each image that the first one leaves.
#[derive(Clone, Copy)]
pub(crate) struct Plan<'a> {
    pub steps: &'a [Line<'a>],
    pub then: &'a [Line<'a>],
    pub picks: Picks,
    pub later_picks: Picks,
    pub kind: Kind,
}

impl Plan<'_> {
    /// Returns how the lifetime is played whose disk calls all succeed.
    fn whole_course(&self, is_later: bool) -> Course {
        Course {
            call: 0,
            failing: NO_CALLS,
            closes: !is_later || self.kind == Kind::Faults,
            is_exact: !is_later,
        }
    }

    /// Returns how the lifetime is played that is crashed at this call after the calls of its
    /// opening, or in which it fails.
    fn course_at(&self, opening: u64, call: u64, is_later: bool) -> Course {
        let first = opening.saturating_add(call);
        let is_crash = self.kind == Kind::Crashes;
        Course {
            call,
            failing: (first, if is_crash { u64::MAX } else { first }),
            closes: !is_crash || !is_later,
            is_exact: false,
        }
    }

    /// Returns how often a lifetime of this many calls is played: it is also crashed after the last
    /// one. Each call may fail.
    fn last_call(&self, calls: u64) -> u64 {
        match self.kind {
            Kind::Crashes => calls.saturating_add(1),
            Kind::Faults => calls,
        }
    }
}

/// Looks at images in a world of its own, and counts them.
#[derive(Drop)]
struct Viewer {
    world: Box<World>,
    counts: Counts,
}

/// Returns whether a crash at the end of a lifetime may leave what an image shows.
fn is_allowed(life: &World, found: &Found) -> Result<bool, AllocError> {
    match &life.history {
        Some(history) => history.allows(found),
        None => Ok(true),
    }
}

impl Viewer {
    fn blank(&self) -> Result<Box<Found>, AllocError> {
        let mut found = Box::new(self.world.alloc, Found::new(self.world.alloc))?;
        found.is_blank = true;
        Ok(found)
    }

    /// Looks at an image, which must be clean and open, or have no pool. Returns what it shows,
    /// unless it is wrong.
    fn look_at(
        &mut self,
        life: &World,
        disk: Box<ScriptDisk>,
        places: &[Place],
    ) -> Result<Option<Box<Found>>, AllocError> {
        self.world.begin_without_reference(life);
        let checked = self.world.check_left(disk);
        let opened = self.world.open_unseen();
        if checked != Answer::Done {
            if opened == Answer::Failed(Refusal::NotAPool) {
                return Ok(Some(self.blank()?));
            }
            self.counts.add_wrong(places, b"the image is not clean");
            return Ok(None);
        }
        let found = self.world.look_at(&life.snapshot_ids()?)?;
        if found.is_none() {
            self.counts.add_wrong(places, b"the image is not opened");
        }
        Ok(found)
    }

    /// Looks at an image that was not seen yet. Returns its number among those that differ, unless
    /// it is wrong.
    fn look_at_new(
        &mut self,
        life: &World,
        image: CrashImage,
        checksum: u64,
        places: &[Place],
    ) -> Result<Option<usize>, AllocError> {
        let Some(disk) = life.left(image)? else {
            return Ok(None);
        };
        let Some(found) = self.look_at(life, disk, places)? else {
            return Ok(None);
        };
        let number = self.counts.seen.len();
        self.counts.different = self.counts.different.saturating_add(1);
        self.counts.seen.push(Seen {
            checksum,
            found,
            later: None,
        })?;
        Ok(Some(number))
    }

    /// Returns the number of an image among those that differ. Unless it has one, it is looked at.
    fn number_of(
        &mut self,
        life: &World,
        image: CrashImage,
        places: &[Place],
    ) -> Result<Option<usize>, AllocError> {
        let Some(checksum) = life.checksum(image)? else {
            self.counts.add_wrong(places, b"there is no disk");
            return Ok(None);
        };
        match self.counts.place_of(checksum) {
            Some(number) => Ok(Some(number)),
            None => self.look_at_new(life, image, checksum, places),
        }
    }

    /// Returns whether a crash at the end of a lifetime may leave what the image of this number
    /// shows.
    fn may_be_left(&mut self, life: &World, number: usize) -> Result<bool, AllocError> {
        let Some(seen) = self.counts.seen.get(number) else {
            return Ok(false);
        };
        let (is_right, is_blank) = (is_allowed(life, &seen.found)?, seen.found.is_blank);
        if is_blank {
            self.counts.blank = self.counts.blank.saturating_add(1);
        }
        Ok(is_right)
    }

    /// Looks at an image of a lifetime. Returns its number among those that differ, if a crash may
    /// leave it.
    fn see(
        &mut self,
        life: &World,
        image: CrashImage,
        places: &[Place],
    ) -> Result<Option<usize>, AllocError> {
        let Some(number) = self.number_of(life, image, places)? else {
            return Ok(None);
        };
        if self.may_be_left(life, number)? {
            return Ok(Some(number));
        }
        let why = b"the image shows no state that a crash may leave";
        self.counts.add_wrong(places, why);
        Ok(None)
    }

    /// Notes the wrong answers of a lifetime, and a fault that was not reported exactly once.
    fn judge(&mut self, life: &World, places: &[Place], ending: &Ending) {
        self.counts.judge(places, ending);
        if self.counts.kind == Kind::Faults && life.faults.total() != 1 {
            self.counts
                .add_wrong(places, b"the fault is not reported once");
        }
    }

    /// Looks at the images of a second lifetime.
    fn see_later(
        &mut self,
        picks: &Picks,
        later: &World,
        before: Place,
        place: Place,
    ) -> Result<(), AllocError> {
        for number in 0..picks.len() {
            if let Some(pick) = picks[number] {
                self.counts.later = self.counts.later.saturating_add(1);
                self.see(later, pick, &[before, place.of_image(number)])?;
            }
        }
        Ok(())
    }

    /// Returns the pool of an image, in the state that it shows.
    fn kept_in(
        &self,
        life: &World,
        number: usize,
        image: CrashImage,
    ) -> Result<Option<Box<Kept>>, AllocError> {
        let (Some(seen), Some(history)) = (self.counts.seen.get(number), &life.history) else {
            return Ok(None);
        };
        match history.find(&seen.found)? {
            Some(reference) => life.keep(image, reference),
            None => Ok(None),
        }
    }
}

/// Plays the second lifetime on an image, with one disk call at which it is crashed, or which
/// fails.
fn play_later_at(
    viewer: &mut Viewer,
    plan: &Plan<'_>,
    kept: &Kept,
    later: &mut World,
    before: Place,
    course: Course,
) -> Result<Place, AllocError> {
    let ending = later.live(kept, plan.then, course)?;
    let place = Place::of_line(course.call, ending.failed_in);
    viewer.judge(later, &[before, place], &ending);
    Ok(place)
}

/// Plays the second lifetime on an image for each of its disk calls.
fn play_later(
    viewer: &mut Viewer,
    plan: &Plan<'_>,
    kept: &Kept,
    later: &mut World,
    before: Place,
) -> Result<(), AllocError> {
    let opening = later.calls_of_opening(kept)?;
    let whole = later.live(kept, plan.then, plan.whole_course(true))?;
    viewer.counts.judge(&[before], &whole);
    let calls = later.calls_now().saturating_sub(opening);
    for call in 1..plan.last_call(calls).saturating_add(1) {
        let course = plan.course_at(opening, call, true);
        let place = play_later_at(viewer, plan, kept, later, before, course)?;
        viewer.see_later(&plan.later_picks, later, before, place)?;
    }
    Ok(())
}

/// Plays the second lifetime on the image of this number, and notes how many images it has.
fn follow(
    viewer: &mut Viewer,
    plan: &Plan<'_>,
    kept: &Kept,
    number: usize,
    later: &mut World,
    place: Place,
) -> Result<(), AllocError> {
    let before = viewer.counts.later;
    play_later(viewer, plan, kept, later, place)?;
    let more = viewer.counts.later.saturating_sub(before);
    viewer.counts.note_later(number, more);
    Ok(())
}

/// Looks at one image of the workload, and plays the second lifetime on it.
fn see_image(
    viewer: &mut Viewer,
    plan: &Plan<'_>,
    life: &World,
    later: &mut World,
    place: Place,
    pick: CrashImage,
) -> Result<(), AllocError> {
    viewer.counts.images = viewer.counts.images.saturating_add(1);
    let Some(number) = viewer.see(life, pick, &[place])? else {
        return Ok(());
    };
    if plan.then.is_empty() || viewer.counts.count_again(number) {
        return Ok(());
    }
    match viewer.kept_in(life, number, pick)? {
        Some(kept) => follow(viewer, plan, &kept, number, later, place),
        None => Ok(()),
    }
}

/// Looks at all images of the workload.
fn see_images(
    viewer: &mut Viewer,
    plan: &Plan<'_>,
    life: &World,
    later: &mut World,
    place: Place,
) -> Result<(), AllocError> {
    for number in 0..plan.picks.len() {
        if let Some(pick) = plan.picks[number] {
            see_image(viewer, plan, life, later, place.of_image(number), pick)?;
        }
    }
    Ok(())
}

/// Plays the workload with one disk call at which it is crashed, or which fails. Returns the line
/// in which it failed.
fn play_at(
    viewer: &mut Viewer,
    plan: &Plan<'_>,
    kept: &Kept,
    life: &mut World,
    course: Course,
) -> Result<Place, AllocError> {
    let ending = life.live(kept, plan.steps, course)?;
    let place = Place::of_line(course.call, ending.failed_in);
    viewer.judge(life, &[place], &ending);
    viewer.counts.faults.add(&life.faults);
    Ok(place)
}

/// Plays the workload without a failure. Returns the disk calls of its opening.
fn play_whole(
    viewer: &mut Viewer,
    plan: &Plan<'_>,
    kept: &Kept,
    life: &mut World,
) -> Result<u64, AllocError> {
    let opening = if begins_closed(plan.steps) {
        0
    } else {
        life.calls_of_opening(kept)?
    };
    let whole = life.live(kept, plan.steps, plan.whole_course(false))?;
    viewer.counts.judge(&[], &whole);
    viewer.counts.calls = life.calls_now().saturating_sub(opening);
    Ok(opening)
}

/// Plays the workload for each of its disk calls.
fn play_each(
    viewer: &mut Viewer,
    plan: &Plan<'_>,
    kept: &Kept,
    life: &mut World,
    later: &mut World,
) -> Result<(), AllocError> {
    let opening = play_whole(viewer, plan, kept, life)?;
    let calls = viewer.counts.calls;
    for call in 1..plan.last_call(calls).saturating_add(1) {
        let course = plan.course_at(opening, call, false);
        let place = play_at(viewer, plan, kept, life, course)?;
        see_images(viewer, plan, life, later, place)?;
    }
    Ok(())
}

/// Takes memory and frees it. The C library then keeps as much for later, and does not take each
/// disk's memory from the system.
fn spare_memory(alloc: Global) -> Result<(), AllocError> {
    let spare: Vec<u8> = Vec::from_elem(alloc, 0, 32_000_000)?;
    drop(spare);
    Ok(())
}

fn new_viewer(alloc: Global, kind: Kind) -> Result<Viewer, AllocError> {
    Ok(Viewer {
        world: World::boxed(alloc)?,
        counts: Counts::new(alloc, kind),
    })
}

/// Returns whether a crash at the end of a lifetime may leave its disk as it was last written.
pub(crate) fn is_left_right(life: &World) -> Result<bool, AllocError> {
    let mut viewer = new_viewer(life.alloc, Kind::Faults)?;
    Ok(viewer.see(life, CrashImage::Newest, &[])?.is_some())
}

/// Plays a matrix on a closed pool.
pub(crate) fn play_matrix(
    alloc: Global,
    kept: &Kept,
    plan: &Plan<'_>,
) -> Result<Counts, AllocError> {
    spare_memory(alloc)?;
    let mut viewer = new_viewer(alloc, plan.kind)?;
    let mut life = World::boxed(alloc)?;
    let mut later = World::boxed(alloc)?;
    play_each(&mut viewer, plan, kept, &mut life, &mut later)?;
    let Viewer {
        world: _world,
        counts,
    } = viewer;
    Ok(counts)
}
