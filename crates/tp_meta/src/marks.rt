//! Which data blocks slots lost since the last commit.

ghost use Rattle.std.specs.Prelude.{◌≡◌, ◌≤◌, ◌<◌, ℕ, List, Bool, IfOk, false, true, length, replicate, set, slice_index_or, vec_capacity};
ghost use Rattle.tp_meta.specs.Marking.{AreFollowed, IsOneOf, cleared, listed_with};

use std::alloc::{AllocError, Global};
use std::marker::Model;
use tp_model::Pb;

/// So many places are listed at most. Where more blocks are marked, all marks are cleared at once, which costs no more than
/// 256 bytes for each of them.
const MOST_LISTED: usize = 4096;

/// A mark for each data block. They are cleared where they were set, so that it costs by how many were. No call but `new` takes
/// memory.
#[derive(Drop)]
pub(crate) struct Marks {
    marks: Vec<bool>,
    // The places where marks are set, each once, and 4096 of them where more are.
    places: Vec<u32>,
}

impl Model for Marks {
    ghost use Rattle.std.specs.Prelude.{◌≤◌, vec_capacity, List, Bool};
    ghost use Rattle.tp_meta.specs.Marking.{AreListed};

    ghost Value = { List Bool };

    ghost view = { λ m. m.marks.items };

    ghost invariant = { λ m. (4096 ≤ vec_capacity m.places) × AreListed m.marks.items m.places.items };
}

/// Sets or clears the mark at a place, if there is one.
fn put_at(marks: &mut Vec<bool>, place: u32, mark: bool)
    ensures { marks.new.items ≡ set marks.old.items place mark }
{
    let place = place as usize;
    if place >= marks.len() {
        return;
    }
    marks[place] = mark;
}

/// Lists a place, where there is room.
fn list(places: &mut Vec<u32>, place: u32)
    requires { 4096 ≤ vec_capacity places.old }
    ensures value { places.new.items ≡ listed_with place places.old.items }
    ensures capacity { 4096 ≤ vec_capacity places.new }
{
    if places.len() >= MOST_LISTED {
        return;
    }
    match places.push(place) {
        Ok(()) => (),
        Err(_) => unreachable!(),
    }
}

/// Lists the first so many places, and no others.
fn fill(places: &mut Vec<u32>, count: usize)
    requires room { 4096 ≤ vec_capacity places.old }
    requires few { count ≤ 4096 }
    ensures long { length places.new.items ≡ count }
    ensures each { (n : ℕ) → n < count → IsOneOf n places.new.items }
    ensures capacity { 4096 ≤ vec_capacity places.new }
{
    places.clear();
    for i in 0..count {
        list(places, i as u32);
    }
}

/// Clears the marks at these places.
fn clear_at(marks: &mut Vec<bool>, places: &[u32])
    ensures { marks.new.items ≡ cleared marks.old.items places.now }
{
    for i in 0..places.len() {
        put_at(marks, places[i], false);
    }
}

/// Clears all marks.
fn clear_all(marks: &mut Vec<bool>)
    ensures { marks.new.items ≡ replicate (length marks.old.items) false }
{
    marks.fill(false);
}

/// Sets all marks.
fn set_all(marks: &mut Vec<bool>)
    ensures { marks.new.items ≡ replicate (length marks.old.items) true }
{
    marks.fill(true);
}

/// Clears the marks, all of which were set at these places where fewer than 4096 are listed.
fn clear_marks(marks: &mut Vec<bool>, places: &[u32])
    ensures { AreFollowed marks.old.items places.now → marks.new.items ≡ replicate (length marks.old.items) false }
{
    if places.len() >= MOST_LISTED {
        clear_all(marks);
        return;
    }
    clear_at(marks, places);
}

impl Marks {
    /// No marks, for so many data blocks.
    pub(crate) fn new(alloc: Global, blocks: usize) -> Result<Marks, AllocError>
        ensures { IfOk result (λ marks. marks ≡ replicate blocks false) }
    {
        Ok(Marks {
            marks: vec![in alloc; false; blocks]?,
            places: Vec::with_capacity(alloc, MOST_LISTED)?,
        })
    }

    /// Whether a data block is marked.
    pub(crate) fn has(&self, place: Pb) -> bool
        ensures { result ≡ slice_index_or self.now place false }
    {
        let place = place.number() as usize;
        if place >= self.marks.len() {
            return false;
        }
        self.marks[place]
    }

    /// Marks a data block.
    pub(crate) fn put(&mut self, place: Pb)
        ensures { self.new ≡ set self.old place true }
    {
        // A place that is marked is listed already, or the list is full.
        if self.has(place) {
            return;
        }
        let place = place.number();
        if place as usize >= self.marks.len() {
            return;
        }
        list(&mut self.places, place);
        put_at(&mut self.marks, place, true);
    }

    /// Marks each data block. The list of places has all of them, or is full, so that all marks are cleared at once.
    pub(crate) fn put_all(&mut self)
        ensures { self.new ≡ replicate (length self.old) true }
    {
        set_all(&mut self.marks);
        fill(&mut self.places, self.marks.len().min(MOST_LISTED));
    }

    /// No data block is marked any more.
    pub(crate) fn clear(&mut self)
        ensures { self.new ≡ replicate (length self.old) false }
    {
        clear_marks(&mut self.marks, &self.places);
        self.places.clear();
    }
}
