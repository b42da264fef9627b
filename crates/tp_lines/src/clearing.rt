//! Clones that a server left which runs no more: they are deleted at a start.

ghost use Rattle.std.specs.Prelude.{◌≡◌, ℕ, ◌≤◌, ◌∷◌, [], List, length, take, IfOk, MatchResult, if◌then◌else◌};
ghost use Rattle.std.specs.List.{list_any};
ghost use Rattle.tp_hub.specs.Told.{HasRoom};
ghost use Rattle.tp_hub.specs.Runs.{Orders};
ghost use Rattle.tp_hub.specs.Desks.{AreAsked, Exchange};
ghost use Rattle.tp_lines.specs.Clearing.{AreDeletes, accepted_in, count_of, delete_line, is_done};

use crate::text::copy;
use itoa::Buffer;
use nbd_session::{FIRST_CLONE, MOST_CLONES};
use std::alloc::{AllocError, Global};
use tp_hub::{Answers, Desk, Event, Mark};

/// The message that deletes a volume, at the front.
fn put_delete(out: &mut [u8], id: u32) -> usize
    requires fits { 40 ≤ length out.old }
    ensures line { take result out.new ≡ delete_line id }
    ensures end { result ≤ 36 }
    ensures len { length out.new ≡ length out.old }
{
    let mut digits = Buffer::new();
    let after_word = copy(out, 0, b"delete ");
    copy(out, after_word, digits.format(id as u64).as_bytes())
}

/// Whether a mark says that a message is done.
fn is_done(mark: &Mark) -> bool
    ensures { result ≡ is_done mark.now }
{
    match mark {
        Mark::Done => true,
        Mark::Sent { .. } | Mark::End { .. } | Mark::Refused { .. } | Mark::Line { .. } => false,
    }
}

/// Whether one of the marks does.
fn any_done(marks: &[Mark]) -> bool
    ensures { result ≡ list_any is_done marks.now }
{
    marks.iter().any(|mark| is_done(mark))
}

/// 1 or 0.
fn one_if(done: bool) -> u32
    ensures value { result ≡ (if done then 1 else 0) }
    ensures most { result ≤ 1 }
{
    if done { 1 } else { 0 }
}

/// Asks a desk to delete a volume: 1 where that was done, and else 0.
fn ask_delete<D: Desk>(desk: &mut D, id: u32, out: &mut Answers) -> u32
    requires empty { out.old.list ≡ [] }
    requires fits { HasRoom out.old }
    ensures asked { (x : Exchange) × D.asks desk.old x.took x.answers desk.new × (x.took ≡ Orders (delete_line id) ∷ []) × (result ≡ count_of x.answers) }
    ensures most { result ≤ 1 }
    ensures empty { out.new.list ≡ [] }
    ensures fits { HasRoom out.new }
{
    let mut line = [0u8; 40];
    let len = put_delete(&mut line, id);
    desk.ask(Event::Message(&line[..len]), out);
    let done = any_done(out.marks());
    out.clear();
    one_if(done)
}

/// Asks a desk to delete each volume that has the id of a clone, and tells how many there were.
fn clear_all<D: Desk>(desk: &mut D, out: &mut Answers) -> u32
    requires empty { out.old.list ≡ [] }
    requires fits { HasRoom out.old }
    ensures { (xs : List Exchange) × AreAsked D.asks desk.old xs desk.new × AreDeletes 8388608 64 xs × (result ≡ accepted_in xs) }
{
    let mut deleted = 0;
    for i in 0..MOST_CLONES {
        deleted += ask_delete(desk, FIRST_CLONE + i, out);
    }
    deleted
}

/// A list of answers with room for one.
fn make_answers(alloc: Global) -> Result<Answers, AllocError>
    ensures { IfOk result (λ out. (out.list ≡ []) × HasRoom out) }
{
    let mut out = Answers::of_a_turn(alloc);
    out.make_room()?;
    Ok(out)
}

/// Asks a desk to delete each volume that has the id of a clone, and tells how many there were. `Err` where there is no memory for the answers: nothing was asked.
pub fn clear_clones<D: Desk>(alloc: Global, desk: &mut D) -> Result<u32, AllocError>
    ensures { (xs : List Exchange) × AreAsked D.asks desk.old xs desk.new
        × MatchResult result (λ deleted. AreDeletes 8388608 64 xs × (deleted ≡ accepted_in xs)) (λ _. xs ≡ []) }
{
    match make_answers(alloc) {
        Ok(made) => {
            let mut out = made;
            Ok(clear_all(desk, &mut out))
        }
        Err(refused) => Err(refused),
    }
}
