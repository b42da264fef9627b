//! Who is served, as a line of text.

ghost use Rattle.std.specs.Prelude.{◌≡◌, ◌+◌, ◌*◌, ◌≤◌, ◌++◌, ◌∷◌, [], length, take, IfOk};
ghost use Rattle.std.specs.Fmt.{decimal};
ghost use Rattle.tp_lock.specs.Census.{AreInOrder, IsCensus, held_in, ids_text, is_there, there_in};

use itoa::Buffer;
use std::alloc::{AllocError, Global};
use tp_hub::Seat;

/// The most bytes of such a line.
pub const CENSUS: usize = 1400;

/// Whether somebody is there.
fn is_there(seat: &Seat) -> bool
    ensures { result ≡ is_there seat.now }
{
    match *seat {
        Seat::Free => false,
        Seat::Waits => true,
        Seat::Holds(_) => true,
    }
}

/// How many are there.
fn count_there(seats: &[Seat]) -> u64
    requires few { length seats.now ≤ 64 }
    ensures count { result ≡ there_in seats.now }
{
    let mut count = 0;
    for seat in seats {
        count += is_there(seat) as u64;
    }
    count
}

/// The ids that they hold.
fn held_ids(alloc: Global, seats: &[Seat]) -> Result<Vec<u32>, AllocError>
    requires few { length seats.now ≤ 64 }
    ensures ids { IfOk result (λ ids. ids.items ≡ held_in seats.now) }
    ensures few { IfOk result (λ ids. length ids.items ≤ 64) }
{
    let mut ids = Vec::new(alloc);
    for seat in seats {
        if let Seat::Holds(id) = *seat {
            ids.push(id.number())?;
        }
    }
    Ok(ids)
}

/// The same in ascending order.
fn ascending_ids(alloc: Global, seats: &[Seat]) -> Result<Vec<u32>, AllocError>
    requires few { length seats.now ≤ 64 }
    ensures ids { IfOk result (λ ids. AreInOrder (held_in seats.now) ids.items) }
    ensures few { IfOk result (λ ids. length ids.items ≤ 64) }
{
    let mut ids = held_ids(alloc, seats)?;
    ids.sort()?;
    Ok(ids)
}

/// Puts a text behind what stands before `at`.
pub(crate) fn put(out: &mut [u8], at: usize, text: &[u8]) -> usize
    requires { at + length text.now ≤ length out.old }
    ensures line { take result out.new ≡ take at out.old ++ text.now }
    ensures end { result ≡ at + length text.now }
    ensures len { length out.new ≡ length out.old }
{
    let end = at + text.len();
    out[at..end].copy_from_slice(text);
    end
}

/// The same of a number.
pub(crate) fn put_number(out: &mut [u8], at: usize, number: u64) -> usize
    requires { at + 20 ≤ length out.old }
    ensures line { take result out.new ≡ take at out.old ++ decimal number }
    ensures end { result ≤ at + 20 }
    ensures len { length out.new ≡ length out.old }
{
    let mut digits = Buffer::new();
    put(out, at, digits.format(number).as_bytes())
}

/// The same of a number behind a space.
fn put_id(out: &mut [u8], at: usize, id: u32) -> usize
    requires { at + 21 ≤ length out.old }
    ensures line { take result out.new ≡ (take at out.old ++ 32 ∷ []) ++ decimal id }
    ensures end { result ≤ at + 21 }
    ensures len { length out.new ≡ length out.old }
{
    let behind = put(out, at, b" ");
    put_number(out, behind, id as u64)
}

/// The same of ids, each behind a space.
fn put_ids(out: &mut [u8], at: usize, ids: &[u32]) -> usize
    requires few { length ids.now ≤ 64 }
    requires room { at + 1344 ≤ length out.old }
    ensures line { take result out.new ≡ take at out.old ++ ids_text ids.now }
    ensures end { result ≤ at + 1344 }
    ensures len { length out.new ≡ length out.old }
{
    let mut end = at;
    for id in ids {
        end = put_id(out, end, *id);
    }
    end
}

/// Writes how many are there, and the ids that they hold, in ascending order: an id for each who has a volume. Tells where the line ends.
pub fn put_census(
    alloc: Global,
    seats: &[Seat],
    out: &mut [u8; CENSUS],
) -> Result<usize, AllocError>
    requires few { length seats.now ≤ 64 }
    ensures line { IfOk result (λ end. IsCensus seats.now (take end out.new)) }
    ensures fits { IfOk result (λ end. end ≤ 1400) }
{
    let ids = ascending_ids(alloc, seats)?;
    let count = put_number(out, 0, count_there(seats));
    let head = put(out, count, b" of 64:");
    Ok(put_ids(out, head, &ids))
}
