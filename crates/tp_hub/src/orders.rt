//! Messages to the pool, flushes of it, its status lines, sizes of its volumes, and pages of its listings.

ghost use Rattle.std.specs.Prelude.{◌≡◌, ◌∷◌, [], ◌<◌, ◌≤◌, None, length, take};
ghost use Rattle.tp_model.specs.Calls as calls;
ghost use Rattle.tp_msg.specs.Asked.{call_of};
ghost use Rattle.tp_pages.specs.Pages.{AsksDelta, AsksMap, AsksSize, unit_of};
ghost use Rattle.tp_hub.specs.Runs.{AsksDeltaOf, AsksFlush, AsksLine, AsksLineOf, AsksMapOf, AsksSizeOf, Orders, TellsDone, TellsLine, delta_fault, map_fault, size_fault};
ghost use Rattle.tp_hub.specs.Told.{Grows, HasRoom, Lines};
ghost use Rattle.tp_hub.specs.Places.{IsMade, IsPageMade, PoolTakes};

use crate::answers::{Answers, Mark};
use crate::slot::{NOTHING, Took, WHOLE};
use tp_model::{DevId, Refusal, Vb, Volumes};
use tp_msg::{LineBuffer, Managed, Message, order, read_message};
use tp_pages::{PageLine, delta_line, map_line, size_line};

/// Makes the call that a message asks for, and tells its answer.
fn obey<V: Managed>(pool: &mut V, message: &Message, out: &mut Answers)
    requires { length out.old.list < out.old.marks }
    ensures { IsMade V.view TellsDone (call_of message.now) pool.old out.old out.new pool.new }
{
    match order(pool, message) {
        Ok(()) => out.note(Mark::Done),
        Err(reason) => out.note(Mark::Refused { reason }),
    }
}

/// Has a pool keep what was written, and tells its answer.
fn keep<V: Volumes>(pool: &mut V, out: &mut Answers)
    requires { length out.old.list < out.old.marks }
    ensures { IsMade V.view TellsDone calls.Flush pool.old out.old out.new pool.new }
{
    match pool.flush() {
        Ok(()) => out.note(Mark::Done),
        Err(reason) => out.note(Mark::Refused { reason }),
    }
}

/// Tells the line at the front of a buffer.
fn tell_line(out: &mut Answers, line: &LineBuffer, len: usize)
    requires room { HasRoom out.old }
    requires fits { len ≤ 192 }
    ensures { Grows out.old out.new (Lines (take len line.now) ∷ []) }
{
    out.tell(&line[..len]);
}

/// Tells a volume's status line, or why there is none.
fn tell_volume<V: Managed>(pool: &mut V, id: DevId, out: &mut Answers)
    requires { HasRoom out.old }
    ensures { IsMade V.view TellsLine (calls.ThinStatus id) pool.old out.old out.new pool.new }
{
    let mut line = [0; 192];
    match pool.thin_status(id, &mut line) {
        Ok(len) => tell_line(out, &line, len),
        Err(reason) => out.note(Mark::Refused { reason }),
    }
}

/// Takes a line: where it is a message the pool is asked once, and its answer is told; else it is refused for its text alone.
pub fn take_message<V: Managed>(pool: &mut V, line: &[u8], out: &mut Answers) -> Took
    ensures { PoolTakes V.view (Orders line.now) pool.old result.whole result.bytes out.old out.new pool.new }
{
    if out.make_room().is_err() {
        return NOTHING;
    }
    match read_message(line) {
        Err(reason) => {
            out.note(Mark::Refused { reason });
            WHOLE
        }
        Ok(message) => {
            obey(pool, &message, out);
            WHOLE
        }
    }
}

/// Has the pool keep what was written, and tells its answer.
pub fn take_flush<V: Volumes>(pool: &mut V, out: &mut Answers) -> Took
    ensures { PoolTakes V.view AsksFlush pool.old result.whole result.bytes out.old out.new pool.new }
{
    if out.make_room().is_err() {
        return NOTHING;
    }
    keep(pool, out);
    WHOLE
}

/// Tells the pool's status line as it is now.
pub fn take_status<V: Managed>(pool: &mut V, out: &mut Answers) -> Took
    ensures { PoolTakes V.view AsksLine pool.old result.whole result.bytes out.old out.new pool.new }
{
    if out.make_room().is_err() {
        return NOTHING;
    }
    let mut line = [0; 192];
    let len = pool.status(&mut line);
    tell_line(out, &line, len);
    WHOLE
}

/// Tells a volume's status line as it is now, where the number can be a volume's.
pub fn take_thin_status<V: Managed>(pool: &mut V, volume: u32, out: &mut Answers) -> Took
    ensures { PoolTakes V.view (AsksLineOf volume) pool.old result.whole result.bytes out.old out.new pool.new }
{
    if out.make_room().is_err() {
        return NOTHING;
    }
    match DevId::checked(u64::from(volume)) {
        Err(reason) => {
            out.note(Mark::Refused { reason });
            WHOLE
        }
        Ok(id) => {
            tell_volume(pool, id, out);
            WHOLE
        }
    }
}

/// Numbers of volumes and of their blocks are below this one.
const MOST_VOLUME: u32 = 16_777_216;

/// Why there is no size of such a volume, if there is none.
fn fault_of_size(volume: u32) -> Option<Refusal>
    ensures fault { result ≡ size_fault volume }
    ensures volume { result ≡ None → volume < 16777216 }
{
    if volume >= MOST_VOLUME {
        return Some(Refusal::BadDeviceId);
    }
    None
}

/// Why there is no page of these numbers, if there is none.
fn fault_of_map(volume: u32, first: u32) -> Option<Refusal>
    ensures fault { result ≡ map_fault volume first }
    ensures volume { result ≡ None → volume < 16777216 }
    ensures first { result ≡ None → first < 16777216 }
{
    if volume >= MOST_VOLUME {
        return Some(Refusal::BadDeviceId);
    }
    if first >= MOST_VOLUME {
        return Some(Refusal::BadSyntax);
    }
    None
}

/// The same of two volumes.
fn fault_of_delta(old: u32, new: u32, first: u32) -> Option<Refusal>
    ensures fault { result ≡ delta_fault old new first }
    ensures one { result ≡ None → old < 16777216 }
    ensures other { result ≡ None → new < 16777216 }
    ensures first { result ≡ None → first < 16777216 }
{
    if old >= MOST_VOLUME {
        return Some(Refusal::BadDeviceId);
    }
    fault_of_map(new, first)
}

/// Tells the line of a page.
fn tell_text(out: &mut Answers, line: &PageLine)
    requires { HasRoom out.old }
    ensures { Grows out.old out.new (Lines line.now.bytes ∷ []) }
{
    out.tell(line.as_str().as_bytes());
}

/// Tells a volume's size, or why there is none.
fn tell_size<V: Managed>(pool: &mut V, id: DevId, out: &mut Answers)
    requires { HasRoom out.old }
    ensures { IsPageMade V.view (λ qs said. AsksSize (unit_of (V.view.outline pool.old).geometry) id qs said) pool.old out.old out.new pool.new }
{
    let mut line = PageLine::new();
    match size_line(pool, id, &mut line) {
        Ok(()) => tell_text(out, &line),
        Err(reason) => out.note(Mark::Refused { reason }),
    }
}

/// Tells a page of the blocks of a volume that are mapped, or why there is none.
fn tell_map<V: Managed>(pool: &mut V, id: DevId, block: Vb, out: &mut Answers)
    requires { HasRoom out.old }
    ensures { IsPageMade V.view (λ qs said. AsksMap (unit_of (V.view.outline pool.old).geometry) id block qs said) pool.old out.old out.new pool.new }
{
    let mut line = PageLine::new();
    match map_line(pool, id, block, &mut line) {
        Ok(()) => tell_text(out, &line),
        Err(reason) => out.note(Mark::Refused { reason }),
    }
}

/// Tells a page of the blocks in which a volume may differ from another, or why there is none.
fn tell_delta<V: Managed>(pool: &mut V, one: DevId, other: DevId, block: Vb, out: &mut Answers)
    requires { HasRoom out.old }
    ensures { IsPageMade V.view (λ qs said. AsksDelta (unit_of (V.view.outline pool.old).geometry) one other block qs said) pool.old out.old out.new pool.new }
{
    let mut line = PageLine::new();
    match delta_line(pool, one, other, block, &mut line) {
        Ok(()) => tell_text(out, &line),
        Err(reason) => out.note(Mark::Refused { reason }),
    }
}

/// Tells a volume's size and that of a block, where the number can be a volume's.
pub fn take_size<V: Managed>(pool: &mut V, volume: u32, out: &mut Answers) -> Took
    ensures { PoolTakes V.view (AsksSizeOf volume) pool.old result.whole result.bytes out.old out.new pool.new }
{
    if out.make_room().is_err() {
        return NOTHING;
    }
    match fault_of_size(volume) {
        Some(reason) => {
            out.note(Mark::Refused { reason });
            WHOLE
        }
        None => {
            let id = DevId::new(volume);
            tell_size(pool, id, out);
            WHOLE
        }
    }
}

/// Tells a page of the blocks of a volume that are mapped, from a block on, where the numbers can be theirs.
pub fn take_map<V: Managed>(pool: &mut V, volume: u32, first: u32, out: &mut Answers) -> Took
    ensures { PoolTakes V.view (AsksMapOf volume first) pool.old result.whole result.bytes out.old out.new pool.new }
{
    if out.make_room().is_err() {
        return NOTHING;
    }
    match fault_of_map(volume, first) {
        Some(reason) => {
            out.note(Mark::Refused { reason });
            WHOLE
        }
        None => {
            let id = DevId::new(volume);
            let block = Vb::new(first);
            tell_map(pool, id, block, out);
            WHOLE
        }
    }
}

/// Tells a page of the blocks in which a volume may differ from another, from a block on, where the numbers can be theirs.
pub fn take_delta<V: Managed>(
    pool: &mut V,
    old: u32,
    new: u32,
    first: u32,
    out: &mut Answers,
) -> Took
    ensures { PoolTakes V.view (AsksDeltaOf old new first) pool.old result.whole result.bytes out.old out.new pool.new }
{
    if out.make_room().is_err() {
        return NOTHING;
    }
    match fault_of_delta(old, new, first) {
        Some(reason) => {
            out.note(Mark::Refused { reason });
            WHOLE
        }
        None => {
            let one = DevId::new(old);
            let other = DevId::new(new);
            let block = Vb::new(first);
            tell_delta(pool, one, other, block, out);
            WHOLE
        }
    }
}
