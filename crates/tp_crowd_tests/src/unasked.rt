//! No flush is made that no client asked for. A shelf counts the syncs between the parts of
//! flushes: two of each flush that is made in parts.

ghost use Rattle.std.specs.Prelude.{◌<◌};

use crate::talk::{FLUSH, GO, LETTERS, WRITE_HEAD, joined, write};
use crate::waiting::Seen;
use nbd_session::Profile;
use std::alloc::Global;
use std::marker::Brand;
use std::sync::Wait;
use std::test::Fail;
use tp_crowd::{HubLock, LockedDesk};
use tp_hub::{Answers, Desk, Event, Hub};
use tp_model::Refusal;
use tp_shelf::{Shelf, staged_shelf};

/// The client flags, LIST, INFO of volume 0, and GO of it. The `O` of `IHAVEOPT` is odd, as FUA is.
const OPTIONS: &[u8] =
    b"\0\0\0\x03IHAVEOPT\0\0\0\x03\0\0\0\0IHAVEOPT\0\0\0\x06\0\0\0\x07\0\0\0\x010\0\0\
IHAVEOPT\0\0\0\x07\0\0\0\x07\0\0\0\x010\0\0";

/// The heads of requests with FUA that are refused, or have nothing to do: a WRITE past the end,
/// one of no bytes, and a TRIM and a WRITE_ZEROES from an odd place.
const REFUSED_WRITE: &[u8] =
    b"\x25\x60\x95\x13\0\x01\0\x01\0\0\0\0\0\0\0\x05\0\0\0\0\x40\0\0\0\0\0\x02\0";

const EMPTY_WRITE: &[u8] =
    b"\x25\x60\x95\x13\0\x01\0\x01\0\0\0\0\0\0\0\x06\0\0\0\0\0\0\0\0\0\0\0\0";

const ODD_TRIM: &[u8] =
    b"\x25\x60\x95\x13\0\x01\0\x04\0\0\0\0\0\0\0\x07\0\0\0\0\0\0\0\x01\0\0\x02\0";

const ODD_ZEROES: &[u8] =
    b"\x25\x60\x95\x13\0\x01\0\x06\0\0\0\0\0\0\0\x08\0\0\0\0\0\0\0\x01\0\0\x02\0";

/// A FLUSH that is refused for its offset.
const REFUSED_FLUSH: &[u8] =
    b"\x25\x60\x95\x13\0\0\0\x03\0\0\0\0\0\0\0\x09\0\0\0\0\0\0\x02\0\0\0\0\0";

/// Lines of messages that are refused, and one that is none.
const MESSAGES: [&[u8]; 6] = [
    b"delete 0",
    b"delete 5",
    b"create_thin 0",
    b"set_transaction_id 9 1",
    b"grow 7 20",
    b"flash",
];

/// What comes behind a client that wrote a sector, which nobody kept.
#[derive(Clone, Copy)]
enum Scene {
    /// The client sends this text again and again, in two pieces, cut at each byte.
    Cut,
    /// It sends the text once, whole.
    Whole,
    /// Other clients come, one after another, and send it so.
    Others,
    /// Messages that are refused.
    Messages,
    /// The control line `flush`.
    Line,
}

/// Sends all of a piece.
fn send<D: Desk>(desk: &mut D, session: u8, piece: &[u8], out: &mut Answers)
    requires { session < 64 }
{
    let mut at: usize = 0;
    for _ in 0..piece.len() {
        out.clear();
        let ran = desk.ask(Event::Bytes(session, piece.get(at..).unwrap_or(&[])), out);
        if ran.events > 0 {
            return;
        }
        at = at.saturating_add(ran.bytes);
    }
}

/// Sends a text in two pieces.
fn send_cut<D: Desk>(desk: &mut D, session: u8, text: &[u8], cut: usize, out: &mut Answers)
    requires { session < 64 }
{
    send(desk, session, text.get(..cut).unwrap_or(&[]), out);
    send(desk, session, text.get(cut..).unwrap_or(&[]), out);
}

/// Another client comes, sends a text in two pieces, and goes.
fn visit<D: Desk>(desk: &mut D, text: &[u8], cut: usize, out: &mut Answers) {
    out.clear();
    desk.ask(Event::Open(1, Profile::Strict), out);
    send_cut(desk, 1, text, cut, out);
    out.clear();
    desk.ask(Event::Hangup(1), out);
}

/// Sends messages that are refused.
fn order<D: Desk>(desk: &mut D, out: &mut Answers) {
    for line in MESSAGES {
        out.clear();
        desk.ask(Event::Message(line), out);
    }
}

/// Plays a scene.
fn play<D: Desk>(desk: &mut D, scene: Scene, text: &[u8], out: &mut Answers) {
    match scene {
        Scene::Cut => {
            for cut in 1..text.len() {
                send_cut(desk, 0, text, cut, out);
            }
        }
        Scene::Whole => send(desk, 0, text, out),
        Scene::Others => {
            for cut in 1..text.len() {
                visit(desk, text, cut, out);
            }
        }
        Scene::Messages => order(desk, out),
        Scene::Line => {
            out.clear();
            desk.ask(Event::Flush, out);
        }
    }
}

/// A client of this profile writes a sector, and then a scene is played.
fn play_behind<H>(
    rt: &H,
    hub: &HubLock<'_, Shelf, Seen, Brand>,
    profile: Profile,
    first: &[u8],
    scene: Scene,
    text: &[u8],
)
where
    H: Wait + Sync + Alloc<A = Global>,
{
    let mut out = Answers::new(rt.alloc());
    let mut desk = LockedDesk {
        rt,
        alloc: rt.alloc(),
        hub,
    };
    desk.ask(Event::Open(0, profile), &mut out);
    send(&mut desk, 0, GO, &mut out);
    send(&mut desk, 0, first, &mut out);
    play(&mut desk, scene, text, &mut out);
}

/// How many syncs were made between parts of flushes in a scene.
fn syncs_in<H>(rt: &H, profile: Profile, scene: Scene, parts: &[&[u8]]) -> Result<u64, Refusal>
where
    H: Wait + Sync + Alloc<A = Global>,
{
    let (Ok(text), Ok(first)) = (joined(rt.alloc(), parts), write(rt.alloc())) else {
        return Err(Refusal::Memory);
    };
    let alarm = Seen::nothing();
    let shelf = staged_shelf(rt.alloc(), 2, false)?;
    let hub = HubLock::<Shelf, Seen, Brand>::new(Hub::new(shelf), &alarm);
    play_behind(rt, &hub, profile, &first, scene, &text);
    Ok(hub.into_inner().into_pool().synced().0)
}

/// Two WRITEs, one behind the other, and one whose payload begins with a whole FLUSH.
const TWO_WRITES: &[&[u8]] = &[WRITE_HEAD, LETTERS, WRITE_HEAD, LETTERS];

const WRITE_OF_A_FLUSH: &[&[u8]] = &[WRITE_HEAD, FLUSH, &[0x61; 484]];

/// The requests with FUA that keep nothing.
const REFUSED: &[&[u8]] = &[
    REFUSED_WRITE,
    LETTERS,
    EMPTY_WRITE,
    ODD_TRIM,
    ODD_ZEROES,
    REFUSED_FLUSH,
];

/// Scenes, and their syncs. WRITEs whose payload looks like a FLUSH, or like FUA, are cut at each byte, and so are options; requests with FUA, and messages,
/// are refused. Only a FLUSH that comes whole, and the control line `flush`, are made in parts.
const SCENES: [(Profile, Scene, &[&[u8]], u64); 9] = [
    (Profile::Strict, Scene::Cut, TWO_WRITES, 0),
    (Profile::Extended, Scene::Cut, TWO_WRITES, 0),
    (Profile::Strict, Scene::Cut, WRITE_OF_A_FLUSH, 0),
    (Profile::Strict, Scene::Others, &[OPTIONS], 0),
    (Profile::Strict, Scene::Whole, REFUSED, 0),
    (Profile::Extended, Scene::Whole, REFUSED, 0),
    (Profile::Strict, Scene::Messages, &[], 0),
    (Profile::Strict, Scene::Whole, &[FLUSH], 2),
    (Profile::Strict, Scene::Line, &[], 2),
];

/// The first of these with other syncs.
fn first_other_scene<H>(rt: &H) -> Result<Option<usize>, Refusal>
where
    H: Wait + Sync + Alloc<A = Global>,
{
    for (i, (profile, scene, parts, syncs)) in SCENES.iter().enumerate() {
        if syncs_in(rt, *profile, *scene, parts)? != *syncs {
            return Ok(Some(i));
        }
    }
    Ok(None)
}

#[test]
fn only_what_is_asked_for_is_flushed(rt: HostRuntime) -> Result<(), Fail> {
    let other = first_other_scene(&rt)?;
    assert_eq!(rt; other, None);
    Ok(())
}
