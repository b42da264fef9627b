//! One client over the hub.
ghost use Rattle.std.specs.Prelude.{◌≡◌, ◌<◌, IfOk, length};
ghost use Rattle.tp_hub.specs.Runs.{incoming, session_of};
ghost use Rattle.tp_hub.specs.Desks.{IsAsked};

use crate::script::{KEPT, Script};
use crate::talk::{
    ALL_GIVEN, ANSWERED, GO_0, GONE, GREETED, HEARD, READS_IN_A_PIECE, one_talk, reads,
};
use nbd_session::Profile;
use std::alloc::Global;
use std::test::Fail;
use tp_hub::{Answers, Carried, Desk, Event, Hub, HubDesk, MOST_BYTES, Ran, carry, serve};
use tp_model::Refusal;
use tp_shelf::blank_shelf;

/// How many bytes are read at once.
const PIECE: usize = 262144;

/// So many zero bytes.
fn zeroes(alloc: Global, len: usize) -> Result<Vec<u8>, Refusal>
    ensures { IfOk result (λ v. length v.items ≡ len) }
{
    match vec![in alloc; 0u8; len] {
        Ok(bytes) => Ok(bytes),
        Err(_) => Err(Refusal::Memory),
    }
}

/// Carries a client as session 5 over two volumes of zeros: how it ended, and how many sessions hold volumes after it.
fn carry_by(
    alloc: Global,
    client: &mut Script<'_>,
    buffer: &mut Vec<u8>,
) -> Result<(Carried, usize), Refusal>
    requires { 0 < length buffer.old.items }
{
    let mut hub = Hub::new(blank_shelf(alloc)?);
    let mut out = Answers::of_a_turn(alloc);
    let mut desk = HubDesk {
        alloc,
        hub: &mut hub,
    };
    let ending = carry(&mut desk, 5, Profile::Strict, client, buffer, &mut out);
    let HubDesk { alloc: _, hub: _ } = desk;
    Ok((ending, hub.into_pool().held()))
}

/// The same by way of a buffer of its own.
fn carry_alone(alloc: Global, client: &mut Script<'_>) -> Result<(Carried, usize), Refusal> {
    let mut buffer = zeroes(alloc, PIECE)?;
    carry_by(alloc, client, &mut buffer)
}

/// What is told of a client: how it ended, the sessions that hold volumes, what was taken, the flushes, the reads, and those behind its last byte.
type Told = (Carried, usize, u64, u64, u64, u64);

/// Carries a client: what is told of it, and the first bytes that it took.
fn carry_and_tell(alloc: Global, client: &mut Script<'_>) -> Result<(Told, [u8; KEPT]), Refusal> {
    let (ending, held) = carry_alone(alloc, client)?;
    let told = (
        ending,
        held,
        client.taken,
        client.flushes,
        client.reads,
        client.late_reads,
    );
    Ok((told, client.kept))
}

/// The same of one that sends one talk with a DISC in it, so many bytes a read, and takes so many a write.
fn carry_talk(alloc: Global, gives: usize, takes: usize) -> Result<(Told, [u8; KEPT]), Refusal> {
    let Ok(talk) = one_talk(alloc) else {
        return Err(Refusal::Memory);
    };
    let mut client = Script::new(&talk);
    client.gives = gives;
    client.takes = takes;
    carry_and_tell(alloc, &mut client)
}

/// Whether that talk is answered by the greeting, a reply without an error, and a sector of letters.
fn are_answers(kept: &[u8; KEPT]) -> [bool; 3] {
    [
        &kept[..16] == b"NBDMAGICIHAVEOPT".as_slice(),
        &kept[104..112] == b"\x67\x44\x66\x98\0\0\0\0".as_slice(),
        kept[136..648].iter().all(|byte| *byte == 0x61),
    ]
}

/// How many bytes that client gives a read and takes a write, and what is told of it then.
const TALKS: [(usize, usize, Told); 4] = [
    (
        usize::MAX,
        usize::MAX,
        (Carried::SessionOver, 0, ANSWERED, 2, 1, 0),
    ),
    (
        1,
        usize::MAX,
        (Carried::SessionOver, 0, ANSWERED, 4, HEARD as u64, 0),
    ),
    (usize::MAX, 1, (Carried::SessionOver, 0, ANSWERED, 2, 1, 0)),
    (usize::MAX, 0, (Carried::OutputFailed, 0, 0, 0, 0, 0)),
];

/// The first of these of which something else is told, or that takes other bytes than this.
fn first_other_talk(alloc: Global, wanted: &[u8; KEPT]) -> Result<Option<usize>, Refusal> {
    for (i, (gives, takes, wants)) in TALKS.iter().enumerate() {
        let (told, kept) = carry_talk(alloc, *gives, *takes)?;
        if told != *wants || (*takes > 0 && kept != *wanted) {
            return Ok(Some(i));
        }
    }
    Ok(None)
}

/// A client is answered alike by whole pieces and byte by byte, and is not read behind DISC. A write that takes nothing ends it.
#[test]
fn one_talk_in_pieces(rt: HostRuntime) -> Result<(), Fail> {
    let (_, kept) = carry_talk(rt.alloc(), usize::MAX, usize::MAX)?;
    let other = first_other_talk(rt.alloc(), &kept)?;
    assert_eq!(rt; (other, are_answers(&kept)), (None, [true; 3]));
    Ok(())
}

/// A desk, with how often it was asked, and the most bytes that one ask answered.
pub(crate) struct Watched<D: Desk> {
    pub desk: D,
    pub asks: u64,
    pub most: usize,
}

impl<D: Desk> Desk for Watched<D> {
    ghost asks = { λ a took answers b. D.asks a.desk took answers b.desk };

    fn ask(&mut self, event: Event<'_>, out: &mut Answers) -> Ran {
        let ran = self.desk.ask(event, out);
        self.asks = self.asks.saturating_add(1);
        self.most = self.most.max(out.bytes().len());
        ran
    }
}

/// How a client ended, how often the hub was asked, and the most bytes that one ask answered.
type Asked = (Carried, u64, usize);

/// Carries a client as session 5, and tells that.
fn carry_watched(
    alloc: Global,
    client: &mut Script<'_>,
    buffer: &mut Vec<u8>,
) -> Result<Asked, Refusal>
    requires { 0 < length buffer.old.items }
{
    let mut hub = Hub::new(blank_shelf(alloc)?);
    let mut out = Answers::of_a_turn(alloc);
    let desk = HubDesk {
        alloc,
        hub: &mut hub,
    };
    let mut watched = Watched {
        desk,
        asks: 0,
        most: 0,
    };
    let ending = carry(&mut watched, 5, Profile::Strict, client, buffer, &mut out);
    let Watched { desk, asks, most } = watched;
    let HubDesk { alloc: _, hub: _ } = desk;
    let _ = hub.into_pool();
    Ok((ending, asks, most))
}

/// The same by way of a buffer of its own.
fn watch(alloc: Global, client: &mut Script<'_>) -> Result<Asked, Refusal> {
    let mut buffer = zeroes(alloc, PIECE)?;
    carry_watched(alloc, client, &mut buffer)
}

/// How a client ended and how many bytes it took; and whether the hub was asked for each two READs of a piece once at least, and whether no ask answered and no write
/// offered more than it may.
type Bounded = ((Carried, u64), [bool; 3]);

/// What is told of a client.
fn told_watched(alloc: Global, client: &mut Script<'_>) -> Result<Bounded, Refusal> {
    let (ending, asks, most) = watch(alloc, client)?;
    let are_so = [
        asks > READS_IN_A_PIECE as u64 / 2,
        most <= MOST_BYTES,
        client.most_offered <= MOST_BYTES,
    ];
    Ok(((ending, client.taken), are_so))
}

/// The same of one that sends a piece of large reads.
fn told_of_large_reads(alloc: Global) -> Result<Bounded, Refusal> {
    let Ok(talk) = reads(alloc, READS_IN_A_PIECE) else {
        return Err(Refusal::Memory);
    };
    let mut client = Script::new(&talk);
    told_watched(alloc, &mut client)
}

/// 256 KiB of requests that ask for 9 GiB of answers: they go through a buffer of a few MiB, and no ask, for which another client would wait, answers more.
#[test]
fn a_piece_of_large_reads(rt: HostRuntime) -> Result<(), Fail> {
    let told = told_of_large_reads(rt.alloc())?;
    let all = (GREETED + GONE + READS_IN_A_PIECE * ALL_GIVEN) as u64;
    assert_eq!(rt; told, ((Carried::EndOfInput, all), [true; 3]));
    Ok(())
}

/// What is told of a client that is served beside two others: the events of these, the least free number before it and behind it, how it ended, and how many bytes
/// it took; and how many sessions hold volumes then.
type Served = (usize, Option<u8>, Carried, u64, Option<u8>);

/// Serves a client beside sessions 0 and 2.
fn serve_beside(
    alloc: Global,
    client: &mut Script<'_>,
    buffer: &mut Vec<u8>,
) -> Result<(Served, usize), Refusal>
    requires { 0 < length buffer.old.items }
{
    let mut hub = Hub::new(blank_shelf(alloc)?);
    let mut out = Answers::of_a_turn(alloc);
    let ran = hub.run(
        alloc,
        &[
            Event::Open(0, Profile::Strict),
            Event::Open(2, Profile::Strict),
        ],
        &mut out,
    );
    out.clear();
    let free = hub.free_number();
    let (hub, ending) = serve(alloc, hub, Profile::Strict, client, buffer, &mut out);
    let told = (ran.events, free, ending, client.taken, hub.free_number());
    Ok((told, hub.into_pool().held()))
}

/// The same of one that sends this.
fn served_with(alloc: Global, text: &[u8]) -> Result<(Served, usize), Refusal> {
    let mut buffer = zeroes(alloc, 4096)?;
    let mut client = Script::new(text);
    serve_beside(alloc, &mut client, &mut buffer)
}

/// The same of one that sends one talk.
fn served_with_talk(alloc: Global) -> Result<(Served, usize), Refusal> {
    match one_talk(alloc) {
        Ok(talk) => served_with(alloc, &talk),
        Err(_) => Err(Refusal::Memory),
    }
}

/// Behind a client, also one that goes in the middle of its session, its own number is free again, and no other one.
#[test]
fn the_least_number_is_served(rt: HostRuntime) -> Result<(), Fail> {
    let told = [
        served_with_talk(rt.alloc())?,
        served_with(rt.alloc(), GO_0)?,
    ];
    let gone = (GREETED + GONE) as u64;
    assert_eq!(rt;
        told,
        [
            ((2, Some(1), Carried::SessionOver, ANSWERED, Some(1)), 0),
            ((2, Some(1), Carried::EndOfInput, gone, Some(1)), 0),
        ]
    );
    Ok(())
}
