//! Many clients over the volumes of one pool.
//!
//! A [`Hub`] has up to 64 sessions of NBD. It takes events one after another: a client comes, sends a piece, or goes. Each event is
//! answered before the next one is taken, so what is sent is that of the sessions' turns in this order.
//!
//! A [`Desk`] takes one event at a time, as a hub does; a [`Stream`] is read and written, and tells its calls. [`carry`] carries one client over both.
//!
//! Messages to the pool, and its status lines, are events too: each is one call of the pool between the turns of its sessions. A hub that
//! many ask makes the commit that an event asks for in parts, between which READs go on ([`StagedHub`]).
#![tactic(auto)]

mod alone;
mod answers;
mod client;
mod desk;
mod event;
mod flushed;
mod hub;
mod laws;
mod log;
mod orders;
mod seat;
mod shared;
mod slot;
mod staged;
mod stream;

pub use alone::{OwnDesk, serve};
pub use answers::{Answers, MOST_BYTES, Mark};
pub use client::{Carried, carry};
pub use desk::{Desk, HubDesk};
pub use event::Event;
pub use hub::{Hub, Ran, SESSIONS};
pub use laws::{
    a_flush_covers_all_clients, a_flush_keeps_what_any_client_wrote,
    an_answered_write_through_is_kept, asks_are_traced, hub_lives_are_plain,
    long_requests_are_made, runs_are_traced, runs_are_turns, runs_go_on, runs_join,
    two_are_heard_in_turn,
};
pub use log::{Log, Made};
pub use seat::Seat;
pub use staged::{StagedHub, Start};
pub use stream::{Put, Received, Stream, send_all, write_out};
