//! Transcripts of a command line: their lines, the commands of their player, and what each command must print.
//!
//! A transcript is a text file. `#` begins a comment line, and empty lines have no meaning.
//!
//! - `case NAME` begins a case, which has no image yet.
//! - `$ COMMAND` is a command, with its arguments as in a shell: `'..'` or `".."` is one argument.
//! - The lines after it are its standard output. `2> LINE` is a line of standard error, and `exit N` the exit status if it is not
//!   0. A `\` at the end means that this line does not end there. `1> LINE` is standard output too, for an empty line or one that
//!   begins like one of those named here.
//! - `< LINE` is a line of standard input.
//! - `<bytes ..` and `>bytes ..` are bytes of standard input and output: hexadecimal digits, or `"text"`, with `*N` after it for N
//!   times. `request TYPE COOKIE OFFSET LENGTH [FLAGS]`, `option OPTION ..`, `reply ERROR COOKIE`, `option-reply OPTION TYPE ..`,
//!   `chunk TYPE COOKIE ..` and `last-chunk ..` in place of `bytes` are messages of NBD.
//!
//! `thinpool ..` is the program. The other commands are those of the player:
//!
//! | Command | What it does |
//! |---|---|
//! | `terminal none\|errors\|all` | from now on standard error, or also standard input, of the program is a terminal |
//! | `input whole\|by-byte\|breaks` | from now on standard input is read at once, byte by byte, or fails after its last byte |
//! | `output whole`, `output breaks-after N` | from now on standard output fails after N writes |
//! | `cat > FILE` | writes standard input into a file, which is removed at the end of the case |
//! | `make-file IMAGE BYTES`, `make-device IMAGE BYTES` | an image file, or a block device, of zeros |
//! | `size IMAGE`, `byte IMAGE PLACE` | prints the bytes of an image, or one of them |
//! | `set-byte IMAGE PLACE VALUE`, `truncate IMAGE BYTES` | changes an image |
//! | `copy IMAGE OTHER`, `compare IMAGE OTHER` | as `cp` and `cmp` |
//! | `hold IMAGE`, `release IMAGE` | another program opens an image, and closes it |
//! | `fail IMAGE N [to M\|on]` | these disk calls of the image fail, counted from now |
//! | `crash IMAGE` | leaves of an image what was flushed |
#![tactic(auto)]

mod arguments;
mod images;
mod line;
mod messages;
mod report;
mod spelling;
mod step;
mod streams;
mod verb;

pub use arguments::arguments_of;
pub use images::{Held, play_image};
pub use report::Report;
pub use step::{Printed, Step, steps_of};
pub use streams::{Input, Output, Reading};
pub use verb::{ImageVerb, Verb, verb_of};
