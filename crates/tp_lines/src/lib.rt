//! Lines of text over a hub: the lines of a script, each an event, and what the answers are in text.
#![tactic(auto)]

mod clearing;
mod control;
mod held;
mod hex;
mod line;
mod pages;
mod pipe;
mod play;
mod text;

pub use clearing::clear_clones;
pub use control::{LinesEnd, answer_line, attend_lines};
pub use hex::unhex;
pub use line::{ScriptLine, read_line};
pub use pages::PageOf;
pub use pipe::{Begins, Ends, Piped, send_text};
pub use play::{Ended, Stopped, play_script};
pub use text::tell;
