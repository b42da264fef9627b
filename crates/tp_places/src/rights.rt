//! Who may connect to socket files: their mode, and their group.

ghost use Rattle.std.specs.Prelude.{◌≡◌, ℕ, IfErr, IfOk, IfSome, Ok, Some, is_some};
ghost use Rattle.std.specs.Option.{unwrap_or};
ghost use Rattle.tp_places.specs.Groups.{IsGroupNumber};

use crate::groups::{number_in, number_of_group};
use std::alloc::Global;
use std::fs::File;
use std::io::{self, Read};
use std::rt::Files;
use tp_failures::{Cause, Failure};
use tp_model::Refusal;
use tp_words::SocketRights;

/// The mode of a socket file if none is given: only its owner may connect.
const OWNER_ONLY: u32 = 0o600;

/// The file of groups, as group(5) has it.
const GROUPS: &str = "/etc/group";

/// The rights of socket files.
#[derive(Clone, Copy, Debug)]
pub struct Rights {
    /// The mode.
    pub mode: u32,
    /// The number of the group; without it the group of the process.
    pub group: Option<u32>,
}

/// The rights that are wanted. A group is a number, or else a name in `/etc/group`.
///
/// Errors: `Fault` if the group does not exist, or if that file cannot be read.
pub fn rights_of<R: Files<File = File>>(
    rt: &R,
    alloc: Global,
    wanted: &SocketRights<'_>,
) -> Result<Rights, Failure>
    ensures mode { IfOk result (λ rights. rights.mode ≡ unwrap_or wanted.now.mode 384) }
    ensures group { IfOk result (λ rights. is_some rights.group ≡ is_some wanted.now.group) }
    ensures number { IfSome wanted.now.group (λ name. (n : ℕ) → IsGroupNumber name.now n → result ≡ Ok (record { mode = unwrap_or wanted.now.mode 384; group = Some n })) }
    ensures fault { IfErr result (λ why. why.refusal ≡ Refusal.Fault) }
{
    let mode = wanted.mode.unwrap_or(OWNER_ONLY);
    let Some(name) = wanted.group else {
        return Ok(Rights { mode, group: None });
    };
    let group = group_of(rt, alloc, name)?;
    Ok(Rights {
        mode,
        group: Some(group),
    })
}

/// The number of a group.
fn group_of<R: Files<File = File>>(rt: &R, alloc: Global, name: &str) -> Result<u32, Failure>
    ensures number { (n : ℕ) → IsGroupNumber name.now n → result ≡ Ok n }
    ensures fault { IfErr result (λ why. why.refusal ≡ Refusal.Fault) }
{
    if let Some(number) = number_in(name.as_bytes()) {
        return Ok(number);
    }
    match read_groups(rt, alloc) {
        Ok(text) => match number_of_group(&text, name.as_bytes()) {
            Some(number) => Ok(number),
            None => Err(Failure::fault(Cause::Group)),
        },
        Err(error) => Err(Failure::fault(Cause::Groups(error))),
    }
}

/// The text of the file of groups.
fn read_groups<R: Files<File = File>>(rt: &R, alloc: Global) -> io::Result<Vec<u8>> {
    let mut text = Vec::new(alloc);
    File::open(rt, GROUPS)?.read_to_end(&mut text)?;
    Ok(text)
}
