//! The task that makes an image of what its pool is to hold: `create`.

ghost use Rattle.std.specs.Prelude.{◌≡◌, ◌⊎◌, ◌*◌, ◌^◌, ◌<◌, ℕ, MatchOption, codes};
ghost use Rattle.clap.specs.Words.{found_of, rows_of};
ghost use Rattle.tp_tasks.specs.CommandLine.{AreParts, HasNoSize, HasSize, HasWanted, IsCreate, IsDecimal, IsSize, LacksSize, LacksText, LacksWanted, MayHaveSize, digits_of, is_binary, last_byte, unit_of, without_binary};

use crate::task::{Task, Wanted};
use crate::tasks::{has_flag, number_in, number_of, text_of};
use clap::ArgMatches;

/// The most digits of a size behind its point.
const MOST_PLACES: usize = 9;

pub(crate) fn create_task<'a>(arguments: &ArgMatches<'a>) -> Option<Task<'a>>
    ensures { MatchOption result (LacksText (codes "IMAGE") (rows_of (found_of arguments.now)) ⊎ LacksWanted (rows_of (found_of arguments.now)))
        (λ task. IsCreate (rows_of (found_of arguments.now)) task) }
{
    let image = text_of(arguments, "IMAGE")?;
    let wanted = wanted_of(arguments)?;
    let overwrites = has_flag(arguments, "OVERWRITE");
    Some(Task::Create {
        image,
        wanted,
        overwrites,
    })
}

/// What a pool is to hold, among the arguments.
fn wanted_of(arguments: &ArgMatches<'_>) -> Option<Wanted>
    ensures { MatchOption result (LacksWanted (rows_of (found_of arguments.now))) (λ wanted. HasWanted (rows_of (found_of arguments.now)) wanted) }
{
    let size = size_of(arguments, "SIZE")?;
    let volume_size = size_of(arguments, "VOLUME_SIZE")?;
    let volumes = number_of(arguments, "VOLUMES")?;
    let block_size = size_if_there(arguments, "BLOCK_SIZE")?;
    Some(Wanted {
        size,
        volume_size,
        volumes,
        block_size,
    })
}

/// A size among the arguments, in bytes.
fn size_of(arguments: &ArgMatches<'_>, id: &str) -> Option<u64>
    ensures { MatchOption result (LacksSize id.now (rows_of (found_of arguments.now))) (λ n. HasSize id.now (rows_of (found_of arguments.now)) n) }
{
    let text = text_of(arguments, id)?;
    let size = size_in(text)?;
    Some(size)
}

/// A size among the arguments, in bytes, if it is among them.
fn size_if_there(arguments: &ArgMatches<'_>, id: &str) -> Option<Option<u64>>
    ensures { MatchOption result (HasNoSize id.now (rows_of (found_of arguments.now))) (λ n. MayHaveSize id.now (rows_of (found_of arguments.now)) n) }
{
    let Some(_) = text_of(arguments, id) else {
        return Some(None);
    };
    let size = size_of(arguments, id)?;
    Some(Some(size))
}

/// The size that a text is, in bytes.
fn size_in(text: &str) -> Option<u64>
    ensures { MatchOption result ((n : ℕ) → IsSize text.now n → ⊥) (λ n. IsSize text.now n) }
{
    let (is_binary, short) = without_binary(text);
    let letter = last_byte(short);
    let unit = unit_of(letter);
    if is_binary && unit == 1 {
        return None;
    }
    let (count, power) = decimal_in(digits_of(short, letter))?;
    scaled(count, unit, power)
}

/// Whether a text ends with `iB`, and the text in front of that, or all of it.
fn without_binary(text: &str) -> (bool, &str)
    ensures binary { result.0 ≡ is_binary text.now }
    ensures short { result.1.now ≡ without_binary text.now }
{
    match text.strip_suffix("iB") {
        Some(short) => (true, short),
        None => (false, text),
    }
}

/// The number that a text is, which may have a point: an integer over a power of ten.
fn decimal_in(text: &str) -> Option<(u64, u64)>
    ensures { MatchOption result ((count power : ℕ) → IsDecimal text.now count power → ⊥) (λ d. IsDecimal text.now d.0 d.1) }
{
    match text.split_once('.') {
        Some((whole, fraction)) => joined(whole, fraction),
        None => {
            let count = number_in(text)?;
            Some((count, 1))
        }
    }
}

/// The number that has these digits in front of its point and behind it.
fn joined(whole: &str, fraction: &str) -> Option<(u64, u64)>
    ensures { MatchOption result ((count power : ℕ) → AreParts whole.now fraction.now count power → ⊥) (λ d. AreParts whole.now fraction.now d.0 d.1) }
{
    if fraction.starts_with('+') || fraction.len() > MOST_PLACES {
        return None;
    }
    let power = 10u64.pow(fraction.len() as u32);
    let number = number_in(whole)?;
    let part = number_in(fraction)?;
    let shifted = number.checked_mul(power)?;
    let count = shifted.checked_add(part)?;
    Some((count, power))
}

/// `count / power` of these units, if it is an integer of 64 bits.
fn scaled(count: u64, unit: u64, power: u64) -> Option<u64>
    requires { 0 < power }
    ensures { MatchOption result ((n : ℕ) → n * power ≡ count * unit → n < 2 ^ 64 → ⊥) (λ n. (n * power ≡ count * unit) × (n < 2 ^ 64)) }
{
    let total = count as u128 * unit as u128;
    let power = power as u128;
    if total % power != 0 {
        return None;
    }
    let bytes = total / power;
    if bytes > u64::MAX as u128 {
        return None;
    }
    Some(bytes as u64)
}

/// The last byte of a text, and 0 of an empty one.
fn last_byte(text: &str) -> u8
    ensures { result ≡ last_byte text.now }
{
    match text.as_bytes().last() {
        Some(byte) => *byte,
        None => 0,
    }
}

/// How many bytes this letter behind a number makes of one: 1 where it is no such letter.
fn unit_of(letter: u8) -> u64
    ensures { result ≡ unit_of letter }
{
    match letter {
        b'K' | b'k' => 1 << 10,
        b'M' | b'm' => 1 << 20,
        b'G' | b'g' => 1 << 30,
        b'T' | b't' => 1 << 40,
        b'P' | b'p' => 1 << 50,
        _ => 1,
    }
}

/// A size without that letter, which is its last byte.
fn digits_of(text: &str, letter: u8) -> &str
    ensures { letter ≡ last_byte text.now → result.now ≡ digits_of text.now }
{
    if unit_of(letter) == 1 {
        return text;
    }
    match text.strip_suffix(letter as char) {
        Some(digits) => digits,
        None => text,
    }
}

/// The option of `create` whose value is no size, where its arguments name no task, and that value.
pub fn fault_of_create<'a>(arguments: &ArgMatches<'a>) -> (&'static str, &'a str) {
    let (option, id) = if size_of(arguments, "SIZE").is_none() {
        ("--size", "SIZE")
    } else if size_of(arguments, "VOLUME_SIZE").is_none() {
        ("--volume-size", "VOLUME_SIZE")
    } else {
        ("--block-size", "BLOCK_SIZE")
    };
    (option, text_of(arguments, id).unwrap_or(""))
}
