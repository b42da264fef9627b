//! Messages from lines.

ghost use Rattle.std.specs.Prelude.{◌≡◌, ◌&&◌, IfOk, IfErr};
ghost use Rattle.tp_msg.specs.Messages.{IsMessage, IsNoMessage, are_numbers, behind, create_snap, create_thin, delete, first_word, grow, growth_of, one_id, one_word, by_word, exchange_of, reading, set_transaction_id, snapshot_of, spelling};

use crate::message::Message;
use crate::numeral::{device_id, is_number, transaction_id};
use tp_model::{DevId, Refusal};

/// The longest line of a message, in bytes.
const MAX_LINE: usize = 256;

// The first word of a text, and what stands behind the space after it.
fn cut(text: &[u8]) -> (&[u8], &[u8])
    ensures word { result.0.now ≡ first_word text.now }
    ensures rest { result.1.now ≡ behind text.now }
{
    let mut place = 0;
    while place < text.len() {
        if text[place] == b' ' {
            return (text.split_at(place).0, text.split_at(place + 1).1);
        }
        place += 1;
    }
    (text, text.split_at(text.len()).1)
}

fn one_id(arguments: &[u8]) -> Result<DevId, Refusal>
    ensures { result ≡ one_id arguments.now }
{
    if is_number(arguments) {
        device_id(arguments)
    } else {
        Err(Refusal::BadSyntax)
    }
}

fn create_thin(arguments: &[u8]) -> Result<Message, Refusal>
    ensures { result ≡ create_thin arguments.now }
{
    match one_id(arguments) {
        Ok(id) => Ok(Message::CreateThin { id }),
        Err(reason) => Err(reason),
    }
}

fn delete(arguments: &[u8]) -> Result<Message, Refusal>
    ensures { result ≡ delete arguments.now }
{
    match one_id(arguments) {
        Ok(id) => Ok(Message::Delete { id }),
        Err(reason) => Err(reason),
    }
}

fn are_numbers(first: &[u8], second: &[u8]) -> bool
    ensures { result ≡ are_numbers first.now second.now }
{
    is_number(first) && is_number(second)
}

fn snapshot_of(
    id: Result<DevId, Refusal>,
    origin: Result<DevId, Refusal>,
) -> Result<Message, Refusal>
    ensures { result ≡ snapshot_of id origin }
{
    match id {
        Err(reason) => Err(reason),
        Ok(id) => match origin {
            Err(reason) => Err(reason),
            Ok(origin) => Ok(Message::CreateSnap { id, origin }),
        },
    }
}

fn create_snap(arguments: &[u8]) -> Result<Message, Refusal>
    ensures { result ≡ create_snap arguments.now }
{
    let (first, second) = cut(arguments);
    if are_numbers(first, second) {
        snapshot_of(device_id(first), device_id(second))
    } else {
        Err(Refusal::BadSyntax)
    }
}

fn exchange_of(
    current: Result<u64, Refusal>,
    next: Result<u64, Refusal>,
) -> Result<Message, Refusal>
    ensures { result ≡ exchange_of current next }
{
    match current {
        Err(reason) => Err(reason),
        Ok(current) => match next {
            Err(reason) => Err(reason),
            Ok(next) => Ok(Message::SetTransactionId { current, next }),
        },
    }
}

fn set_transaction_id(arguments: &[u8]) -> Result<Message, Refusal>
    ensures { result ≡ set_transaction_id arguments.now }
{
    let (first, second) = cut(arguments);
    if are_numbers(first, second) {
        exchange_of(transaction_id(first), transaction_id(second))
    } else {
        Err(Refusal::BadSyntax)
    }
}

// A number of blocks that is too large is told before an id that is.
fn growth_of(blocks: Result<u64, Refusal>, id: Result<DevId, Refusal>) -> Result<Message, Refusal>
    ensures { result ≡ growth_of blocks id }
{
    match blocks {
        Err(reason) => Err(reason),
        Ok(blocks) => match id {
            Err(reason) => Err(reason),
            Ok(id) => Ok(Message::Grow { id, blocks }),
        },
    }
}

// A number of blocks is read as a transaction id is: below 2^64.
fn grow(arguments: &[u8]) -> Result<Message, Refusal>
    ensures { result ≡ grow arguments.now }
{
    let (first, second) = cut(arguments);
    if are_numbers(first, second) {
        growth_of(transaction_id(second), device_id(first))
    } else {
        Err(Refusal::BadSyntax)
    }
}

// A message of one word is its whole line.
fn one_word(line: &[u8]) -> Option<Message>
    ensures { result ≡ one_word line.now }
{
    if line == b"reserve_metadata_snap".as_slice() {
        Some(Message::ReserveMetadataSnap)
    } else if line == b"release_metadata_snap".as_slice() {
        Some(Message::ReleaseMetadataSnap)
    } else {
        None
    }
}

fn by_word(word: &[u8], arguments: &[u8]) -> Result<Message, Refusal>
    ensures { result ≡ by_word word.now arguments.now }
{
    if word == b"create_thin".as_slice() {
        create_thin(arguments)
    } else if word == b"create_snap".as_slice() {
        create_snap(arguments)
    } else if word == b"delete".as_slice() {
        delete(arguments)
    } else if word == b"set_transaction_id".as_slice() {
        set_transaction_id(arguments)
    } else if word == b"grow".as_slice() {
        grow(arguments)
    } else if one_word(word).is_some() {
        Err(Refusal::BadSyntax)
    } else {
        Err(Refusal::UnknownMessage)
    }
}

/// The message of a line: words with exactly one space between two of them and none at either end, the numbers in decimal
/// digits without leading zeros. Each message has one line, and no other line is read.
///
/// The first of these refusals that holds is given:
/// - `BadSyntax` for a line over 256 bytes;
/// - `UnknownMessage` where the bytes before the first space, or the whole line, are none of the seven first words;
/// - `BadSyntax` for a wrong number of words, a word that is no number, or a transaction id or a number of blocks over 2^64 - 1;
/// - `BadDeviceId` for a device id of 16777216 or more, however many digits it has.
pub fn read_message(line: &[u8]) -> Result<Message, Refusal>
    ensures reads { result ≡ reading line.now }
    ensures spelled { IfOk result (λ m. IsMessage m × (line.now ≡ spelling m)) }
    ensures refused { IfErr result (λ reason. IsNoMessage line.now) }
{
    if line.len() > MAX_LINE {
        return Err(Refusal::BadSyntax);
    }
    if let Some(message) = one_word(line) {
        return Ok(message);
    }
    let (word, arguments) = cut(line);
    by_word(word, arguments)
}
