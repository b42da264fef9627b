//! The data of the options INFO and GO (`proto.md`, "NBD_OPT_INFO" and "NBD_OPT_GO").

ghost use Rattle.std.specs.Prelude.{◌≡◌, ◌≤◌, ◌<◌, ℕ, List, length, drop, MatchOption, IfSome, IfNone};
ghost use Rattle.std.specs.Option.{option_copied};
ghost use Rattle.nbd_wire.specs.Numbers.{number};
ghost use Rattle.nbd_wire.specs.Replies.{IsInfo};
ghost use Rattle.nbd_wire.specs.Reading.{name_in, NameIs};

use bytes::Buf;

#[tactic(auto, unfolding(crate::specs::Numbers::number), using(crate::proofs::Fields::first_32))]
pub(crate) fn u32_first(text: &[u8]) -> Option<(u32, &[u8])>
    ensures { MatchOption result (length text.now < 4)
        (λ r. (4 ≤ length text.now) × (r.0 ≡ number 4 text.now) × (r.1.now ≡ drop 4 text.now)) }
{
    let mut rest = text;
    match rest.try_get_u32() {
        Ok(n) => Some((n, rest)),
        Err(_) => None,
    }
}

#[tactic(auto, unfolding(crate::specs::Numbers::number), using(crate::proofs::Fields::first_16))]
fn u16_first(text: &[u8]) -> Option<(u16, &[u8])>
    ensures { MatchOption result (length text.now < 2)
        (λ r. (2 ≤ length text.now) × (r.0 ≡ number 2 text.now) × (r.1.now ≡ drop 2 text.now)) }
{
    let mut rest = text;
    match rest.try_get_u16() {
        Ok(n) => Some((n, rest)),
        Err(_) => None,
    }
}

#[tactic(auto, unfolding(crate::specs::Reading::name_in))]
fn name_at(payload: &[u8]) -> Option<&[u8]>
    ensures { NameIs result (name_in payload.now) }
{
    let (len, rest) = u32_first(payload)?;
    let len = len as usize;
    if rest.len() < len {
        return None;
    }
    let (name, rest) = rest.split_at(len);
    let (count, types) = u16_first(rest)?;
    if types.len() == 2 * count as usize {
        Some(name)
    } else {
        None
    }
}

/// The name in the data of INFO and GO, or `None` exactly where the data is not a name and a list of types, each behind
/// its length, and nothing more.
pub fn info_name(payload: &[u8]) -> Option<&[u8]>
    ensures found { IfSome result (λ name. (types : List ℕ) × IsInfo payload.now name.now types) }
    ensures none { IfNone result ((name types : List ℕ) → IsInfo payload.now name types → ⊥) }
{
    name_at(payload)
}
