//! Names of volumes, and of clones of them.

ghost use Rattle.std.specs.Prelude.{◌≡◌, ◌≤◌, ◌<◌, ℕ, true, false, bytes_eq, length, take, drop, MatchOption, IfSome, IfNone};
ghost use Rattle.std.specs.Str.{all_ascii_digits};
ghost use Rattle.tp_model.specs.Digits.{number_after};
ghost use Rattle.nbd_session.specs.Session.{IsNameOf, Means, MeansClone, clone_prefix, default_of, has_clones, limit_of};

use crate::phase::{FIRST_CLONE, NO_VOLUME, Profile, has_clones, limit_of};
use tp_model::DevId;

/// The number that decimal digits write, where all of a text is such digits.
fn number_of(text: &[u8]) -> Option<u32>
    requires { length text.now ≤ 8 }
    ensures { MatchOption result (all_ascii_digits text.now ≡ false)
        (λ n. (all_ascii_digits text.now ≡ true) × (n ≡ number_after 0 text.now)) }
{
    let mut number: u32 = 0;
    for digit in text {
        if !digit.is_ascii_digit() {
            return None;
        }
        number = 10 * number + (*digit - b'0') as u32;
    }
    Some(number)
}

fn checked(number: u32) -> Option<DevId>
    ensures { MatchOption result (16777216 ≤ number) (λ id. (number < 16777216) × (id ≡ number)) }
{
    if number < 16_777_216 {
        Some(DevId::new(number))
    } else {
        None
    }
}

/// The volume of a name: the name is the volume's id in decimal, without leading zeros.
pub fn id_of(name: &[u8]) -> Option<DevId>
    ensures found { IfSome result (λ id. IsNameOf name.now id) }
    ensures none { IfNone result ((id : ℕ) → IsNameOf name.now id → ⊥) }
{
    let digits = name.len();
    if digits == 0 {
        return None;
    }
    if digits > 8 {
        return None;
    }
    if digits > 1 && name[0] == b'0' {
        return None;
    }
    match number_of(name) {
        None => None,
        Some(number) => checked(number),
    }
}

/// A volume, if its id is below a limit.
pub(crate) fn below(limit: u32, volume: DevId) -> Option<DevId>
    ensures { MatchOption result (limit ≤ volume) (λ id. (id ≡ volume) × (id < limit)) }
{
    if volume.number() < limit {
        Some(volume)
    } else {
        None
    }
}

/// The volume of a name, where its id is below a limit.
fn named_below(limit: u32, name: &[u8]) -> Option<DevId>
    ensures found { IfSome result (λ id. IsNameOf name.now id × (id < limit)) }
    ensures none { IfNone result ((id : ℕ) → IsNameOf name.now id → id < limit → ⊥) }
{
    match id_of(name) {
        None => None,
        Some(id) => below(limit, id),
    }
}

fn is_clone_prefix(front: &[u8]) -> bool
    ensures { result ≡ bytes_eq front.now clone_prefix }
{
    front == b"clone:".as_slice()
}

/// Whether a name begins as that of a clone.
fn has_clone_prefix(name: &[u8]) -> bool
    requires { 6 ≤ length name.now }
    ensures { result ≡ bytes_eq (take 6 name.now) clone_prefix }
{
    is_clone_prefix(name.split_at(6).0)
}

/// What stands behind the first six bytes of a name.
fn behind_prefix(name: &[u8]) -> &[u8]
    requires { 6 ≤ length name.now }
    ensures { result.now ≡ drop 6 name.now }
{
    name.split_at(6).1
}

/// The volume of which a name means a clone, where there are clones.
fn origin_of(name: &[u8]) -> Option<DevId>
    ensures found { IfSome result (λ origin. MeansClone true name.now origin) }
    ensures none { IfNone result ((origin : ℕ) → MeansClone true name.now origin → ⊥) }
{
    let len = name.len();
    if len < 6 {
        return None;
    }
    if !has_clone_prefix(name) {
        return None;
    }
    named_below(FIRST_CLONE, behind_prefix(name))
}

/// The volume of which a name means a clone, by a profile.
pub fn origin_in(profile: Profile, name: &[u8]) -> Option<DevId>
    ensures found { IfSome result (λ origin. MeansClone (has_clones profile) name.now origin) }
    ensures none { IfNone result ((origin : ℕ) → MeansClone (has_clones profile) name.now origin → ⊥) }
{
    if has_clones(&profile) {
        origin_of(name)
    } else {
        None
    }
}

/// The volume of the empty name, if there is one.
fn default_of(profile: Profile) -> Option<DevId>
    ensures { result ≡ default_of profile }
{
    match profile {
        Profile::Strict | Profile::Extended => None,
        Profile::WithDefault { volume } => {
            if volume < NO_VOLUME {
                Some(DevId::new(volume))
            } else {
                None
            }
        }
        Profile::Cloning { volume } => {
            if volume < FIRST_CLONE {
                Some(DevId::new(volume))
            } else {
                None
            }
        }
        Profile::WritingThrough { volume, .. } => {
            if volume < limit_of(profile) {
                Some(DevId::new(volume))
            } else {
                None
            }
        }
    }
}

/// The volume of a name by a profile, to which some ids may be no names.
pub fn named_in(profile: Profile, name: &[u8]) -> Option<DevId>
    ensures found { IfSome result (λ id. IsNameOf name.now id × (id < limit_of profile)) }
    ensures none { IfNone result ((id : ℕ) → IsNameOf name.now id → id < limit_of profile → ⊥) }
{
    named_below(limit_of(profile), name)
}

/// The volume that a name means itself: the empty name means the default.
pub fn meant(profile: Profile, name: &[u8]) -> Option<DevId>
    ensures found { IfSome result (λ id. Means (default_of profile) (limit_of profile) name.now id) }
    ensures none { IfNone result ((id : ℕ) → Means (default_of profile) (limit_of profile) name.now id → ⊥) }
{
    if name.is_empty() {
        return default_of(profile);
    }
    named_in(profile, name)
}
