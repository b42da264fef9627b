//! The numbers of groups, by their names.

ghost use Rattle.std.specs.Prelude.{◌≡◌, ◌==◌, ◌+◌, ◌<◌, ◌∷◌, ℕ, [], IfSome, MatchOption, drop, length, take};
ghost use Rattle.std.specs.List.{slice_split};
ghost use Rattle.tp_places.specs.Groups.{Gives, IsGroupNumber, IsGroupOf, fields_of, lines_of};

/// The index of the first such byte, if there is one.
fn index_of(bytes: &[u8], mark: u8) -> Option<usize>
    ensures parts { MatchOption result (slice_split (λ b. b == mark) bytes.now ≡ bytes.now ∷ []) (λ at. slice_split (λ b. b == mark) bytes.now ≡ take at bytes.now ∷ slice_split (λ b. b == mark) (drop (at + 1) bytes.now)) }
    ensures bound { IfSome result (λ at. at < length bytes.now) }
{
    bytes.iter().position(|byte| *byte == mark)
}

/// The bytes before the first such byte and those after it, if there is one.
fn cut(bytes: &[u8], mark: u8) -> Option<(&[u8], &[u8])>
    ensures parts { MatchOption result (slice_split (λ b. b == mark) bytes.now ≡ bytes.now ∷ []) (λ p. slice_split (λ b. b == mark) bytes.now ≡ p.0.now ∷ slice_split (λ b. b == mark) p.1.now) }
    ensures shorter { IfSome result (λ p. length p.1.now < length bytes.now) }
{
    let at = index_of(bytes, mark)?;
    Some((&bytes[..at], &bytes[at + 1..]))
}

/// The number of a group that these bytes are.
pub(crate) fn number_in(bytes: &[u8]) -> Option<u32>
    ensures { MatchOption result ((n : ℕ) → IsGroupNumber bytes.now n → ⊥) (λ n. IsGroupNumber bytes.now n) }
{
    let Ok(text) = str::from_utf8(bytes) else {
        return None;
    };
    match text.parse::<u32>() {
        Ok(u32::MAX) | Err(_) => None,
        Ok(number) => Some(number),
    }
}

/// The number that a line gives to a group: NAME:PASSWORD:NUMBER:MEMBERS.
fn number_on(line: &[u8], group: &[u8]) -> Option<u32>
    ensures { MatchOption result ((n : ℕ) → Gives group.now (fields_of line.now) n → ⊥) (λ n. Gives group.now (fields_of line.now) n) }
{
    let (name, rest) = cut(line, b':')?;
    if name != group {
        return None;
    }
    let (_, rest) = cut(rest, b':')?;
    match cut(rest, b':') {
        Some((number, _)) => number_in(number),
        None => number_in(rest),
    }
}

/// The number of a group in the text of `/etc/group`: that of the first line that gives it one.
pub(crate) fn number_of_group(text: &[u8], group: &[u8]) -> Option<u32>
    ensures { IsGroupOf group.now (lines_of text.now) result }
{
    let mut rest = text;
    while let Some((line, more)) = cut(rest, b'\n') {
        if let Some(number) = number_on(line, group) {
            return Some(number);
        }
        rest = more;
    }
    number_on(rest, group)
}
