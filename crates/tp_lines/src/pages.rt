//! Control lines that ask for a volume's size or for a page of a listing.

ghost use Rattle.std.specs.Prelude.{◌≡◌, ◌<◌, ◌++◌, ◌∷◌, ℕ, MatchOption};
ghost use Rattle.std.specs.Fmt.{decimal};
ghost use Rattle.tp_lines.specs.Pages.{IsNoPage, IsPageLine, IsPageSplit, IsPageUnsplit, page_spelling};

use crate::line::{cut, volume_of};

/// The page that a line asks for, or the size.
#[derive(Clone, Copy, Debug, PartialEq, Eq)]
pub enum PageOf {
    /// `size ID`: how large a volume is, and a block.
    Size(u32),
    /// `map ID FROM`: the blocks of a volume that are mapped, from a block on.
    Map(u32, u32),
    /// `delta OLD NEW FROM`: those in which a volume may differ from another.
    Delta(u32, u32, u32),
}

/// The number of a block, in decimal digits without leading zeros.
fn block_of(text: &[u8]) -> Option<u32>
    ensures { MatchOption result ((n : ℕ) → n < 16777216 → text.now ≡ decimal n → ⊥) (λ n. (n < 16777216) × (text.now ≡ decimal n)) }
{
    volume_of(text)
}

/// A volume and a block, with a space between them.
fn two_of(text: &[u8]) -> Option<(u32, u32)>
    ensures { MatchOption result ((a b : ℕ) → a < 16777216 → b < 16777216 → text.now ≡ decimal a ++ 32 ∷ decimal b → ⊥)
        (λ p. (p.0 < 16777216) × (p.1 < 16777216) × (text.now ≡ decimal p.0 ++ 32 ∷ decimal p.1)) }
{
    let Some((word, rest)) = cut(text) else {
        return None;
    };
    let Some(volume) = volume_of(word) else {
        return None;
    };
    let Some(block) = block_of(rest) else {
        return None;
    };
    Some((volume, block))
}

/// Two volumes and a block, with a space between each two.
fn three_of(text: &[u8]) -> Option<(u32, u32, u32)>
    ensures { MatchOption result ((a b d : ℕ) → a < 16777216 → b < 16777216 → d < 16777216 → text.now ≡ decimal a ++ 32 ∷ (decimal b ++ 32 ∷ decimal d) → ⊥)
        (λ p. (p.0 < 16777216) × (p.1 < 16777216) × (p.2 < 16777216) × (text.now ≡ decimal p.0 ++ 32 ∷ (decimal p.1 ++ 32 ∷ decimal p.2))) }
{
    let Some((word, rest)) = cut(text) else {
        return None;
    };
    let Some(volume) = volume_of(word) else {
        return None;
    };
    let Some((other, block)) = two_of(rest) else {
        return None;
    };
    Some((volume, other, block))
}

/// The page that this first word and this rest ask for.
fn page_of(word: &[u8], rest: &[u8]) -> Option<PageOf>
    ensures { MatchOption result (IsPageUnsplit word.now rest.now) (λ p. IsPageLine p × IsPageSplit word.now rest.now p) }
{
    if word == b"size".as_slice() {
        return Some(PageOf::Size(volume_of(rest)?));
    }
    if word == b"map".as_slice() {
        let (volume, block) = two_of(rest)?;
        return Some(PageOf::Map(volume, block));
    }
    if word == b"delta".as_slice() {
        let (one, other, block) = three_of(rest)?;
        return Some(PageOf::Delta(one, other, block));
    }
    None
}

/// The page or the size that a line asks for, if it asks for one: `size ID`, `map ID FROM` or `delta OLD NEW FROM`, with one space between words. Numbers are decimal digits without leading zeros.
pub(crate) fn read_page(text: &[u8]) -> Option<PageOf>
    ensures { MatchOption result (IsNoPage text.now) (λ p. IsPageLine p × (text.now ≡ page_spelling p)) }
{
    let Some((word, rest)) = cut(text) else {
        return None;
    };
    page_of(word, rest)
}
