//! What a caller hands: texts, skins and numbers. What C can get wrong is tested here.

ghost use Rattle.std.specs.Prelude.{◌≡◌, ◌++◌, ◌<◌, ◌≤◌, ◌^◌, IsUtf8, MatchResult, drop, length, option_map};
ghost use Rattle.termimad_c.specs.declared.answer.Refusal.TheVariants.{Condition, Memory, NotUtf8};
ghost use Rattle.termimad_c.specs.Inputs.{AreAligned, IsTextSoFar, IsNoText, IsPageSkinOf, IsSkinOf, RefusesAligns, RefusesPageSkin, RefusesSkin, IsAreaOf, IsNoArea, alignment_number, word_given};

use crate::answer::Refusal;
use std::alloc::Global;
use termimad::{Alignment, Area, MadSkin, PageSkin, cut_text};
use termimad_words::{page_skin_of_word, skin_of};

// The least width of an area, in columns.
const LEAST_AREA_WIDTH: u16 = 4;

/// The text that these bytes are.
///
/// # Errors
///
/// `NotUtf8`.
pub fn text_of(bytes: &[u8]) -> Result<&str, Refusal>
    ensures { MatchResult result (λ text. IsUtf8 bytes.now × (text.now ≡ bytes.now)) (λ refusal. (refusal ≡ NotUtf8) × ¬ (IsUtf8 bytes.now)) }
{
    let Ok(text) = str::from_utf8(bytes) else {
        return Err(Refusal::NotUtf8);
    };
    Ok(text)
}

/// The text of bytes that go on or end there. Where they go on, it is the longest front that is text: the beginning of a character may be left.
///
/// # Errors
///
/// `NotUtf8`, where they end and aren't UTF-8, or where no text begins with them, whatever comes.
pub fn text_so_far(bytes: &[u8], is_last: bool) -> Result<&str, Refusal>
    ensures { MatchResult result (λ text. IsTextSoFar is_last bytes.entry.now text.now) (λ refusal. (refusal ≡ NotUtf8) × IsNoText is_last bytes.entry.now) }
{
    if is_last {
        return text_of(bytes);
    }
    let (text, is_wrong) = cut_text(bytes);
    if is_wrong {
        return Err(Refusal::NotUtf8);
    }
    Ok(text)
}

/// The skin of a word. An empty word is no style; `default`, `dark` and `light` are the made skins; any other is JSON text, whose keys
/// that name no part of a skin are passed over.
///
/// # Errors
///
/// `NotUtf8`; `Skin`, where the word is no JSON text or says no skin; or out of memory for what it says.
#[tactic(auto, using(crate::proofs::Steps::word_refused))]
pub fn skin_of_word(alloc: Global, word: &[u8]) -> Result<MadSkin, Refusal>
    ensures { MatchResult result (IsSkinOf word.now) (RefusesSkin word.now) }
{
    let word = text_of(word)?;
    let (skin, _) = skin_of(alloc, given_word(word))?;
    Ok(skin)
}

/// The skin of a page for a word. An empty word and `none` are the one without styles; `default`, `dark`, `light` and `sixteen` are the made skins; any
/// other is JSON text, whose keys that name no part of a skin are passed over.
///
/// # Errors
///
/// `NotUtf8`; `Skin`, where the word is no JSON text or says no skin; or out of memory for what it says.
#[tactic(auto, using(crate::proofs::Steps::page_word_refused))]
pub fn page_skin_of_bytes(alloc: Global, word: &[u8]) -> Result<PageSkin, Refusal>
    ensures { MatchResult result (IsPageSkinOf word.now) (RefusesPageSkin word.now) }
{
    let word = text_of(word)?;
    let (skin, _) = page_skin_of_word(alloc, given_word(word))?;
    Ok(skin)
}

// The word as the program takes it: none, where it is empty.
#[tactic(auto, using(crate::proofs::Steps::empty_word, crate::proofs::Steps::other_word))]
fn given_word(word: &str) -> Option<&str>
    ensures { option_map (λ word. word.now) result ≡ word_given word.now }
{
    if word.is_empty() { None } else { Some(word) }
}

/// The number as columns or rows.
///
/// # Errors
///
/// `Condition`, where it is over 65535.
pub fn number_of(number: usize) -> Result<u16, Refusal>
    ensures { MatchResult result (λ small. small ≡ number) (λ refusal. (refusal ≡ Condition) × (2 ^ 16 ≤ number)) }
{
    let Ok(small) = u16::try_from(number) else {
        return Err(Refusal::Condition);
    };
    Ok(small)
}

/// The area of these numbers.
///
/// # Errors
///
/// `Condition`, where it has fewer than four columns, or its right or bottom is over 65535.
pub fn area_of(left: usize, top: usize, width: usize, height: usize) -> Result<Area, Refusal>
    ensures { MatchResult result (IsAreaOf left top width height) (λ refusal. (refusal ≡ Condition) × IsNoArea left top width height) }
{
    let area = Area {
        left: number_of(left)?,
        top: number_of(top)?,
        width: number_of(width)?,
        height: number_of(height)?,
    };
    if area.width < LEAST_AREA_WIDTH || !area.is_within_limits() {
        return Err(Refusal::Condition);
    }
    Ok(area)
}

/// The alignment of a number: 0 for none, 1 for the left, 2 for the middle, 3 for the right.
///
/// # Errors
///
/// `Condition`, where it is another number.
pub fn align_of(align: usize) -> Result<Alignment, Refusal>
    ensures { MatchResult result (λ a. alignment_number a ≡ align) (λ refusal. (refusal ≡ Condition) × (3 < align)) }
{
    match align {
        0 => Ok(Alignment::Unspecified),
        1 => Ok(Alignment::Left),
        2 => Ok(Alignment::Center),
        3 => Ok(Alignment::Right),
        _ => Err(Refusal::Condition),
    }
}

/// The alignments of these numbers.
///
/// # Errors
///
/// `Condition`, where one of them is none of an alignment; or out of memory.
#[tactic(auto, using(crate::proofs::Alignments::align_refused))]
pub fn aligns_of(alloc: Global, numbers: &[usize]) -> Result<Vec<Alignment>, Refusal>
    ensures { MatchResult result (λ aligns. AreAligned numbers.now aligns.items) (RefusesAligns numbers.now) }
{
    let mut aligns = Vec::with_capacity(alloc, numbers.len())?;
    for number in numbers {
        if aligns.push(align_of(*number)?).is_err() {
            return Err(Refusal::Memory);
        }
    }
    Ok(aligns)
}

/// Bytes and those that come after them.
///
/// # Errors
///
/// Out of memory.
pub(crate) fn joined(alloc: Global, begun: &[u8], piece: &[u8]) -> Result<Vec<u8>, Refusal>
    ensures { MatchResult result (λ bytes. bytes.items ≡ begun.now ++ piece.now) (λ refusal. refusal ≡ Memory) }
{
    let mut bytes = Vec::with_capacity(alloc, begun.len())?;
    bytes.extend_from_slice(begun)?;
    bytes.extend_from_slice(piece)?;
    Ok(bytes)
}

/// The bytes behind a place.
///
/// # Errors
///
/// Out of memory.
pub(crate) fn bytes_behind(alloc: Global, bytes: &[u8], place: usize) -> Result<Vec<u8>, Refusal>
    requires { place ≤ length bytes.now }
    ensures { MatchResult result (λ behind. behind.items ≡ drop place bytes.now) (λ refusal. refusal ≡ Memory) }
{
    let behind = Vec::from_slice(alloc, &bytes[place..])?;
    Ok(behind)
}
