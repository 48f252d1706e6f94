//! Words that say where a text is shown first.

ghost use Rattle.std.specs.Prelude.{◌≡◌, IfOk};
ghost use Rattle.std.specs.Char.{is_ascii_digit};
ghost use Rattle.std.specs.List.{list_all};
ghost use Rattle.termimad_options.specs.Places.{has_controls, is_order, is_place, place_said, words_left};

use std::alloc::{AllocError, Global};

/// Words of a call, apart from those that say where a text is shown first.
#[derive(Drop)]
pub struct Parted<'a> {
    /// The last word that says it, as `+20` or `+/word`.
    pub place: Option<&'a str>,
    /// The other words.
    pub words: Vec<&'a str>,
}

/// The words of a call, and the last of them before `--` that says where a text is shown first: a plus sign, and a row's number, `G`, `F`, or a slash or
/// a question mark with what is sought.
///
/// # Errors
///
/// Out of memory is the only error.
pub fn part_places<'a>(alloc: Global, words: &[&'a str]) -> Result<Parted<'a>, AllocError>
    ensures { IfOk result (λ parted. (parted.words.items ≡ words_left words.now) × (parted.place ≡ place_said words.now)) }
{
    let mut place = None;
    let mut kept = Vec::new(alloc);
    let mut at = 0;
    while at < words.len() && words[at] != "--" {
        let word = words[at];
        if is_place(word) {
            place = Some(word);
        } else {
            kept.push(word)?;
        }
        at += 1;
    }
    kept.extend_from_slice(&words[at..])?;
    Ok(Parted { place, words: kept })
}

// Whether a word says where a text is shown first.
#[tactic(auto, unfolding(crate::specs::Places::is_place))]
fn is_place(word: &str) -> bool
    ensures { result ≡ is_place word.now }
{
    match word.as_bytes() {
        [b'+', behind @ ..] => is_order(behind),
        _ => false,
    }
}

// Whether what stands behind the plus sign says it.
fn is_order(bytes: &[u8]) -> bool
    ensures { result ≡ is_order bytes.now }
{
    match bytes {
        [] => false,
        [b'G' | b'F'] => true,
        [b'/' | b'?', ..] => bytes.len() > 1,
        _ => are_digits(bytes),
    }
}

// Whether all bytes are digits.
fn are_digits(bytes: &[u8]) -> bool
    ensures { result ≡ list_all is_ascii_digit bytes.now }
{
    bytes.iter().all(|byte| byte.is_ascii_digit())
}

/// Whether a word has characters that a terminal obeys.
pub fn has_controls(word: &str) -> bool
    ensures { result ≡ has_controls word.now }
{
    word.chars().any(|c| c.is_control())
}
