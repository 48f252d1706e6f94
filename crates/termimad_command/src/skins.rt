//! The skin of a call.

ghost use Rattle.std.specs.Prelude.{◌≡◌, IfOk, MatchResult, Some, map, string_bytes};
ghost use Rattle.std.specs.IoError.{error_kind};
ghost use Rattle.termimad_words.specs.GivenSkins.{RefusesPageSkin};
ghost use Rattle.termimad_command.specs.Skins.{IsNoSkin, IsSkinOf, RefusesSkinWord, RefusesText, SaysFault, SaysSkin, begins_as_json, fault_line, is_made, is_said, unread_by};

use crate::refusals::{Obstacle, Refusal, obstacle_of};
use mad_measure::printable;
use mad_page_skin::PageSkin;
use std::alloc::{AllocError, Global};
use std::io::{self, ErrorKind};
use termimad_given::Texts;
use termimad_words::{Failure, page_skin_fault, page_skin_of_word};

/// The skin of a word: the made one of that name, what it says as JSON text, or what the text of that name says so. With it come those of its keys that
/// name no part of one.
///
/// # Errors
///
/// The word says no skin, or out of memory.
pub(crate) fn skin_of_word<'a, T: Texts>(
    alloc: Global,
    texts: &T,
    word: &'a str,
) -> Result<(PageSkin, Vec<String>), Refusal<'a>>
    ensures { MatchResult result (λ read. IsSkinOf (T.holds texts.now) word.now (read.0, map string_bytes read.1.items)) (RefusesSkinWord word.now) }
{
    if is_said(word) {
        return skin_said(alloc, word);
    }
    match texts.read(alloc, word) {
        Ok(bytes) => skin_in(alloc, word, bytes.as_slice()),
        Err(error) => Err(skin_unread(word, &error)),
    }
}

// What a fault in reading the text that a word for a skin names makes of a call.
fn skin_unread<'a>(word: &'a str, error: &io::Error) -> Refusal<'a>
    ensures { result ≡ unread_by word.entry (error_kind error.now) }
{
    match error.kind() {
        ErrorKind::OutOfMemory => Refusal::Memory,
        kind => Refusal::Skin(word, obstacle_of(kind)),
    }
}

// The skin that the text says which a word names, and which these bytes are.
fn skin_in<'a>(
    alloc: Global,
    word: &'a str,
    bytes: &[u8],
) -> Result<(PageSkin, Vec<String>), Refusal<'a>>
    ensures { MatchResult result (λ read. SaysSkin bytes.now (read.0, map string_bytes read.1.items)) (IsNoSkin word.now) }
{
    let Ok(text) = str::from_utf8(bytes) else {
        return Err(Refusal::Skin(word, Obstacle::NoText));
    };
    skin_said(alloc, text)
}

// Whether a word says a skin itself: it is a made one's name, or begins as JSON text of one does.
fn is_said(word: &str) -> bool
    ensures { result ≡ is_said word.now }
{
    begins_as_json(word) || is_made(word)
}

// Whether a word begins as JSON text of a skin does.
fn begins_as_json(word: &str) -> bool
    ensures { result ≡ begins_as_json word.now }
{
    match word.as_bytes() {
        [first, ..] => *first == b'{',
        [] => false,
    }
}

// Whether a made skin has that name.
#[tactic(auto, unfolding(crate::specs::Skins::is_made))]
fn is_made(word: &str) -> bool
    ensures { result ≡ is_made word.now }
{
    matches!(word, "default" | "dark" | "light" | "sixteen" | "none")
}

// The skin that a text says, and its unknown keys.
fn skin_said<'a>(alloc: Global, text: &str) -> Result<(PageSkin, Vec<String>), Refusal<'a>>
    ensures { MatchResult result (λ read. SaysSkin text.now (read.0, map string_bytes read.1.items)) (RefusesText text.now) }
{
    match page_skin_of_word(alloc, Some(text)) {
        Ok(read) => Ok(read),
        Err(failure) => Err(skin_refusal(alloc, text, failure)),
    }
}

// What makes of a call that a text says no skin, by why it says none.
fn skin_refusal<'a>(alloc: Global, text: &str, failure: Failure) -> Refusal<'a>
    ensures { RefusesPageSkin (Some text.now) failure → RefusesText text.now result }
{
    match failure {
        Failure::Skin => faulty_skin(alloc, text),
        _ => Refusal::Memory,
    }
}

// The refusal that says what is wrong with a text that says no skin.
fn faulty_skin<'a>(alloc: Global, text: &str) -> Refusal<'a>
    ensures { SaysFault text.now result }
{
    match fault_line(alloc, text) {
        Ok(line) => Refusal::FaultySkin(line),
        Err(_) => Refusal::Memory,
    }
}

// The line that says what is wrong with a text that says no skin.
fn fault_line(alloc: Global, text: &str) -> Result<String, AllocError>
    ensures { IfOk result (λ line. string_bytes line ≡ fault_line text.now) }
{
    let fault = page_skin_fault(alloc, text)?;
    let shown = printable(alloc, &fault)?;
    let mut line = String::from_str(alloc, "termimad: SKIN: ")?;
    line.push_str(&shown)?;
    line.push_str("\n")?;
    Ok(line)
}
