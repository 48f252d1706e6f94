//! What the arguments ask for.

ghost use Rattle.std.specs.Prelude.{◌≡◌, ℕ, List, Option, MatchOption, MatchResult, map, option_map, string_bytes};
ghost use Rattle.mad_measure.specs.declared.Area.{Area as SomeArea};
ghost use Rattle.termimad_run.specs.Calls.{Asks, IsWhole, command_of_pieces, shows_page, IsNoCall, IsAreaOf, IsSkinWord, AsksArea, AsksCode, AsksWidth, AsksSize, IsCall, RefusesWords};

use crate::skin::skin_shown;
use mad_measure::Area;
use mad_page_skin::PageSkin;
use std::alloc::Global;
use termimad_words::{Failure, parse_number};

// The least width of an area, in columns. Its text is laid out one column narrower, and at less than three nothing is wrapped.
const LEAST_AREA_WIDTH: u16 = 4;

/// What is to be written.
#[derive(Clone, PartialEq, Eq, Debug, Drop)]
pub enum Command<'w> {
    /// `area L T W H`: the text, in that area.
    InArea(Area),
    /// `text W`: the text, laid out at that width, in columns.
    AtWidth(u16),
    /// `markdown W`: the text, read as people write Markdown and laid out at that width, in columns.
    AsMarkdown(u16),
    /// `code LANG W`: the text, as code in the language of that word, or of a file of that name, laid out at that width, in columns.
    AsCode(&'w str, u16),
    /// `stream W`: the text, laid out at that width, in columns, as it comes.
    AsItComes(u16),
    /// `markdown-stream W`: the text, read as people write Markdown and laid out at that width, in columns, as it comes.
    MarkdownAsItComes(u16),
    /// `live W H`: the text on a terminal that scrolls, laid out at that width, in columns, on a screen that has so many rows. It is shown
    /// as it comes, and what may change is redrawn in place.
    Live(u16, u16),
    /// `live-markdown W H`: the same of the text, read as people write Markdown.
    LiveMarkdown(u16, u16),
    /// `inline`: the text, as one line.
    Inline,
}

/// A call of the program.
#[derive(Drop)]
pub struct Call<'w> {
    /// What is to be written.
    pub command: Command<'w>,
    /// In which skin; a text in that of a page's text.
    pub skin: PageSkin,
    /// The keys of that skin that name no part of one, in byte order.
    pub unknown: Vec<String>,
}

/// The call that the words after the program's name are: `area L T W H [SKIN]`, `text W [SKIN]`, `markdown W [SKIN]`,
/// `code LANG W [SKIN]`, `stream W [SKIN]`, `markdown-stream W [SKIN]`, `live W H [SKIN]`, `live-markdown W H [SKIN]` or `inline [SKIN]`.
///
/// # Errors
///
/// `Usage`, where they are none of these; `Skin`, where SKIN is no skin. Or out of memory, where SKIN is JSON text.
pub fn parse_call(alloc: Global, words: &[String]) -> Result<Call<'_>, Failure>
    ensures { MatchResult result (λ call. IsCall (map string_bytes words.now) call.command call.skin (map string_bytes call.unknown.items))
        (λ failure. RefusesWords (map string_bytes words.now) failure) }
{
    let (command, word) = parse_words(words).ok_or(Failure::Usage)?;
    let (skin, unknown) = skin_shown(alloc, shows_page(&command), word)?;
    Ok(Call {
        command,
        skin,
        unknown,
    })
}

// Whether a command shows a page: of Markdown as people write it, or of code.
fn shows_page(command: &Command) -> bool
    ensures { result ≡ shows_page command.now }
{
    matches!(
        command,
        Command::AsMarkdown(_)
            | Command::AsCode(_, _)
            | Command::MarkdownAsItComes(_)
            | Command::LiveMarkdown(_, _)
    )
}

// What the words ask for: the command, and the word given for SKIN.
fn parse_words(words: &[String]) -> Option<(Command<'_>, Option<&str>)>
    ensures { MatchOption result (IsNoCall (map string_bytes words.now))
        (λ asked. Asks (map string_bytes words.now) asked.0 (option_map (λ word. word.now) asked.1)) }
{
    let (name, words) = words.split_first()?;
    match name.as_str() {
        "area" => {
            let (area, word) = parse_area_call(words)?;
            Some((Command::InArea(area), word))
        }
        "text" => {
            let (width, word) = parse_text_call(words)?;
            Some((Command::AtWidth(width), word))
        }
        "markdown" => {
            let (width, word) = parse_text_call(words)?;
            Some((Command::AsMarkdown(width), word))
        }
        "code" => {
            let (language, width, word) = parse_code_call(words)?;
            Some((Command::AsCode(language, width), word))
        }
        "stream" => {
            let (width, word) = parse_text_call(words)?;
            Some((Command::AsItComes(width), word))
        }
        "markdown-stream" => {
            let (width, word) = parse_text_call(words)?;
            Some((Command::MarkdownAsItComes(width), word))
        }
        "live" => {
            let (width, height, word) = parse_live_call(words)?;
            Some((Command::Live(width, height), word))
        }
        "live-markdown" => {
            let (width, height, word) = parse_live_call(words)?;
            Some((Command::LiveMarkdown(width, height), word))
        }
        "inline" => Some((Command::Inline, skin_word(words)?)),
        _ => None,
    }
}

// What the words after `area` ask for.
fn parse_area_call(words: &[String]) -> Option<(Area, Option<&str>)>
    ensures { MatchOption result ((area : SomeArea) (word : Option (List ℕ)) → ¬ (AsksArea (map string_bytes words.now) area word))
        (λ asked. AsksArea (map string_bytes words.now) asked.0 (option_map (λ word. word.now) asked.1)) }
{
    let [left, top, width, height, rest @ ..] = words else {
        return None;
    };
    let area = parse_area(left.as_str(), top.as_str(), width.as_str(), height.as_str())?;
    Some((area, skin_word(rest)?))
}

// What the words after `code` ask for.
fn parse_code_call(words: &[String]) -> Option<(&str, u16, Option<&str>)>
    ensures { MatchOption result ((language : List ℕ) (width : ℕ) (word : Option (List ℕ)) → ¬ (AsksCode (map string_bytes words.now) language width word))
        (λ asked. AsksCode (map string_bytes words.now) asked.0.now asked.1 (option_map (λ word. word.now) asked.2)) }
{
    let [language, rest @ ..] = words else {
        return None;
    };
    let (width, word) = parse_text_call(rest)?;
    Some((language.as_str(), width, word))
}

// What the words after `text`, `markdown`, `stream` or `markdown-stream` ask for.
fn parse_text_call(words: &[String]) -> Option<(u16, Option<&str>)>
    ensures { MatchOption result ((width : ℕ) (word : Option (List ℕ)) → ¬ (AsksWidth (map string_bytes words.now) width word))
        (λ asked. AsksWidth (map string_bytes words.now) asked.0 (option_map (λ word. word.now) asked.1)) }
{
    let [width, rest @ ..] = words else {
        return None;
    };
    let width = parse_number(width.as_str())?;
    Some((width, skin_word(rest)?))
}

// What the words after `live` or `live-markdown` ask for.
fn parse_live_call(words: &[String]) -> Option<(u16, u16, Option<&str>)>
    ensures { MatchOption result ((width height : ℕ) (word : Option (List ℕ)) → ¬ (AsksSize (map string_bytes words.now) width height word))
        (λ asked. AsksSize (map string_bytes words.now) asked.0 asked.1 (option_map (λ word. word.now) asked.2)) }
{
    let [width, height, rest @ ..] = words else {
        return None;
    };
    let width = parse_number(width.as_str())?;
    let height = parse_number(height.as_str())?;
    Some((width, height, skin_word(rest)?))
}

// The area that these words are: at least four columns wide, and within the limits of a screen.
fn parse_area(left: &str, top: &str, width: &str, height: &str) -> Option<Area>
    ensures { MatchOption result ((area : SomeArea) → ¬ (IsAreaOf left.now top.now width.now height.now area))
        (λ area. IsAreaOf left.now top.now width.now height.now area) }
{
    let area = Area {
        left: parse_number(left)?,
        top: parse_number(top)?,
        width: parse_number(width)?,
        height: parse_number(height)?,
    };
    if area.width < LEAST_AREA_WIDTH || !area.is_within_limits() {
        return None;
    }
    Some(area)
}

// The word given for SKIN, if there is at most one.
fn skin_word(words: &[String]) -> Option<Option<&str>>
    ensures { MatchOption result ((word : Option (List ℕ)) → ¬ (IsSkinWord (map string_bytes words.now) word))
        (λ word. IsSkinWord (map string_bytes words.now) (option_map (λ word. word.now) word)) }
{
    match words {
        [] => Some(None),
        [word] => Some(Some(word.as_str())),
        _ => None,
    }
}

/// How a text is written as it comes, at a width, in columns.
#[derive(Clone, Copy, PartialEq, Eq, Debug)]
pub(crate) enum Pieces {
    /// Its rows go out.
    Stream(usize),
    /// It is read as people write Markdown, and its rows go out.
    Markdown(usize),
    /// It is shown on a terminal that scrolls, on a screen that has so many rows.
    Live(usize, usize),
    /// The same, read as people write Markdown.
    LiveMarkdown(usize, usize),
}

/// How a command writes a text as it comes; none, where it wants it whole.
pub(crate) fn pieces_of(command: &Command) -> Option<Pieces>
    ensures { MatchOption result (IsWhole command.now) (λ pieces. command.now ≡ command_of_pieces pieces) }
{
    match command {
        Command::AsItComes(width) => Some(Pieces::Stream(usize::from(*width))),
        Command::MarkdownAsItComes(width) => Some(Pieces::Markdown(usize::from(*width))),
        Command::Live(width, height) => {
            Some(Pieces::Live(usize::from(*width), usize::from(*height)))
        }
        Command::LiveMarkdown(width, height) => {
            Some(Pieces::LiveMarkdown(usize::from(*width), usize::from(*height)))
        }
        Command::InArea(_)
        | Command::AtWidth(_)
        | Command::AsMarkdown(_)
        | Command::AsCode(_, _)
        | Command::Inline => None,
    }
}
