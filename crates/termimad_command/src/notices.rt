//! What is said before texts are shown: what isn't known.

ghost use Rattle.std.specs.Prelude.{◌≡◌, ◌++◌, IfOk, MatchResult, OnOk, map, option_map, string_bytes};
ghost use Rattle.termimad_options.specs.Calls.{reading_of};
ghost use Rattle.termimad_command.specs.Notices.{SaysNotices, key_line, key_lines, language_lines, notice_line, notices};

use crate::refusals::Refusal;
use mad_measure::printable;
use mad_term::{Out, put_all};
use std::alloc::{AllocError, Global};
use termimad_options::{Grammar, is_understood};

/// Says which keys of a skin name no part of one, a line for each, and that the language of code isn't known. Where there is nothing to say, nothing
/// happens; a fault of the device changes nothing.
///
/// # Errors
///
/// Out of memory for the lines. Then nothing was said.
pub(crate) fn say_notices<'a, E: Out>(
    alloc: Global,
    err: &mut E,
    said: Option<Grammar>,
    keys: &[String],
) -> Result<(), Refusal<'a>>
    ensures { MatchResult result
        (λ _. SaysNotices (notices (option_map reading_of said.entry) (map string_bytes keys.now)) (E.seen err.old) (E.seen err.new))
        (λ refusal. (refusal ≡ Refusal.Memory) × (E.seen err.new ≡ E.seen err.old)) }
{
    let Ok(lines) = notices(alloc, said, keys) else {
        return Err(Refusal::Memory);
    };
    put_notices(err, &lines);
    Ok(())
}

// Says lines, if there are any.
fn put_notices<E: Out>(err: &mut E, lines: &str)
    ensures { SaysNotices lines.now (E.seen err.old) (E.seen err.new) }
{
    if !lines.is_empty() {
        let _ = put_all(err, lines.as_bytes());
    }
}

// A line for each key, and one for a language that isn't known.
fn notices(alloc: Global, said: Option<Grammar>, keys: &[String]) -> Result<String, AllocError>
    ensures { IfOk result (λ lines. string_bytes lines ≡ notices (option_map reading_of said.entry) (map string_bytes keys.now)) }
{
    let mut lines = String::new(alloc);
    push_keys(alloc, &mut lines, keys)?;
    push_language(alloc, &mut lines, said)?;
    Ok(lines)
}

// Appends a line for each key.
fn push_keys(alloc: Global, lines: &mut String, keys: &[String]) -> Result<(), AllocError>
    ensures { OnOk result (string_bytes lines.new ≡ string_bytes lines.old ++ key_lines (map string_bytes keys.now)) }
{
    for key in keys {
        push_key(alloc, lines, key)?;
    }
    Ok(())
}

// Appends the line of a key.
fn push_key(alloc: Global, lines: &mut String, key: &String) -> Result<(), AllocError>
    ensures { OnOk result (string_bytes lines.new ≡ string_bytes lines.old ++ key_line (string_bytes key.now)) }
{
    push_line(alloc, lines, "termimad: SKIN: unknown key: ", key.as_str())
}

// Appends a line for the language of code, if it isn't known.
fn push_language(alloc: Global, lines: &mut String, said: Option<Grammar>) -> Result<(), AllocError>
    ensures { OnOk result (string_bytes lines.new ≡ string_bytes lines.old ++ language_lines (option_map reading_of said.entry)) }
{
    match said {
        Some(Grammar::Code(word)) if !is_understood(word) => {
            push_line(alloc, lines, "termimad: unknown language: ", word)
        }
        _ => Ok(()),
    }
}

// Appends a line: what it says of a word, and what is printable of that.
fn push_line(alloc: Global, lines: &mut String, says: &str, word: &str) -> Result<(), AllocError>
    ensures { OnOk result (string_bytes lines.new ≡ string_bytes lines.old ++ notice_line says.now word.now) }
{
    let shown = printable(alloc, word)?;
    lines.push_str(says)?;
    lines.push_str(&shown)?;
    lines.push_str("\n")
}
