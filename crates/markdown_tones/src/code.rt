//! The tones of a block of code.

ghost use Rattle.std.specs.Prelude.{◌≡◌, ◌++◌, IfOk, OnOk, map, replicate, chars, encode_utf8_all, string_bytes};
ghost use Rattle.code_tones.specs.Tones.{tones_of};
ghost use Rattle.mad_mark_runs.specs.Values.{AreRising, end_from, joined_from, values_of};
ghost use Rattle.markdown_marks.specs.Remaining.{remaining};
ghost use Rattle.markdown_tones.specs.CodeSource.{code_source, pictured, shown_source};

use code_tables::rules::Language;
use code_tones::push_tones;
use mad_characters::picture;
use mad_mark_runs::MarkRun;
use mad_steady::steady;
use markdown_marks::rest::Rest;
use std::alloc::{AllocError, Global};

/// Adds the tones of a block of code to runs, by what remains of its lines: one for each character that is shown of them and isn't blank, as
/// [`steady`] shows it. Without a language all are plain.
///
/// # Errors
///
/// Out of memory is the only error. Some tones may have been added then.
pub fn push_code_tones(
    alloc: Global,
    language: Option<Language>,
    lines: &[Rest<'_>],
    runs: &mut Vec<MarkRun>,
) -> Result<(), AllocError>
    requires { AreRising 0 runs.old.items }
    ensures rising { AreRising 0 runs.new.items }
    ensures values { OnOk result (values_of runs.new.items ≡ values_of runs.old.items ++ tones_of language (code_source (map remaining lines.now))) }
    ensures runs { OnOk result (runs.new.items ≡ runs.old.items ++ joined_from (end_from 0 runs.old.items) 0 0 (tones_of language (code_source (map remaining lines.now)))) }
{
    let source = code_source(alloc, lines)?;
    push_tones(alloc, language, &source, runs)
}

// The source of the lines as it is shown, each with its pending blanks and a newline.
fn code_source(alloc: Global, lines: &[Rest<'_>]) -> Result<Vec<u8>, AllocError>
    ensures { IfOk result (λ source. source.items ≡ code_source (map remaining lines.now)) }
{
    let mut source = Vec::new(alloc);
    let mut rest = lines;
    while let [line, next @ ..] = rest {
        push_spaces(&mut source, line.pending)?;
        push_shown(alloc, &mut source, line.bytes)?;
        source.push(b'\n')?;
        rest = next;
    }
    Ok(source)
}

fn push_spaces(source: &mut Vec<u8>, count: usize) -> Result<(), AllocError>
    ensures { OnOk result (source.new.items ≡ source.old.items ++ replicate count 32) }
{
    let mut more = count;
    while more > 0 {
        source.push(b' ')?;
        more -= 1;
    }
    Ok(())
}

// Adds the characters of a line that are shown, and its tabs.
fn push_shown(alloc: Global, source: &mut Vec<u8>, bytes: &[u8]) -> Result<(), AllocError>
    ensures { OnOk result (source.new.items ≡ source.old.items ++ encode_utf8_all (shown_source bytes.now)) }
{
    let text = String::from_utf8_lossy(alloc, bytes)?;
    let pictured = pictured(alloc, text.as_str())?;
    let shown = steady(alloc, pictured.as_str())?;
    source.extend_from_slice(shown.as_bytes())?;
    Ok(())
}

// A text with what is shown of each character; tabs and newlines stay.
fn pictured(alloc: Global, text: &str) -> Result<String, AllocError>
    ensures { IfOk result (λ shown. string_bytes shown ≡ encode_utf8_all (map pictured (chars text.now))) }
{
    let mut shown = String::with_capacity(alloc, text.len())?;
    let mut rest = text.chars();
    while let Some(c) = rest.next() {
        shown.push(pictured_char(c))?;
    }
    Ok(shown)
}

fn pictured_char(c: char) -> char
    ensures { result ≡ pictured c }
{
    if c == '\t' || c == '\n' {
        return c;
    }
    picture(c)
}
