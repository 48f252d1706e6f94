//! What a call does, as a line that a shell reads.

ghost use Rattle.std.specs.Prelude.{◌≡◌, ◌++◌, IfOk, OnOk, map, option_map, string_bytes};
ghost use Rattle.termimad_options.specs.Calls.{reading_of};
ghost use Rattle.termimad_options.specs.PlanLines.{code_word, file_bytes, files_bytes, inside_quotes, plan_bytes, quoted, quoted_char, reading_word, rows_of, way_word, yes_or_no};

use crate::calls::Grammar;
use crate::names::grammar_of_file;
use crate::plans::{Plan, Way};
use code_words::language_word;
use std::alloc::{AllocError, Global};

/// What a call does, as a line that a shell reads: variables, and then the texts, each behind how it is read. Of code that is one word of the shell,
/// `code` and what stands behind a fence of its language.
///
/// # Errors
///
/// Out of memory is the only error.
pub fn plan_line<'a>(
    alloc: Global,
    plan: &Plan,
    place: &str,
    said: Option<Grammar<'a>>,
    names: &[&'a str],
) -> Result<String, AllocError>
    ensures { IfOk result (λ line. string_bytes line ≡ plan_bytes plan.now place.now (option_map reading_of said.entry) (map (λ name. name.now) names.now)) }
{
    let way = way_word(plan.way);
    let rows = rows_of(plan.way);
    let columns = plan.columns;
    let links = yes_or_no(plan.says_links);
    let streams = yes_or_no(plan.streams);
    let mut line = String::new(alloc);
    write!(
        line,
        "way={way} rows={rows} columns={columns} links={links} streams={streams} skin="
    )?;
    push_quoted(&mut line, plan.skin)?;
    line.push_str(" place=")?;
    push_quoted(&mut line, place)?;
    line.push_str("; set --")?;
    push_files(alloc, &mut line, said, names)?;
    line.push('\n')?;
    Ok(line)
}

// The word for where texts go.
fn way_word(way: Way) -> &'static str
    ensures { result.now ≡ way_word way }
{
    match way {
        Way::Writes => "writes",
        Way::Pages => "pages",
        Way::PagesBeyond(_) => "fits",
    }
}

// The rows that a text may have that isn't paged.
fn rows_of(way: Way) -> u16
    ensures { result ≡ rows_of way }
{
    match way {
        Way::PagesBeyond(rows) => rows,
        Way::Writes | Way::Pages => 0,
    }
}

// The word for whether it is so.
fn yes_or_no(is_so: bool) -> &'static str
    ensures { result.now ≡ yes_or_no is_so }
{
    if is_so { "yes" } else { "no" }
}

// Appends the texts of names, each behind how it is read.
fn push_files<'a>(
    alloc: Global,
    line: &mut String,
    said: Option<Grammar<'a>>,
    names: &[&'a str],
) -> Result<(), AllocError>
    ensures { OnOk result (string_bytes line.new ≡ string_bytes line.old ++ files_bytes (option_map reading_of said.entry) (map (λ name. name.now) names.now)) }
{
    for name in names {
        push_file(alloc, line, said, name)?;
    }
    Ok(())
}

// Appends a text's name behind how it is read.
fn push_file<'a>(
    alloc: Global,
    line: &mut String,
    said: Option<Grammar<'a>>,
    name: &'a str,
) -> Result<(), AllocError>
    ensures { OnOk result (string_bytes line.new ≡ string_bytes line.old ++ file_bytes (option_map reading_of said.entry) name.entry.now) }
{
    push_reading(alloc, line, grammar_of_file(said, name))?;
    push_quoted(line, name)
}

// Appends how a text is read, between blanks.
fn push_reading(alloc: Global, line: &mut String, grammar: Grammar) -> Result<(), AllocError>
    ensures { OnOk result (string_bytes line.new ≡ string_bytes line.old ++ reading_word (reading_of grammar.entry)) }
{
    match grammar {
        Grammar::Markdown => line.push_str(" markdown "),
        Grammar::Lines => line.push_str(" lines "),
        Grammar::Plain => line.push_str(" plain "),
        Grammar::Code(word) => push_code(alloc, line, word),
    }
}

// Appends that a text is read as code, with what stands behind a fence of its language.
fn push_code(alloc: Global, line: &mut String, word: &str) -> Result<(), AllocError>
    ensures { OnOk result (string_bytes line.new ≡ string_bytes line.old ++ code_word word.now) }
{
    let info = String::from_utf8_lossy(alloc, language_word(word))?;
    line.push_str(" 'code ")?;
    push_inside(line, &info)?;
    line.push_str("' ")
}

// Appends a text as one word of a shell: in single quotes, with those of its own outside of them.
fn push_quoted(line: &mut String, text: &str) -> Result<(), AllocError>
    ensures { OnOk result (string_bytes line.new ≡ string_bytes line.old ++ quoted text.now) }
{
    line.push('\'')?;
    push_inside(line, text)?;
    line.push('\'')
}

// Appends what is between the quotes.
fn push_inside(line: &mut String, text: &str) -> Result<(), AllocError>
    ensures { OnOk result (string_bytes line.new ≡ string_bytes line.old ++ inside_quotes text.now) }
{
    for c in text.chars() {
        push_char(line, c)?;
    }
    Ok(())
}

// Appends a character that is between the quotes.
fn push_char(line: &mut String, c: char) -> Result<(), AllocError>
    ensures { OnOk result (string_bytes line.new ≡ string_bytes line.old ++ quoted_char c) }
{
    if c == '\'' {
        return line.push_str("'\\''");
    }
    line.push(c)
}
