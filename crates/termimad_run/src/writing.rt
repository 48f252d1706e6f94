//! What a call writes of its text.

ghost use Rattle.std.specs.Prelude.{OnOk};
ghost use Rattle.termimad_run.specs.Calls.{IsAllowed, command_of_pieces};
ghost use Rattle.termimad_run.specs.LineEnds.{IsWithoutLineEnd};
ghost use Rattle.termimad_run.specs.ProgramRuns.{ComesAs, WritesCall, ShowsCall, WritesLine};

use crate::call::{Command, Pieces};
use mad_layout::MadSkin;
use mad_page_skin::PageSkin;
use mad_stream::{SourceError, show_source_on, write_source_on};
use mad_term::{Error, Out, Source, put_all};
use markdown_code::write_code_on;
use markdown_layout::write_markdown_on;
use markdown_live::show_markdown_source_on;
use markdown_stream::write_markdown_source_on;
use std::alloc::Global;

/// Writes a text in an area, or laid out at a width, or read as people write Markdown or as code and laid out, or as one line with inline marks and
/// a newline. Nothing is flushed.
///
/// An area has to have four columns at least and lie within the limits of a screen: its right and bottom fit a `u16`.
///
/// # Errors
///
/// A fault of the device, or out of memory. What went out by then is a beginning of the whole; of `text W`, of the rows of the
/// text's first parts.
pub fn write_call<O: Out>(
    alloc: Global,
    out: &mut O,
    skin: &PageSkin,
    command: &Command,
    text: &str,
) -> Result<(), Error>
    requires { IsAllowed command.now }
    ensures writes { WritesCall skin.now command.now text.now (O.seen out.old) result (O.seen out.new) }
    ensures shown { OnOk result (ShowsCall skin.now command.now text.now (O.seen out.old) (O.seen out.new)) }
{
    match command {
        Command::InArea(area) => skin.text.write_in_area_on(alloc, out, text, area),
        Command::AtWidth(width) | Command::AsItComes(width) | Command::Live(width, _) => {
            skin.text
                .write_parts_on(alloc, out, text, Some(usize::from(*width)))
        }
        Command::AsMarkdown(width)
        | Command::MarkdownAsItComes(width)
        | Command::LiveMarkdown(width, _) => {
            write_markdown_on(alloc, out, skin, text, Some(usize::from(*width)))
        }
        Command::AsCode(language, width) => {
            write_code_on(alloc, out, skin, language, text, Some(usize::from(*width)))
        }
        Command::Inline => write_line(alloc, out, &skin.text, without_line_end(text)),
    }
}

/// Writes a text as it comes, laid out at a width, in columns, or shows it on a terminal that scrolls.
pub(crate) fn write_as_it_comes<I: Source, O: Out>(
    alloc: Global,
    input: &mut I,
    out: &mut O,
    skin: &PageSkin,
    pieces: Pieces,
) -> Result<(), SourceError>
    ensures { ComesAs skin.now (command_of_pieces pieces) (I.seen input.old) (O.seen out.old) result (I.seen input.new) (O.seen out.new) }
{
    match pieces {
        Pieces::Stream(width) => { write_source_on(alloc, input, out, &skin.text, Some(width)) }
        Pieces::Markdown(width) => {
            write_markdown_source_on(alloc, input, out, skin, Some(width))
        }
        Pieces::Live(width, height) => {
            show_source_on(alloc, input, out, &skin.text, Some(width), height)
        }
        Pieces::LiveMarkdown(width, height) => {
            show_markdown_source_on(alloc, input, out, skin, Some(width), height)
        }
    }
}

// Writes a line with inline marks, and a newline.
fn write_line<O: Out>(alloc: Global, out: &mut O, skin: &MadSkin, line: &str) -> Result<(), Error>
    ensures { WritesLine skin.now line.now (O.seen out.old) result (O.seen out.new) }
{
    skin.write_inline_on(alloc, out, line)?;
    put_all(out, b"\n")?;
    Ok(())
}

// A text without its end of line: a final `\n`, and a `\r` before it.
fn without_line_end(text: &str) -> &str
    ensures { IsWithoutLineEnd text.entry.now result.now }
{
    let Some(line) = text.strip_suffix('\n') else {
        return text;
    };
    line.strip_suffix('\r').unwrap_or(line)
}
