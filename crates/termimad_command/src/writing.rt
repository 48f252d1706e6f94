//! What is written of a text.

ghost use Rattle.std.specs.Prelude.{◌≡◌, ◌⊎◌, MatchResult};
ghost use Rattle.mad_term.specs.Trace.{failed, flushed};
ghost use Rattle.termimad_options.specs.Calls.{reading_of};
ghost use Rattle.termimad_command.specs.Written.{FailsInStream, FlushesOut, IsStreamed, WritesBytes, WritesLines, WritesOrRefuses, WritesOut, WritesPage, WritesText, StreamsText, columns_on, streams, with_words};

use crate::refusals::{Refusal, refusal_of, stream_refusal};
use mad_measure::printable;
use mad_page_skin::PageSkin;
use mad_plain::lossy_text;
use mad_plain_rows::write_plain_on;
use mad_steady::steady;
use mad_stream::SourceError;
use mad_term::{Error, Out, Source, put_text};
use markdown_code::write_code_on;
use markdown_layout::write_markdown_on;
use markdown_lines::texts::behind_mark;
use markdown_linked_pages::write_markdown_with_links_on;
use markdown_live::show_markdown_source_on;
use markdown_stream::write_markdown_source_on;
use std::alloc::Global;
use termimad_options::{Grammar, Screen};

/// How texts are written.
#[derive(Clone, Copy)]
pub(crate) struct Look {
    /// The skin.
    pub skin: PageSkin,
    /// The columns that they are laid out in.
    pub columns: u16,
    /// Whether a text that isn't Markdown keeps its colors.
    pub is_styled: bool,
    /// Whether the input is written as it comes.
    pub streams: bool,
    /// The screen that it is shown on as it comes, and redrawn, if it is.
    pub screen: Option<Screen>,
    /// Whether links of Markdown are written as such, for a terminal to follow.
    pub says_links: bool,
}

/// Writes the text that bytes are, with U+FFFD for what is none, and without a byte order mark at its front. Nothing is flushed.
///
/// # Errors
///
/// A fault of the device, or out of memory.
pub(crate) fn write_bytes<'a, O: Out>(
    alloc: Global,
    out: &mut O,
    look: &Look,
    grammar: Grammar,
    bytes: &[u8],
) -> Result<(), Refusal<'a>>
    ensures { WritesBytes look.now (reading_of grammar.entry) bytes.now (O.seen out.old) result (O.seen out.new) }
{
    let Ok(text) = lossy_text(alloc, bytes) else {
        return Err(Refusal::Memory);
    };
    write_text(alloc, out, look, grammar, behind_mark(&text))
}

// Writes a text that is read so.
fn write_text<'a, O: Out>(
    alloc: Global,
    out: &mut O,
    look: &Look,
    grammar: Grammar,
    text: &str,
) -> Result<(), Refusal<'a>>
    ensures { WritesOrRefuses look.now (reading_of grammar.entry) text.now (O.seen out.old) result (O.seen out.new) }
{
    match write_rows(alloc, out, look, grammar, text) {
        Ok(()) => Ok(()),
        Err(e) => Err(refusal_of(e)),
    }
}

// Writes the rows of a text that is read so. Words of Markdown stay whole; code is written as in a fence.
fn write_rows<O: Out>(
    alloc: Global,
    out: &mut O,
    look: &Look,
    grammar: Grammar,
    text: &str,
) -> Result<(), Error>
    ensures { WritesText look.now (reading_of grammar.entry) text.now (O.seen out.old) result (O.seen out.new) }
{
    let width = usize::from(look.columns);
    match grammar {
        Grammar::Markdown => write_page(alloc, out, look, text),
        Grammar::Lines => write_lines(alloc, out, &with_words(look.skin, false), text, width),
        Grammar::Plain => write_plain_on(alloc, out, text, width, look.is_styled),
        Grammar::Code(word) => {
            let skin = with_words(look.skin, true);
            write_code_on(alloc, out, &skin, word, text, Some(width))
        }
    }
}

// Writes the page that a text is as Markdown, with its links, if they are written.
fn write_page<O: Out>(alloc: Global, out: &mut O, look: &Look, text: &str) -> Result<(), Error>
    ensures { WritesPage look.now text.now (O.seen out.old) result (O.seen out.new) }
{
    let skin = with_words(look.skin, true);
    let columns = usize::from(look.columns);
    if look.says_links {
        write_markdown_with_links_on(alloc, out, &skin, text, Some(columns))
    } else {
        write_markdown_on(alloc, out, &skin, text, Some(columns))
    }
}

// The skin in which words stay whole, or may be parted.
fn with_words(skin: PageSkin, are_whole: bool) -> PageSkin
    ensures { result ≡ with_words skin are_whole }
{
    let mut skin = skin;
    skin.text.whole_words = are_whole;
    skin
}

// Writes the lines of a text, each read by itself: what is printable of it, steady.
fn write_lines<O: Out>(
    alloc: Global,
    out: &mut O,
    skin: &PageSkin,
    text: &str,
    width: usize,
) -> Result<(), Error>
    ensures { WritesLines skin.now width text.now (O.seen out.old) result (O.seen out.new) }
{
    let printed = printable(alloc, text)?;
    let shown = steady(alloc, &printed)?;
    skin.text.write_parts_on(alloc, out, &shown, Some(width))
}

/// Writes the input, which has that name, as it comes: Markdown, each leaf of it once it is complete. On a screen what is growing is shown too, and redrawn
/// in place. The output is flushed after each block that is read.
///
/// # Errors
///
/// A fault of the input or of the output, bytes that aren't UTF-8, or out of memory. What was complete by then went out.
pub(crate) fn stream_text<'a, I: Source, O: Out>(
    alloc: Global,
    look: &Look,
    name: &'a str,
    input: &mut I,
    out: &mut O,
) -> Result<(), Refusal<'a>>
    ensures { MatchResult result
        (λ _. IsStreamed look.now (streams (I.seen input.old) (O.seen out.old)) (streams (I.seen input.new) (O.seen out.new)))
        (λ refusal. FailsInStream look.now name.now refusal (streams (I.seen input.old) (O.seen out.old)) (streams (I.seen input.new) (O.seen out.new))) }
{
    match write_as_it_comes(alloc, look, input, out) {
        Ok(()) => Ok(()),
        Err(e) => Err(stream_refusal(name, e)),
    }
}

// Writes the input as it comes, or shows it so on a screen.
fn write_as_it_comes<I: Source, O: Out>(
    alloc: Global,
    look: &Look,
    input: &mut I,
    out: &mut O,
) -> Result<(), SourceError>
    ensures { StreamsText look.now (streams (I.seen input.old) (O.seen out.old)) result (streams (I.seen input.new) (O.seen out.new)) }
{
    let skin = with_words(look.skin, true);
    match look.screen {
        Some(screen) => {
            let columns = columns_on(look.columns, screen);
            let rows = usize::from(screen.rows);
            show_markdown_source_on(alloc, input, out, &skin, Some(columns), rows)
        }
        None => {
            let columns = usize::from(look.columns);
            write_markdown_source_on(alloc, input, out, &skin, Some(columns))
        }
    }
}

// So many columns, but one less than a screen's at most.
fn columns_on(columns: u16, screen: Screen) -> usize
    ensures { result ≡ columns_on columns screen }
{
    usize::from(columns).min(usize::from(screen.columns).saturating_sub(1))
}

/// Writes a text as it is, and flushes the output.
///
/// # Errors
///
/// A fault of the device.
pub(crate) fn write_out<'a, O: Out>(out: &mut O, text: &str) -> Result<(), Refusal<'a>>
    ensures { WritesOut text.now (O.seen out.old) result (O.seen out.new) }
{
    match put_text(out, text) {
        Ok(()) => flush(out),
        Err(e) => Err(refusal_of(e)),
    }
}

/// Hands on what the output has kept back.
///
/// # Errors
///
/// A fault of the device.
pub(crate) fn flush<'a, O: Out>(out: &mut O) -> Result<(), Refusal<'a>>
    ensures { FlushesOut (O.seen out.old) result (O.seen out.new) }
{
    match out.flush() {
        Ok(()) => Ok(()),
        Err(e) => Err(refusal_of(Error::IO(e))),
    }
}

/// Hands on what the output has kept back, or not: a fault changes nothing.
pub(crate) fn hand_on<O: Out>(out: &mut O)
    ensures { (O.seen out.new ≡ flushed (O.seen out.old)) ⊎ (O.seen out.new ≡ failed (O.seen out.old)) }
{
    let _ = out.flush();
}
