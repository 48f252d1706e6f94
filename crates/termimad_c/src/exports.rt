//! The calls as C sees them: a slice is a pointer and then a length, and an allocator is passed by nothing.
//!
//! None requires anything of its arguments but that a text in pieces or a live one was begun. What C has to keep is what the types say: each pointer is not null,
//! what it points to has the length that is told, and the buffer shares no byte with the text or the skin.

ghost use Rattle.std.specs.Prelude.{◌≡◌, ◌⊎◌, ◌≤◌, ◌^◌, [], None};
ghost use Rattle.termimad_run.specs.declared.call.Command.TheVariants.{Inline};
ghost use Rattle.termimad_c.specs.Answers.{Answers, Counts, Finds, Progresses};
ghost use Rattle.termimad_c.specs.Inputs.{RefusesCall, RefusesCode, RefusesName, RefusesPage, RefusesParts, IsNoArea, IsNoFit, is_told};
ghost use Rattle.termimad_c.specs.DataTables.{IsNoTable, IsTableWritten};
ghost use Rattle.termimad_c.specs.Making.{IsWritten, IsAreaWritten, IsTextWritten, IsCodeWritten, IsMarkdownWritten, IsRowCount, IsFittedLine, IsMadePrintable, ArePartsOf};
ghost use Rattle.termimad_c.specs.Outlines.{AreHeadingsOf, AreLinksOf, IsSectionNamed};
ghost use Rattle.termimad_c.specs.GrowingTexts.{BeginsLive, ResizesLive, TakesLive};
ghost use Rattle.termimad_c.specs.HeldGrowths.{IsHeld};
ghost use Rattle.termimad_c.specs.HeldTexts.{IsBegun};
ghost use Rattle.termimad_c.specs.TextsInPieces.{Begins, Takes};

use crate::answer::{
    Answer, Place, Progress, count_out, hand_out, hand_out_parts, place_out, refuse,
};
use crate::coming::Coming;
use crate::growing::Growing;
use crate::held::Stream;
use crate::live::Live;
use crate::making::{
    area_bytes, code_bytes, fitted_bytes, inline_bytes, markdown_bytes, parts_made,
    printable_bytes, rows_count, table_bytes, text_bytes,
};
use crate::outlines::{headings_bytes, links_bytes, section_named};
use std::alloc::Global;

/// A Markdown text in an area of the screen: what `termimad-view area` writes.
#[unsafe(no_mangle)]
pub extern "C" fn termimad_area(
    alloc: Global,
    text: &[u8],
    skin: &[u8],
    left: usize,
    top: usize,
    width: usize,
    height: usize,
    buffer: &mut [u8],
) -> Answer
    ensures { Answers (IsAreaWritten text.now skin.now left top width height)
        (RefusesCall (IsNoArea left top width height) text.now skin.now) buffer.old result buffer.new }
{
    let made = area_bytes(alloc, text, skin, left, top, width, height);
    hand_out(made, buffer)
}

/// A Markdown text, laid out at a width, in columns: what `termimad-view text` writes.
#[unsafe(no_mangle)]
pub extern "C" fn termimad_text(
    alloc: Global,
    text: &[u8],
    skin: &[u8],
    width: usize,
    buffer: &mut [u8],
) -> Answer
    ensures { Answers (IsTextWritten text.now skin.now width) (RefusesCall (2 ^ 16 ≤ width) text.now skin.now) buffer.old result buffer.new }
{
    hand_out(text_bytes(alloc, text, skin, width), buffer)
}

/// A text of Markdown as people write it, laid out at a width, in columns: what `termimad-view markdown` writes.
#[unsafe(no_mangle)]
pub extern "C" fn termimad_markdown(
    alloc: Global,
    text: &[u8],
    skin: &[u8],
    width: usize,
    buffer: &mut [u8],
) -> Answer
    ensures { Answers (IsMarkdownWritten text.now skin.now width) (RefusesPage (2 ^ 16 ≤ width) text.now skin.now) buffer.old result buffer.new }
{
    hand_out(markdown_bytes(alloc, text, skin, width), buffer)
}

/// A text of code, in the language of a word or of a file of that name, laid out at a width, in columns: what `termimad-view code` writes.
#[unsafe(no_mangle)]
pub extern "C" fn termimad_code(
    alloc: Global,
    text: &[u8],
    language: &[u8],
    skin: &[u8],
    width: usize,
    buffer: &mut [u8],
) -> Answer
    ensures { Answers (IsCodeWritten text.now language.now skin.now width) (RefusesCode (2 ^ 16 ≤ width) text.now language.now skin.now) buffer.old result buffer.new }
{
    hand_out(code_bytes(alloc, text, language, skin, width), buffer)
}

/// The links of a text of Markdown as people write it, in the order of the text, each as a line: the number of its section, a tab, and the address.
#[unsafe(no_mangle)]
pub extern "C" fn termimad_links(alloc: Global, text: &[u8], buffer: &mut [u8]) -> Answer
    ensures { Answers (AreLinksOf text.now) (RefusesCall ⊥ text.now []) buffer.old result buffer.new }
{
    hand_out(links_bytes(alloc, text), buffer)
}

/// The headings of a text of Markdown as people write it, in order, each as a line: its level, the number of its section, the name that a link within
/// the text goes to, and what it shows, with tabs between.
#[unsafe(no_mangle)]
pub extern "C" fn termimad_headings(alloc: Global, text: &[u8], buffer: &mut [u8]) -> Answer
    ensures { Answers (AreHeadingsOf text.now) (RefusesCall ⊥ text.now []) buffer.old result buffer.new }
{
    hand_out(headings_bytes(alloc, text), buffer)
}

/// The section of a text of Markdown as people write it to which `#name` goes, by its number: that of the first tag that has the name, or else of the
/// heading.
#[unsafe(no_mangle)]
pub extern "C" fn termimad_find_section(alloc: Global, text: &[u8], name: &[u8]) -> Place
    ensures { Finds (IsSectionNamed text.now name.now) (RefusesName text.now name.now) result }
{
    place_out(section_named(alloc, text, name))
}

/// The complete parts at the front of a Markdown text, laid out at a width, in columns; where `last` isn't 0, all of the text. A fence is open before
/// it where `fenced` isn't 0.
///
/// The caller drops the bytes that were used, appends what comes, and calls again with the fence that was answered. In all the rows are those
/// that `termimad-view text` writes of the whole text.
#[unsafe(no_mangle)]
pub extern "C" fn termimad_parts(
    alloc: Global,
    text: &[u8],
    skin: &[u8],
    width: usize,
    fenced: usize,
    last: usize,
    buffer: &mut [u8],
) -> Progress
    ensures { Progresses (is_told fenced) (ArePartsOf text.now skin.now width (is_told fenced) (is_told last)) (RefusesParts text.now skin.now width (is_told last))
        buffer.old result buffer.new }
{
    let is_open = fenced != 0;
    let made = parts_made(alloc, text, skin, width, is_open, last != 0);
    hand_out_parts(made, is_open, buffer)
}

/// Begins a text of Markdown as people write it that comes in pieces, to be laid out at a width, in columns.
///
/// Where it isn't refused, the text lives behind the pointer until `termimad_stream_end`. What stood there is forgotten.
#[unsafe(no_mangle)]
pub extern "C" fn termimad_stream_begin(
    alloc: Global,
    stream: &mut Stream,
    skin: &[u8],
    width: usize,
) -> Answer
    ensures { Begins skin.now width result stream.old.coming stream.new.coming }
{
    match Coming::boxed(alloc, skin, width) {
        Ok(coming) => {
            stream.put_in(coming);
            count_out(Ok(0))
        }
        Err(refusal) => refuse(refusal),
    }
}

/// Takes the next piece of a text, where `last` isn't 0 the last one, and hands out the rows that wait then: those of the leaves that are complete,
/// or all.
///
/// A piece is cut anywhere, inside a character too. Rows that don't fit the buffer wait for the next call, also one with an empty piece. In all the
/// rows are those that `termimad-view markdown-stream` writes of the whole text.
#[unsafe(no_mangle)]
pub extern "C" fn termimad_stream_take(
    alloc: Global,
    stream: &mut Stream,
    text: &[u8],
    last: usize,
    buffer: &mut [u8],
) -> Answer
    requires { IsBegun stream.old.coming }
    ensures { Takes (is_told last) stream.old.coming text.now buffer.old result stream.new.coming buffer.new }
{
    let mut coming = stream.take_out(alloc);
    let answer = coming.take(alloc, text, last != 0, buffer);
    stream.put_in(coming);
    answer
}

/// Ends a text that was begun, whether all of it came or not, and gives its memory back.
#[unsafe(no_mangle)]
pub extern "C" fn termimad_stream_end(alloc: Global, stream: &mut Stream)
    requires { IsBegun stream.old.coming }
    ensures { stream.new.coming ≡ None }
{
    let _ended = stream.take_out(alloc);
}

/// Begins a text of Markdown as people write it that comes in pieces and grows on a terminal that scrolls, to be laid out at a width, in columns, on
/// a screen that has `height` rows.
///
/// Where it isn't refused, the text lives behind the pointer until `termimad_live_end`. What stood there is forgotten.
#[unsafe(no_mangle)]
pub extern "C" fn termimad_live_begin(
    alloc: Global,
    live: &mut Live,
    skin: &[u8],
    width: usize,
    height: usize,
) -> Answer
    ensures { BeginsLive skin.now width height result live.old.growing live.new.growing }
{
    match Growing::boxed(alloc, skin, width, height) {
        Ok(growing) => {
            live.put_in(growing);
            count_out(Ok(0))
        }
        Err(refusal) => refuse(refusal),
    }
}

/// Takes the next piece of a live text, where `last` isn't 0 the last one, and hands out the bytes that wait then: those that lead the terminal to
/// one that shows the text as far as it has come, or all of it.
///
/// A piece is cut anywhere, inside a character too. Bytes that don't fit the buffer wait for the next call, also one with an empty piece. At the end
/// the terminal has the rows that `termimad-view markdown-stream` writes of the whole text.
#[unsafe(no_mangle)]
pub extern "C" fn termimad_live_take(
    alloc: Global,
    live: &mut Live,
    text: &[u8],
    last: usize,
    buffer: &mut [u8],
) -> Answer
    requires { IsHeld live.old.growing }
    ensures { TakesLive (is_told last) live.old.growing text.now buffer.old result live.new.growing buffer.new }
{
    let mut growing = live.take_out(alloc);
    let answer = growing.take(alloc, text, last != 0, buffer);
    live.put_in(growing);
    answer
}

/// Goes on below whatever stands on the terminal, at another width and on a screen of another height, and hands out the bytes that wait then. The
/// next piece, also an empty one, shows what grows there.
#[unsafe(no_mangle)]
pub extern "C" fn termimad_live_resize(
    alloc: Global,
    live: &mut Live,
    width: usize,
    height: usize,
    buffer: &mut [u8],
) -> Answer
    requires { IsHeld live.old.growing }
    ensures { ResizesLive width height live.old.growing buffer.old result live.new.growing buffer.new }
{
    let mut growing = live.take_out(alloc);
    let answer = growing.resize(alloc, width, height, buffer);
    live.put_in(growing);
    answer
}

/// Ends a live text that was begun, whether all of it came or not, and gives its memory back.
#[unsafe(no_mangle)]
pub extern "C" fn termimad_live_end(alloc: Global, live: &mut Live)
    requires { IsHeld live.old.growing }
    ensures { live.new.growing ≡ None }
{
    let _ended = live.take_out(alloc);
}

/// A text as one line with its inline marks, and a newline: what `termimad-view inline` writes.
#[unsafe(no_mangle)]
pub extern "C" fn termimad_inline(
    alloc: Global,
    text: &[u8],
    skin: &[u8],
    buffer: &mut [u8],
) -> Answer
    ensures { Answers (IsWritten text.now skin.now Inline) (RefusesCall ⊥ text.now skin.now) buffer.old result buffer.new }
{
    hand_out(inline_bytes(alloc, text, skin), buffer)
}

/// How many rows a Markdown text takes at a width, in columns.
#[unsafe(no_mangle)]
pub extern "C" fn termimad_rows(alloc: Global, text: &[u8], skin: &[u8], width: usize) -> Answer
    ensures { Counts (IsRowCount text.now skin.now width) (RefusesCall (2 ^ 16 ≤ width) text.now skin.now) result }
{
    count_out(rows_count(alloc, text, skin, width))
}

/// A line of text with its inline marks, fitted to a width, in columns, with an ellipsis where it is too long. What goes is inside
/// it (0), at its end (1), at both ends (2) or at its front (3), by `align`.
#[unsafe(no_mangle)]
pub extern "C" fn termimad_fit(
    alloc: Global,
    text: &[u8],
    skin: &[u8],
    width: usize,
    align: usize,
    buffer: &mut [u8],
) -> Answer
    ensures { Answers (IsFittedLine text.now skin.now width align)
        (RefusesCall (IsNoFit width align) text.now skin.now) buffer.old result buffer.new }
{
    hand_out(fitted_bytes(alloc, text, skin, width, align), buffer)
}

/// A text without what a terminal obeys: no character of it but newlines is a command.
#[unsafe(no_mangle)]
pub extern "C" fn termimad_printable(alloc: Global, text: &[u8], buffer: &mut [u8]) -> Answer
    ensures { Answers (IsMadePrintable text.now) (RefusesCall ⊥ text.now []) buffer.old result buffer.new }
{
    hand_out(printable_bytes(alloc, text), buffer)
}

/// A table of data, laid out at a width, in columns. Its cells are one text and the length of each in bytes, row by row, each row of so many
/// columns, the first having the headers. No mark is read in them. `aligns` has the columns' alignments: none (0), left (1), middle (2), right (3).
#[unsafe(no_mangle)]
pub extern "C" fn termimad_table(
    alloc: Global,
    text: &[u8],
    lengths: &[usize],
    aligns: &[usize],
    skin: &[u8],
    columns: usize,
    width: usize,
    buffer: &mut [u8],
) -> Answer
    ensures { Answers (IsTableWritten text.now lengths.now aligns.now skin.now columns width)
        (RefusesCall (IsNoTable text.now lengths.now aligns.now columns width) text.now skin.now) buffer.old result buffer.new }
{
    let made = table_bytes(alloc, text, lengths, aligns, skin, columns, width);
    hand_out(made, buffer)
}
