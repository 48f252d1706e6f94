//! A text of Markdown as people write it that comes in pieces of bytes, and its rows until they are handed out.

ghost use Rattle.std.specs.Prelude.{◌≡◌, ◌≤◌, ◌^◌, ⊤, ℕ, [], List, IfOk, MatchResult, OnOk, Some, drop, length};
ghost use Rattle.markdown_stream.specs.declared.stream.MarkdownStream.{MarkdownStream};
ghost use Rattle.termimad_c.specs.Answers.{HandsOut};
ghost use Rattle.termimad_c.specs.Inputs.{RefusesPage};
ghost use Rattle.termimad_c.specs.TextsInPieces.{Comes, GoesOn, Reads, RefusesPiece, TakesPiece, Waits};
ghost use Rattle.termimad_c.specs.declared.answer.Refusal.TheVariants.{Memory};

use crate::answer::{Answer, Refusal, hand_out_front, refuse};
use crate::inputs::{bytes_behind, joined, number_of, page_skin_of_bytes, text_so_far};
use mad_frames::Gathered;
use markdown_stream::MarkdownStream;
use std::alloc::Global;
use std::mem::replace;

/// A text that comes in pieces.
#[derive(Drop)]
pub struct Coming {
    // What came so far; none once the text is at its end.
    stream: Option<MarkdownStream>,
    // The beginning of a character whose other bytes haven't come.
    begun: Vec<u8>,
    // Rows that wait to be handed out.
    rows: Vec<u8>,
}

impl Coming {
    /// A text of which nothing has come, to be laid out in the skin of a word at a width, in columns.
    ///
    /// # Errors
    ///
    /// `Condition`, where the width is over 65535; `NotUtf8` or `Skin`, for the word; or out of memory.
    #[tactic(auto, using(crate::proofs::Steps::page_refused, crate::proofs::Steps::page_skin_refused))]
    pub(crate) fn begin(alloc: Global, skin: &[u8], width: usize) -> Result<Coming, Refusal>
        ensures { MatchResult result (λ coming. GoesOn skin.now width [] [] coming) (RefusesPage (2 ^ 16 ≤ width) [] skin.now) }
    {
        let width = usize::from(number_of(width)?);
        let skin = page_skin_of_bytes(alloc, skin)?;
        Ok(Coming {
            stream: Some(MarkdownStream::new(alloc, &skin, Some(width))),
            begun: Vec::new(alloc),
            rows: Vec::new(alloc),
        })
    }

    /// The same in a box.
    ///
    /// # Errors
    ///
    /// The same.
    pub(crate) fn boxed(alloc: Global, skin: &[u8], width: usize) -> Result<Box<Coming>, Refusal>
        ensures { MatchResult result (λ coming. GoesOn skin.now width [] [] coming.value) (RefusesPage (2 ^ 16 ≤ width) [] skin.now) }
    {
        let coming = Coming::begin(alloc, skin, width)?;
        let Ok(coming) = Box::new(alloc, coming) else {
            return Err(Refusal::Memory);
        };
        Ok(coming)
    }

    /// Takes the next piece of the text, or the last one, and hands out the rows that wait then, as many as fit the buffer.
    pub(crate) fn take(
        &mut self,
        alloc: Global,
        piece: &[u8],
        is_last: bool,
        buffer: &mut [u8],
    ) -> Answer
        ensures { TakesPiece is_last self.old piece.now buffer.old result self.new buffer.new }
    {
        match self.come(alloc, piece, is_last) {
            Ok(()) => self.hand_out(buffer),
            Err(refusal) => refuse(refusal),
        }
    }

    // Takes the next piece of the text, or the last one. Behind the end there is but an empty one.
    fn come(&mut self, alloc: Global, piece: &[u8], is_last: bool) -> Result<(), Refusal>
        ensures { MatchResult result (λ _. Comes is_last self.old piece.now self.new) (λ refusal. RefusesPiece is_last self.old piece.now refusal self.new) }
    {
        if self.stream.is_none() {
            return if piece.is_empty() {
                Ok(())
            } else {
                Err(Refusal::Condition)
            };
        }
        let bytes = joined(alloc, &self.begun, piece)?;
        let text = text_so_far(&bytes, is_last)?;
        let begun = bytes_behind(alloc, &bytes, text.len())?;
        self.read(alloc, text, is_last)?;
        self.begun = begun;
        Ok(())
    }

    // Reads the next text, or the last one.
    fn read(&mut self, alloc: Global, text: &str, is_last: bool) -> Result<(), Refusal>
        ensures reads { OnOk result ((s : MarkdownStream) → self.old.stream ≡ Some s → (rows : List ℕ) × Waits self.old rows self.new × Reads is_last s text.now rows self.new.stream) }
        ensures begun { self.new.begun ≡ self.old.begun }
        ensures refused { MatchResult result (λ _. ⊤) (λ refusal. refusal ≡ Memory) }
    {
        let Some(stream) = replace(&mut self.stream, None) else {
            return Err(Refusal::Memory);
        };
        let (rows, next) = rows_of(alloc, stream, text, is_last)?;
        self.stream = next;
        self.rows.extend_from_slice(&rows)?;
        Ok(())
    }

    // Hands out the rows that wait, as many as fit the buffer. The others wait on.
    fn hand_out(&mut self, buffer: &mut [u8]) -> Answer
        ensures handed { HandsOut self.old.rows.items buffer.old result buffer.new }
        ensures rest { self.new.rows.items ≡ drop (length buffer.old) self.old.rows.items }
        ensures stream { self.new.stream ≡ self.old.stream }
        ensures begun { self.new.begun ≡ self.old.begun }
    {
        hand_out_front(&mut self.rows, buffer)
    }
}

// The rows of a text that comes next, or last, and what goes on.
fn rows_of(
    alloc: Global,
    stream: MarkdownStream,
    text: &str,
    is_last: bool,
) -> Result<(Vec<u8>, Option<MarkdownStream>), Refusal>
    ensures reads { IfOk result (λ made. Reads is_last stream text.now made.0.items made.1) }
    ensures refused { MatchResult result (λ _. ⊤) (λ refusal. refusal ≡ Memory) }
{
    let mut stream = stream;
    let mut out = Gathered::new(alloc);
    stream.feed(alloc, &mut out, text)?;
    if is_last {
        stream.finish(alloc, &mut out)?;
        return Ok((out.bytes, None));
    }
    Ok((out.bytes, Some(stream)))
}
