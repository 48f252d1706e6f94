//! A text of Markdown as people write it that comes in pieces of bytes and grows on a terminal, and the bytes that show it, until they are handed out.

ghost use Rattle.std.specs.Prelude.{◌≡◌, ⊤, ℕ, [], List, IfOk, MatchResult, OnOk, Some, drop, length};
ghost use Rattle.markdown_live.specs.declared.live_markdown.LiveMarkdown.{LiveMarkdown};
ghost use Rattle.termimad_c.specs.Answers.{HandsOut};
ghost use Rattle.termimad_c.specs.GrowingTexts.{Begins, Grows, IsNoScreen, RefusesMore, RefusesSize, Resizes, ResizesText, ShowsNext, StartsBelow, TakesMore, Waits};
ghost use Rattle.termimad_c.specs.Inputs.{RefusesPage};
ghost use Rattle.termimad_c.specs.declared.answer.Refusal.TheVariants.{Memory};

use crate::answer::{Answer, Refusal, hand_out_front, refuse};
use crate::inputs::{bytes_behind, joined, number_of, page_skin_of_bytes, text_so_far};
use mad_frames::Gathered;
use markdown_live::LiveMarkdown;
use std::alloc::Global;
use std::mem::replace;

/// A text that grows on a terminal.
#[derive(Drop)]
pub struct Growing {
    // What came so far; none once the text is at its end.
    live: Option<LiveMarkdown>,
    // The beginning of a character whose other bytes haven't come.
    begun: Vec<u8>,
    // Bytes that wait to be handed out.
    waiting: Vec<u8>,
}

impl Growing {
    /// A text of which nothing has come, to be laid out in the skin of a word at a width, in columns, on a screen that has `height` rows.
    ///
    /// # Errors
    ///
    /// `Condition`, where a number is over 65535; `NotUtf8` or `Skin`, for the word; or out of memory.
    #[tactic(auto, using(crate::proofs::Steps::page_refused, crate::proofs::Steps::page_skin_refused))]
    fn begin(alloc: Global, skin: &[u8], width: usize, height: usize) -> Result<Growing, Refusal>
        ensures { MatchResult result (Begins skin.now width height) (RefusesPage (IsNoScreen width height) [] skin.now) }
    {
        let columns = number_of(width)?;
        let rows = number_of(height)?;
        let skin = page_skin_of_bytes(alloc, skin)?;
        let width = Some(usize::from(columns));
        let live = LiveMarkdown::new(alloc, &skin, width, usize::from(rows))?;
        Ok(Growing {
            live: Some(live),
            begun: Vec::new(alloc),
            waiting: Vec::new(alloc),
        })
    }

    /// The same in a box.
    ///
    /// # Errors
    ///
    /// The same.
    pub(crate) fn boxed(
        alloc: Global,
        skin: &[u8],
        width: usize,
        height: usize,
    ) -> Result<Box<Growing>, Refusal>
        ensures { MatchResult result (λ growing. Begins skin.now width height growing.value) (RefusesPage (IsNoScreen width height) [] skin.now) }
    {
        let growing = Growing::begin(alloc, skin, width, height)?;
        let Ok(growing) = Box::new(alloc, growing) else {
            return Err(Refusal::Memory);
        };
        Ok(growing)
    }

    /// Takes the next piece of the text, or the last one, and hands out the bytes that wait then, as many as fit the buffer.
    pub(crate) fn take(
        &mut self,
        alloc: Global,
        piece: &[u8],
        is_last: bool,
        buffer: &mut [u8],
    ) -> Answer
        ensures { TakesMore is_last self.old piece.now buffer.old result self.new buffer.new }
    {
        match self.come(alloc, piece, is_last) {
            Ok(()) => self.hand_out(buffer),
            Err(refusal) => refuse(refusal),
        }
    }

    // Takes the next piece of the text, or the last one. Behind the end there is but an empty one.
    fn come(&mut self, alloc: Global, piece: &[u8], is_last: bool) -> Result<(), Refusal>
        ensures { MatchResult result (λ _. Grows is_last self.old piece.now self.new) (λ refusal. RefusesMore is_last self.old piece.now refusal self.new) }
    {
        if self.live.is_none() {
            return if piece.is_empty() {
                Ok(())
            } else {
                Err(Refusal::Condition)
            };
        }
        let bytes = joined(alloc, &self.begun, piece)?;
        let text = text_so_far(&bytes, is_last)?;
        let begun = bytes_behind(alloc, &bytes, text.len())?;
        self.show(alloc, text, is_last)?;
        self.begun = begun;
        Ok(())
    }

    // Shows the next text, or the last one.
    fn show(&mut self, alloc: Global, text: &str, is_last: bool) -> Result<(), Refusal>
        ensures shows { OnOk result ((s : LiveMarkdown) → self.old.live ≡ Some s → (bytes : List ℕ) × Waits self.old bytes self.new × ShowsNext is_last s text.now bytes self.new.live) }
        ensures begun { self.new.begun ≡ self.old.begun }
        ensures refused { MatchResult result (λ _. ⊤) (λ refusal. refusal ≡ Memory) }
    {
        let Some(live) = replace(&mut self.live, None) else {
            return Err(Refusal::Memory);
        };
        let (bytes, next) = bytes_of(alloc, live, text, is_last)?;
        self.live = next;
        self.waiting.extend_from_slice(&bytes)?;
        Ok(())
    }

    /// Goes on below whatever stands on the terminal, at another width and on a screen of another height, and hands out the bytes that wait then, as
    /// many as fit the buffer.
    pub(crate) fn resize(
        &mut self,
        alloc: Global,
        width: usize,
        height: usize,
        buffer: &mut [u8],
    ) -> Answer
        ensures { ResizesText width height self.old buffer.old result self.new buffer.new }
    {
        match self.go_on_below(alloc, width, height) {
            Ok(()) => self.hand_out(buffer),
            Err(refusal) => refuse(refusal),
        }
    }

    // Goes on below, where the numbers are a screen's and the text hasn't ended.
    fn go_on_below(&mut self, alloc: Global, width: usize, height: usize) -> Result<(), Refusal>
        ensures { MatchResult result (λ _. Resizes width height self.old self.new) (λ refusal. RefusesSize width height self.old refusal self.new) }
    {
        let columns = number_of(width)?;
        let rows = number_of(height)?;
        if self.live.is_none() {
            return Err(Refusal::Condition);
        }
        self.begin_below(alloc, usize::from(columns), usize::from(rows))?;
        Ok(())
    }

    // Begins below.
    fn begin_below(&mut self, alloc: Global, width: usize, height: usize) -> Result<(), Refusal>
        ensures below { OnOk result ((s : LiveMarkdown) → self.old.live ≡ Some s → (bytes : List ℕ) × Waits self.old bytes self.new × StartsBelow s width height bytes self.new.live) }
        ensures begun { self.new.begun ≡ self.old.begun }
        ensures refused { MatchResult result (λ _. ⊤) (λ refusal. refusal ≡ Memory) }
    {
        let Some(live) = replace(&mut self.live, None) else {
            return Err(Refusal::Memory);
        };
        let (bytes, next) = bytes_below(alloc, live, width, height)?;
        self.live = next;
        self.waiting.extend_from_slice(&bytes)?;
        Ok(())
    }

    // Hands out the bytes that wait, as many as fit the buffer. The others wait on.
    fn hand_out(&mut self, buffer: &mut [u8]) -> Answer
        ensures handed { HandsOut self.old.waiting.items buffer.old result buffer.new }
        ensures rest { self.new.waiting.items ≡ drop (length buffer.old) self.old.waiting.items }
        ensures live { self.new.live ≡ self.old.live }
        ensures begun { self.new.begun ≡ self.old.begun }
    {
        hand_out_front(&mut self.waiting, buffer)
    }
}

// The bytes that show a text that comes next, or last, and what goes on.
fn bytes_of(
    alloc: Global,
    live: LiveMarkdown,
    text: &str,
    is_last: bool,
) -> Result<(Vec<u8>, Option<LiveMarkdown>), Refusal>
    ensures shows { IfOk result (λ made. ShowsNext is_last live text.now made.0.items made.1) }
    ensures refused { MatchResult result (λ _. ⊤) (λ refusal. refusal ≡ Memory) }
{
    let mut live = live;
    let mut out = Gathered::new(alloc);
    live.feed(alloc, &mut out, text)?;
    if is_last {
        live.finish(alloc, &mut out)?;
        return Ok((out.bytes, None));
    }
    Ok((out.bytes, Some(live)))
}

// The bytes of a new row, below which a text goes on, and what goes on.
fn bytes_below(
    alloc: Global,
    live: LiveMarkdown,
    width: usize,
    height: usize,
) -> Result<(Vec<u8>, Option<LiveMarkdown>), Refusal>
    ensures below { IfOk result (λ made. StartsBelow live width height made.0.items made.1) }
    ensures refused { MatchResult result (λ _. ⊤) (λ refusal. refusal ≡ Memory) }
{
    let mut live = live;
    let mut out = Gathered::new(alloc);
    live.go_on_below(&mut out, Some(width), height)?;
    Ok((out.bytes, Some(live)))
}
