//! Runs of text in a row, in one text that is owned.

ghost use Rattle.std.specs.Prelude.{◌≡◌, ◌≤◌, true, [], ◌∷◌, ◌++◌, IfOk, OnOk, map, option_map, slice_get, length, string_bytes, encode_utf8};
ghost use Rattle.mad_md.specs.Flagged.{run_of};
ghost use Rattle.markdown_lines.specs.Runs.{flags_said, are_bordered};
ghost use Rattle.markdown_lines.specs.Steady.{steady_run};

use crate::glyphs::{Glyph, is_same_run};
use crate::places::{RunFlags, RunPlace, RunRange, flags_of};
use mad_md::Compound;
use mad_steady::steady;
use std::alloc::{AllocError, Global};

/// Runs of text, one after the other.
#[derive(Debug, Drop)]
pub struct Runs {
    text: String,
    places: Vec<RunPlace>,
    ghost bordered: { are_bordered (string_bytes text) places.items ≡ true },
}

impl Runs {
    ghost use Rattle.markdown_lines.specs.Said.{said, range_said};
    ghost use Rattle.markdown_lines.specs.Glyphs.{runs_from, runs_of};

    /// No runs.
    pub fn new(alloc: Global) -> Runs
        ensures { said result ≡ [] }
    {
        Runs {
            text: String::new(alloc),
            places: Vec::new(alloc),
        }
    }

    /// How many they are.
    pub fn count(&self) -> usize
        ensures { result ≡ length (said self.now) }
    {
        self.places.as_slice().len()
    }

    /// Adds a run.
    #[tactic(auto, using(crate::proofs::RunLemmas::count_said))]
    pub fn push(&mut self, flags: RunFlags, text: &str) -> Result<(), AllocError>
        ensures value { OnOk result (said self.new ≡ said self.old ++ record { flags = flags_said flags; text = text.now } ∷ []) }
        ensures grows { length (said self.old) ≤ length (said self.new) }
    {
        let start = self.text.as_str().len();
        self.text.push_str(text)?;
        let end = self.text.as_str().len();
        self.places.push(RunPlace { flags, start, end })?;
        Ok(())
    }

    /// The run of this number.
    pub fn get(&self, index: usize) -> Option<Compound<'_>>
        ensures { option_map run_of result ≡ slice_get (said self.now) index }
    {
        if index >= self.places.as_slice().len() {
            return None;
        }
        let place = self.places[index];
        Some(Compound {
            src: &self.text.as_str()[place.start..place.end],
            bold: place.flags.bold,
            italic: place.flags.italic,
            code: place.flags.code,
            strikeout: place.flags.strikeout,
            link: place.flags.link,
            picture: place.flags.picture,
            picture_sign: place.flags.picture_sign,
        })
    }

    /// Adds some of other runs.
    pub fn add(&mut self, from: &Runs, range: RunRange) -> Result<(), AllocError>
        ensures value { OnOk result (said self.new ≡ said self.old ++ range_said (said from.now) range) }
        ensures grows { length (said self.old) ≤ length (said self.new) }
    {
        let total = from.count();
        let mut index = range.start;
        let mut more = range.count;
        while more > 0 {
            if index >= total {
                return Ok(());
            }
            match from.get(index) {
                None => return Ok(()),
                Some(run) => {
                    self.push(flags_of(run), run.src)?;
                    index += 1;
                    more -= 1;
                }
            }
        }
        Ok(())
    }

    // Adds a run, steady.
    fn push_steady(&mut self, alloc: Global, flags: RunFlags, text: &str) -> Result<(), AllocError>
        ensures { OnOk result (said self.new ≡ said self.old ++ steady_run (record { flags = flags_said flags; text = text.now }) ∷ []) }
    {
        if text.is_ascii() {
            return self.push(flags, text);
        }
        let shown = steady(alloc, text)?;
        self.push(flags, &shown)
    }

    /// The same runs, each steady.
    ///
    /// # Errors
    ///
    /// Out of memory is the only error.
    pub fn steady(&self, alloc: Global) -> Result<Runs, AllocError>
        ensures { IfOk result (λ made. said made ≡ map steady_run (said self.now)) }
    {
        let mut made = Runs::new(alloc);
        let mut index = 0;
        while let Some(run) = self.get(index) {
            made.push_steady(alloc, flags_of(run), run.src)?;
            index += 1;
        }
        Ok(made)
    }

    // Adds the runs of a character and those after it.
    #[tactic(auto, unfolding(crate::specs::Glyphs::runs_from))]
    fn push_from(&mut self, alloc: Global, first: Glyph, others: &[Glyph]) -> Result<(), AllocError>
        ensures value { OnOk result (said self.new ≡ said self.old ++ runs_from first (encode_utf8 first.c) others.now) }
        ensures grows { length (said self.old) ≤ length (said self.new) }
    {
        let mut begun = first;
        let mut text = String::with_capacity(alloc, others.len())?;
        text.push(first.c)?;
        let mut rest = others;
        while let [glyph, next @ ..] = rest {
            rest = next;
            if is_same_run(begun, *glyph) {
                text.push(glyph.c)?;
                continue;
            }
            self.push(begun.flags, text.as_str())?;
            begun = *glyph;
            text.clear();
            text.push(glyph.c)?;
        }
        self.push(begun.flags, text.as_str())
    }

    /// Adds the runs of these characters.
    pub fn push_glyphs(&mut self, alloc: Global, glyphs: &[Glyph]) -> Result<(), AllocError>
        ensures value { OnOk result (said self.new ≡ said self.old ++ runs_of glyphs.now) }
        ensures grows { length (said self.old) ≤ length (said self.new) }
    {
        match glyphs {
            [] => Ok(()),
            [first, others @ ..] => self.push_from(alloc, *first, others),
        }
    }
}
