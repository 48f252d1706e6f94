//! The open brackets, and what a closing one does.

ghost use Rattle.std.specs.Prelude.{◌≡◌, ◌≤◌, ◌++◌, [], ◌∷◌, IfOk, OnOk, length, drop, take, map, slice_index};
ghost use Rattle.std.specs.List.{All};
ghost use Rattle.markdown_emphasis.specs.Pairs.{IsWithin};
ghost use Rattle.markdown_emphasis.specs.Pieces.{moved};
ghost use Rattle.markdown_brackets.specs.Brackets.{first_open, without_first, is_free, nothing_read, with_bracket, with_run, place_of, run_of, inside_pairs, killed, linked, target_at, closed, finished};
ghost use Rattle.markdown_brackets.specs.Readings.{reading_of, IsTidy};

use crate::labels::Labels;
use crate::targets::{Target, target_of};
use markdown_emphasis::{Pair, Run, matches};
use std::alloc::{AllocError, Global};

/// An opening bracket.
#[derive(Clone, Copy)]
pub struct Bracket {
    /// Whether it would begin an image.
    pub image: bool,
    /// The index of its piece.
    pub piece: usize,
    /// Where in the text it ends.
    pub at: usize,
    /// How many runs there were before it.
    pub runs: usize,
}

/// A bracket that is open still.
#[derive(Clone, Copy)]
pub struct Open {
    pub bracket: Bracket,
    /// Whether a link was found inside it.
    pub dead: bool,
}

/// A run, and the index of its piece.
#[derive(Clone, Copy)]
pub struct Placed {
    pub place: usize,
    pub run: Run,
}

/// What a closing bracket makes.
#[derive(Clone, Copy)]
pub struct Link {
    pub image: bool,
    /// The index of the piece of its opening bracket.
    pub opener: usize,
    pub target: Target,
}

/// What there is before some place of a text: the brackets that are open, of which the first so many have a link inside, the runs that
/// no link holds, and the pairs of those that links hold.
#[derive(Drop)]
pub struct Brackets {
    brackets: Vec<Bracket>,
    dead: usize,
    runs: Vec<Placed>,
    pairs: Vec<Pair>,
}

// The items from this one on.
fn placed_from(runs: &[Placed], from: usize) -> &[Placed]
    ensures { result.now ≡ drop from runs.now }
{
    if from < runs.len() {
        &runs[from..]
    } else {
        &[]
    }
}

// Pairs of runs as pairs of pieces.
fn add_moved(out: &mut Vec<Pair>, pairs: &[Pair], places: &[usize]) -> Result<(), AllocError>
    requires { All (IsWithin (length places.now)) pairs.now }
    ensures { OnOk result (out.new.items ≡ out.old.items ++ map (moved places.now) pairs.now) }
{
    for pair in pairs {
        out.push(Pair {
            opener: places[pair.opener],
            closer: places[pair.closer],
            sign: pair.sign,
            count: pair.count,
        })?;
    }
    Ok(())
}

fn places_of(alloc: Global, placed: &[Placed]) -> Result<Vec<usize>, AllocError>
    ensures { IfOk result (λ places. places.items ≡ map place_of placed.now) }
{
    placed.iter().map(|p| p.place).collect(alloc)
}

fn runs_of(alloc: Global, placed: &[Placed]) -> Result<Vec<Run>, AllocError>
    ensures { IfOk result (λ runs. runs.items ≡ map run_of placed.now) }
{
    placed.iter().map(|p| p.run).collect(alloc)
}

// The pairs of some runs, added to others.
fn add_pairs(alloc: Global, placed: &[Placed], out: &mut Vec<Pair>) -> Result<(), AllocError>
    ensures { OnOk result (out.new.items ≡ out.old.items ++ inside_pairs placed.now) }
{
    if placed.is_empty() {
        return Ok(());
    }
    let places = places_of(alloc, placed)?;
    let runs = runs_of(alloc, placed)?;
    let pairs = matches(alloc, &runs)?;
    add_moved(out, &pairs, &places)?;
    Ok(())
}

// The text from this place on.
fn text_from(text: &[u8], at: usize) -> &[u8]
    ensures { result.now ≡ drop at text.now }
{
    if at < text.len() { &text[at..] } else { &[] }
}

impl Brackets {
    /// Before the text.
    pub fn new(alloc: Global) -> Brackets
        ensures nothing { reading_of result ≡ nothing_read }
        ensures tidy { IsTidy result }
    {
        Brackets {
            brackets: Vec::new(alloc),
            dead: 0,
            runs: Vec::new(alloc),
            pairs: Vec::new(alloc),
        }
    }

    /// One more opening bracket: its piece, and where in the text it ends.
    ///
    /// # Errors
    ///
    /// Out of memory is the only error.
    pub fn open_bracket(&mut self, image: bool, piece: usize, at: usize) -> Result<(), AllocError>
        requires { IsTidy self.old }
        ensures opened { OnOk result (reading_of self.new ≡ with_bracket image piece at (reading_of self.old)) }
        ensures tidy { IsTidy self.new }
    {
        self.brackets.push(Bracket {
            image,
            piece,
            at,
            runs: self.runs.len(),
        })?;
        Ok(())
    }

    /// One more run of marks.
    ///
    /// # Errors
    ///
    /// Out of memory is the only error.
    pub fn add_run(&mut self, place: usize, run: Run) -> Result<(), AllocError>
        requires { IsTidy self.old }
        ensures added { OnOk result (reading_of self.new ≡ with_run place run (reading_of self.old)) }
        ensures tidy { IsTidy self.new }
    {
        self.runs.push(Placed { place, run })?;
        Ok(())
    }

    /// Whether no bracket is open.
    pub fn is_free(&self) -> bool
        ensures { result ≡ is_free (reading_of self.now).brackets }
    {
        self.brackets.is_empty()
    }

    // The nearest bracket, which is open no more.
    fn pop(&mut self) -> Option<Open>
        requires { IsTidy self.old }
        ensures first { result ≡ first_open (reading_of self.old).brackets }
        ensures rest { reading_of self.new ≡ without_first (reading_of self.old) }
        ensures tidy { IsTidy self.new }
    {
        match self.brackets.pop() {
            None => None,
            Some(bracket) => {
                let depth = self.brackets.len();
                let dead = self.dead > depth;
                self.dead = self.dead.min(depth);
                Some(Open { bracket, dead })
            }
        }
    }

    // No link around one that is found.
    fn kill(&mut self, image: bool)
        requires { IsTidy self.old }
        ensures killed { reading_of self.new ≡ killed image (reading_of self.old) }
        ensures tidy { IsTidy self.new }
    {
        if !image {
            self.dead = self.brackets.len();
        }
    }

    // Makes a link of a bracket: the runs inside match among themselves, and are gone.
    fn link(&mut self, alloc: Global, bracket: &Bracket) -> Result<(), AllocError>
        requires { IsTidy self.old }
        ensures linked { OnOk result (reading_of self.new ≡ linked bracket.now (reading_of self.old)) }
        ensures tidy { OnOk result (IsTidy self.new) }
    {
        add_pairs(
            alloc,
            placed_from(&self.runs, bracket.runs),
            &mut self.pairs,
        )?;
        self.runs.truncate(bracket.runs);
        self.kill(bracket.image);
        Ok(())
    }

    /// A closing bracket, that ends at this place of the text: the link or image that it makes.
    ///
    /// # Errors
    ///
    /// Out of memory is the only error.
    pub fn close(
        &mut self,
        alloc: Global,
        labels: &Labels,
        text: &[u8],
        after: usize,
    ) -> Result<Option<Link>, AllocError>
        requires { IsTidy self.old }
        ensures closed { IfOk result (λ link. (record { link = link; reading = reading_of self.new }) ≡ closed labels.now text.now after (reading_of self.old)) }
        ensures tidy { OnOk result (IsTidy self.new) }
    {
        let Some(found) = self.pop() else {
            return Ok(None);
        };
        if found.dead && !found.bracket.image {
            return Ok(None);
        }
        let Some(target) = target_at(alloc, labels, text, found.bracket.at, after)? else {
            return Ok(None);
        };
        self.link(alloc, &found.bracket)?;
        Ok(Some(Link {
            image: found.bracket.image,
            opener: found.bracket.piece,
            target,
        }))
    }

    /// The pairs at the end of the text.
    ///
    /// # Errors
    ///
    /// Out of memory is the only error.
    pub fn finish(self, alloc: Global) -> Result<Vec<Pair>, AllocError>
        ensures { IfOk result (λ pairs. pairs.items ≡ finished (reading_of self)) }
    {
        let mut pairs = self.pairs;
        add_pairs(alloc, &self.runs, &mut pairs)?;
        Ok(pairs)
    }
}

// What makes a link of brackets, that end at these places; nothing where they are the wrong way round.
fn target_at(
    alloc: Global,
    labels: &Labels,
    text: &[u8],
    at: usize,
    after: usize,
) -> Result<Option<Target>, AllocError>
    ensures { IfOk result (λ target. target ≡ target_at labels.now text.now at after) }
{
    if after < at {
        return Ok(None);
    }
    let target = target_of(alloc, labels, text_from(text, at), text_from(text, after))?;
    Ok(target)
}
