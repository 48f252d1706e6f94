//! Matching runs, one after another.

ghost use Rattle.std.specs.Prelude.{◌≡◌, ◌+◌, ◌<◌, ◌≤◌, [], IfOk, OnOk, MatchOption, length, take, reverse};
ghost use Rattle.std.specs.List.{All};
ghost use Rattle.markdown_emphasis.specs.Matching.{matches, nearest, less, pair_with, close_run, after_run, no_runs};
ghost use Rattle.markdown_emphasis.specs.Keys.{IsBottom};
ghost use Rattle.markdown_emphasis.specs.Left.{HasEnough};
ghost use Rattle.markdown_emphasis.specs.Pairs.{IsWithin};
ghost use Rattle.markdown_emphasis.specs.Matchers.{matching_of, closing_of, HasBottoms, IsNearestAt};

use crate::keys::{KEYS, key_of};
use crate::runs::{Mark, Pair, Run, fits, taken};
use std::alloc::{AllocError, Global};

// What there is between two runs: the openers, the nearest last, and the pairs so far. Each key has a bottom: no opener before that
// place fits a closer of the key.
#[derive(Drop)]
struct Matcher {
    openers: Vec<Mark>,
    bottoms: [usize; KEYS],
    pairs: Vec<Pair>,
}

impl Matcher {
    fn new(alloc: Global) -> Matcher
        ensures matching { matching_of result ≡ no_runs }
        ensures bottoms { HasBottoms 0 result }
    {
        Matcher {
            openers: Vec::new(alloc),
            bottoms: [0; KEYS],
            pairs: Vec::new(alloc),
        }
    }

    // The index of the nearest opener that fits a closer, from this bottom on.
    fn nearest(&self, closer: &Run, bottom: usize) -> Option<usize>
        requires { IsBottom bottom closer.now (reverse self.now.openers.items) }
        ensures { MatchOption result (nearest closer.now (reverse self.now.openers.items) ≡ []) (IsNearestAt closer.now self.now.openers.items) }
    {
        let mut end = self.openers.len();
        while end > 0 {
            let opener = &self.openers[end - 1];
            if opener.place < bottom {
                return None;
            }
            if fits(&opener.run, closer) {
                return Some(end - 1);
            }
            end -= 1;
        }
        None
    }

    // A pair with the opener of an index: the openers after it are dropped. How many marks the pair takes.
    fn pair_with(&mut self, index: usize, closer: &Mark) -> Result<usize, AllocError>
        requires some { 0 < closer.now.left }
        requires within { index < length self.old.openers.items }
        ensures some { IfOk result (λ count. 0 < count) }
        ensures within { IfOk result (λ count. count ≤ closer.now.left) }
        ensures paired { IfOk result (λ count. closing_of self.new (less count closer.now) ≡ pair_with (reverse (take (index + 1) self.old.openers.items)) (closing_of self.old closer.now)) }
        ensures bottoms { self.new.bottoms ≡ self.old.bottoms }
    {
        let opener = self.openers[index];
        let count = taken(&opener, closer);
        self.openers.truncate(index);
        if count < opener.left {
            self.openers.push(Mark {
                place: opener.place,
                run: opener.run,
                left: opener.left - count,
            })?;
        }
        self.pairs.push(Pair {
            opener: opener.place,
            closer: closer.place,
            sign: closer.run.sign,
            count,
        })?;
        Ok(count)
    }

    // All pairs that a run closes. What is left of it.
    fn close_run(&mut self, place: usize, run: Run) -> Result<usize, AllocError>
        requires { HasBottoms place self.old }
        ensures closed { IfOk result (λ left. closing_of self.new (record { place = place; run = run; left = left }) ≡ close_run (closing_of self.old (record { place = place; run = run; left = run.count }))) }
        ensures bottoms { OnOk result (HasBottoms place self.new) }
    {
        if !run.closes {
            return Ok(run.count);
        }
        let mut left = run.count;
        let key = key_of(&run);
        while left > 0 {
            match self.nearest(&run, self.bottoms[key]) {
                Some(index) => left -= self.pair_with(index, &Mark { place, run, left })?,
                None => {
                    self.bottoms[key] = place;
                    return Ok(left);
                }
            }
        }
        Ok(0)
    }

    // One more run: it closes what it can, and then may open.
    fn add_run(&mut self, place: usize, run: Run) -> Result<(), AllocError>
        requires { HasBottoms place self.old }
        ensures added { OnOk result (matching_of self.new ≡ after_run (matching_of self.old) place run) }
        ensures bottoms { OnOk result (HasBottoms place self.new) }
    {
        let left = self.close_run(place, run)?;
        if run.opens && left > 0 {
            self.openers.push(Mark { place, run, left })?;
        }
        Ok(())
    }
}

/// The pairs of runs in a row, in the order in which they close.
///
/// # Errors
///
/// Out of memory is the only error.
pub fn matches(alloc: Global, runs: &[Run]) -> Result<Vec<Pair>, AllocError>
    ensures matched { IfOk result (λ pairs. pairs.items ≡ matches runs.now) }
    ensures enough { IfOk result (λ pairs. HasEnough runs.now pairs.items) }
    ensures within { IfOk result (λ pairs. All (IsWithin (length runs.now)) pairs.items) }
{
    let mut matcher = Matcher::new(alloc);
    for (place, run) in runs.iter().enumerate() {
        matcher.add_run(place, *run)?;
    }
    Ok(matcher.pairs)
}
