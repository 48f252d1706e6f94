//! What an opener looks at in a closer.

ghost use Rattle.std.specs.Prelude.{◌≡◌, ◌<◌};
ghost use Rattle.markdown_emphasis.specs.Keys.{key_by, key_of};

use crate::runs::{Run, Sign};

/// How many keys there are.
pub(crate) const KEYS: usize = 16;

// The key of a star or an underscore among those of its sign.
fn key_by(opens: bool, count: usize) -> usize
    ensures value { result ≡ key_by opens count }
    ensures within { result < 6 }
{
    if opens { 3 + count % 3 } else { count % 3 }
}

/// The key of a closer: closers of one key fit the same openers.
pub(crate) fn key_of(run: &Run) -> usize
    ensures value { result ≡ key_of run.now.sign run.now }
    ensures within { result < 16 }
{
    match run.sign {
        Sign::Star => key_by(run.opens, run.count),
        Sign::Underscore => 6 + key_by(run.opens, run.count),
        Sign::Tilde => 12 + run.count.min(3),
    }
}
