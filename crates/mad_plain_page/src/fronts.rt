//! The first characters of a text.

ghost use Rattle.std.specs.Prelude.{◌≡◌, chars, drop, take};
ghost use Rattle.std.specs.Str.{IsCharBoundary};

/// The first so many characters of a text, and what comes after them.
#[tactic(auto, using(crate::proofs::CutLemmas::behind_cut))]
pub(crate) fn cut_chars(text: &str, count: usize) -> (&str, &str)
    ensures front { chars result.0.now ≡ take count (chars text.entry.now) }
    ensures after { chars result.1.now ≡ drop count (chars text.entry.now) }
{
    text.split_at(char_start(text, count))
}

// The byte at which a character begins, by its number; the end of the text, where it has no more.
fn char_start(text: &str, number: usize) -> usize
    ensures border { IsCharBoundary text.now result }
    ensures before { chars (take result text.now) ≡ take number (chars text.now) }
{
    let mut left = number;
    for (index, _) in text.char_indices() {
        if left == 0 {
            return index;
        }
        left -= 1;
    }
    text.len()
}
