//! The numbers of links that runs belong to.

ghost use Rattle.std.specs.Prelude.{◌≡◌, ◌+◌, ◌++◌, IfOk, OnOk};
ghost use Rattle.markdown_lines.specs.LinkNumbers.{after_links, numbers_from, numbers_of, one_number};

use crate::glyphs::{Glyph, is_same_run};
use std::alloc::AllocError;

/// The sum of two counts.
///
/// # Errors
///
/// As out of memory, where the sum is past `usize::MAX`.
pub(crate) fn sum(a: usize, b: usize) -> Result<usize, AllocError>
    ensures { IfOk result (λ sum. sum ≡ a + b) }
{
    match a.checked_add(b) {
        Some(sum) => Ok(sum),
        None => Err(AllocError),
    }
}

// Adds the number of a link, if there is one, which comes after so many others.
pub(crate) fn push_number(
    numbers: &mut Vec<usize>,
    before: usize,
    link: Option<usize>,
) -> Result<(), AllocError>
    ensures { OnOk result (numbers.new.items ≡ numbers.old.items ++ after_links before (one_number link)) }
{
    match link {
        None => Ok(()),
        Some(number) => {
            numbers.push(sum(before, number)?)?;
            Ok(())
        }
    }
}

// Adds those of the runs of a character and those after it.
#[tactic(auto, unfolding(crate::specs::LinkNumbers::numbers_from))]
fn push_from(
    numbers: &mut Vec<usize>,
    before: usize,
    first: Glyph,
    others: &[Glyph],
) -> Result<(), AllocError>
    ensures { OnOk result (numbers.new.items ≡ numbers.old.items ++ after_links before (numbers_from first others.now)) }
{
    let mut begun = first;
    let mut rest = others;
    while let [glyph, next @ ..] = rest {
        rest = next;
        if is_same_run(begun, *glyph) {
            continue;
        }
        push_number(numbers, before, begun.link)?;
        begun = *glyph;
    }
    push_number(numbers, before, begun.link)
}

/// For each run of these characters that belongs to a link, adds the number of this link, which comes after so many others.
///
/// # Errors
///
/// Out of memory, which a number past `usize::MAX` is too.
pub(crate) fn push_numbers(
    numbers: &mut Vec<usize>,
    before: usize,
    glyphs: &[Glyph],
) -> Result<(), AllocError>
    ensures { OnOk result (numbers.new.items ≡ numbers.old.items ++ after_links before (numbers_of glyphs.now)) }
{
    match glyphs {
        [] => Ok(()),
        [first, others @ ..] => push_from(numbers, before, *first, others),
    }
}
