//! A pager on a device that is told the size of the screen.

ghost use Rattle.std.specs.Prelude.{MatchResult};
ghost use Rattle.mad_pager.specs.Pagers.{view_of, IsViewShown, IsViewUnshown};

use mad_frames::Shows;
use mad_pager::Pager;
use mad_term::Error;
use std::alloc::Global;

/// Tells a device the size of the screen for which a pager draws, and shows the pager on it, as [`Pager::show`] does.
pub(crate) fn show<O: Shows>(
    alloc: Global,
    pager: &Pager,
    out: &mut O,
    asks: bool,
) -> Result<(), Error>
    ensures { MatchResult result (λ _. IsViewShown asks (view_of pager.now) (O.seen out.old) (O.seen out.new))
        (λ e. IsViewUnshown asks (view_of pager.now) (O.seen out.old) e (O.seen out.new)) }
{
    let page = match &pager.over {
        Some(over) => over.page,
        None => pager.text.page,
    };
    out.sized(page.columns, page.rows);
    pager.show(alloc, out, asks)
}
