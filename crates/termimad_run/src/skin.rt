//! The skin that a call is shown in.

ghost use Rattle.std.specs.Prelude.{◌≡◌, Some, MatchResult, map, option_map, string_bytes};
ghost use Rattle.termimad_run.specs.ShownSkins.{skin_shown, RefusesShown};

use mad_page_skin::PageSkin;
use std::alloc::Global;
use termimad_words::{Failure, page_skin_of_word, skin_of};

/// The skin that a call is shown in: of a page, or of a text, as that of a page.
pub(crate) fn skin_shown(
    alloc: Global,
    is_page: bool,
    word: Option<&str>,
) -> Result<(PageSkin, Vec<String>), Failure>
    ensures { MatchResult result
        (λ read. skin_shown is_page (option_map (λ word. word.now) word.entry) ≡ Some (read.0, map string_bytes read.1.items))
        (λ failure. RefusesShown is_page (option_map (λ word. word.now) word.entry) failure) }
{
    if is_page {
        return page_skin_of_word(alloc, word);
    }
    let (text, unknown) = skin_of(alloc, word)?;
    Ok((PageSkin::of(&text), unknown))
}
