//! Wrapping compounds.

ghost use Rattle.std.specs.Prelude.{◌≡◌, ◌<◌, ◌+◌, IfOk};
ghost use Rattle.mad_md.specs.Flagged.{flagged_text};
ghost use Rattle.mad_measure.specs.TextColumns.{width_of};
ghost use Rattle.mad_wrap.specs.CleanCut.{is_cut_clean};
ghost use Rattle.mad_wrap.specs.LeastWords.{IsWrapOf};
ghost use Rattle.mad_wrap.specs.WrapLines.{compounds_of, AreCounted};
ghost use Rattle.mad_wrap.specs.TokenLines.{AreTwoLines};

use crate::clean_cut::clean_cut;
use crate::placing::place;
use crate::placing_words::place_words;
use crate::room::Room;
use crate::wrapped_line::WrappedLine;
use mad_md::Compound;
use mad_measure::{columns, token_iter};
use std::alloc::{AllocError, Global};

/// Breaks compounds that are wider than the first line into the fewest lines.
///
/// The lines keep the text but for whitespace between them and after the last. Where each character has room after the
/// greater indent, each line fits. The text is cut into tokens, which are placed one after the other, and no fitting break
/// has fewer lines. Two compounds that fit on a line each, with or without one of whitespace between them, are cut there.
///
/// Where the room keeps words whole, a word that fits on each line is placed as one, over compounds. No fitting break that
/// parts no such word has fewer lines, and nothing else is cut.
///
/// The time is linear in the text. No character is copied, and no list of tokens is made. The only error is out of memory.
pub fn wrap_compounds<'s>(
    alloc: Global,
    compounds: &[Compound<'s>],
    room: Room,
) -> Result<Vec<WrappedLine<'s>>, AllocError>
    requires wider { room.width < room.first + width_of (flagged_text compounds.now) }
    ensures wrapped { IfOk result (λ lines. IsWrapOf room compounds.now (compounds_of lines.items)) }
    ensures counted { IfOk result (λ lines. AreCounted lines.items) }
{
    if room.whole_words {
        return place_words(alloc, compounds, room);
    }
    match clean_cut(compounds, room) {
        Some((front, back)) => cut_lines(alloc, front, back),
        None => place(alloc, token_iter(compounds, room.token_limit()), room),
    }
}

/// Whether a clean cut puts two of the compounds on a line each: two that fit there, with or without one of whitespace between them.
pub fn is_cut_clean(compounds: &[Compound], room: Room) -> bool
    ensures { result ≡ is_cut_clean room compounds.now }
{
    clean_cut(compounds, room).is_some()
}

// The two lines of a clean cut.
fn cut_lines<'s>(
    alloc: Global,
    front: Compound<'s>,
    back: Compound<'s>,
) -> Result<Vec<WrappedLine<'s>>, AllocError>
    ensures { IfOk result (λ lines. AreTwoLines front.entry back.entry lines.items) }
{
    let mut lines = Vec::new(alloc);
    let mut first = WrappedLine::new(alloc);
    first.add(front, columns(front.src))?;
    lines.push(first)?;
    let mut second = WrappedLine::new(alloc);
    second.add(back, columns(back.src))?;
    lines.push(second)?;
    Ok(lines)
}
