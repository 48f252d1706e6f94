//! Where the lines of a wrap start, and checking such starts.

ghost use Rattle.std.specs.Prelude.{◌≡◌, ◌≤◌, ◌<◌, List, length, IfOk, IfErr, IsOk, IsTrue};
ghost use Rattle.mad_measure.specs.declared.tokens.Token.{Token};
ghost use Rattle.mad_format.specs.Indents.{room_of};
ghost use Rattle.mad_format.specs.Wraps.{text_of};
ghost use Rattle.mad_term.specs.declared.errors.Error.TheVariants.{InsufficientWidth, Memory};
ghost use Rattle.mad_wrap.specs.Bounds.{are_starts};
ghost use Rattle.mad_wrap.specs.LeastBound.{IsBound, AreChecked, AreStartsOf, AreFewest};
ghost use Rattle.mad_wrap.specs.LeastWrap.{AreTokensIn, AreTokenized};
ghost use Rattle.mad_wrap.specs.WrapLines.{HasRoom};

use crate::composite::FmtComposite;
use crate::line_skin::LineSkin;
use crate::room::{check_width, room_of};
use mad_term::Error;
use mad_wrap::{check_starts, wrap_starts};
use std::alloc::Global;

/// Starts of lines, as numbers of tokens, which show that no fitting break has fewer lines than there are starts.
#[derive(Debug, Drop)]
pub struct WrapBound {
    /// The number of the token that begins each line, 0 for the first; and where blanks are dropped after the last line,
    /// that of the first of these.
    pub starts: Vec<usize>,
}

/// Starts that show how many lines each fitting break of the composite has at least, in `width` columns.
///
/// `check_wrap_bound` says yes to them. They are the starts of the lines that `hard_wrap_composite` gives, and of the blanks
/// that it drops after the last. Where the first line has no room for a token, it and the next line both start at token 0, which is listed
/// once.
/// Of a clean cut they are 0 and the first token that passes the first line, if one does. Where each character has room, some
/// fitting break has as many lines, unless a clean cut drops a middle in code; a composite that fits has one start.
///
/// All this is of a skin in which words may be parted. One that keeps them whole gets the same starts: each line count of its
/// breaks is at least theirs, and `hard_wrap_composite` may give more lines.
///
/// The time is linear in the text.
///
/// # Errors
///
/// A width under 3 is refused. The only other error is out of memory.
pub fn wrap_bound<S: LineSkin>(
    alloc: Global,
    composite: &FmtComposite,
    width: usize,
    skin: &S,
) -> Result<WrapBound, Error>
    ensures tokenized { IfOk result (λ _. AreTokenized (room_of (S.rules skin.now) composite.now.kind width) composite.now.compounds.items) }
    ensures checked { IfOk result (λ bound. AreChecked (room_of (S.rules skin.now) composite.now.kind width) composite.now.compounds.items bound.starts.items) }
    ensures bound { IfOk result (λ bound. IsBound (room_of (S.rules skin.now) composite.now.kind width) composite.now.compounds.items (length bound.starts.items)) }
    ensures starts { IfOk result (λ bound. AreStartsOf (room_of (S.rules skin.now) composite.now.kind width) composite.now.compounds.items bound.starts.items) }
    ensures fewest { HasRoom (room_of (S.rules skin.now) composite.now.kind width) (text_of composite.now)
        → IfOk result (λ bound. AreFewest (room_of (S.rules skin.now) composite.now.kind width)
        composite.now.compounds.items bound.starts.items) }
    ensures refused { width < 3 → result ≡ Err (InsufficientWidth (record { available_width = width })) }
    ensures memory { 3 ≤ width → IfErr result (λ e. e ≡ Memory) }
{
    check_width(width)?;
    let room = room_of(skin, composite.kind, width);
    let starts = wrap_starts(alloc, &composite.compounds, room)?;
    Ok(WrapBound { starts })
}

/// Whether these starts show that each fitting break of the composite, in `width` columns, has at least as many lines. Other
/// starts may be right too, and are not shown to be by this check.
///
/// They do if they begin with 0, rise and are numbers of tokens (0 always is). All but the first and the last have to be of tokens that
/// aren't blank. The tokens from each start up to and with the next have to be wider than the line of that number. The call
/// takes no memory, and the time is linear in the text.
///
/// # Errors
///
/// A width under 3 is refused.
pub fn check_wrap_bound<S: LineSkin>(
    composite: &FmtComposite,
    width: usize,
    skin: &S,
    bound: &WrapBound,
) -> Result<bool, Error>
    ensures tokenized { IfOk result (λ _. AreTokenized (room_of (S.rules skin.now) composite.now.kind width) composite.now.compounds.items) }
    ensures exact { IfOk result (λ is. (ts : List Token) → AreTokensIn (room_of (S.rules skin.now) composite.now.kind width) composite.now.compounds.items ts
        → is ≡ are_starts (room_of (S.rules skin.now) composite.now.kind width) ts bound.now.starts.items) }
    ensures bound { IfOk result (λ is. IsTrue is → IsBound (room_of (S.rules skin.now) composite.now.kind width) composite.now.compounds.items (length bound.now.starts.items)) }
    ensures refused { width < 3 → result ≡ Err (InsufficientWidth (record { available_width = width })) }
    ensures answers { 3 ≤ width → IsOk result }
{
    check_width(width)?;
    let room = room_of(skin, composite.kind, width);
    Ok(check_starts(&composite.compounds, room, &bound.starts))
}
