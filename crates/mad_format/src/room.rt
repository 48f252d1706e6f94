//! The room that a composite has in a width.

ghost use Rattle.std.specs.Prelude.{◌≡◌, ◌≤◌, ◌<◌, ◌-◌, IfOk, IfErr, Some};
ghost use Rattle.mad_style.specs.LineStyles.{margins_at};
ghost use Rattle.mad_format.specs.Indents.{room_of};

use crate::indents::composite_kind_widths;
use crate::line_skin::LineSkin;
use mad_style::{CompositeKind, LEAST_WIDTH};
use mad_term::InsufficientWidthError;
pub use mad_wrap::Room;

/// The room of a composite's lines at a width.
pub fn room_of<S: LineSkin>(skin: &S, kind: CompositeKind, width: usize) -> Room
    ensures { result ≡ room_of (S.rules skin.now) kind width }
{
    let (first, other) = composite_kind_widths(kind, skin);
    Room {
        first,
        other,
        width,
        whole_words: skin.whole_words(),
    }
}

/// The margins (left, right) that a line of this kind has at a width, by its style, and the columns that they leave of it.
pub fn margins_and_rest<S: LineSkin>(
    skin: &S,
    kind: CompositeKind,
    width: usize,
) -> ((usize, usize), usize)
    ensures margins { result.0 ≡ margins_at ((S.rules skin.now).line_style kind) (Some width) }
    ensures inner { result.1 ≡ width - result.0.0 - result.0.1 }
{
    let margins = skin.style_of(kind).margins_in(Some(width));
    (margins, width - margins.0 - margins.1)
}

/// Refuses a width, in columns, that is too small to wrap anything in.
pub(crate) fn check_width(width: usize) -> Result<(), InsufficientWidthError>
    ensures wide { IfOk result (λ _. 3 ≤ width) }
    ensures narrow { IfErr result (λ e. (width < 3) × (e ≡ record { available_width = width })) }
{
    if width < LEAST_WIDTH {
        return Err(InsufficientWidthError {
            available_width: width,
        });
    }
    Ok(())
}
