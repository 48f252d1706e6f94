//! The characters of a composite, each in the style that a row shows it in.

ghost use Rattle.std.specs.Prelude.{◌≡◌, ◌++◌, IfOk, OnOk, chars, map};
ghost use Rattle.mad_style.specs.StyledChars.{styled_char};
ghost use Rattle.mad_hits.specs.Styled.{overlaid, styled_text};

use mad_format::FmtComposite;
use mad_rows::RowSkin;
use mad_style::{CompoundStyle, StyledChar};
use std::alloc::{AllocError, Global};

/// The characters of a composite, each in its style.
///
/// # Errors
///
/// Out of memory is the only error.
pub(crate) fn styled_text(
    alloc: Global,
    skin: &RowSkin,
    composite: &FmtComposite,
) -> Result<Vec<StyledChar>, AllocError>
    ensures { IfOk result (λ text. text.items ≡ styled_text skin.now composite.now) }
{
    let mut text = Vec::new(alloc);
    let style = skin.line_style(composite.kind);
    for compound in &composite.compounds {
        push_styled(
            &mut text,
            compound.src,
            skin.compound_style(style, compound),
        )?;
    }
    Ok(text)
}

// Puts characters after others, all in one style.
fn push_styled(
    text: &mut Vec<StyledChar>,
    src: &str,
    style: CompoundStyle,
) -> Result<(), AllocError>
    ensures { OnOk result (text.new.items ≡ text.old.items ++ map (styled_char style) (chars src.now)) }
{
    for c in src.chars() {
        text.push(StyledChar::new(style, c))?;
    }
    Ok(())
}

/// Characters whose styles are overwritten with another.
///
/// # Errors
///
/// Out of memory is the only error.
pub(crate) fn overlaid_chars(
    alloc: Global,
    style: CompoundStyle,
    text: &[StyledChar],
) -> Result<Vec<StyledChar>, AllocError>
    ensures { IfOk result (λ chars. chars.items ≡ map (overlaid style) text.now) }
{
    let mut chars = Vec::new(alloc);
    for c in text {
        chars.push(overlaid(style, *c))?;
    }
    Ok(chars)
}

// A character whose style is overwritten with another: colors where that has some, and its attributes are added.
fn overlaid(style: CompoundStyle, c: StyledChar) -> StyledChar
    ensures { result ≡ overlaid style c }
{
    let mut own = *c.compound_style();
    own.overwrite_with(&style);
    StyledChar::new(own, c.nude_char())
}
