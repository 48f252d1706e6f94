//! The style of a mark, and the commands with which it begins.

ghost use Rattle.std.specs.Prelude.{◌≡◌, ◌++◌, IfOk, OnOk, string_bytes};
ghost use Rattle.mad_marked_rows.specs.Openings.{AreOpenings};
ghost use Rattle.mad_marked_rows.specs.Paints.{paint_by};
ghost use Rattle.mad_term.specs.Styles.{opening_bytes};

use mad_style::CompoundStyle;
use mad_term::{ContentStyle, StyleOpening};
use std::alloc::{AllocError, Global};

/// What marks make of a style, by their values: the first of these is put over it for 1, and so on. 0, and values past the last, leave it as it is.
#[derive(Clone, Copy)]
pub struct Paint<'p> {
    /// What is put over a style.
    pub styles: &'p [CompoundStyle],
    // The commands of marks over one style, made once.
    base: ContentStyle,
    openings: &'p [String],
    ghost known: { AreOpenings styles.now base openings.now },
}

impl<'p> Paint<'p> {
    ghost use Rattle.mad_marked_rows.specs.Openings.{AreOpenings};

    /// These styles, whose commands are made each time.
    pub fn new(styles: &'p [CompoundStyle]) -> Self
        ensures { result.styles ≡ styles.entry }
    {
        Paint {
            styles,
            base: ContentStyle::default(),
            openings: &[],
        }
    }

    /// These styles, with the commands that [`openings_of`] made of them over a style.
    pub fn with_openings(
        styles: &'p [CompoundStyle],
        base: ContentStyle,
        openings: &'p [String],
    ) -> Self
        requires { AreOpenings styles.now base openings.now }
        ensures { result.styles ≡ styles.entry }
    {
        Paint {
            styles,
            base,
            openings,
        }
    }

    /// What a mark makes of a style.
    pub fn over(&self, value: usize, style: ContentStyle) -> ContentStyle
        ensures { result ≡ paint_by self.now.styles.now value style }
    {
        style_over(self.styles, value, style)
    }

    /// Puts the commands with which a part begins after the rows that are there.
    ///
    /// # Errors
    ///
    /// Out of memory. What the rows then end with is open.
    pub fn append_opening(
        &self,
        rows: &mut String,
        value: usize,
        style: ContentStyle,
    ) -> Result<(), AllocError>
        ensures { OnOk result (string_bytes rows.new ≡ string_bytes rows.old ++ opening_bytes (paint_by self.now.styles.now value style)) }
    {
        if value < self.openings.len() {
            if style == self.base {
                rows.push_str(self.openings[value].as_str())?;
                return Ok(());
            }
        }
        let opening = StyleOpening(self.over(value, style));
        write!(rows, "{opening}")?;
        Ok(())
    }
}

// What a mark makes of a style, by these styles.
fn style_over(styles: &[CompoundStyle], value: usize, style: ContentStyle) -> ContentStyle
    ensures { result ≡ paint_by styles.now value style }
{
    if value == 0 {
        return style;
    }
    match styles.get(value - 1) {
        Some(tone) => {
            let mut painted = CompoundStyle {
                object_style: style,
            };
            painted.overwrite_with(tone);
            painted.object_style
        }
        None => style,
    }
}

/// The commands with which parts begin in a style, one text for each mark that these styles have.
///
/// # Errors
///
/// Out of memory is the only error.
pub fn openings_of(
    alloc: Global,
    styles: &[CompoundStyle],
    base: ContentStyle,
) -> Result<Vec<String>, AllocError>
    ensures { IfOk result (λ texts. AreOpenings styles.now base texts.items) }
{
    let mut texts = Vec::new(alloc);
    let mut value: usize = 0;
    while value < styles.len() {
        let text = opening_of(alloc, style_over(styles, value, base))?;
        texts.push(text)?;
        value += 1;
    }
    let text = opening_of(alloc, style_over(styles, value, base))?;
    texts.push(text)?;
    Ok(texts)
}

fn opening_of(alloc: Global, style: ContentStyle) -> Result<String, AllocError>
    ensures { IfOk result (λ text. string_bytes text ≡ opening_bytes style) }
{
    let mut text = String::new(alloc);
    let opening = StyleOpening(style);
    write!(text, "{opening}")?;
    Ok(text)
}
