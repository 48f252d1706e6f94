//! Pens as the styles that texts are written in.

ghost use Rattle.std.specs.Prelude.{◌≡◌};
ghost use Rattle.mad_plain.specs.Styles.{with_if, content_style};

use crate::pens::Pen;
use mad_term::{Attribute, Attributes, ContentStyle};

fn set_if(attributes: &mut Attributes, there: bool, attribute: Attribute)
    ensures { attributes.new ≡ with_if there attribute attributes.old }
{
    if there {
        attributes.set(attribute);
    }
}

/// The style that a text is written in by a pen.
pub fn content_style(pen: Pen) -> ContentStyle
    ensures { result ≡ content_style pen }
{
    let mut attributes = Attributes::default();
    set_if(&mut attributes, pen.bold, Attribute::Bold);
    set_if(&mut attributes, pen.dim, Attribute::Dim);
    set_if(&mut attributes, pen.italic, Attribute::Italic);
    set_if(&mut attributes, pen.underlined, Attribute::Underlined);
    set_if(&mut attributes, pen.blinking, Attribute::SlowBlink);
    set_if(&mut attributes, pen.reversed, Attribute::Reverse);
    set_if(&mut attributes, pen.hidden, Attribute::Hidden);
    set_if(&mut attributes, pen.crossed_out, Attribute::CrossedOut);
    set_if(&mut attributes, pen.overlined, Attribute::OverLined);
    ContentStyle {
        foreground_color: pen.foreground,
        background_color: pen.background,
        underline_color: pen.underline,
        attributes,
    }
}
