//! How a text looks.

ghost use Rattle.std.specs.Prelude.{◌≡◌};
ghost use Rattle.markdown_inlines.specs.Looks.{is_same, is_same_number, is_same_look, look_of, plain_look};

use crate::tags::TagFlags;
use markdown_emphasis::Flags;

/// How a text looks.
#[derive(Debug, Clone, Copy)]
pub struct Look {
    pub bold: bool,
    pub italic: bool,
    pub strikeout: bool,
    pub code: bool,
    /// The number of the link that it belongs to.
    pub link: Option<usize>,
    /// The picture that says it: the index of the piece with which that begins. Then nothing is bold, italic, struck out or code.
    pub picture: Option<usize>,
}

// Whether both hold, or none.
fn is_same(a: bool, b: bool) -> bool
    ensures { result ≡ is_same a b }
{
    if a { b } else { !b }
}

// Whether both are the same number, or none.
fn is_same_number(a: Option<usize>, b: Option<usize>) -> bool
    ensures { result ≡ is_same_number a b }
{
    match (a, b) {
        (Some(a), Some(b)) => a == b,
        (None, None) => true,
        _ => false,
    }
}

/// Whether two looks are one.
pub fn is_same_look(a: &Look, b: &Look) -> bool
    ensures { result ≡ is_same_look a.now b.now }
{
    is_same(a.bold, b.bold)
        && is_same(a.italic, b.italic)
        && is_same(a.strikeout, b.strikeout)
        && is_same(a.code, b.code)
        && is_same_number(a.link, b.link)
        && is_same_number(a.picture, b.picture)
}

/// The look of a text with no flag, in no link and no picture.
pub(crate) fn plain_look() -> Look
    ensures { result ≡ plain_look }
{
    Look {
        bold: false,
        italic: false,
        strikeout: false,
        code: false,
        link: None,
        picture: None,
    }
}

/// The look of a text with these flags by marks and by tags, which belongs to this link, and which this picture says. What a picture says is of its
/// link alone.
pub fn look_of(
    flags: &Flags,
    tags: TagFlags,
    code: bool,
    link: Option<usize>,
    picture: Option<usize>,
) -> Look
    ensures { result ≡ look_of flags.now tags code link picture }
{
    let said = picture.is_some();
    Look {
        bold: (flags.bold || tags.bold) && !said,
        italic: (flags.italic || tags.italic) && !said,
        strikeout: (flags.strikeout || tags.strikeout) && !said,
        code: (code || tags.code) && !said,
        link,
        picture,
    }
}
