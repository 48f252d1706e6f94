//! The skin without styles, for pipes and for terminals that shall show none.

ghost use Rattle.std.specs.Prelude.{◌≡◌, None};
ghost use Rattle.mad_page_skin.specs.PageSkins.{page_row_skin};
ghost use Rattle.mad_page_skin.specs.PlainSkins.{plain_signs, plain_skin, plain_text};

use crate::page_skin::PageSkin;
use mad_dressing::HeadingMarks;
use mad_layout::MadSkin;
use mad_rows::PageStyles;
use mad_style::{ROUNDED_TABLE_BORDER_CHARS, ScrollBarStyle, StyledChar};

impl PageSkin {
    /// The skin without styles: rules below the first two levels of headings, signs in front of all others, marks at words, and blanks beside cells.
    /// Code has no tones in it.
    pub fn plain() -> PageSkin
        ensures skin { result ≡ plain_skin }
        ensures toneless { (page_row_skin result).tones ≡ None }
    {
        PageSkin {
            page: plain_signs(),
            headings: HeadingMarks {
                rules: 2,
                signs: true,
                words: true,
            },
            cell_blanks: true,
            ..PageSkin::of(&plain_text())
        }
    }
}

/// The characters of a page's text, without styles.
pub(crate) fn plain_text() -> MadSkin
    ensures { result ≡ plain_text }
{
    MadSkin {
        scrollbar: ScrollBarStyle {
            track: StyledChar::nude('│'),
            thumb: StyledChar::nude('▐'),
        },
        quote_mark: StyledChar::nude('▌'),
        horizontal_rule: StyledChar::nude('─'),
        table_border_chars: ROUNDED_TABLE_BORDER_CHARS,
        ..MadSkin::no_style()
    }
}

// What a page shows beside its text, without styles.
fn plain_signs() -> PageStyles
    ensures { result ≡ plain_signs }
{
    let bar = StyledChar::nude('▌');
    PageStyles {
        task: StyledChar::nude('☐'),
        done: StyledChar::nude('☑'),
        note: bar,
        tip: bar,
        important: bar,
        warning: bar,
        caution: bar,
        below_first: StyledChar::nude('═'),
        below_others: StyledChar::nude('─'),
    }
}
