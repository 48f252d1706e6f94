//! The skin of a terminal's own sixteen colors, without backgrounds.

ghost use Rattle.std.specs.Prelude.{◌≡◌};
ghost use Rattle.mad_page_skin.specs.SixteenSkins.{sixteen_code, sixteen_page_skin, sixteen_signs, sixteen_text, sixteen_titles};

use crate::inks::{attributed, colored, colored_as, drawn, headers_in, item_in};
use crate::page_skin::PageSkin;
use crate::part_styles::CodeStyles;
use crate::plain::plain_text;
use crate::text_room::TextRoom;
use mad_dressing::HeadingMarks;
use mad_layout::MadSkin;
use mad_rows::{PageStyles, TitleStyles};
use mad_style::{CompoundStyle, MAX_ORDERED_LIST_DEPTH, StyledChar};
use mad_term::Attribute;

impl PageSkin {
    /// The skin of a terminal's own sixteen colors, without backgrounds.
    pub fn sixteen() -> PageSkin
        ensures { result ≡ sixteen_page_skin }
    {
        PageSkin {
            text: sixteen_text(),
            page: sixteen_signs(),
            headings: HeadingMarks {
                rules: 2,
                signs: false,
                words: false,
            },
            link: attributed(Attribute::Underlined),
            sign: drawn(6, '▣'),
            picture: attributed(Attribute::Italic),
            head: attributed(Attribute::Bold),
            titles: sixteen_titles(),
            code: sixteen_code(),
            number: attributed(Attribute::Reverse),
            hit: attributed(Attribute::Reverse),
            status: attributed(Attribute::Reverse),
            room: TextRoom::READABLE,
            cell_blanks: true,
        }
    }
}

// The styles of a text's parts.
fn sixteen_text() -> MadSkin
    ensures { result ≡ sixteen_text }
{
    MadSkin {
        bold: attributed(Attribute::Bold),
        italic: attributed(Attribute::Italic),
        strikeout: attributed(Attribute::CrossedOut),
        inline_code: colored(5),
        headers: headers_in(
            colored_as(5, Attribute::Bold),
            attributed(Attribute::Bold),
            colored_as(5, Attribute::Bold),
            attributed(Attribute::Bold),
            colored(5),
            attributed(Attribute::Italic),
        ),
        bullet: drawn(6, '•'),
        ordered_item_styles: [item_in(attributed(Attribute::Bold)); MAX_ORDERED_LIST_DEPTH],
        quote_mark: drawn(6, '▌'),
        ..plain_text()
    }
}

// How what a page shows beside its text looks.
fn sixteen_signs() -> PageStyles
    ensures { result ≡ sixteen_signs }
{
    PageStyles {
        task: drawn(6, '☐'),
        done: drawn(2, '☑'),
        note: drawn(6, '▌'),
        tip: drawn(2, '▌'),
        important: drawn(5, '▌'),
        warning: drawn(1, '▌'),
        caution: drawn(1, '▌'),
        below_first: drawn(5, '━'),
        below_others: StyledChar::nude('─'),
    }
}

// The words that say what an alert is.
fn sixteen_titles() -> TitleStyles
    ensures { result ≡ sixteen_titles }
{
    TitleStyles {
        note: attributed(Attribute::Bold),
        tip: attributed(Attribute::Bold),
        important: attributed(Attribute::Bold),
        warning: attributed(Attribute::Bold),
        caution: attributed(Attribute::Bold),
    }
}

// The tones of code.
fn sixteen_code() -> CodeStyles
    ensures { result ≡ sixteen_code }
{
    CodeStyles {
        comment: attributed(Attribute::Italic),
        string: colored(5),
        number: colored(5),
        keyword: attributed(Attribute::Bold),
        name: CompoundStyle::default(),
        key: attributed(Attribute::Bold),
        inserted: colored(2),
        deleted: colored(1),
    }
}
