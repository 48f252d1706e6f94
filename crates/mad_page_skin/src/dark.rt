//! The skin for dark backgrounds.

ghost use Rattle.std.specs.Prelude.{◌≡◌};
ghost use Rattle.mad_page_skin.specs.DarkSkins.{dark_code, dark_page_skin, dark_signs, dark_text, dark_titles};

use crate::inks::{
    attributed, colored, colored_as, drawn, drawn_bar, headers_in, item_in, on, on_as,
};
use crate::page_skin::PageSkin;
use crate::part_styles::CodeStyles;
use crate::plain::plain_text;
use crate::text_room::TextRoom;
use mad_dressing::HeadingMarks;
use mad_layout::MadSkin;
use mad_rows::{PageStyles, TitleStyles};
use mad_style::{LineStyle, MAX_ORDERED_LIST_DEPTH};
use mad_term::Attribute;

impl PageSkin {
    /// The skin for dark backgrounds.
    pub fn dark() -> PageSkin
        ensures { result ≡ dark_page_skin }
    {
        PageSkin {
            text: dark_text(),
            page: dark_signs(),
            headings: HeadingMarks {
                rules: 2,
                signs: false,
                words: false,
            },
            link: colored_as(75, Attribute::Underlined),
            sign: drawn(248, '▣'),
            picture: colored(248),
            head: colored_as(80, Attribute::Bold),
            titles: dark_titles(),
            code: dark_code(),
            number: on_as(16, 221, Attribute::Bold),
            hit: on(16, 221),
            status: on(252, 239),
            room: TextRoom::READABLE,
            cell_blanks: true,
        }
    }
}

// The styles of a text's parts.
fn dark_text() -> MadSkin
    ensures { result ≡ dark_text }
{
    MadSkin {
        bold: attributed(Attribute::Bold),
        italic: attributed(Attribute::Italic),
        strikeout: attributed(Attribute::CrossedOut),
        inline_code: on(216, 237),
        code_block: LineStyle::from(on(252, 237)),
        headers: headers_in(
            colored_as(221, Attribute::Bold),
            colored_as(80, Attribute::Bold),
            colored_as(114, Attribute::Bold),
            colored_as(183, Attribute::Bold),
            colored(180),
            colored_as(248, Attribute::Italic),
        ),
        scrollbar: drawn_bar(246, 239),
        table: LineStyle::from(colored(243)),
        bullet: drawn(215, '•'),
        ordered_item_styles: [item_in(colored(215)); MAX_ORDERED_LIST_DEPTH],
        quote_mark: drawn(110, '▌'),
        horizontal_rule: drawn(243, '─'),
        ..plain_text()
    }
}

// How what a page shows beside its text looks.
fn dark_signs() -> PageStyles
    ensures { result ≡ dark_signs }
{
    PageStyles {
        task: drawn(215, '☐'),
        done: drawn(114, '☑'),
        note: drawn(75, '▌'),
        tip: drawn(114, '▌'),
        important: drawn(177, '▌'),
        warning: drawn(221, '▌'),
        caution: drawn(210, '▌'),
        below_first: drawn(221, '━'),
        below_others: drawn(66, '─'),
    }
}

// The words that say what an alert is.
fn dark_titles() -> TitleStyles
    ensures { result ≡ dark_titles }
{
    TitleStyles {
        note: colored_as(75, Attribute::Bold),
        tip: colored_as(114, Attribute::Bold),
        important: colored_as(177, Attribute::Bold),
        warning: colored_as(221, Attribute::Bold),
        caution: colored_as(210, Attribute::Bold),
    }
}

// The tones of code.
fn dark_code() -> CodeStyles
    ensures { result ≡ dark_code }
{
    CodeStyles {
        comment: on_as(248, 237, Attribute::Italic),
        string: on(150, 237),
        number: on(216, 237),
        keyword: on(183, 237),
        name: on(117, 237),
        key: on(222, 237),
        inserted: on(114, 237),
        deleted: on(210, 237),
    }
}
