//! The skin for light backgrounds.

ghost use Rattle.std.specs.Prelude.{◌≡◌};
ghost use Rattle.mad_page_skin.specs.LightSkins.{light_code, light_page_skin, light_signs, light_text, light_titles};

use crate::inks::{
    attributed, colored, colored_as, drawn, drawn_bar, headers_in, item_in, on, on_as,
};
use crate::page_skin::PageSkin;
use crate::part_styles::CodeStyles;
use crate::plain::plain_text;
use crate::text_room::TextRoom;
use mad_dressing::HeadingMarks;
use mad_layout::MadSkin;
use mad_rows::{PageStyles, TitleStyles};
use mad_style::{LineStyle, MAX_ORDERED_LIST_DEPTH};
use mad_term::Attribute;

impl PageSkin {
    /// The skin for light backgrounds.
    pub fn light() -> PageSkin
        ensures { result ≡ light_page_skin }
    {
        PageSkin {
            text: light_text(),
            page: light_signs(),
            headings: HeadingMarks {
                rules: 2,
                signs: false,
                words: false,
            },
            link: colored_as(26, Attribute::Underlined),
            sign: drawn(240, '▣'),
            picture: colored(240),
            head: colored_as(24, Attribute::Bold),
            titles: light_titles(),
            code: light_code(),
            number: on_as(16, 221, Attribute::Bold),
            hit: on(16, 221),
            status: on(236, 251),
            room: TextRoom::READABLE,
            cell_blanks: true,
        }
    }
}

// The styles of a text's parts.
fn light_text() -> MadSkin
    ensures { result ≡ light_text }
{
    MadSkin {
        bold: attributed(Attribute::Bold),
        italic: attributed(Attribute::Italic),
        strikeout: attributed(Attribute::CrossedOut),
        inline_code: on(125, 254),
        code_block: LineStyle::from(on(236, 254)),
        headers: headers_in(
            colored_as(55, Attribute::Bold),
            colored_as(24, Attribute::Bold),
            colored_as(22, Attribute::Bold),
            colored_as(94, Attribute::Bold),
            colored(89),
            colored_as(240, Attribute::Italic),
        ),
        scrollbar: drawn_bar(243, 252),
        table: LineStyle::from(colored(245)),
        bullet: drawn(94, '•'),
        ordered_item_styles: [item_in(colored(94)); MAX_ORDERED_LIST_DEPTH],
        quote_mark: drawn(67, '▌'),
        horizontal_rule: drawn(245, '─'),
        ..plain_text()
    }
}

// How what a page shows beside its text looks.
fn light_signs() -> PageStyles
    ensures { result ≡ light_signs }
{
    PageStyles {
        task: drawn(94, '☐'),
        done: drawn(22, '☑'),
        note: drawn(25, '▌'),
        tip: drawn(22, '▌'),
        important: drawn(90, '▌'),
        warning: drawn(94, '▌'),
        caution: drawn(124, '▌'),
        below_first: drawn(55, '━'),
        below_others: drawn(67, '─'),
    }
}

// The words that say what an alert is.
fn light_titles() -> TitleStyles
    ensures { result ≡ light_titles }
{
    TitleStyles {
        note: colored_as(25, Attribute::Bold),
        tip: colored_as(22, Attribute::Bold),
        important: colored_as(90, Attribute::Bold),
        warning: colored_as(94, Attribute::Bold),
        caution: colored_as(124, Attribute::Bold),
    }
}

// The tones of code.
fn light_code() -> CodeStyles
    ensures { result ≡ light_code }
{
    CodeStyles {
        comment: on_as(241, 254, Attribute::Italic),
        string: on(22, 254),
        number: on(88, 254),
        keyword: on(91, 254),
        name: on(24, 254),
        key: on(58, 254),
        inserted: on(22, 254),
        deleted: on(124, 254),
    }
}
