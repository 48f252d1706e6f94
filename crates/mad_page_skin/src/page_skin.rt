//! The skin of a page of Markdown.

ghost use Rattle.std.specs.Prelude.{◌≡◌, true};
ghost use Rattle.mad_layout.specs.RowSkins.{page_styles, row_skin};
ghost use Rattle.mad_rows.specs.RowStyles.{with_links};
ghost use Rattle.mad_page_skin.specs.PageSkins.{page_marks, page_row_skin, page_skin_of};

use crate::part_styles::CodeStyles;
use crate::text_room::TextRoom;
use mad_dressing::{HeadingMarks, PageMarks};
use mad_layout::MadSkin;
use mad_rows::{PageStyles, RowSkin, TitleStyles};
use mad_style::{CompoundStyle, StyledChar};
use mad_term::Attribute;

// What is in front of the words of a picture.
const PICTURE: char = '▣';

/// How Markdown as people write it looks.
#[derive(Clone, Copy, PartialEq, Debug)]
pub struct PageSkin {
    /// The styles of a text's parts.
    pub text: MadSkin,
    /// How what a page shows beside its text looks.
    pub page: PageStyles,
    /// Which headings have rules below, and which have signs in front; and whether marks stand at words.
    pub headings: HeadingMarks,
    /// What the text of a link adds to its line's style.
    pub link: CompoundStyle,
    /// What is in front of the words of a picture.
    pub sign: StyledChar,
    /// What the words of a picture add to their line's style.
    pub picture: CompoundStyle,
    /// What the heads of a table add to bold text.
    pub head: CompoundStyle,
    /// What the words add to bold text that say what an alert is.
    pub titles: TitleStyles,
    /// The tones of code.
    pub code: CodeStyles,
    /// The number of a link, in a pager.
    pub number: CompoundStyle,
    /// What was sought and found, in a pager.
    pub hit: CompoundStyle,
    /// The last row of a pager.
    pub status: CompoundStyle,
    /// The columns that a pager gives the text.
    pub room: TextRoom,
    /// Whether a blank is at both sides of each cell of a table.
    pub cell_blanks: bool,
}

impl PageSkin {
    /// The skin of a page that looks as a skin of the smaller grammar does: links are underlined, where a flag of a compound adds anything.
    /// Headings have neither rules nor signs, words no marks, and cells no blanks beside them. In front of pictures is `▣`.
    pub fn of(text: &MadSkin) -> PageSkin
        ensures skin { result ≡ page_skin_of text.now }
        ensures rows { page_row_skin result ≡ with_links (record (row_skin text.now) { whole_words = true }) }
    {
        let rows = text.row_skin().with_links();
        let plain = CompoundStyle::default();
        let reversed = CompoundStyle::with_attr(Attribute::Reverse);
        PageSkin {
            text: *text,
            page: rows.page,
            headings: HeadingMarks {
                rules: 0,
                signs: false,
                words: false,
            },
            link: rows.link,
            sign: StyledChar::nude(PICTURE),
            picture: plain,
            head: plain,
            titles: TitleStyles::default(),
            code: CodeStyles::default(),
            number: reversed,
            hit: reversed,
            status: reversed,
            room: TextRoom::WHOLE,
            cell_blanks: false,
        }
    }

    /// What stands in a page in this skin and isn't its text's own.
    pub fn marks(&self) -> PageMarks
        ensures { result ≡ page_marks self.now }
    {
        PageMarks {
            headings: self.headings,
            sign: self.sign.nude_char(),
        }
    }

    /// What rows show of the skin. Words stay whole in them.
    pub fn row_skin(&self) -> RowSkin
        ensures { result ≡ page_row_skin self.now }
    {
        RowSkin {
            link: self.link,
            picture: self.picture,
            picture_sign: *self.sign.compound_style(),
            whole_words: true,
            cell_blanks: self.cell_blanks,
            page: self.page,
            head: self.head,
            titles: self.titles,
            tones: self.code.tones(),
            ..self.text.row_skin()
        }
    }
}
