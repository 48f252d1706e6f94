//! The styles of a text's parts.

ghost use Rattle.std.specs.Prelude.{◌≡◌, ◌+◌};
ghost use Rattle.mad_md.specs.Flagged.{run_of};
ghost use Rattle.mad_rows.specs.RowStyles.{compound_style};
ghost use Rattle.mad_layout.specs.RowSkins.{page_styles, row_skin};
ghost use Rattle.mad_style.specs.StyledChars.{shown_as};
ghost use Rattle.mad_layout.specs.SkinParts.{header_line, first_header_line, default_header_lines, default_quote, default_table};

use mad_format::{LineSkin, composite_columns};
use mad_md::{Alignment, Compound, MAX_HEADER_DEPTH};
pub use mad_rows::OrderedItemStyles;
use mad_rows::{HeaderStyles, PageStyles, RowSkin, TitleStyles, item_style_at, style_of_kind};
use mad_style::{
    CompositeKind, CompoundStyle, LineStyle, ListItemsIndentationMode, MAX_ORDERED_LIST_DEPTH,
    OrderedItemStyle, STANDARD_TABLE_BORDER_CHARS, ScrollBarStyle, StyledChar, TableBorderChars,
    gray,
};
use mad_term::Attribute;

// What a horizontal rule is made of.
const RULE: char = '―';

/// The styles of a text's parts.
#[derive(Clone, Copy, PartialEq, Debug)]
pub struct MadSkin {
    /// The style of paragraphs, items and quotes, and of the blanks beside all lines.
    pub paragraph: LineStyle,
    /// What bold text adds to its line's style.
    pub bold: CompoundStyle,
    /// What italic text adds to its line's style.
    pub italic: CompoundStyle,
    /// What struck out text adds to its line's style.
    pub strikeout: CompoundStyle,
    /// What code adds to its line's style.
    pub inline_code: CompoundStyle,
    /// The style of code blocks.
    pub code_block: LineStyle,
    /// The styles of headers, those of the first level first.
    pub headers: HeaderStyles,
    /// How scroll bars look.
    pub scrollbar: ScrollBarStyle,
    /// The style of a table's borders, and on which side a table is.
    pub table: LineStyle,
    /// What is in front of an item of a list.
    pub bullet: StyledChar,
    /// How the numbers of items look, by level.
    pub ordered_item_styles: OrderedItemStyles,
    /// What is in front of a quote.
    pub quote_mark: StyledChar,
    /// What a rule is drawn with, over the whole width.
    pub horizontal_rule: StyledChar,
    /// The style of an ellipsis.
    pub ellipsis: CompoundStyle,
    /// The characters of a table's borders.
    pub table_border_chars: TableBorderChars,
    /// How the lines of an item after its first are indented.
    pub list_items_indentation_mode: ListItemsIndentationMode,
    /// Whether a word that fits on a line stays whole, over compounds.
    pub whole_words: bool,
}

impl Default for MadSkin {
    ghost use Rattle.mad_layout.specs.Skins.{default_skin};

    ghost is_default = { λ skin. skin ≡ default_skin };

    /// Bold, italic and struck out text as such, code light on dark, headers underlined and the first bold and
    /// centered.
    fn default() -> Self {
        let code = CompoundStyle::with_fgbg(gray(17), gray(3));
        Self {
            paragraph: LineStyle::default(),
            bold: CompoundStyle::with_attr(Attribute::Bold),
            italic: CompoundStyle::with_attr(Attribute::Italic),
            strikeout: CompoundStyle::with_attr(Attribute::CrossedOut),
            inline_code: code,
            code_block: LineStyle::from(code),
            headers: default_headers(),
            scrollbar: ScrollBarStyle::new(),
            table: default_table(),
            bullet: StyledChar::from_fg_char(gray(8), '•'),
            ordered_item_styles: [OrderedItemStyle::default(); MAX_ORDERED_LIST_DEPTH],
            quote_mark: default_quote_mark(),
            horizontal_rule: StyledChar::from_fg_char(gray(6), RULE),
            ellipsis: CompoundStyle::default(),
            table_border_chars: STANDARD_TABLE_BORDER_CHARS,
            list_items_indentation_mode: ListItemsIndentationMode::default(),
            whole_words: false,
        }
    }
}

// Headers are underlined, and the first is bold and centered too.
fn default_headers() -> HeaderStyles
    ensures { result ≡ default_header_lines }
{
    let header = default_header();
    let first = first_header();
    [
        first, header, header, header, header, header, header, header,
    ]
}

fn default_header() -> LineStyle
    ensures { result ≡ header_line }
{
    let mut header = LineStyle::default();
    header.add_attr(Attribute::Underlined);
    header
}

fn first_header() -> LineStyle
    ensures { result ≡ first_header_line }
{
    let mut header = default_header();
    header.add_attr(Attribute::Bold);
    header.align = Alignment::Center;
    header
}

// Gray borders.
fn default_table() -> LineStyle
    ensures { result ≡ default_table }
{
    LineStyle::from(CompoundStyle::with_fg(gray(7)))
}

// A bold half block in light gray.
fn default_quote_mark() -> StyledChar
    ensures { result ≡ default_quote }
{
    let mut style = CompoundStyle::with_attr(Attribute::Bold);
    style.set_fg(gray(12));
    StyledChar::new(style, '▐')
}

impl MadSkin {
    ghost use Rattle.mad_md.specs.Flagged.{flagged_text};
    ghost use Rattle.mad_measure.specs.TextColumns.{width_of};
    ghost use Rattle.mad_format.specs.Indents.{indent};
    ghost use Rattle.mad_layout.specs.Skins.{no_style_skin};
    ghost use Rattle.mad_rows.specs.RowStyles.{line_style, ordered_item_style};
    ghost use Rattle.mad_wrap.specs.WrapLines.{capped};

    /// The characters of the default skin, without style; only the scroll bar looks as the default one.
    pub fn no_style() -> Self
        ensures { result ≡ no_style_skin }
    {
        let item = OrderedItemStyle::no_style();
        Self {
            paragraph: LineStyle::default(),
            bold: CompoundStyle::default(),
            italic: CompoundStyle::default(),
            strikeout: CompoundStyle::default(),
            inline_code: CompoundStyle::default(),
            code_block: LineStyle::default(),
            headers: [LineStyle::default(); MAX_HEADER_DEPTH],
            scrollbar: ScrollBarStyle::new(),
            table: LineStyle::default(),
            bullet: StyledChar::nude('•'),
            ordered_item_styles: [item; MAX_ORDERED_LIST_DEPTH],
            quote_mark: StyledChar::nude('▐'),
            horizontal_rule: StyledChar::nude(RULE),
            ellipsis: CompoundStyle::default(),
            table_border_chars: STANDARD_TABLE_BORDER_CHARS,
            list_items_indentation_mode: ListItemsIndentationMode::default(),
            whole_words: false,
        }
    }

    /// The columns of a line of this kind: its indent and its compounds, `usize::MAX` where there are more.
    pub fn visible_composite_length(&self, kind: CompositeKind, compounds: &[Compound]) -> usize
        ensures { result ≡ capped (indent self.now.list_items_indentation_mode kind + width_of (flagged_text compounds.now)) }
    {
        composite_columns(self.list_items_indentation_mode, kind, compounds)
    }

    /// The style of a line of this kind: code blocks and the headers of levels 1 to 8 have their own, all else the
    /// paragraph's.
    pub fn line_style(&self, kind: CompositeKind) -> &LineStyle
        ensures { result.now ≡ line_style (row_skin self.now) kind }
    {
        style_of_kind(&self.paragraph, &self.headers, &self.code_block, kind)
    }

    /// How the items of an ordered list look at a level, counted from 0; levels past the last take the last.
    pub fn ordered_item_style(&self, level: u8) -> &OrderedItemStyle
        ensures { result.now ≡ ordered_item_style (row_skin self.now) level }
    {
        item_style_at(&self.ordered_item_styles, level)
    }

    /// The style of a compound in a line of that style, as [`RowSkin::compound_style`] has it. Links and pictures have no style of their own.
    pub fn compound_style(&self, line_style: &LineStyle, compound: &Compound) -> CompoundStyle
        ensures { result ≡ compound_style (row_skin self.now) line_style.now (run_of compound.now) }
    {
        self.row_skin().compound_style(line_style, compound)
    }

    /// What rows show of the skin: all but its scroll bar. Links look as the rest of their line, and so does all of code. Heads of tables and titles of
    /// alerts look as other bold text.
    pub fn row_skin(&self) -> RowSkin
        ensures { result ≡ row_skin self.now }
    {
        RowSkin {
            paragraph: self.paragraph,
            bold: self.bold,
            italic: self.italic,
            strikeout: self.strikeout,
            inline_code: self.inline_code,
            link: CompoundStyle::default(),
            picture: CompoundStyle::default(),
            picture_sign: CompoundStyle::default(),
            code_block: self.code_block,
            headers: self.headers,
            table: self.table,
            bullet: self.bullet,
            ordered_item_styles: self.ordered_item_styles,
            quote_mark: self.quote_mark,
            horizontal_rule: self.horizontal_rule,
            ellipsis: self.ellipsis,
            table_border_chars: self.table_border_chars,
            list_items_indentation_mode: self.list_items_indentation_mode,
            whole_words: self.whole_words,
            cell_blanks: false,
            page: self.page_styles(),
            head: CompoundStyle::default(),
            titles: TitleStyles::default(),
            tones: None,
        }
    }

    // What a page shows beside its text looks as what is there for it.
    fn page_styles(&self) -> PageStyles
        ensures { result ≡ page_styles self.now }
    {
        PageStyles {
            task: shown_as(self.bullet, '☐'),
            done: shown_as(self.bullet, '☑'),
            note: self.quote_mark,
            tip: self.quote_mark,
            important: self.quote_mark,
            warning: self.quote_mark,
            caution: self.quote_mark,
            below_first: self.horizontal_rule,
            below_others: self.horizontal_rule,
        }
    }
}

// Another character in the same style.
fn shown_as(styled: StyledChar, other: char) -> StyledChar
    ensures { result ≡ shown_as styled other }
{
    StyledChar::new(*styled.compound_style(), other)
}

impl LineSkin for MadSkin {
    ghost use Rattle.mad_rows.specs.RowStyles.{line_rules};

    ghost rules = { λ skin. line_rules (row_skin skin) };

    fn items_indentation(&self) -> ListItemsIndentationMode {
        self.list_items_indentation_mode
    }

    fn whole_words(&self) -> bool {
        self.whole_words
    }

    fn cell_blanks(&self) -> bool {
        false
    }

    fn style_of(&self, kind: CompositeKind) -> &LineStyle {
        self.line_style(kind)
    }
}
