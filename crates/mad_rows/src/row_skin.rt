//! What rows are drawn in: the part of a skin that they show.

ghost use Rattle.std.specs.Prelude.{◌≡◌, IsTrue};
ghost use Rattle.mad_md.specs.Flagged.{run_of};
ghost use Rattle.std.specs.Str.{bytes_eq};
ghost use Rattle.mad_rows.specs.RowStyles.{adds_nothing, compound_style, ellipsis_bytes, item_style_at, line_style, ordered_item_style, sets_nothing, style_of_compound, style_of_kind, tone_styles, with_links};

use crate::page_styles::{PageStyles, TitleStyles};
use mad_draw::Spaces;
use mad_format::LineSkin;
use mad_md::{Compound, MAX_HEADER_DEPTH};
use mad_style::{
    CompositeKind, CompoundStyle, LineStyle, ListItemsIndentationMode, MAX_ORDERED_LIST_DEPTH,
    OrderedItemStyle, StyledChar, TableBorderChars,
};
use mad_term::Attribute;

// The text in place of what was left out.
const ELLIPSIS: &str = "…";

/// How headers look, those of the first level first.
pub type HeaderStyles = [LineStyle; MAX_HEADER_DEPTH];

/// How the numbers of items look, by the level of their list.
pub type OrderedItemStyles = [OrderedItemStyle; MAX_ORDERED_LIST_DEPTH];

/// What the tones of code add to their line's style: those of a comment, a string, a number, a keyword, a name, a key, and of a line that is new or gone.
pub type ToneStyles = [CompoundStyle; 8];

/// The styles and the characters of a text's parts: all of a skin that a row can show.
#[derive(Clone, Copy, PartialEq, Debug)]
pub struct RowSkin {
    /// The style of paragraphs, items and quotes, and of the blanks beside all lines.
    pub paragraph: LineStyle,
    /// What bold text adds to its line's style.
    pub bold: CompoundStyle,
    /// What italic text adds to its line's style.
    pub italic: CompoundStyle,
    /// What struck out text adds to its line's style.
    pub strikeout: CompoundStyle,
    /// What code adds to its line's style.
    pub inline_code: CompoundStyle,
    /// What the text of a link adds to its line's style. A [`RowSkin`] that a skin gives adds nothing: [`RowSkin::with_links`] sets it.
    pub link: CompoundStyle,
    /// What is said of a picture adds this to its line's style.
    pub picture: CompoundStyle,
    /// The sign in front of a picture's words adds this.
    pub picture_sign: CompoundStyle,
    /// The style of code blocks.
    pub code_block: LineStyle,
    /// The styles of headers.
    pub headers: HeaderStyles,
    /// The style of a table's borders, and on which side a table is.
    pub table: LineStyle,
    /// What is in front of an item of a list.
    pub bullet: StyledChar,
    /// How the numbers of items look.
    pub ordered_item_styles: OrderedItemStyles,
    /// What is in front of a quote.
    pub quote_mark: StyledChar,
    /// What a rule is drawn with, over the whole width.
    pub horizontal_rule: StyledChar,
    /// The style of an ellipsis.
    pub ellipsis: CompoundStyle,
    /// The characters of a table's borders.
    pub table_border_chars: TableBorderChars,
    /// How the lines of an item after its first are indented.
    pub list_items_indentation_mode: ListItemsIndentationMode,
    /// Whether a word that fits on a line stays whole, over compounds.
    pub whole_words: bool,
    /// Whether a blank is at both sides of each cell of a table.
    pub cell_blanks: bool,
    /// How what a page shows beside its text looks.
    pub page: PageStyles,
    /// What the heads of a page's tables add to bold text.
    pub head: CompoundStyle,
    /// What the titles of alerts add to bold text.
    pub titles: TitleStyles,
    /// The tones of code, if it is shown with tones.
    pub tones: Option<ToneStyles>,
}

impl RowSkin {
    /// The style of a line of this kind, which [`style_of_kind`] picks.
    pub fn line_style(&self, kind: CompositeKind) -> &LineStyle
        ensures { result.now ≡ line_style self.now kind }
    {
        style_of_kind(&self.paragraph, &self.headers, &self.code_block, kind)
    }

    /// How the items of an ordered list look at a level, which [`item_style_at`] picks.
    pub fn ordered_item_style(&self, level: u8) -> &OrderedItemStyle
        ensures { result.now ≡ ordered_item_style self.now level }
    {
        item_style_at(&self.ordered_item_styles, level)
    }

    /// The same skin, in which the text of a link is underlined; but where no flag of a compound adds anything, none does for links.
    pub fn with_links(self) -> RowSkin
        ensures { result ≡ with_links self }
    {
        let link = if self.adds_nothing() {
            CompoundStyle::default()
        } else {
            CompoundStyle::with_attr(Attribute::Underlined)
        };
        RowSkin { link, ..self }
    }

    /// What the tones of code add, the first mark's first. A skin without tones has none.
    pub fn tone_styles(&self) -> &[CompoundStyle]
        ensures { result.now ≡ tone_styles self.now }
    {
        match &self.tones {
            Some(tones) => tones,
            None => &[],
        }
    }

    // Whether bold, italic and struck out text and code look as their lines do.
    fn adds_nothing(&self) -> bool
        ensures { result ≡ adds_nothing self.now }
    {
        sets_nothing(&self.bold)
            && sets_nothing(&self.italic)
            && sets_nothing(&self.strikeout)
            && sets_nothing(&self.inline_code)
    }

    /// `count` blanks beside a line, in the paragraph's style.
    pub(crate) fn blanks(&self, count: usize) -> Spaces
        ensures { result ≡ record { style = self.now.paragraph.compound_style; count = count } }
    {
        Spaces {
            style: self.paragraph.compound_style,
            count,
        }
    }

    /// The style of a compound in a line of that style, which [`style_of_compound`] makes.
    pub fn compound_style(&self, line_style: &LineStyle, compound: &Compound) -> CompoundStyle
        ensures { result ≡ compound_style self.now line_style.now (run_of compound.now) }
    {
        let added = FlagStyles {
            italic: &self.italic,
            strikeout: &self.strikeout,
            bold: &self.bold,
            code: &self.inline_code,
            link: &self.link,
            picture: &self.picture,
            sign: &self.picture_sign,
        };
        style_of_compound(line_style, added, &self.ellipsis, compound)
    }
}

impl LineSkin for RowSkin {
    ghost use Rattle.mad_rows.specs.RowStyles.{line_rules};

    ghost rules = { λ skin. line_rules skin };

    fn items_indentation(&self) -> ListItemsIndentationMode {
        self.list_items_indentation_mode
    }

    fn whole_words(&self) -> bool {
        self.whole_words
    }

    fn cell_blanks(&self) -> bool {
        self.cell_blanks
    }

    fn style_of(&self, kind: CompositeKind) -> &LineStyle {
        self.line_style(kind)
    }
}

/// The style of a line of this kind among these: code blocks and the headers of levels 1 to 8 have their own, all else the paragraph's.
pub fn style_of_kind<'k>(
    paragraph: &'k LineStyle,
    headers: &'k HeaderStyles,
    code_block: &'k LineStyle,
    kind: CompositeKind,
) -> &'k LineStyle
    ensures { result.now ≡ style_of_kind paragraph.entry.now headers.entry.now code_block.entry.now kind }
{
    match kind {
        CompositeKind::Code => code_block,
        CompositeKind::Header(level @ 1..=8) => &headers[level as usize - 1],
        _ => paragraph,
    }
}

/// How the items of an ordered list look at a level, counted from 0; levels past the last take the last.
pub fn item_style_at(styles: &OrderedItemStyles, level: u8) -> &OrderedItemStyle
    ensures { result.now ≡ item_style_at styles.now level }
{
    &styles[usize::from(level).min(MAX_ORDERED_LIST_DEPTH - 1)]
}

/// What the flags of a compound add to its line's style.
#[derive(Clone, Copy)]
pub struct FlagStyles<'k> {
    /// Of italic text.
    pub italic: &'k CompoundStyle,
    /// Of struck out text.
    pub strikeout: &'k CompoundStyle,
    /// Of bold text.
    pub bold: &'k CompoundStyle,
    /// Of code.
    pub code: &'k CompoundStyle,
    /// Of the text of a link.
    pub link: &'k CompoundStyle,
    /// Of what is said of a picture.
    pub picture: &'k CompoundStyle,
    /// Of the sign in front of that.
    pub sign: &'k CompoundStyle,
}

/// The style of a compound in a line of that style.
///
/// An ellipsis has its own. The sign of a picture has its line's, overwritten with that of such signs. Any other has its line's,
/// overwritten with those of its flags: picture first, then link, italic, strikeout, bold and code.
pub fn style_of_compound(
    line_style: &LineStyle,
    added: FlagStyles,
    ellipsis: &CompoundStyle,
    compound: &Compound,
) -> CompoundStyle
    ensures { result ≡ style_of_compound ellipsis.now added.entry.sign.now added.entry.picture.now added.entry.link.now added.entry.italic.now added.entry.strikeout.now added.entry.bold.now added.entry.code.now line_style.now (run_of compound.now) }
{
    if compound.src == ELLIPSIS {
        return *ellipsis;
    }
    let mut style = line_style.compound_style;
    if compound.picture_sign {
        style.overwrite_with(added.sign);
        return style;
    }
    if compound.picture {
        style.overwrite_with(added.picture);
    }
    if compound.link {
        style.overwrite_with(added.link);
    }
    if compound.italic {
        style.overwrite_with(added.italic);
    }
    if compound.strikeout {
        style.overwrite_with(added.strikeout);
    }
    if compound.bold {
        style.overwrite_with(added.bold);
    }
    if compound.code {
        style.overwrite_with(added.code);
    }
    style
}

/// Whether a style sets nothing: no color, and no attribute.
pub fn sets_nothing(style: &CompoundStyle) -> bool
    ensures { result ≡ sets_nothing style.now }
{
    let style = style.object_style;
    style.foreground_color.is_none()
        && style.background_color.is_none()
        && style.underline_color.is_none()
        && style.attributes.is_empty()
}

/// Whether a text is an ellipsis.
pub fn is_ellipsis(text: &str) -> bool
    ensures { result ≡ bytes_eq text.now ellipsis_bytes }
{
    text == ELLIPSIS
}

/// Whether a compound looks as its line does: it has no flag, and isn't an ellipsis.
pub fn is_bare(compound: &Compound) -> bool
    ensures { IsTrue result → (skin : RowSkin) (line : LineStyle) → compound_style skin line (run_of compound.now) ≡ line.compound_style }
{
    let flagged = compound.bold
        || compound.italic
        || compound.code
        || compound.strikeout
        || compound.link
        || compound.picture
        || compound.picture_sign;
    !flagged && (compound.src.len() != ELLIPSIS.len() || compound.src != ELLIPSIS)
}
