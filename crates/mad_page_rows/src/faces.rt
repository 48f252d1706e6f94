//! What gutters show in a skin.

ghost use Rattle.std.specs.Prelude.{◌≡◌, ◌≤◌, ◌-◌, ◌||◌, length, Some};
ghost use Rattle.mad_draw.specs.Pieces.{pieces_bytes, spaces};
ghost use Rattle.mad_sections.specs.Gutters.{columns_of, gutter_columns};
ghost use Rattle.mad_pages.specs.Fronts.{front_content};
ghost use Rattle.mad_style.specs.CompoundStyles.{overwritten};
ghost use Rattle.mad_page_rows.specs.Faces.{alert_barred, alert_of, alert_titled, bold_behind, emboldened, title_style, titled, backs, alert_bar, ascii_box, below_char, code_face, codes, columns_behind, ends_in_code, face, has_ascii_boxes, has_boxes, heading_sign, in_box, is_code, level_above, level_of, line_skin, ruled, task_box};
ghost use Rattle.mad_rows.specs.RowStyles.{ordered_item_style};

use mad_draw::{CharRepeat, Spaces};
use mad_pages::Front;
use mad_rows::{PageStyles, RowSkin, TitleStyles};
use mad_sections::gutters::gutter_columns;
use mad_sections::{Alert, Gutter};
use mad_style::{CompoundStyle, StyledChar};
use mad_term::StyledNumber;
use std::fmt::{self, Display};

/// Whether the boxes of tasks are of ASCII characters in a skin: they are where its bullet is one.
pub fn has_ascii_boxes(skin: &RowSkin) -> bool
    ensures { result ≡ has_ascii_boxes skin.now }
{
    skin.bullet.get_char() < '\u{80}'
}

/// The columns behind gutters, at an outer width.
pub fn columns_behind(gutters: &[Gutter], outer: Option<usize>, ascii: bool) -> Option<usize>
    ensures { result ≡ columns_behind ascii outer gutters.now }
{
    let mut columns = outer?;
    for gutter in gutters {
        columns = columns.saturating_sub(gutter_columns(*gutter, ascii));
    }
    Some(columns)
}

/// The columns that gutters leave in a place of this width.
pub fn columns_left(skin: &RowSkin, gutters: &[Gutter], width: usize) -> usize
    ensures { result ≡ width - columns_of (has_ascii_boxes skin.now) gutters.now }
{
    columns_behind(gutters, Some(width), has_ascii_boxes(skin)).unwrap_or(0)
}

// The box of a task that is done, or of an open one.
fn task_box(page: &PageStyles, done: bool) -> StyledChar
    ensures { result ≡ task_box page.now done }
{
    if done { page.done } else { page.task }
}

// The box of a task in ASCII characters.
fn ascii_box(done: bool) -> &'static str
    ensures { result.now ≡ ascii_box done }
{
    if done { "[x]" } else { "[ ]" }
}

// The bar of an alert.
fn alert_bar(page: &PageStyles, alert: Alert) -> StyledChar
    ensures { result ≡ alert_bar page.now alert }
{
    match alert {
        Alert::Note => page.note,
        Alert::Tip => page.tip,
        Alert::Important => page.important,
        Alert::Warning => page.warning,
        Alert::Caution => page.caution,
    }
}

// The sign of a heading of this level, counted from 0, in its style.
fn heading_sign(skin: &RowSkin, level: u8) -> StyledChar
    ensures { result ≡ heading_sign skin.now level }
{
    let style = skin
        .headers
        .get(usize::from(level))
        .unwrap_or(&skin.paragraph);
    StyledChar::new(style.compound_style, '#')
}

// What the rule below a heading of this level, counted from 0, is drawn with.
fn below_char(page: &PageStyles, level: u8) -> StyledChar
    ensures { result ≡ below_char page.now level }
{
    if level == 0 {
        page.below_first
    } else {
        page.below_others
    }
}

// A gutter's first face, or its other one.
#[derive(Clone, Copy)]
struct Face<'a> {
    skin: &'a RowSkin,
    gutter: Gutter,
    first: bool,
}

impl fmt::Display for Face<'_> {
    ghost output = { λ m. Some (pieces_bytes (face m.skin.now m.first m.gutter)) };

    fn fmt<W: fmt::Write>(&self, f: &mut fmt::Formatter<W>) -> fmt::Result {
        if self.first {
            let face = FirstFace {
                skin: self.skin,
                gutter: self.gutter,
            };
            face.fmt(f)
        } else {
            let face = OtherFace {
                skin: self.skin,
                gutter: self.gutter,
            };
            face.fmt(f)
        }
    }
}

// What is in front of the first row.
#[derive(Clone, Copy)]
struct FirstFace<'a> {
    skin: &'a RowSkin,
    gutter: Gutter,
}

impl fmt::Display for FirstFace<'_> {
    ghost use Rattle.mad_page_rows.specs.Faces.{first_face};

    ghost output = { λ m. Some (pieces_bytes (first_face m.skin.now m.gutter)) };

    fn fmt<W: fmt::Write>(&self, f: &mut fmt::Formatter<W>) -> fmt::Result {
        let space = blanks(self.skin, 1);
        match self.gutter {
            Gutter::Bar => {
                let mark = self.skin.quote_mark;
                write!(f, "{mark}{space}")
            }
            Gutter::AlertBar(alert) => {
                let mark = alert_bar(&self.skin.page, alert);
                write!(f, "{mark}{space}")
            }
            Gutter::Bullet => {
                let bullet = self.skin.bullet;
                write!(f, "{bullet}{space}")
            }
            Gutter::Number(number) => {
                let style = self.skin.ordered_item_style(0);
                let number = StyledNumber {
                    style: style.index_style.object_style,
                    number,
                };
                let suffix = style.index_suffix;
                write!(f, "{number}{suffix}{space}")
            }
            Gutter::Code => {
                let side = code_face(self.skin);
                side.fmt(f)
            }
            Gutter::Task(done) => {
                let sign = TaskBox {
                    skin: self.skin,
                    done,
                };
                write!(f, "{sign}{space}")
            }
            Gutter::Signs(level) => {
                let signs = CharRepeat {
                    c: heading_sign(self.skin, level),
                    count: usize::from(level) + 1,
                };
                write!(f, "{signs}{space}")
            }
            Gutter::Below(_) => Ok(()),
        }
    }
}

// The box of a task in its style.
#[derive(Clone, Copy)]
struct TaskBox<'a> {
    skin: &'a RowSkin,
    done: bool,
}

impl fmt::Display for TaskBox<'_> {
    ghost use Rattle.std.specs.Prelude.{◌∷◌, []};
    ghost use Rattle.mad_page_rows.specs.Faces.{box_piece};

    ghost output = { λ m. Some (pieces_bytes (box_piece m.skin.now m.done ∷ [])) };

    fn fmt<W: fmt::Write>(&self, f: &mut fmt::Formatter<W>) -> fmt::Result {
        let sign = task_box(&self.skin.page, self.done);
        if has_ascii_boxes(self.skin) {
            let text = sign.compound_style().apply_to(ascii_box(self.done));
            write!(f, "{text}")
        } else {
            write!(f, "{sign}")
        }
    }
}

// What is in front of all other rows.
#[derive(Clone, Copy)]
struct OtherFace<'a> {
    skin: &'a RowSkin,
    gutter: Gutter,
}

impl fmt::Display for OtherFace<'_> {
    ghost use Rattle.mad_page_rows.specs.Faces.{other_face};

    ghost output = { λ m. Some (pieces_bytes (other_face m.skin.now m.gutter)) };

    fn fmt<W: fmt::Write>(&self, f: &mut fmt::Formatter<W>) -> fmt::Result {
        match self.gutter {
            Gutter::Bar => {
                let space = blanks(self.skin, 1);
                let mark = self.skin.quote_mark;
                write!(f, "{mark}{space}")
            }
            Gutter::AlertBar(alert) => {
                let space = blanks(self.skin, 1);
                let mark = alert_bar(&self.skin.page, alert);
                write!(f, "{mark}{space}")
            }
            Gutter::Code => {
                let side = code_face(self.skin);
                side.fmt(f)
            }
            gutter => {
                let columns = gutter_columns(gutter, has_ascii_boxes(self.skin));
                let indent = blanks(self.skin, columns);
                indent.fmt(f)
            }
        }
    }
}

/// `count` blanks in the paragraph's style.
pub fn blanks(skin: &RowSkin, count: usize) -> Spaces
    ensures { result ≡ record { style = skin.now.paragraph.compound_style; count = count } }
{
    Spaces {
        style: skin.paragraph.compound_style,
        count,
    }
}

/// Whether code is drawn in boxes: it has a background of its own.
pub fn has_boxes(skin: &RowSkin) -> bool
    ensures { result ≡ has_boxes skin.now }
{
    skin.code_block
        .compound_style
        .object_style
        .background_color
        .is_some()
}

// Blanks in the style of code.
fn code_blanks(skin: &RowSkin, count: usize) -> Spaces
    ensures { result ≡ record { style = skin.now.code_block.compound_style; count = count } }
{
    Spaces {
        style: skin.code_block.compound_style,
        count,
    }
}

// In front of a row of code: the side of its box, or where there are no boxes two blanks.
fn code_face(skin: &RowSkin) -> Spaces
    ensures { spaces result.style result.count ≡ code_face skin.now }
{
    if has_boxes(skin) {
        code_blanks(skin, 1)
    } else {
        blanks(skin, 2)
    }
}

// Whether a gutter is that of code.
fn is_code(gutter: Gutter) -> bool
    ensures { result ≡ is_code gutter }
{
    matches!(gutter, Gutter::Code)
}

// The count of the gutters that are.
fn codes(gutters: &[Gutter]) -> usize
    ensures count { result ≡ codes gutters.now }
    ensures few { result ≤ length gutters.now }
{
    let mut count = 0;
    for gutter in gutters {
        if is_code(*gutter) {
            count += 1;
        }
    }
    count
}

/// The other sides of boxes, behind a row.
pub fn backs(skin: &RowSkin, gutters: &[Gutter]) -> Spaces
    ensures { spaces result.style result.count ≡ backs skin.now gutters.now }
{
    let count = if has_boxes(skin) { codes(gutters) } else { 0 };
    code_blanks(skin, count)
}

// Whether the last gutter is that of code.
fn ends_in_code(gutters: &[Gutter]) -> bool
    ensures { result ≡ ends_in_code gutters.now }
{
    let mut last = false;
    for gutter in gutters {
        last = is_code(*gutter);
    }
    last
}

// Whether rows behind these gutters are in a box.
fn in_box(skin: &RowSkin, gutters: &[Gutter]) -> bool
    ensures { result ≡ in_box skin.now gutters.now }
{
    has_boxes(skin) && ends_in_code(gutters)
}

/// Whether the columns right of a row's line are filled up: in a box they always are.
pub fn is_filled(skin: &RowSkin, gutters: &[Gutter], filled: bool) -> bool
    ensures { result ≡ (filled || in_box skin.now gutters.now) }
{
    filled || in_box(skin, gutters)
}

// The level of the heading that a gutter is below, if it is below one.
fn level_of(gutter: Gutter) -> Option<u8>
    ensures { result ≡ level_of gutter }
{
    match gutter {
        Gutter::Below(level) => Some(level),
        _ => None,
    }
}

// The level of the heading that a row is below, if its last gutter says so.
fn level_above(gutters: &[Gutter]) -> Option<u8>
    ensures { result ≡ level_above gutters.now }
{
    match gutters {
        [.., gutter] => level_of(*gutter),
        [] => None,
    }
}

// A skin whose rules are drawn as those below a heading of this level, if there is one.
fn ruled(skin: RowSkin, level: Option<u8>) -> RowSkin
    ensures { result ≡ ruled skin level }
{
    match level {
        Some(level) => RowSkin {
            horizontal_rule: below_char(&skin.page, level),
            ..skin
        },
        None => skin,
    }
}

// What the title of an alert adds to bold text.
fn title_style(titles: &TitleStyles, alert: Alert) -> CompoundStyle
    ensures { result ≡ title_style titles.now alert }
{
    match alert {
        Alert::Note => titles.note,
        Alert::Tip => titles.tip,
        Alert::Important => titles.important,
        Alert::Warning => titles.warning,
        Alert::Caution => titles.caution,
    }
}

// The alert that a gutter is the bar of, if it is one's.
fn alert_of(gutter: Gutter) -> Option<Alert>
    ensures { result ≡ alert_of gutter }
{
    match gutter {
        Gutter::AlertBar(alert) => Some(alert),
        _ => None,
    }
}

// The alert that the last gutter is the bar of, if it is one's.
fn alert_barred(gutters: &[Gutter]) -> Option<Alert>
    ensures { result ≡ alert_barred gutters.now }
{
    match gutters {
        [.., gutter] => alert_of(*gutter),
        [] => None,
    }
}

/// The alert whose title a row is: the first row behind its bar, if the bar is the last gutter.
pub fn alert_titled(front: Front) -> Option<Alert>
    ensures { result ≡ alert_titled (front_content front.entry) }
{
    if front.fresh == 0 {
        None
    } else {
        alert_barred(front.gutters)
    }
}

// What bold text adds, and over it what it adds in the title of this alert.
fn titled(skin: &RowSkin, alert: Option<Alert>) -> CompoundStyle
    ensures { result ≡ titled skin.now alert }
{
    match alert {
        Some(alert) => overwritten(skin.bold, &title_style(&skin.titles, alert)),
        None => skin.bold,
    }
}

// A style, over which another comes.
fn overwritten(style: CompoundStyle, other: &CompoundStyle) -> CompoundStyle
    ensures { result ≡ overwritten style other.now }
{
    let mut style = style;
    style.overwrite_with(other);
    style
}

// What bold text adds in a row.
fn bold_behind(skin: &RowSkin, front: Front) -> CompoundStyle
    ensures { result ≡ bold_behind skin.now (front_content front.entry) }
{
    if front.head {
        overwritten(skin.bold, &skin.head)
    } else {
        titled(skin, alert_titled(front))
    }
}

// A skin in which bold text adds this.
fn emboldened(skin: RowSkin, bold: CompoundStyle) -> RowSkin
    ensures { result ≡ emboldened skin bold }
{
    RowSkin { bold, ..skin }
}

/// The skin of a row's line: in a box what is beside its text looks as code, and below a heading a rule as those there. The bold text of an alert's title
/// and of a table's head has the style of these.
pub fn line_skin(skin: &RowSkin, front: Front) -> RowSkin
    ensures { result ≡ line_skin skin.now (front_content front.entry) }
{
    let gutters = front.gutters;
    let beside = if in_box(skin, gutters) {
        RowSkin {
            paragraph: skin.code_block,
            ..*skin
        }
    } else {
        *skin
    };
    let drawn = ruled(beside, level_above(gutters));
    emboldened(drawn, bold_behind(skin, front))
}

/// Faces of gutters, all the first ones or all the others.
#[derive(Clone, Copy)]
pub struct Faces<'a> {
    /// The skin that they are drawn in.
    pub skin: &'a RowSkin,
    /// The gutters, the outermost first.
    pub gutters: &'a [Gutter],
    /// Whether these are their first faces.
    pub first: bool,
}

impl fmt::Display for Faces<'_> {
    ghost use Rattle.std.specs.List.{flat_map};

    ghost output = { λ m. Some (pieces_bytes (flat_map (face m.skin.now m.first) m.gutters.now)) };

    fn fmt<W: fmt::Write>(&self, f: &mut fmt::Formatter<W>) -> fmt::Result {
        for gutter in self.gutters {
            let face = Face {
                skin: self.skin,
                gutter: *gutter,
                first: self.first,
            };
            face.fmt(f)?;
        }
        Ok(())
    }
}
