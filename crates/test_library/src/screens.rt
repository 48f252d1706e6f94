//! Pictures of what a plain terminal shows: a line for each row of the screen. Where there are looks, lines of their letters follow, and
//! an `x` in each look.

ghost use Rattle.termimad.specs.Areas.{IsWithinLimits};

use std::alloc::{AllocError, Global};
use termimad::layout::laws::words_on_a_screen;
use termimad::screen::{Pen, Screen};
use termimad::{
    Area, ContentStyle, CutOut, Error, FmtText, ParseOptions, StyledContent, TextView,
    parse_text_with,
};
use test_skins::{Asked, Refusal};

// More than any row here writes.
const ROOM: usize = 20_000;

/// The picture of a text in an area, or of a view.
pub fn pictured(asked: &Asked, name: &str) -> Result<String, Refusal> {
    let mut out = CutOut::new(asked.alloc, ROOM, ROOM, false)?;
    write(asked, name, &mut out)?;
    picture(asked.alloc, &asked.area(), out.taken())
}

/// Writes a text in an area, or a view.
pub fn write(asked: &Asked, name: &str, out: &mut CutOut) -> Result<(), Error> {
    match name {
        "view" => write_view(asked, false, false, out),
        "scrolled" => write_view(asked, false, true, out),
        "marks" => write_view(asked, true, false, out),
        "beside_bar" => write_beside_bar(asked, out),
        _ => asked
            .skin
            .write_in_area_on(asked.alloc, out, asked.text, &asked.area()),
    }
}

// Writes a view whose field `scroll` is the last number, or that is asked to scroll so far. Marks may go on over lines.
fn write_view(
    asked: &Asked,
    continue_spans: bool,
    is_asked: bool,
    out: &mut CutOut,
) -> Result<(), Error> {
    let area = asked.area();
    let options = ParseOptions { continue_spans };
    let text = parse_text_with(asked.alloc, asked.text, options)?;
    let text = FmtText::from_text(asked.alloc, &asked.skin, text, Some(area.width.into()))?;
    let mut view = TextView::from(&area, &text);
    view.show_scrollbar = false;
    if is_asked {
        view.set_scroll(asked.numbers[4]);
    } else {
        view.scroll = asked.numbers[4];
    }
    view.write_on(asked.alloc, out)
}

// Writes a view whose field `scroll` is the last number: beside its scroll bar, if it has one.
fn write_beside_bar(asked: &Asked, out: &mut CutOut) -> Result<(), Error> {
    let area = asked.area();
    let text = asked.skin.area_text(asked.alloc, asked.text, &area)?;
    let mut view = TextView::from(&area, &text);
    view.scroll = asked.numbers[4];
    view.write_on(asked.alloc, out)
}

/// The screen of the laws' example.
pub fn words(alloc: Global) -> Result<String, Refusal> {
    let screen = words_on_a_screen(alloc)?;
    Ok(format!(in alloc; "{screen}")?)
}

/// The picture of a screen that has read these bytes: one of points as large as the area, of 14 columns and four rows at least.
pub fn picture(alloc: Global, area: &Area, bytes: &[u8]) -> Result<String, Refusal>
    requires { IsWithinLimits area.now }
{
    let (width, height) = (area.right().max(14), area.bottom().max(4));
    let mut screen = Screen::new(alloc, width, height)?;
    put_points(alloc, &mut screen, width, height)?;
    screen.read_bytes(bytes)?;
    let mut picture = format!(in alloc; "{screen}")?;
    push_looks(&screen, &mut picture)?;
    Ok(picture)
}

// Puts a row of points into each row.
fn put_points(alloc: Global, screen: &mut Screen, width: u16, height: u16) -> Result<(), Refusal> {
    let row = ".".repeat(alloc, width.into())?;
    let mut rows = String::new(alloc);
    for y in 1..=height {
        write!(rows, "\x1b[{y};1H{row}")?;
    }
    Ok(screen.read_bytes(rows.as_bytes())?)
}

// Puts the letters of a screen's looks, and the looks themselves. The pen is the default one again after all that is written.
fn push_looks(screen: &Screen, picture: &mut String) -> Result<(), AllocError> {
    let looks = screen.looks()?;
    if looks.pens().is_empty() && screen.pen() == Pen::default() {
        return Ok(());
    }
    write!(picture, "{looks}")?;
    for pen in looks.pens() {
        write!(picture, "{}\n", sample(*pen))?;
    }
    Ok(())
}

fn sample(pen: Pen) -> StyledContent<'static> {
    let style = ContentStyle {
        foreground_color: pen.fg,
        background_color: pen.bg,
        underline_color: pen.underline,
        attributes: pen.codes,
    };
    StyledContent {
        style,
        content: "x",
    }
}
