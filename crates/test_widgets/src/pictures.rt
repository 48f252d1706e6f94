//! A field's text, and what a plain terminal shows of the field.

use mad_field::InputField;
use mad_screen::{CutOut, NotPlain, Pen, Screen};
use mad_term::{Attribute, Color, Error};
use std::alloc::{AllocError, Global};

// More bytes than a field of a row takes.
const ROOM: usize = 20000;

/// Appends the text with a bar at the cursor, what is selected, the scroll where it isn't 0, and that the field isn't focused.
pub fn push_state(answer: &mut String, field: &InputField) -> Result<(), AllocError> {
    let content = field.content();
    let mut shown = content.try_clone(*answer.allocator())?;
    shown.insert_char('▮')?;
    write!(answer, "{shown}\n")?;
    if content.has_selection() {
        let selected = content.copy_selection()?;
        write!(answer, "selected {selected}\n")?;
    }
    let scroll = field.scroll();
    if scroll.x > 0 || scroll.y > 0 {
        write!(answer, "scroll {} {}\n", scroll.x, scroll.y)?;
    }
    if !field.focused() {
        answer.push_str("without focus\n")?;
    }
    Ok(())
}

/// Appends what a screen shows that has one column and one row more than the area reaches: its rows, the pens of its cells
/// where one isn't plain, and the cell of the cursor. The screen is filled with hyphens before.
pub fn push_drawing(answer: &mut String, field: &InputField) -> Result<(), AllocError> {
    if !field.area().is_within_limits() {
        return answer.push_str("the area is out of limits\n");
    }
    let mut out = CutOut::new(*answer.allocator(), ROOM, ROOM, false)?;
    match field.display_on(&mut out) {
        Ok(cell) => push_shown(answer, field, out.taken(), cell),
        Err(Error::Memory) => Err(AllocError),
        Err(error) => write!(answer, "refused: {error}\n"),
    }
}

fn push_shown(
    answer: &mut String,
    field: &InputField,
    bytes: &[u8],
    cell: Option<(u16, u16)>,
) -> Result<(), AllocError> {
    let area = field.area();
    let width = area.left.saturating_add(area.width).saturating_add(1);
    let height = area.top.saturating_add(area.height).saturating_add(1);
    let mut screen = Screen::new(*answer.allocator(), width, height)?;
    fill(*answer.allocator(), &mut screen, width, height)?;
    match screen.read_bytes(bytes) {
        Ok(()) => push_screen(answer, &screen)?,
        Err(NotPlain::Memory) => return Err(AllocError),
        Err(NotPlain::Undefined) => answer.push_str("undefined\n")?,
    }
    match cell {
        Some((x, y)) => write!(answer, "cursor {x} {y}\n"),
        None => answer.push_str("no cursor\n"),
    }
}

// Fills a screen with hyphens, so that each cell that is drawn shows.
fn fill(alloc: Global, screen: &mut Screen, width: u16, height: u16) -> Result<(), AllocError> {
    let row = "-".repeat(alloc, usize::from(width))?;
    for y in 1..=u32::from(height) {
        let bytes = format!(in alloc; "\u{1b}[{y};1H{row}")?;
        match screen.read_bytes(bytes.as_bytes()) {
            Ok(()) | Err(NotPlain::Undefined) => {}
            Err(NotPlain::Memory) => return Err(AllocError),
        }
    }
    Ok(())
}

fn push_screen(answer: &mut String, screen: &Screen) -> Result<(), AllocError> {
    write!(answer, "{screen}")?;
    let looks = screen.looks()?;
    if looks.pens().is_empty() {
        return Ok(());
    }
    write!(answer, "{looks}")?;
    for (letter, pen) in "abcdefgh".chars().zip(looks.pens()) {
        answer.push(letter)?;
        push_pen(answer, *pen)?;
    }
    Ok(())
}

// A pen as words: its colors, and the attributes whose codes it has.
fn push_pen(answer: &mut String, pen: Pen) -> Result<(), AllocError> {
    push_color(answer, "fg", pen.fg)?;
    push_color(answer, "bg", pen.bg)?;
    if pen.codes.has(Attribute::Reverse) {
        answer.push_str(" Reverse")?;
    }
    answer.push('\n')
}

fn push_color(answer: &mut String, what: &str, color: Option<Color>) -> Result<(), AllocError> {
    match color {
        Some(color) => write!(answer, " {what}={color:?}"),
        None => Ok(()),
    }
}
