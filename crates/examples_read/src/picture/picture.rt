//! A screen as an SVG: for each run of cells in one pen a shape and a text.

ghost use Rattle.std.specs.Prelude.{◌≤◌, ◌^◌};

use crate::picture::paint::{Ground, paints_of};
use std::fmt;
use termimad::Attribute;
use termimad::screen::{Cell, Pen, Screen};

// The size of a cell, the space around all cells, how far below its top a cell's text is, in the image's units.
const CELL_WIDTH: u32 = 9;

const CELL_HEIGHT: u32 = 18;

const MARGIN: u32 = 12;

const BASELINE: u32 = 13;

fn columns_wide(columns: u16) -> u32
    ensures { result ≤ 2 ^ 20 }
{
    CELL_WIDTH * u32::from(columns)
}

// Where a column begins.
fn left_of(x: u16) -> u32
    ensures { result ≤ 2 ^ 21 }
{
    MARGIN + columns_wide(x)
}

// Where a row begins.
fn top_of(y: u16) -> u32
    ensures { result ≤ 2 ^ 21 }
{
    MARGIN + CELL_HEIGHT * u32::from(y)
}

/// A screen as an SVG, with its rows as text in the description.
#[derive(Clone, Copy)]
pub struct Picture<'s> {
    screen: &'s Screen,
    ground: Ground,
}

impl<'s> Picture<'s> {
    /// The picture of a screen on a ground.
    pub fn new(screen: &'s Screen, ground: Ground) -> Self {
        Picture { screen, ground }
    }

    // The pen of a cell, and whether its character takes two columns.
    fn look(&self, x: u16, y: u16) -> (Pen, bool) {
        match self.screen.cell(x, y) {
            Some(cell) => (
                cell.pen,
                cell.is_tail() || self.is_tail(x.saturating_add(1), y),
            ),
            None => (Pen::default(), false),
        }
    }

    fn is_tail(&self, x: u16, y: u16) -> bool {
        self.screen.cell(x, y).is_some_and(Cell::is_tail)
    }

    // Whether a run begins in this column: another pen than in the one before it, or wide characters beside others.
    fn begins_run(&self, x: u16, y: u16) -> bool {
        x == 0 || self.look(x - 1, y) != self.look(x, y)
    }

    // The run that begins in this column.
    fn run_from(&self, start: u16, y: u16) -> Run<'s> {
        let mut end = start;
        for x in start..self.screen.width() {
            if x > start && self.begins_run(x, y) {
                break;
            }
            end = x + 1;
        }
        Run {
            screen: self.screen,
            start,
            end,
            y,
        }
    }
}

impl fmt::Display for Picture<'_> {
    fn fmt<W: fmt::Write>(&self, f: &mut fmt::Formatter<W>) -> fmt::Result {
        let (width, height) = (
            left_of(self.screen.width()) + MARGIN,
            top_of(self.screen.height()) + MARGIN,
        );
        write!(
            f,
            "<svg xmlns=\"http://www.w3.org/2000/svg\" width=\"{width}\" height=\"{height}\">\n<desc>\n"
        )?;
        for y in 0..self.screen.height() {
            let row = Run {
                screen: self.screen,
                start: 0,
                end: self.screen.width(),
                y,
            };
            write!(f, "{row}\n")?;
        }
        let Ground { paper, edge, .. } = self.ground;
        write!(
            f,
            "</desc>\n<rect width=\"{width}\" height=\"{height}\" rx=\"6\" fill=\"{paper}\" stroke=\"{edge}\" stroke-width=\"2\"/>\n"
        )?;
        write!(
            f,
            "<g font-family=\"monospace\" font-size=\"15\" xml:space=\"preserve\">\n"
        )?;
        for y in 0..self.screen.height() {
            for x in 0..self.screen.width() {
                if self.begins_run(x, y) {
                    let run = Shapes(self.run_from(x, y), self.ground);
                    write!(f, "{run}")?;
                }
            }
        }
        write!(f, "</g>\n</svg>\n")
    }
}

// Cells side by side, from one column up to another. Displayed, they are their characters, as XML has them.
#[derive(Clone, Copy)]
struct Run<'s> {
    screen: &'s Screen,
    start: u16,
    end: u16,
    y: u16,
}

impl Run<'_> {
    // Whether all its cells show spaces.
    fn is_blank(&self) -> bool {
        for x in self.start..self.end {
            if self
                .screen
                .cell(x, self.y)
                .is_some_and(|cell| cell.chars.as_slice() != [' '].as_slice())
            {
                return false;
            }
        }
        true
    }
}

impl fmt::Display for Run<'_> {
    fn fmt<W: fmt::Write>(&self, f: &mut fmt::Formatter<W>) -> fmt::Result {
        for x in self.start..self.end {
            if let Some(cell) = self.screen.cell(x, self.y) {
                for c in &cell.chars {
                    match *c {
                        '&' => write!(f, "&amp;")?,
                        '<' => write!(f, "&lt;")?,
                        c => write!(f, "{c}")?,
                    }
                }
            }
        }
        Ok(())
    }
}

// A run as it is drawn on a ground: what is below it, if that isn't the ground's own color, and its text.
#[derive(Clone, Copy)]
struct Shapes<'s>(Run<'s>, Ground);

impl fmt::Display for Shapes<'_> {
    fn fmt<W: fmt::Write>(&self, f: &mut fmt::Formatter<W>) -> fmt::Result {
        let Shapes(run, ground) = *self;
        let Some(cell) = run.screen.cell(run.start, run.y) else {
            return Ok(());
        };
        let (ink, paper) = paints_of(cell.pen, ground);
        let (left, top) = (left_of(run.start), top_of(run.y));
        let width = columns_wide(run.end.saturating_sub(run.start));
        if paper != ground.paper {
            write!(
                f,
                "<rect x=\"{left}\" y=\"{top}\" width=\"{width}\" height=\"{CELL_HEIGHT}\" fill=\"{paper}\"/>\n"
            )?;
        }
        if run.is_blank() && decoration_of(cell.pen).is_none() {
            return Ok(());
        }
        let baseline = top + BASELINE;
        write!(
            f,
            "<text x=\"{left}\" y=\"{baseline}\" textLength=\"{width}\" lengthAdjust=\"spacingAndGlyphs\" fill=\"{ink}\""
        )?;
        for (attribute, words) in ATTRIBUTES {
            if cell.pen.codes.has(attribute) {
                write!(f, " {words}")?;
            }
        }
        if let Some(lines) = decoration_of(cell.pen) {
            write!(f, " text-decoration=\"{lines}\"")?;
        }
        write!(f, ">{run}</text>\n")
    }
}

// How an image says an attribute.
const ATTRIBUTES: [(Attribute, &str); 4] = [
    (Attribute::Bold, "font-weight=\"bold\""),
    (Attribute::Dim, "opacity=\"0.6\""),
    (Attribute::Italic, "font-style=\"italic\""),
    (Attribute::Hidden, "visibility=\"hidden\""),
];

// The lines below characters and through them.
fn decoration_of(pen: Pen) -> Option<&'static str> {
    match (
        pen.codes.has(Attribute::Underlined),
        pen.codes.has(Attribute::CrossedOut),
    ) {
        (true, true) => Some("underline line-through"),
        (true, false) => Some("underline"),
        (false, true) => Some("line-through"),
        (false, false) => None,
    }
}
