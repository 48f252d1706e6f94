//! A dialog over a page: a filled rectangle with a title, a text in it, and a progress bar. The screen that shows it is written as rows.
ghost use Rattle.std.specs.Prelude.{◌≤◌};
ghost use Rattle.termimad.specs.Areas.{IsWithinLimits};

use std::alloc::Global;
use termimad::{
    Area, BORDER_STYLE_MIDDLE_ROUND_LINE, CompoundStyle, CropWriter, Error, Filling, MadSkin, Out,
    ProgressBar, Rect, TestTerminal, queue_move,
};

const PAGE: &str =
    "# Archive\nEach report of the year is kept, with its pictures and its tables. Reports of the years before are \
    packed: they are unpacked on the way to the screen, which may take a while.\n* 2024: 52 reports\n* 2025: 49 reports\n* 2026: 31 reports";

const WHAT: &str = "Of **30** pages of *report 31* these are read:";

pub fn run(rt: &HostRuntime) -> Result<(), Error> {
    let alloc = rt.alloc();
    let skin = MadSkin::no_style();
    let mut terminal = TestTerminal::new(alloc, 44, 9);
    skin.write_in_area_on(alloc, &mut terminal, PAGE, &Area::new(0, 0, 44, 9))?;
    let area = Area::new(6, 2, 32, 5);
    draw_frame(alloc, &mut terminal, &area, " Unpacking ")?;
    skin.write_in_area_on(alloc, &mut terminal, WHAT, &Area::new(8, 3, 28, 2))?;
    draw_bar(alloc, &mut terminal, &area, ProgressBar::new(17, 30, 28))?;
    print!(rt; "{}", terminal.shown(alloc)?)?;
    Ok(())
}

// A filled rectangle with a title on its top edge. The corner, a border character on each side and the other corner stay.
fn draw_frame<O: Out>(alloc: Global, out: &mut O, area: &Area, title: &str) -> Result<(), Error>
    requires columns { 4 ≤ area.now.width }
    requires rows { 1 ≤ area.now.height }
    requires limits { IsWithinLimits area.now }
{
    let mut frame = Rect::new(*area, CompoundStyle::default());
    frame.set_border_style(BORDER_STYLE_MIDDLE_ROUND_LINE);
    frame.set_fill(true);
    frame.draw(alloc, out)?;
    queue_move(alloc, out, area.left + 2, area.top)?;
    CropWriter::new(out, usize::from(area.width) - 4).queue_unstyled_str(alloc, title)
}

// A progress bar in the last row of the inside, with points up to its end.
fn draw_bar<O: Out>(alloc: Global, out: &mut O, area: &Area, bar: ProgressBar) -> Result<(), Error>
    requires columns { 4 ≤ area.now.width }
    requires rows { 3 ≤ area.now.height }
    requires limits { IsWithinLimits area.now }
{
    queue_move(alloc, out, area.left + 2, area.bottom() - 2)?;
    let mut rest = CropWriter::new(out, usize::from(area.width) - 4);
    rest.queue_unstyled_str(alloc, &bar.to_string(alloc)?)?;
    rest.fill_unstyled(&Filling::from_char(alloc, '·')?)
}
