//! Three views side by side, each with a text and a bar of its own. The screen is written as rows of text, for two scrolls of the view in the
//! middle.
ghost use Rattle.std.specs.Prelude.{IfOk, ◌+◌, ◌≤◌};
ghost use Rattle.termimad.specs.Areas.{IsWithinLimits};
ghost use Rattle.termimad.specs.MadViews.{area_of};

use std::alloc::{AllocError, Global};
use termimad::screen::Screen;
use termimad::{Area, Error, MadSkin, MadView, TestTerminal, draw_views};

const COLUMNS: u16 = 60;

const ROWS: u16 = 6;

const STOPS: &str = "# Stops\n* Albury\n* **Benalla**\n* Chiltern";

const STOP: &str =
    "# Benalla\nThe train waits here for the one from the south. *Ten minutes* are enough for a coffee.\n\
    > Platform 2\n\n* toilets\n* water\n* bicycles";

const TRAINS: &str = "|train|from|\n|-|-|\n|08:10|south|\n|08:20|north|\n|10:10|south|";

pub fn run(rt: &HostRuntime) -> Result<(), Error> {
    for scroll in [0, 4] {
        let screen = screen_of(rt.alloc(), scroll)?;
        println!(rt; "{screen}")?;
    }
    Ok(())
}

// What a screen shows of the views, where the one in the middle shows its text from this line on.
fn screen_of(alloc: Global, scroll: usize) -> Result<Screen, Error> {
    let stops = view(alloc, 0, 12, STOPS)?;
    let mut stop = view(alloc, 13, 28, STOP)?;
    stop.scroll = scroll;
    let trains = view(alloc, 42, 18, TRAINS)?;
    let views = [stops, stop, trains];
    let mut terminal = TestTerminal::new(alloc, COLUMNS, ROWS);
    draw_views(alloc, &mut terminal, &views)?;
    Ok(terminal.shown(alloc)?)
}

// A view of a text in some columns of the screen.
fn view(alloc: Global, left: u16, width: u16, text: &str) -> Result<MadView, AllocError>
    requires { left + width ≤ COLUMNS }
    ensures { IfOk result (λ view. IsWithinLimits (area_of view)) }
{
    let text = String::from_str(alloc, text)?;
    let area = Area::new(left, 0, width, ROWS);
    Ok(MadView::from(text, area, MadSkin::default()))
}
