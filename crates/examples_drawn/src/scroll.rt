//! A view of a text, scrolled by a script: after each step the screen is written as rows of text.
ghost use Rattle.std.specs.Prelude.{IfOk};
ghost use Rattle.termimad.specs.Areas.{IsWithinLimits};
ghost use Rattle.termimad.specs.Views.{view_area};

use std::alloc::Global;
use termimad::screen::Screen;
use termimad::{Area, Error, MadSkin, TestTerminal, TextView};

const TEXT: &str =
    "# Stops\n* Albury\n* Benalla\n* Chiltern\n* Euroa\n* Glenrowan\n* Seymour\n* Violet Town";

pub fn run(rt: &HostRuntime) -> Result<(), Error> {
    let alloc = rt.alloc();
    let skin = MadSkin::default();
    let area = Area::new(0, 0, 16, 4);
    let text = skin.area_text(alloc, TEXT, &area)?;
    let mut view = TextView::from(&area, &text);
    for wanted in [0, 2, 100] {
        let scroll = view.set_scroll(wanted);
        let screen = screen_of(alloc, &view)?;
        println!(rt; "scroll {wanted}: the first line is number {scroll}\n{screen}")?;
    }
    Ok(())
}

// What a screen of the area's size shows of a view.
fn screen_of(alloc: Global, view: &TextView<'_, '_>) -> Result<Screen, Error>
    requires { IsWithinLimits (view_area view.now) }
{
    let mut terminal = TestTerminal::new(alloc, 16, 4);
    view.write_on(alloc, &mut terminal)?;
    Ok(terminal.shown(alloc)?)
}
