//! A text on a device of one's own, and what the library's contract says of its bytes.
ghost use Rattle.std.specs.Prelude.{◌≤◌, IfOk};
ghost use Rattle.termimad.specs.Areas.{IsWithinLimits};
ghost use Rattle.termimad.specs.InArea.{ShowsText};
ghost use Rattle.termimad.specs.RowSkins.{row_skin};
ghost use Rattle.termimad.specs.Skins.{no_style_skin};
ghost use Rattle.examples_drawn.specs.Page.{page_trace, empty_page};

mod page;

use crate::custom_device::page::Page;
use std::alloc::Global;
use termimad::{Area, Error, MadSkin};

pub fn run(rt: &HostRuntime) -> Result<(), Error> {
    let page = page_with(
        rt.alloc(),
        "# Hello\n* *one* item\n> and a quote",
        &Area::new(0, 0, 24, 3),
    )?;
    println!(rt; "{} bytes", page.bytes.len())?;
    Ok(())
}

// A page with a text in an area. A plain terminal that reads the page shows the text there: the page tells its bytes,
// so the clause of `write_in_area_on` speaks of them.
fn page_with(alloc: Global, text: &str, area: &Area) -> Result<Page, Error>
    requires limits { IsWithinLimits area.now }
    requires columns { 4 ≤ area.now.width }
    ensures { IfOk result (λ page. ShowsText (row_skin no_style_skin) text.now area.now empty_page (page_trace page)) }
{
    let mut page = Page::new(alloc);
    MadSkin::no_style().write_in_area_on(alloc, &mut page, text, area)?;
    Ok(page)
}
