//! A list of rivers that a script of standard input filters, sorts, scrolls and chooses from. `picture` writes what a screen shows then.
//!
//! 1. [`rivers`]: the rows of the list.
//! 2. [`choices`]: the filter and the order, each made of a box.
mod choices;
mod rivers;

use crate::list::choices::{BoxedFilter, BoxedOrder};
use crate::list::rivers::{RIVERS, River, Shown};
use std::alloc::{AllocError, Global};
use std::io::{self, Error as IoError, ErrorKind, Read};
use termimad::screen::{NotPlain, Screen};
use termimad::{
    Alignment, Area, CutOut, Error, ListView, ListViewColumn, MadSkin, RowFilter, RowOrder,
};

// More bytes than a picture takes.
const ROOM: usize = 2000;

pub fn run<R: Read + Drop>(rt: &HostRuntime, input: R) -> Result<(), Error> {
    let alloc = rt.alloc();
    let script = io::read_to_string(alloc, input)?;
    let length = 1000;
    let long = Box::new(alloc, move |river: &River| river.length() > length)?;
    let by_name = Box::new(alloc, |a: &River, b: &River| a.name().cmp(b.name()))?;
    obey(
        rt,
        alloc,
        &script,
        BoxedFilter::new(long),
        BoxedOrder::new(by_name),
    )
}

// Obeys the script. `long` filters and `sort` sorts, each once.
fn obey<F: RowFilter<River>, O: RowOrder<River>>(
    rt: &impl Print,
    alloc: Global,
    script: &str,
    filter: F,
    order: O,
) -> Result<(), Error> {
    let skin = MadSkin::no_style();
    let area = Area::new(0, 0, 18, 6);
    let mut list: ListView<'_, River, Shown, F, O> = ListView::new(
        alloc,
        area,
        columns(alloc)?,
        &skin,
    );
    let mut filter = Some(filter);
    let mut order = Some(order);
    for command in script.lines() {
        println!(rt; "> {command}")?;
        match command {
            "picture" => print!(rt; "{}", screen_of(alloc, &mut list)?)?,
            "choose" => match list.get_selection() {
                Some(river) => println!(rt; "the {}, of {} km", river.name(), river.length())?,
                None => println!(rt; "none")?,
            },
            "long" => {
                if let Some(filter) = filter.take() {
                    list.set_filter(filter);
                }
            }
            "sort" => {
                if let Some(order) = order.take() {
                    list.sort(order);
                }
            }
            command => change(&mut list, command)?,
        }
    }
    Ok(())
}

fn columns(alloc: Global) -> Result<Vec<ListViewColumn<Shown>>, AllocError> {
    let name = Shown {
        alloc,
        is_length: false,
    };
    let length = Shown {
        alloc,
        is_length: true,
    };
    let mut columns = Vec::new(alloc);
    columns.push(ListViewColumn::new(alloc, "river", 6, 12, name)?.with_align(Alignment::Left))?;
    columns.push(ListViewColumn::new(alloc, "km", 5, 6, length)?.with_align(Alignment::Right))?;
    Ok(columns)
}

fn change<F: RowFilter<River>, O: RowOrder<River>>(
    list: &mut ListView<'_, River, Shown, F, O>,
    command: &str,
) -> Result<(), Error> {
    let (name, number) = command.split_once(' ').unwrap_or((command, ""));
    match name {
        "add" => {
            for river in RIVERS {
                list.add_row(river)?;
            }
        }
        "clear" => list.clear_rows(),
        "all" => list.remove_filter(),
        "down" => list.try_select_next(false),
        "up" => list.try_select_next(true),
        "lines" => list.try_scroll_lines(number.parse().unwrap_or(0)),
        _ => list.scroll_to_bottom(),
    }
    Ok(())
}

// What a screen of the area's size shows of a list. The columns are fitted to the area first.
fn screen_of<F: RowFilter<River>, O: RowOrder<River>>(
    alloc: Global,
    list: &mut ListView<'_, River, Shown, F, O>,
) -> Result<Screen, Error> {
    list.area = Area::new(0, 0, 18, 6);
    list.update_dimensions();
    let mut out = CutOut::new(alloc, ROOM, ROOM, false)?;
    list.write_on(alloc, &mut out)?;
    let mut screen = Screen::new(alloc, 18, 6)?;
    match screen.read_bytes(out.taken()) {
        Ok(()) => Ok(screen),
        Err(NotPlain::Memory) => Err(Error::Memory),
        Err(NotPlain::Undefined) => Err(Error::IO(IoError::from(ErrorKind::InvalidData))),
    }
}
