//! Lists that are drawn: a script changes them, and some of its commands tell what they are.

ghost use Rattle.mad_measure.specs.Areas.{IsWithinLimits};

use crate::items::{ByNumber, Item, Part, Without, item_of};
use crate::refusal::Refusal;
use mad_layout::MadSkin;
use mad_list::{CellMeasure, ListView, ListViewColumn};
use mad_md::Alignment;
use mad_measure::Area;
use mad_screen::{CutOut, Screen};
use mad_style::{CompoundStyle, rgb};
use mad_term::Error;
use std::alloc::{AllocError, Global};
use test_rows::devices::Writing;

// More bytes than any row here writes.
const ROOM: usize = 20_000;

type List<'k> = ListView<'k, Item, Part, Without, ByNumber>;

/// What a script tells of a list. The words are its area, a skin and its columns: `0 0 9 4 plain n,3,3,letter v,3,3,number`. On devices, what
/// is written goes to those that fail.
pub fn told(alloc: Global, words: &str, script: &str, on_devices: bool) -> Result<String, Refusal> {
    let mut words = words.split(' ');
    let mut sides = [0; 4];
    for side in &mut sides {
        *side = words.next().unwrap_or("").parse().unwrap_or(0);
    }
    let skin = skin_of(alloc, words.next().unwrap_or(""))?;
    let mut columns = Vec::new(alloc);
    for word in words {
        columns.push(column_of(alloc, word)?)?;
    }
    let mut list: List = ListView::new(alloc, area_of(sides), columns, &skin);
    let mut told = String::new(alloc);
    for line in script.split('\n') {
        let (command, words) = line.split_once(' ').unwrap_or((line, ""));
        if !tell(alloc, &list, command, on_devices, &mut told)? && !select(&mut list, command) {
            change(alloc, &mut list, command, words)?;
        }
    }
    Ok(told)
}

fn area_of(sides: [u16; 4]) -> Area
    ensures { IsWithinLimits result }
{
    let [left, top, width, height] = sides;
    Area::new(
        left,
        top,
        width.min(u16::MAX - left),
        height.min(u16::MAX - top),
    )
}

// A skin without style, or one whose tables and headers are colored.
fn skin_of(alloc: Global, name: &str) -> Result<MadSkin, AllocError> {
    let mut skin = MadSkin::no_style();
    if name == "colored" {
        skin.table.set_fg(rgb(1, 2, 3));
        skin.set_headers_fg(rgb(4, 5, 6));
    }
    Ok(skin)
}

// A column, as `n,3,3,letter,left` or `n,3,3,letter,left,columns`.
fn column_of(alloc: Global, word: &str) -> Result<ListViewColumn<Part>, AllocError> {
    let mut parts = word.split(',');
    let title = parts.next().unwrap_or("");
    let least = parts.next().unwrap_or("").parse().unwrap_or(0);
    let greatest: usize = parts.next().unwrap_or("").parse().unwrap_or(0);
    let part = Part {
        alloc,
        is_number: parts.next().unwrap_or("") == "number",
        style: CompoundStyle::default(),
    };
    let column = ListViewColumn::new(alloc, title, least, greatest.max(least), part)?;
    let column = match parts.next().unwrap_or("") {
        "left" => column.with_align(Alignment::Left),
        "right" => column.with_align(Alignment::Right),
        _ => column,
    };
    Ok(match parts.next() {
        Some("columns") => column.with_measure(CellMeasure::Columns),
        _ => column,
    })
}

// What a command tells, if it is one that tells something.
fn tell(
    alloc: Global,
    list: &List,
    command: &str,
    on_devices: bool,
    told: &mut String,
) -> Result<bool, Refusal> {
    match command {
        "devices" => push_tried(alloc, list, told)?,
        "write" | "picture" if on_devices => push_tried(alloc, list, told)?,
        "write" => {
            let out = written(alloc, list)?;
            write!(
                told,
                "{}\n",
                str::from_utf8(out.taken()).unwrap_or("no text")
            )?;
        }
        "picture" => {
            let mut screen = Screen::new(alloc, 14, 6)?;
            screen.read_bytes(written(alloc, list)?.taken())?;
            write!(told, "{screen}")?;
        }
        "flushes" if list.area.is_within_limits() => {
            let mut out = CutOut::new(alloc, ROOM, ROOM, false)?;
            list.write(alloc, &mut out)?;
            write!(told, "{} puts, {} flushes\n", out.puts(), out.flushes())?;
        }
        "state" => push_state(list, told)?,
        _ => return Ok(false),
    }
    Ok(true)
}

fn written(alloc: Global, list: &List) -> Result<CutOut, Refusal> {
    let mut out = CutOut::new(alloc, ROOM, ROOM, false)?;
    if list.area.is_within_limits() {
        list.write_on(alloc, &mut out)?;
    }
    Ok(out)
}

// What devices that fail get of a list.
fn push_tried(alloc: Global, list: &List, told: &mut String) -> Result<(), Refusal> {
    let tried = test_rows::devices::tried(alloc, &Drawn(list))?;
    write!(told, "{tried}\n")?;
    Ok(())
}

// What goes out of a list, with a flush.
#[derive(Drop)]
struct Drawn<'l, 'k>(&'l List<'k>);

impl Writing for Drawn<'_, '_> {
    fn write(&self, alloc: Global, out: &mut CutOut) -> Result<(), Error> {
        if !self.0.area.is_within_limits() {
            return Ok(());
        }
        self.0.write(alloc, out)
    }
}

// The counts, the selected row, the body's height and the bar's thumb.
fn push_state(list: &List, told: &mut String) -> Result<(), AllocError> {
    let (shown, all) = list.row_counts();
    write!(told, "{shown} of {all}, ")?;
    match list.get_selection() {
        Some(item) => write!(told, "{}{} selected, ", item.number, item.letter)?,
        None => write!(told, "none selected, ")?,
    }
    write!(told, "body {}, ", list.tbody_height())?;
    match list.scrollbar() {
        Some((first, last)) => write!(told, "thumb {first} to {last}")?,
        None => write!(told, "no bar")?,
    }
    let bottom = if list.do_scroll_show_bottom() {
        ", bottom shown"
    } else {
        ""
    };
    write!(told, "{bottom}\n")
}

// Whether a command selects or scrolls; then it is done.
fn select(list: &mut List, command: &str) -> bool {
    match command {
        "next" => list.try_select_next(false),
        "previous" => list.try_select_next(true),
        "first" => list.select_first_line(),
        "last" => list.select_last_line(),
        "unselect" => list.unselect(),
        "bottom" => list.scroll_to_bottom(),
        "visible" => list.make_selection_visible(),
        _ => return false,
    }
    true
}

// Adds a row. Where that is refused, the row has to be handed back, and the list what it was.
fn add(alloc: Global, list: &mut List, item: Item) -> Result<(), Refusal> {
    let before = state_of(alloc, list)?;
    let Err(refused) = list.add_row(item) else {
        return Ok(());
    };
    let back = refused.value;
    let is_back = back.number == item.number && back.letter == item.letter;
    if is_back && state_of(alloc, list)? == before {
        return Err(Refusal::Memory);
    }
    Err(Refusal::Changed)
}

// What is written of a list, and its state.
fn state_of(alloc: Global, list: &List) -> Result<String, Refusal> {
    let mut state = String::from_utf8_lossy(alloc, written(alloc, list)?.taken())?;
    push_state(list, &mut state)?;
    Ok(state)
}

fn change(alloc: Global, list: &mut List, command: &str, words: &str) -> Result<(), Refusal> {
    match command {
        "add" => add(alloc, list, item_of(words))?,
        "sort" => list.sort(ByNumber),
        "clear" => list.clear_rows(),
        "without" => list.set_filter(Without(words.parse().unwrap_or(0))),
        "all" => list.remove_filter(),
        "lines" => list.try_scroll_lines(words.parse().unwrap_or(0)),
        "pages" => list.try_scroll_pages(words.parse().unwrap_or(0)),
        "fit" => list.update_dimensions(),
        _ => (),
    }
    Ok(())
}

/// A list of so many rows, scrolled to its bottom: what is written of it, and its counts.
pub fn many(alloc: Global, count: u32) -> Result<String, Refusal> {
    let skin = MadSkin::no_style();
    let mut columns = Vec::new(alloc);
    columns.push(column_of(alloc, "v,8,8,number")?)?;
    let mut list: List = ListView::new(alloc, area_of([0, 0, 9, 4]), columns, &skin);
    for number in 0..count {
        list.add_row(Item {
            number,
            letter: 'x',
        })?;
    }
    let mut told = String::new(alloc);
    tell(alloc, &list, "write", false, &mut told)?;
    tell(alloc, &list, "state", false, &mut told)?;
    Ok(told)
}
