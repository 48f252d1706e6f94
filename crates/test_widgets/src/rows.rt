//! Rows of a list without a terminal: a script changes them, and each `show` tells what they are.

use crate::items::{ByNumber, Item, Without, item_of};
use mad_list::ListRows;
use std::alloc::{AllocError, Global};

type Rows = ListRows<Item, Without, ByNumber>;

/// What the `show`s of a script tell, in a body of so many rows.
pub fn shown(alloc: Global, body: usize, script: &str) -> Result<String, AllocError> {
    let mut rows: Rows = ListRows::new(alloc);
    let mut told = String::new(alloc);
    for line in script.split('\n') {
        if line == "show" {
            push_state(&rows, &mut told)?;
        } else {
            change_whole(alloc, &mut rows, body, line, &mut told)?;
        }
    }
    Ok(told)
}

// Changes rows. Where that is refused and they aren't what they were, it says so.
fn change_whole(
    alloc: Global,
    rows: &mut Rows,
    body: usize,
    line: &str,
    told: &mut String,
) -> Result<(), AllocError> {
    let (command, words) = line.split_once(' ').unwrap_or((line, ""));
    let mut before = String::new(alloc);
    push_state(rows, &mut before)?;
    let Err(refused) = change(rows, body, command, words) else {
        return Ok(());
    };
    let mut after = String::new(alloc);
    push_state(rows, &mut after)?;
    if after != before {
        return told.push_str("changed by a refusal\n");
    }
    Err(refused)
}

fn change(rows: &mut Rows, body: usize, command: &str, words: &str) -> Result<(), AllocError> {
    match command {
        "add" => rows.add_row(item_of(words), body)?,
        "sort" => rows.sort(ByNumber),
        "clear" => rows.clear(),
        "without" => rows.set_filter(Without(words.parse().unwrap_or(0))),
        "all" => rows.remove_filter(),
        "next" => rows.select_next(false, body),
        "previous" => rows.select_next(true, body),
        "first" => rows.select_first(body),
        "last" => rows.select_last(body),
        "unselect" => rows.unselect(),
        "lines" => rows.scroll_lines(words.parse().unwrap_or(0), body),
        "bottom" => rows.scroll_to_bottom(body),
        "visible" => rows.make_selection_visible(body),
        _ => (),
    }
    Ok(())
}

// The shown rows, how many there are, the scroll and the selected row's index.
fn push_state(rows: &Rows, told: &mut String) -> Result<(), AllocError> {
    let (_, count) = rows.row_counts();
    let mut from = 0;
    for _ in 0..count {
        let Some((i, item)) = rows.shown_from(from) else {
            break;
        };
        write!(told, "{}{} ", item.number, item.letter)?;
        from = i + 1;
    }
    write!(told, "of {count}, scroll {}, ", rows.scroll())?;
    match rows.selection() {
        Some(i) => write!(told, "selected {i}\n"),
        None => write!(told, "none selected\n"),
    }
}
