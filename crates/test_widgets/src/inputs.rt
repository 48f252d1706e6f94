//! Keys, clicks and events.

use crate::words;
use bitflags::Flags;
use mad_edit::Pos;
use mad_field::InputField;
use mad_term::{Event, KeyEvent, MouseEvent, TimedEvent};
use std::alloc::{AllocError, Global};

/// Applies a key, a click or an event, and appends what it answers.
pub fn push_input(
    answer: &mut String,
    field: &mut InputField,
    name: &str,
    rest: &str,
) -> Result<(), AllocError> {
    if let Some(done) = key(field, name, rest)? {
        return write!(answer, "{name} {rest} {done}\n");
    }
    if !field.area().is_within_limits() {
        return write!(answer, "the area is out of limits\n");
    }
    match name {
        "pos" => {
            let (x, y) = words::pair(rest);
            push_pos(answer, field.get_pos(y, x))
        }
        "mouse_pos" => {
            let (event, _) = words::mouse_of(rest);
            push_pos(answer, field.get_mouse_event_pos(event))
        }
        "click" => {
            let (x, y) = words::pair(rest);
            let done = field.apply_click_event(x, y);
            write!(answer, "{name} {rest} {done}\n")
        }
        _ => push_event(answer, field, name, rest),
    }
}

// Applies a key, if it is one.
fn key(field: &mut InputField, name: &str, rest: &str) -> Result<Option<bool>, AllocError> {
    let key = words::key_of(rest);
    let event = KeyEvent {
        code: key.code,
        modifiers: key.modifiers,
    };
    let done = match name {
        "key" => field.apply_key_event(event)?,
        "combination" => field.apply_key_combination(key)?,
        "code" => field.apply_keycode_event(key.code, false)?,
        "shift_code" => field.apply_keycode_event(key.code, true)?,
        _ => return Ok(None),
    };
    Ok(Some(done))
}

fn push_event(
    answer: &mut String,
    field: &mut InputField,
    name: &str,
    rest: &str,
) -> Result<(), AllocError> {
    let done = match name {
        "mouse" => mouse(field, words::mouse_of(rest)),
        "event" => event(field, words::event_of(rest))?,
        "timed" => timed(field, words::event_of(rest))?,
        _ => return write!(answer, "no call {name}\n"),
    };
    write!(answer, "{name} {rest} {done}\n")
}

fn mouse(field: &mut InputField, (event, double): (MouseEvent, bool)) -> bool {
    field.area().is_within_limits() && field.apply_mouse_event(event, double)
}

fn event(field: &mut InputField, (event, double): (Event, bool)) -> Result<bool, AllocError> {
    if !field.area().is_within_limits() {
        return Ok(false);
    }
    field.apply_event(&event, double)
}

fn timed(field: &mut InputField, (event, double): (Event, bool)) -> Result<bool, AllocError> {
    if !field.area().is_within_limits() {
        return Ok(false);
    }
    let mut event = TimedEvent::new(event, 1000);
    event.double_click = double;
    field.apply_timed_event(&event)
}

fn push_pos(answer: &mut String, position: Option<Pos>) -> Result<(), AllocError> {
    match position {
        Some(Pos { y, x }) => write!(answer, "position {x} {y}\n"),
        None => answer.push_str("no position\n"),
    }
}

/// What an event is: `as_click EVENT` tells the cell of a click, `is_key KEY: EVENT` whether it is that key. Other words are names of modifiers,
/// and are told as a number.
pub fn told(alloc: Global, call: &str) -> Result<String, AllocError> {
    let mut answer = String::new(alloc);
    let (head, event) = call.split_once(": ").unwrap_or((call, ""));
    match head.split_once(' ') {
        Some(("as_click", event)) => push_click(&mut answer, event)?,
        Some(("is_key", key)) => push_is_key(&mut answer, key, event)?,
        _ => write!(answer, "{}", words::modifiers_of(head).bits())?,
    }
    Ok(answer)
}

// Appends the cell of a click, if the event is one.
fn push_click(answer: &mut String, event: &str) -> Result<(), AllocError> {
    let (event, double) = words::event_of(event);
    let mut event = TimedEvent::new(event, 1000);
    event.double_click = double;
    match event.as_click() {
        Some((x, y)) => write!(answer, "{x} {y}"),
        None => answer.push_str("no click"),
    }
}

// Appends whether an event is a key. The event may have a combination, after `as`.
fn push_is_key(answer: &mut String, key: &str, event: &str) -> Result<(), AllocError> {
    let (event, combination) = event.split_once(" as ").unwrap_or((event, ""));
    let (event, _) = words::event_of(event);
    let mut event = TimedEvent::new(event, 1000);
    if !combination.is_empty() {
        event.key_combination = Some(words::key_of(combination));
    }
    let is = event.is_key(words::key_of(key));
    write!(answer, "{is}")
}
