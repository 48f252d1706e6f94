//! A field of a row, and what it answers to calls.

use crate::{calls, words};
use mad_field::InputField;
use std::alloc::{AllocError, Global};

/// What a field answers to calls, one after the other. It is focused and has the text, with the cursor at its start, scrolled there. The words
/// are its area and its calls: `0 0 10 3: move_to_end, state`. On devices, what is drawn goes to those that fail.
pub fn told(
    alloc: Global,
    words: &str,
    text: &str,
    on_devices: bool,
) -> Result<String, AllocError> {
    let (area, calls) = words.split_once(": ").unwrap_or((words, ""));
    let text: String = text.chars().filter_map(words::meant).collect(alloc)?;
    let mut field = InputField::new(alloc, words::area_of(area))?;
    field.insert_str(&text)?;
    field.move_to_start();
    let mut told = String::new(alloc);
    for call in calls.split(", ") {
        let (name, rest) = call.split_once(' ').unwrap_or((call, ""));
        let name = match name {
            "draw" | "bytes" if on_devices => "devices",
            name => name,
        };
        apply_whole(&mut told, &mut field, name, rest)?;
    }
    Ok(told)
}

// What a call of a row may write of itself.
const ROOM: usize = 500;

// Applies a call. Where it is refused and the field isn't as it was, it says so. `cut_and_insert` is two calls.
fn apply_whole(
    answer: &mut String,
    field: &mut InputField,
    name: &str,
    rest: &str,
) -> Result<(), AllocError> {
    answer.reserve(ROOM)?;
    let content = field.content().try_clone(*answer.allocator())?;
    let state = (field.scroll(), field.focused());
    let applied = calls::apply(answer, field, name, rest);
    let is_same = field.content() == &content && (field.scroll(), field.focused()) == state;
    if applied.is_ok() || is_same || name == "cut_and_insert" {
        return applied;
    }
    answer.push_str("changed by a refusal\n")
}
