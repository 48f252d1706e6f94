//! What the calls of a row do to a field.

use crate::{devices, inputs, pictures, texts, words};
use mad_field::InputField;
use mad_style::CompoundStyle;
use mad_term::Color;
use std::alloc::AllocError;

/// Applies a call, and appends what it answers.
pub fn apply(
    answer: &mut String,
    field: &mut InputField,
    name: &str,
    rest: &str,
) -> Result<(), AllocError> {
    match name {
        "state" => pictures::push_state(answer, field),
        "draw" => pictures::push_drawing(answer, field),
        "bytes" => devices::push_bytes(answer, field),
        "devices" => devices::push_tried(answer, field),
        _ => apply_call(answer, field, name, rest),
    }
}

fn apply_call(
    answer: &mut String,
    field: &mut InputField,
    name: &str,
    rest: &str,
) -> Result<(), AllocError> {
    if set(field, name, rest)? {
        return Ok(());
    }
    let done = match moved(field, name) {
        Some(done) => Some(done),
        None => texts::edited(field, name, rest)?,
    };
    match done {
        Some(done) => write!(answer, "{name} {done}\n"),
        None => apply_other(answer, field, name, rest),
    }
}

fn apply_other(
    answer: &mut String,
    field: &mut InputField,
    name: &str,
    rest: &str,
) -> Result<(), AllocError> {
    if texts::push_text(answer, field, name, rest)? {
        return Ok(());
    }
    inputs::push_input(answer, field, name, rest)
}

// Settings, which answer nothing. Whether it is one of them.
fn set(field: &mut InputField, name: &str, rest: &str) -> Result<bool, AllocError> {
    match name {
        "focus" => field.set_focus(true),
        "unfocus" => field.set_focus(false),
        "password" => field.password_mode = true,
        "at" => field.set_cursor_pos(words::position(rest)),
        "mono_line" => field.set_mono_line(),
        "new_line_on" => field.new_line_on(words::key_of(rest))?,
        "enter_is_new_line" => field.new_line_on(InputField::ENTER)?,
        "alt_enter_is_new_line" => field.new_line_on(InputField::ALT_ENTER)?,
        "tail" => {
            field.set_cursor_pos(words::position(rest));
            field.apply_keycode_event(words::code_of("Null"), true)?;
        }
        _ => return Ok(set_looks(field, name, rest)),
    }
    Ok(true)
}

fn set_looks(field: &mut InputField, name: &str, rest: &str) -> bool {
    match name {
        "area" => field.set_area(words::area_of(rest)),
        "change_area" => {
            let area = words::area_of(rest);
            field.change_area(area.left, area.top, area.width);
        }
        "blue" => field.set_normal_style(CompoundStyle::with_bg(Color::AnsiValue(4))),
        "grey" => field.set_unfocused_style(CompoundStyle::with_fg(Color::AnsiValue(8))),
        _ => return false,
    }
    true
}

// Moves and selections, if it is one of them.
fn moved(field: &mut InputField, name: &str) -> Option<bool> {
    let done = match name {
        "move_left" => field.move_left(),
        "move_right" => field.move_right(),
        "move_up" => field.move_up(),
        "move_down" => field.move_down(),
        "move_to_start" => field.move_to_start(),
        "move_to_end" => field.move_to_end(),
        "move_to_line_start" => field.move_to_line_start(),
        "move_to_line_end" => field.move_to_line_end(),
        "move_word_left" => field.move_word_left(),
        "move_word_right" => field.move_word_right(),
        "page_up" => field.page_up(),
        "page_down" => field.page_down(),
        _ => return changed(field, name),
    };
    Some(done)
}

fn changed(field: &mut InputField, name: &str) -> Option<bool> {
    let done = match name {
        "select_word_around" => field.select_word_around(),
        "select_non_space_around" => field.select_non_space_around(),
        "move_current_line_up" => field.move_current_line_up(),
        "move_current_line_down" => field.move_current_line_down(),
        "scroll_up" => field.scroll_up(),
        "scroll_down" => field.scroll_down(),
        "can_move_left" => field.can_move_left(),
        "can_move_right" => field.can_move_right(),
        "is_empty" => field.is_empty(),
        "focused" => field.focused(),
        _ => return None,
    };
    Some(done)
}
