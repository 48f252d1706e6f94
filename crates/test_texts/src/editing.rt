//! An editor after some calls. A picture of it shows the cursor as a bar in the text, and then what is selected.

use mad_edit::InputFieldContent;
use mad_edit_lines::Pos;
use std::alloc::{AllocError, Global};
use std::fmt::Write;

fn draw_text(picture: &mut String, content: &InputFieldContent) -> Result<(), AllocError> {
    let mut shown = content.try_clone(*picture.allocator())?;
    shown.insert_char('▮')?;
    write!(picture, "{shown}\n")
}

fn draw(picture: &mut String, content: &InputFieldContent) -> Result<(), AllocError> {
    draw_text(picture, content)?;
    if !content.has_selection() {
        return Ok(());
    }
    let selected = content.selection_string()?;
    write!(picture, "selected {selected}\n")
}

// Puts in two texts that were cut out of a line, the first after its first character and the second at its start.
fn undo(content: &mut InputFieldContent, texts: &str) -> Result<(), AllocError> {
    let (first, second) = texts.split_once(' ').unwrap_or((texts, ""));
    content.undo_cuts(&[(Pos::new(1, 0), first), (Pos::new(0, 0), second)])
}

fn first_char(text: &str) -> char {
    text.chars().next().unwrap_or(' ')
}

fn put_in(content: &mut InputFieldContent, call: &str, text: &str) -> Result<(), AllocError> {
    match call {
        "insert_char" => content.insert_char(first_char(text)),
        "push_char" => content.push_char(first_char(text)),
        "set_str" => content.set_str(text),
        "replace_selection" => content.replace_selection(text),
        _ => undo(content, text),
    }
}

// Calls that need no memory. An unknown one does nothing, and none does all that it has to.
fn moved(content: &mut InputFieldContent, call: &str) -> bool {
    match call {
        "move_down" => content.move_down(),
        "move_word_left" => content.move_word_left(),
        "move_current_line_down" => content.move_current_line_down(),
        "select_word_around" => content.select_word_around(),
        "select_non_space_around" => content.select_non_space_around(),
        "clear" => {
            content.clear();
            true
        }
        _ => call.is_empty(),
    }
}

// Applies a call, and tells whether that did something.
fn apply(content: &mut InputFieldContent, call: &str) -> Result<bool, AllocError> {
    match call {
        "del_char_left" => content.del_char_left(),
        "del_selection" => content.del_selection(),
        "del_word_left" => content.del_word_left(),
        "del_word_right" => content.del_word_right(),
        "insert_new_line" => {
            content.insert_new_line()?;
            Ok(true)
        }
        _ => Ok(moved(content, call)),
    }
}

fn draw_call(
    picture: &mut String,
    content: &mut InputFieldContent,
    call: &str,
) -> Result<(), AllocError> {
    let before = content.try_clone(*picture.allocator())?;
    let Ok(done) = applied(content, call) else {
        return draw_refused(picture, content, &before);
    };
    picture.push_str(if done { "" } else { "nothing: " })?;
    draw(picture, content)
}

fn applied(content: &mut InputFieldContent, call: &str) -> Result<bool, AllocError> {
    let Some((call, text)) = call.split_once(' ') else {
        return apply(content, call);
    };
    put_in(content, call, text)?;
    Ok(true)
}

// A refusal, or that the editor isn't what it was before it.
fn draw_refused(
    picture: &mut String,
    content: &InputFieldContent,
    before: &InputFieldContent,
) -> Result<(), AllocError> {
    if content == before {
        return Err(AllocError);
    }
    picture.push_str("changed by a refusal\n")
}

// An editor of a text. The numbers are the cursor's column and line, and then the tail's.
fn placed(alloc: Global, numbers: &[usize], text: &str) -> Result<InputFieldContent, AllocError> {
    let mut content = InputFieldContent::from(alloc, text)?;
    if let [x, y, ..] = *numbers {
        content.set_cursor_pos(Pos::new(x, y));
    }
    if let [_, _, x, y] = *numbers {
        content.set_selection_tail(Pos::new(x, y));
    }
    Ok(content)
}

/// An editor after each of some calls.
pub(crate) fn draw_edit(
    picture: &mut String,
    numbers: &[usize],
    calls: &str,
    text: &str,
) -> Result<(), AllocError> {
    let mut content = placed(*picture.allocator(), numbers, text)?;
    if !content.is_str(text) {
        picture.push_str("another text: ")?;
    }
    for call in calls.split(", ") {
        draw_call(picture, &mut content, call)?;
    }
    Ok(())
}

/// What is cut out of an editor, what is left, and that with the cut put in again.
pub(crate) fn draw_cut(
    picture: &mut String,
    numbers: &[usize],
    text: &str,
) -> Result<(), AllocError> {
    let mut content = placed(*picture.allocator(), numbers, text)?;
    let cut = content.cut_selection()?;
    write!(picture, "cut: {cut}\nleft: ")?;
    draw_text(picture, &content)?;
    content.insert_str(&cut)?;
    write!(picture, "again: {content}")
}
