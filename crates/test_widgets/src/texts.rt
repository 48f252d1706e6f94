//! Calls that take or hand out texts.

use crate::words;
use mad_edit::Pos;
use mad_field::InputField;
use std::alloc::AllocError;

/// Edits that answer whether anything was done, if it is one of them.
pub fn edited(field: &mut InputField, name: &str, rest: &str) -> Result<Option<bool>, AllocError> {
    let done = match name {
        "put_char" => field.put_char(words::char_of(rest))?,
        "insert_new_line" => field.insert_new_line()?,
        "del_char_left" => field.del_char_left()?,
        "del_char_below" => field.del_char_below()?,
        "del_word_left" => field.del_word_left()?,
        "del_word_right" => field.del_word_right()?,
        "del_selection" => field.del_selection()?,
        "move_lines_up" => field.move_lines_up(usize::from(words::number(rest))),
        "move_lines_down" => field.move_lines_down(usize::from(words::number(rest))),
        "is_content" => field.is_content(rest),
        _ => return Ok(None),
    };
    Ok(Some(done))
}

/// Other calls of texts. Whether it is one of them.
pub fn push_text(
    answer: &mut String,
    field: &mut InputField,
    name: &str,
    rest: &str,
) -> Result<bool, AllocError> {
    match name {
        "insert_str" => field.insert_str(rest)?,
        "set_str" => field.set_str(rest)?,
        "replace_selection" => field.replace_selection(rest)?,
        "clear" => field.clear(),
        "undo_cuts" => undo_cuts(field, rest)?,
        "copy_selection" => {
            let copy = field.copy_selection()?;
            write!(answer, "copied {copy}\n")?;
        }
        "cut_selection" => {
            let cut = field.cut_selection()?;
            write!(answer, "cut {cut}\n")?;
        }
        "cut_and_insert" => {
            let cut = field.cut_selection()?;
            field.insert_str(&cut)?;
        }
        "get_content" => {
            let text = field.get_content()?;
            write!(answer, "content {text}\n")?;
        }
        _ => return Ok(false),
    }
    Ok(true)
}

// Puts in two texts that were cut out of a line, the first after its first character and the second at its start.
fn undo_cuts(field: &mut InputField, texts: &str) -> Result<(), AllocError> {
    let (first, second) = texts.split_once(' ').unwrap_or((texts, ""));
    field.undo_cuts(&[(Pos::new(1, 0), first), (Pos::new(0, 0), second)])
}
