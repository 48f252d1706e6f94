//! An event by the word that it is answered as.

use mad_term::{Event, KeyCode, KeyEvent, KeyModifiers, MouseButton, MouseEvent, MouseEventKind};

/// The event of a word. A word that is no other is the key Null.
pub fn event_of(line: &str) -> Event {
    let (modifiers, word) = modified(line);
    if let Some((columns, rows)) = word.split_once(" by ") {
        return Event::Resize(number(columns), number(rows));
    }
    if let Some((kind, place)) = word.split_once(" at ") {
        let (column, row) = place.split_once(' ').unwrap_or((place, ""));
        return Event::Mouse(MouseEvent {
            kind: kind_of(kind),
            column: number(column),
            row: number(row),
            modifiers,
        });
    }
    match word {
        "focus" => Event::FocusGained,
        "no focus" => Event::FocusLost,
        _ => Event::Key(KeyEvent {
            code: code_of(word),
            modifiers,
        }),
    }
}

fn number(digits: &str) -> u16 {
    digits.parse::<u16>().unwrap_or(0)
}

// The modifiers in front of a word, and what comes after them.
fn modified(line: &str) -> (KeyModifiers, &str) {
    let (shift, line) = without(line, "Shift-", KeyModifiers::SHIFT);
    let (control, line) = without(line, "Control-", KeyModifiers::CONTROL);
    let (alt, line) = without(line, "Alt-", KeyModifiers::ALT);
    (shift | control | alt, line)
}

fn without<'a>(line: &'a str, name: &str, modifier: KeyModifiers) -> (KeyModifiers, &'a str) {
    match line.strip_prefix(name) {
        Some(rest) => (modifier, rest),
        None => (KeyModifiers::NONE, line),
    }
}

// What is between two marks.
fn between<'a>(word: &'a str, before: &str, after: &str) -> Option<&'a str> {
    word.strip_prefix(before)?.strip_suffix(after)
}

fn code_of(word: &str) -> KeyCode {
    if let Some(c) = between(word, "Char('", "')") {
        return KeyCode::Char(char_of(c));
    }
    if let Some(digits) = between(word, "F(", ")") {
        return KeyCode::F(digits.parse::<u8>().unwrap_or(0));
    }
    match word {
        "Enter" => KeyCode::Enter,
        "Backspace" => KeyCode::Backspace,
        "Delete" => KeyCode::Delete,
        "Insert" => KeyCode::Insert,
        "Tab" => KeyCode::Tab,
        "BackTab" => KeyCode::BackTab,
        "Esc" => KeyCode::Esc,
        _ => moving_code(word),
    }
}

fn moving_code(word: &str) -> KeyCode {
    match word {
        "Home" => KeyCode::Home,
        "End" => KeyCode::End,
        "Up" => KeyCode::Up,
        "Down" => KeyCode::Down,
        "Left" => KeyCode::Left,
        "Right" => KeyCode::Right,
        "PageUp" => KeyCode::PageUp,
        "PageDown" => KeyCode::PageDown,
        _ => KeyCode::Null,
    }
}

// A character as it is quoted: itself, with `\` before it, or as its number to base 16.
fn char_of(quoted: &str) -> char {
    match between(quoted, "\\u{", "}") {
        Some(digits) => {
            char::from_u32(u32::from_str_radix(digits, 16).unwrap_or(0)).unwrap_or(' ')
        }
        None => quoted.chars().last().unwrap_or(' '),
    }
}

fn kind_of(word: &str) -> MouseEventKind {
    match word.split_once('(') {
        Some(("Down", button)) => MouseEventKind::Down(button_of(button)),
        Some(("Up", button)) => MouseEventKind::Up(button_of(button)),
        Some((_, button)) => MouseEventKind::Drag(button_of(button)),
        None => wheel_of(word),
    }
}

fn wheel_of(word: &str) -> MouseEventKind {
    match word {
        "ScrollUp" => MouseEventKind::ScrollUp,
        "ScrollDown" => MouseEventKind::ScrollDown,
        _ => MouseEventKind::Moved,
    }
}

fn button_of(word: &str) -> MouseButton {
    match word {
        "Left)" => MouseButton::Left,
        "Middle)" => MouseButton::Middle,
        _ => MouseButton::Right,
    }
}
