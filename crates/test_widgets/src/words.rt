//! The words of a row: keys, events and numbers.

use mad_edit::Pos;
use mad_measure::Area;
use mad_term::{
    Event, KeyCode, KeyCombination, KeyEvent, KeyModifiers, MouseButton, MouseEvent, MouseEventKind,
};

/// The control character that a sign means. A dotted circle only carries a mark that combines.
pub fn meant(c: char) -> Option<char> {
    match c {
        '␈' => Some('\u{8}'),
        '␀' => Some('\0'),
        '◌' => None,
        _ => Some(c),
    }
}

/// A number, or 0.
pub fn number(word: &str) -> u16 {
    word.parse::<u16>().unwrap_or(0)
}

/// Two numbers with a blank between them.
pub fn pair(words: &str) -> (u16, u16) {
    let (one, other) = words.split_once(' ').unwrap_or((words, ""));
    (number(one), number(other))
}

/// A position by its column and its line.
pub fn position(words: &str) -> Pos {
    let (x, y) = pair(words);
    Pos::new(usize::from(x), usize::from(y))
}

/// An area by its left, top, width and height.
pub fn area_of(words: &str) -> Area {
    let mut numbers = words.split(' ');
    Area {
        left: number(numbers.next().unwrap_or("")),
        top: number(numbers.next().unwrap_or("")),
        width: number(numbers.next().unwrap_or("")),
        height: number(numbers.next().unwrap_or("")),
    }
}

/// Modifiers by their names.
pub fn modifiers_of(names: &str) -> KeyModifiers {
    match names {
        "shift" => KeyModifiers::SHIFT,
        "ctrl" => KeyModifiers::CONTROL,
        "alt" => KeyModifiers::ALT,
        "shift-ctrl" => KeyModifiers::SHIFT | KeyModifiers::CONTROL,
        "ctrl-alt" => KeyModifiers::CONTROL | KeyModifiers::ALT,
        _ => KeyModifiers::NONE,
    }
}

// What comes before a plus, as modifiers, and what comes after it.
fn modified(word: &str) -> (KeyModifiers, &str) {
    match word.split_once('+') {
        Some((names, rest)) if !rest.is_empty() => (modifiers_of(names), rest),
        _ => (KeyModifiers::NONE, word),
    }
}

/// A key: its name or its character, after its modifiers and a plus.
pub fn key_of(word: &str) -> KeyCombination {
    let (modifiers, name) = modified(word);
    KeyCombination {
        code: code_of(name),
        modifiers,
    }
}

/// A key by its name or its character.
pub fn code_of(name: &str) -> KeyCode {
    match name {
        "Enter" => KeyCode::Enter,
        "Backspace" => KeyCode::Backspace,
        "Delete" => KeyCode::Delete,
        "Insert" => KeyCode::Insert,
        "Tab" => KeyCode::Tab,
        "BackTab" => KeyCode::BackTab,
        "Esc" => KeyCode::Esc,
        "F5" => KeyCode::F(5),
        "Null" => KeyCode::Null,
        _ => moving_code(name),
    }
}

fn moving_code(name: &str) -> KeyCode {
    match name {
        "Home" => KeyCode::Home,
        "End" => KeyCode::End,
        "Up" => KeyCode::Up,
        "Down" => KeyCode::Down,
        "Left" => KeyCode::Left,
        "Right" => KeyCode::Right,
        "PageUp" => KeyCode::PageUp,
        "PageDown" => KeyCode::PageDown,
        _ => KeyCode::Char(char_of(name)),
    }
}

/// A character, some by their names.
pub fn char_of(name: &str) -> char {
    match name {
        "blank" => ' ',
        "newline" => '\n',
        "return" => '\r',
        "backspace" => '\u{8}',
        "tab" => '\t',
        _ => name.chars().next().unwrap_or(' '),
    }
}

/// What was done with the mouse, in a column of a row of the screen, and whether it is a double click.
pub fn mouse_of(words: &str) -> (MouseEvent, bool) {
    let (word, place) = words.split_once(' ').unwrap_or((words, ""));
    let (modifiers, name) = modified(word);
    let (column, row) = pair(place);
    let kind = kind_of(name.strip_prefix("double_").unwrap_or(name));
    let event = MouseEvent {
        kind,
        column,
        row,
        modifiers,
    };
    (event, name.starts_with("double_"))
}

fn kind_of(name: &str) -> MouseEventKind {
    match name {
        "down" => MouseEventKind::Down(MouseButton::Left),
        "right_down" => MouseEventKind::Down(MouseButton::Right),
        "up" => MouseEventKind::Up(MouseButton::Left),
        "middle_up" => MouseEventKind::Up(MouseButton::Middle),
        "drag" => MouseEventKind::Drag(MouseButton::Left),
        "right_drag" => MouseEventKind::Drag(MouseButton::Right),
        "wheel_down" => MouseEventKind::ScrollDown,
        "wheel_up" => MouseEventKind::ScrollUp,
        _ => MouseEventKind::Moved,
    }
}

/// An event, and whether it is a double click.
pub fn event_of(words: &str) -> (Event, bool) {
    let (name, rest) = words.split_once(' ').unwrap_or((words, ""));
    match name {
        "key" => {
            let key = key_of(rest);
            let event = KeyEvent {
                code: key.code,
                modifiers: key.modifiers,
            };
            (Event::Key(event), false)
        }
        "mouse" => {
            let (event, double) = mouse_of(rest);
            (Event::Mouse(event), double)
        }
        "resize" => (Event::Resize(80, 24), false),
        "focus_gained" => (Event::FocusGained, false),
        _ => (Event::FocusLost, false),
    }
}
