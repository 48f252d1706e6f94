//! How an event is written, if any bytes are that event: the plainest form of those that a terminal sends.

ghost use Rattle.std.specs.Prelude.{◌≡◌, ◌<◌, ℕ, Some, option_map};
ghost use Rattle.mad_keys.specs.Forms.{form_bytes};
ghost use Rattle.mad_keys.specs.PlainBytes.{control_char, char_bytes, typed_bytes, letter_bytes, tilde_bytes, function_letter_bytes, function_bytes, alone_bytes, key_bytes, button_number, kind_number, kind_letter, mouse_bytes, size_bytes, plain_bytes};

use crate::characters::number_of;
use crate::steps::ESC;
use mad_term::{Event, KeyCode, MouseButton, MouseEvent, MouseEventKind};

/// The bytes of an event, by their parts.
#[derive(Clone, Copy)]
pub enum Form {
    /// A character.
    Char(char),
    /// ESC and a character.
    Alt(char),
    /// `ESC O` and a letter.
    Application(u8),
    /// `ESC [` and a letter.
    Letter(u8),
    /// `ESC [`, a number and `~`.
    Number(u8),
    /// `ESC [`, two numbers and a letter.
    Pair(u8, u8, u8),
    /// `ESC [ 8`, the rows, the columns and `t`.
    Size(u16, u16),
    /// `ESC [ <`, three numbers and a letter.
    Mouse(u8, u32, u32, u8),
}

// A character, with the modifiers of a number.
fn char_form(number: u8, c: char) -> Option<Form>
    ensures { option_map form_bytes result ≡ char_bytes number c }
{
    match (number, c) {
        (0, _) => Some(Form::Char(c)),
        (_, '[' | 'O') => None,
        (2, _) => Some(Form::Alt(c)),
        _ => None,
    }
}

// The character that is this one with Control.
fn control_char(c: char) -> Option<char>
    ensures { result ≡ control_char c }
{
    match c {
        'h' | 'i' | 'j' | 'm' => None,
        'a'..='z' => Some(char::from(c as u8 - 96)),
        '\\'..='_' => Some(char::from(c as u8 - 64)),
        _ => None,
    }
}

// The key of a character.
fn typed_form(number: u8, c: char) -> Option<Form>
    ensures { option_map form_bytes result ≡ typed_bytes number c }
{
    if number >= 4 {
        char_form(number - 4, control_char(c)?)
    } else if c.is_ascii_control() {
        None
    } else {
        char_form(number, c)
    }
}

// A key of a letter.
fn letter_form(number: u8, letter: u8) -> Form
    requires { number < 8 }
    ensures { form_bytes result ≡ letter_bytes number letter }
{
    match number {
        0 => Form::Letter(letter),
        _ => Form::Pair(1, number + 1, letter),
    }
}

// A key of a number.
fn tilde_form(number: u8, n: u8) -> Form
    requires { number < 8 }
    ensures { form_bytes result ≡ tilde_bytes number n }
{
    match number {
        0 => Form::Number(n),
        _ => Form::Pair(n, number + 1, b'~'),
    }
}

// A function key of a letter.
fn function_letter_form(number: u8, letter: u8) -> Form
    requires { number < 8 }
    ensures { form_bytes result ≡ function_letter_bytes number letter }
{
    match number {
        0 => Form::Application(letter),
        _ => letter_form(number, letter),
    }
}

// A function key.
fn function_form(number: u8, n: u8) -> Option<Form>
    requires { number < 8 }
    ensures { option_map form_bytes result ≡ function_bytes number n }
{
    match n {
        1..=4 => Some(function_letter_form(number, n + 79)),
        5 => Some(tilde_form(number, 15)),
        6..=10 => Some(tilde_form(number, n + 11)),
        11..=12 => Some(tilde_form(number, n + 12)),
        _ => None,
    }
}

// This form, if no modifier is held.
fn alone_form(number: u8, form: Form) -> Option<Form>
    ensures { option_map form_bytes result ≡ alone_bytes number (form_bytes form) }
{
    if number == 0 { Some(form) } else { None }
}

// A key with the modifiers of a number.
fn key_form(number: u8, code: KeyCode) -> Option<Form>
    requires { number < 8 }
    ensures { option_map form_bytes result ≡ key_bytes number code }
{
    match code {
        KeyCode::Char(c) => typed_form(number, c),
        KeyCode::Null => char_form(number, '\0'),
        KeyCode::Tab => char_form(number, '\t'),
        KeyCode::Enter => char_form(number, '\r'),
        KeyCode::Backspace => char_form(number, '\u{7f}'),
        KeyCode::Esc => alone_form(number, Form::Char(char::from(ESC))),
        KeyCode::BackTab => alone_form(number, Form::Letter(b'Z')),
        KeyCode::Up => Some(letter_form(number, b'A')),
        KeyCode::Down => Some(letter_form(number, b'B')),
        KeyCode::Right => Some(letter_form(number, b'C')),
        KeyCode::Left => Some(letter_form(number, b'D')),
        KeyCode::End => Some(letter_form(number, b'F')),
        KeyCode::Home => Some(letter_form(number, b'H')),
        KeyCode::Insert => Some(tilde_form(number, 2)),
        KeyCode::Delete => Some(tilde_form(number, 3)),
        KeyCode::PageUp => Some(tilde_form(number, 5)),
        KeyCode::PageDown => Some(tilde_form(number, 6)),
        KeyCode::F(n) => function_form(number, n),
    }
}

// The number of a button.
fn button_number(button: MouseButton) -> u8
    ensures bound { result < 3 }
    ensures is { result ≡ button_number button }
{
    match button {
        MouseButton::Left => 0,
        MouseButton::Middle => 1,
        MouseButton::Right => 2,
    }
}

// The number of what was done.
fn kind_number(kind: MouseEventKind) -> u8
    ensures bound { result < 66 }
    ensures is { result ≡ kind_number kind }
{
    match kind {
        MouseEventKind::Down(button) | MouseEventKind::Up(button) => button_number(button),
        MouseEventKind::Drag(button) => 32 + button_number(button),
        MouseEventKind::Moved => 35,
        MouseEventKind::ScrollUp => 64,
        MouseEventKind::ScrollDown => 65,
    }
}

// The letter of what was done.
fn kind_letter(kind: MouseEventKind) -> u8
    ensures { result ≡ kind_letter kind }
{
    match kind {
        MouseEventKind::Up(_) => b'm',
        _ => b'M',
    }
}

// The mouse with the modifiers of a number.
fn mouse_form(number: u8, mouse: MouseEvent) -> Form
    requires { number < 8 }
    ensures { mouse_bytes number mouse ≡ Some (form_bytes result) }
{
    Form::Mouse(
        kind_number(mouse.kind) + 4 * number,
        u32::from(mouse.column) + 1,
        u32::from(mouse.row) + 1,
        kind_letter(mouse.kind),
    )
}

// The screen's size.
fn size_form(columns: u16, rows: u16) -> Option<Form>
    ensures { option_map form_bytes result ≡ size_bytes columns rows }
{
    if columns == 0 || rows == 0 {
        return None;
    }
    Some(Form::Size(rows, columns))
}

/// The plainest form of an event, if it has one.
pub(crate) fn plain_form(event: Event) -> Option<Form>
    ensures { option_map form_bytes result ≡ plain_bytes event }
{
    match event {
        Event::Key(key) => key_form(number_of(key.modifiers)?, key.code),
        Event::Mouse(mouse) => Some(mouse_form(number_of(mouse.modifiers)?, mouse)),
        Event::Resize(columns, rows) => size_form(columns, rows),
        Event::FocusGained => Some(Form::Letter(b'I')),
        Event::FocusLost => Some(Form::Letter(b'O')),
    }
}
