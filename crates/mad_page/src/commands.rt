//! Which key says what.

ghost use Rattle.std.specs.Prelude.{◌≡◌};
ghost use Rattle.mad_page.specs.PageKeys.{alt_command, char_ask, char_command, command_of, control_command, controlled_command, file_ask, is_break, named_file, plain_command};

use crate::page::Files;
use mad_term::{KeyCode, KeyEvent, KeyModifiers};

/// How a key scrolls.
#[derive(Clone, Copy, Debug, PartialEq, Eq)]
pub enum Motion {
    /// Down by the rows that were typed, or one.
    RowDown,
    /// Up by the rows that were typed, or one.
    RowUp,
    /// Down by the rows that are shown.
    PageDown,
    /// Up by them.
    PageUp,
    /// Down by half of them.
    HalfDown,
    /// Up by half of them.
    HalfUp,
    /// To the row that was typed, counted from 1, or the text's start.
    Start,
    /// To that row, or the text's end.
    End,
    /// To the per cent of the text that was typed.
    Percent,
}

/// What a key asks for, beside a scroll.
#[derive(Clone, Copy, Debug, PartialEq, Eq)]
pub enum Ask {
    /// Nothing more.
    Nothing,
    /// To type what is to be sought.
    Search,
    /// To type what is to be sought backwards.
    SearchBack,
    /// The next row that has what is sought.
    Next,
    /// The row before that has it.
    Previous,
    /// The next header.
    NextHeader,
    /// The header before.
    PreviousHeader,
    /// To forget what is sought.
    Forget,
    /// The page that says what keys do.
    Help,
    /// The addresses of links.
    Links,
    /// The text's headers, to choose one.
    Contents,
    /// The next file.
    NextFile,
    /// The file before.
    PreviousFile,
    /// The text as its file is now.
    Reload,
    /// An editor of the text.
    Edit,
    /// The size of the screen.
    Size,
    /// The end.
    Quit,
}

/// What a key says.
#[derive(Clone, Copy, Debug, PartialEq, Eq)]
pub enum Command {
    /// To scroll.
    Moves(Motion),
    /// A digit of a number.
    Counts(u8),
    /// A colon, after which a key names a file.
    Colon,
    /// To tell where in the text the page is.
    Tells,
    /// Something else, or nothing.
    Asks(Ask),
}

/// What a key says.
///
/// | keys | what they say |
/// |---|---|
/// | `j` `e`, Down, Enter, Control-E -N; `k` `y`, Up, Control-Y -P | a row down or up |
/// | space, PageDown, Control-F; `b`, PageUp, Control-B | a page |
/// | `d`, Control-D; `u`, Control-U | half a page |
/// | `g`, Home; `G`, End | the start, the end |
/// | digits; `%` | a number; to that per cent |
/// | `=` | where in the text the page is |
/// | `:` | the next key names a file: see [`file_ask`] |
/// | `/`, `?` | a search, one backwards |
/// | `n`, `N`; Esc, Alt-U | its next row, the one before; to forget it |
/// | `}` `]`; `{` `[`; `t` | the next header, the one before; the contents |
/// | `h`, F1; `l` | help; the addresses of links |
/// | `R`; `v` | the text as its file is now; an editor of it |
/// | Control-L; `q`, Control-C | the size; the end |
///
/// Other keys, and these with other modifiers, say nothing.
pub fn command_of(key: KeyEvent) -> Command
    ensures { result ≡ command_of key }
{
    if key.modifiers == KeyModifiers::NONE {
        plain_command(key.code)
    } else if key.modifiers == KeyModifiers::CONTROL {
        controlled_command(key.code)
    } else if key.modifiers == KeyModifiers::ALT {
        alt_command(key.code)
    } else {
        Command::Asks(Ask::Nothing)
    }
}

/// Whether a key ends the session in any case: Control with `c`.
pub fn is_break(key: KeyEvent) -> bool
    ensures { result ≡ is_break key }
{
    key.modifiers == KeyModifiers::CONTROL && key.code == KeyCode::Char('c')
}

/// What a key asks for after a colon: `n` the next file and `p` the one before, where there is one; `q` and Control-C the end. Other keys ask for
/// nothing.
pub fn file_ask(files: Files, key: KeyEvent) -> Ask
    ensures { result ≡ file_ask files key }
{
    if is_break(key) {
        return Ask::Quit;
    }
    match key.code {
        KeyCode::Char(c) if key.modifiers == KeyModifiers::NONE => named_file(files, c),
        _ => Ask::Nothing,
    }
}

// What a character asks for after a colon.
fn named_file(files: Files, c: char) -> Ask
    ensures { result ≡ named_file files c }
{
    match c {
        'n' if files.has_next => Ask::NextFile,
        'p' if files.has_previous => Ask::PreviousFile,
        'q' => Ask::Quit,
        _ => Ask::Nothing,
    }
}

// What a key without modifiers says.
fn plain_command(code: KeyCode) -> Command
    ensures { result ≡ plain_command code }
{
    match code {
        KeyCode::Down | KeyCode::Enter => Command::Moves(Motion::RowDown),
        KeyCode::Up => Command::Moves(Motion::RowUp),
        KeyCode::PageDown => Command::Moves(Motion::PageDown),
        KeyCode::PageUp => Command::Moves(Motion::PageUp),
        KeyCode::Home => Command::Moves(Motion::Start),
        KeyCode::End => Command::Moves(Motion::End),
        KeyCode::Esc => Command::Asks(Ask::Forget),
        KeyCode::F(1) => Command::Asks(Ask::Help),
        KeyCode::Char(c) => char_command(c),
        _ => Command::Asks(Ask::Nothing),
    }
}

// What a key says with Control alone.
fn controlled_command(code: KeyCode) -> Command
    ensures { result ≡ controlled_command code }
{
    match code {
        KeyCode::Char(c) => control_command(c),
        _ => Command::Asks(Ask::Nothing),
    }
}

// What a key says with Alt alone.
fn alt_command(code: KeyCode) -> Command
    ensures { result ≡ alt_command code }
{
    match code {
        KeyCode::Char('u') => Command::Asks(Ask::Forget),
        _ => Command::Asks(Ask::Nothing),
    }
}

// What a character says.
fn char_command(c: char) -> Command
    ensures { result ≡ char_command c }
{
    match c {
        'j' | 'e' => Command::Moves(Motion::RowDown),
        'k' | 'y' => Command::Moves(Motion::RowUp),
        ' ' => Command::Moves(Motion::PageDown),
        'b' => Command::Moves(Motion::PageUp),
        'd' => Command::Moves(Motion::HalfDown),
        'u' => Command::Moves(Motion::HalfUp),
        'g' => Command::Moves(Motion::Start),
        'G' => Command::Moves(Motion::End),
        '%' => Command::Moves(Motion::Percent),
        '0'..='9' => Command::Counts(c as u8 - b'0'),
        ':' => Command::Colon,
        '=' => Command::Tells,
        _ => Command::Asks(char_ask(c)),
    }
}

// What a character asks for that doesn't scroll.
fn char_ask(c: char) -> Ask
    ensures { result ≡ char_ask c }
{
    match c {
        '/' => Ask::Search,
        '?' => Ask::SearchBack,
        'n' => Ask::Next,
        'N' => Ask::Previous,
        '}' | ']' => Ask::NextHeader,
        '{' | '[' => Ask::PreviousHeader,
        'h' => Ask::Help,
        'l' => Ask::Links,
        't' => Ask::Contents,
        'R' => Ask::Reload,
        'v' => Ask::Edit,
        'q' => Ask::Quit,
        _ => Ask::Nothing,
    }
}

// What a character says with Control.
fn control_command(c: char) -> Command
    ensures { result ≡ control_command c }
{
    match c {
        'e' | 'n' => Command::Moves(Motion::RowDown),
        'y' | 'p' => Command::Moves(Motion::RowUp),
        'f' => Command::Moves(Motion::PageDown),
        'b' => Command::Moves(Motion::PageUp),
        'd' => Command::Moves(Motion::HalfDown),
        'u' => Command::Moves(Motion::HalfUp),
        'l' => Command::Asks(Ask::Size),
        'c' => Command::Asks(Ask::Quit),
        _ => Command::Asks(Ask::Nothing),
    }
}
