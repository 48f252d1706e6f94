//! What keys and the mouse do.

ghost use Rattle.std.specs.Prelude.{◌≡◌};
ghost use Rattle.mad_page.specs.PageKeys.{HasTurned, IsSameScreen, after_command, after_key, after_mouse, dragged, moved, pressed, times, with_digit};

use crate::commands::{Ask, Command, Motion, command_of, file_ask};
use crate::page::Page;
use mad_term::{KeyEvent, MouseButton, MouseEvent, MouseEventKind};

// How many rows the wheel scrolls.
const WHEEL_ROWS: usize = 3;

impl Page {
    /// Does what a key says: it scrolls the page, or answers what it asks for. A number that was typed is for the next key alone, and so is a
    /// colon. Up to the next key it is told where the page is.
    pub fn apply_key(&mut self, key: KeyEvent) -> Ask
        ensures turned { HasTurned (after_key key self.old) self.new result }
        ensures screen { IsSameScreen self.old self.new }
    {
        self.tells = false;
        if self.has_colon {
            self.has_colon = false;
            return file_ask(self.files, key);
        }
        self.apply_command(command_of(key))
    }

    /// Scrolls by the wheel, three rows, and to where the bar is pressed or dragged by the left button. Nothing else that a mouse does has a
    /// meaning.
    pub fn apply_mouse(&mut self, mouse: MouseEvent)
        ensures turned { self.new ≡ after_mouse mouse self.old }
        ensures screen { IsSameScreen self.old self.new }
    {
        match mouse.kind {
            MouseEventKind::ScrollDown => self.go_down(WHEEL_ROWS),
            MouseEventKind::ScrollUp => self.go_up(WHEEL_ROWS),
            MouseEventKind::Down(MouseButton::Left) => self.press(mouse.column, mouse.row),
            MouseEventKind::Drag(MouseButton::Left) => self.drag(mouse.row),
            MouseEventKind::Up(MouseButton::Left) => self.holds_bar = false,
            _ => {}
        }
    }

    // Does what a key says.
    fn apply_command(&mut self, command: Command) -> Ask
        ensures turned { HasTurned (after_command command self.old) self.new result }
        ensures screen { IsSameScreen self.old self.new }
    {
        match command {
            Command::Moves(motion) => {
                self.go(motion);
                self.count = 0;
                Ask::Nothing
            }
            Command::Counts(digit) => {
                self.add_digit(digit);
                Ask::Nothing
            }
            Command::Colon => {
                self.count = 0;
                self.has_colon = true;
                Ask::Nothing
            }
            Command::Tells => {
                self.count = 0;
                self.tells = true;
                Ask::Nothing
            }
            Command::Asks(ask) => {
                self.count = 0;
                ask
            }
        }
    }

    // Scrolls.
    fn go(&mut self, motion: Motion)
        ensures moved { self.new ≡ moved motion self.old }
    {
        let page = usize::from(self.body_rows());
        match motion {
            Motion::RowDown => self.go_down(self.times()),
            Motion::RowUp => self.go_up(self.times()),
            Motion::PageDown => self.go_down(page),
            Motion::PageUp => self.go_up(page),
            Motion::HalfDown => self.go_down(page / 2),
            Motion::HalfUp => self.go_up(page / 2),
            Motion::End if self.count == 0 => self.go_to_end(),
            Motion::Percent => self.go_to_percent(self.count),
            Motion::Start | Motion::End => self.go_to_row(self.count.saturating_sub(1)),
        }
    }

    // How many rows a key of rows goes.
    fn times(&self) -> usize
        ensures { result ≡ times self.now }
    {
        self.count.max(1)
    }

    // Puts a digit after the number that was typed.
    fn add_digit(&mut self, digit: u8)
        ensures { self.new ≡ with_digit self.old digit }
    {
        self.count = self
            .count
            .saturating_mul(10)
            .saturating_add(usize::from(digit));
    }

    // The left button was pressed: on the bar it holds it from now on.
    fn press(&mut self, column: u16, row: u16)
        ensures { self.new ≡ pressed column row self.old }
    {
        if self.is_on_bar(column, row) {
            self.go_to_bar(row);
            self.holds_bar = true;
        }
    }

    // The mouse was moved with its left button down.
    fn drag(&mut self, row: u16)
        ensures { self.new ≡ dragged row self.old }
    {
        if self.holds_bar {
            self.go_to_bar(row);
        }
    }
}
