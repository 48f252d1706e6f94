//! The fields and the button of the form, and which of them gets an event.

use std::alloc::{AllocError, Global};
use termimad::term::{
    Attribute, Event, KeyCode, KeyEvent, KeyModifiers, MouseButton, MouseEventKind, Out, put_text,
    queue_move,
};
use termimad::{Area, CompoundStyle, Error, InputField, TimedEvent};

// The row of the button.
const BUTTON_ROW: u16 = 4;

/// What has the focus.
#[derive(Clone, Copy, Debug, PartialEq, Eq)]
enum Focus {
    Name,
    Password,
    Button,
}

/// A name of one line, a password and a button.
#[derive(Drop)]
pub struct Form {
    name: InputField,
    password: InputField,
    focus: Focus,
    // The cell of the click that came last, if nothing else came after it.
    clicked: Option<(u16, u16)>,
    /// Whether the button was pressed.
    pub is_sent: bool,
}

impl Form {
    /// An empty form. The name has the focus.
    pub fn new(alloc: Global) -> Result<Form, AllocError> {
        let name = InputField::new(alloc, Area::new(10, 0, 8, 1))?;
        let mut password = InputField::new(alloc, Area::new(10, 2, 8, 1))?;
        password.password_mode = true;
        password.set_focus(false);
        Ok(Form {
            name,
            password,
            focus: Focus::Name,
            clicked: None,
            is_sent: false,
        })
    }

    /// Tab takes the focus on, and Enter at the button presses it. Each field gets all else, and a click in one takes the focus there. A second
    /// click in one cell is a double click.
    pub fn apply(&mut self, event: Event) -> Result<(), AllocError> {
        if is_key(event, KeyCode::Tab) {
            self.focus_next();
            return Ok(());
        }
        if self.focus == Focus::Button && is_key(event, KeyCode::Enter) {
            self.is_sent = true;
            return Ok(());
        }
        self.apply_in_fields(event)
    }

    // Each field gets the event, and that which has the focus after it keeps it.
    fn apply_in_fields(&mut self, event: Event) -> Result<(), AllocError> {
        let event = self.timed(event);
        apply_in(&mut self.name, &event)?;
        apply_in(&mut self.password, &event)?;
        let focused = (self.name.focused(), self.password.focused());
        if focused.0 && self.focus != Focus::Name {
            self.set_focus(Focus::Name);
        } else if focused.1 && self.focus != Focus::Password {
            self.set_focus(Focus::Password);
        }
        Ok(())
    }

    // The event, as a double click where it is a second click in one cell.
    fn timed(&mut self, event: Event) -> TimedEvent {
        let mut timed = TimedEvent::new(event, 0);
        let click = timed.as_click();
        timed.double_click = click.is_some() && click == self.clicked;
        if click.is_some() || !is_press(event) {
            self.clicked = click;
        }
        timed
    }

    fn focus_next(&mut self) {
        let next = match self.focus {
            Focus::Name => Focus::Password,
            Focus::Password => Focus::Button,
            Focus::Button => Focus::Name,
        };
        self.set_focus(next);
    }

    fn set_focus(&mut self, focus: Focus) {
        self.focus = focus;
        self.name.set_focus(focus == Focus::Name);
        self.password.set_focus(focus == Focus::Password);
    }

    /// Draws the fields after their labels, and the button. Nothing is flushed.
    pub fn draw<O: Out>(&self, alloc: Global, out: &mut O) -> Result<(), Error> {
        draw_in(alloc, out, "Name", &self.name)?;
        draw_in(alloc, out, "Password", &self.password)?;
        queue_move(alloc, out, 10, BUTTON_ROW)?;
        let mut style = CompoundStyle::default();
        if self.focus == Focus::Button {
            style.add_attr(Attribute::Reverse);
        }
        style.queue_str(alloc, out, if self.is_sent { "sent" } else { "Send" })
    }

    /// The texts of the fields.
    pub fn texts(&self) -> Result<(String, String), AllocError> {
        let name = self.name.get_content()?;
        let password = self.password.get_content()?;
        Ok((name, password))
    }
}

// Whether an event is a key without modifiers.
fn is_key(event: Event, code: KeyCode) -> bool {
    event
        == Event::Key(KeyEvent {
            code,
            modifiers: KeyModifiers::NONE,
        })
}

// Whether a button of the mouse goes down.
fn is_press(event: Event) -> bool {
    matches!(event, Event::Mouse(mouse) if mouse.kind == MouseEventKind::Down(MouseButton::Left))
}

// What an event does in a field whose area is on a screen.
fn apply_in(field: &mut InputField, event: &TimedEvent) -> Result<bool, AllocError> {
    if !field.area().is_within_limits() {
        return Ok(false);
    }
    field.apply_timed_event(event)
}

// Draws a field and, in the first column of its first row, what it is for.
fn draw_in<O: Out>(
    alloc: Global,
    out: &mut O,
    label: &str,
    field: &InputField,
) -> Result<(), Error> {
    if !field.area().is_within_limits() {
        return Ok(());
    }
    queue_move(alloc, out, 0, field.area().top)?;
    put_text(out, label)?;
    field.display_on(out)?;
    Ok(())
}
