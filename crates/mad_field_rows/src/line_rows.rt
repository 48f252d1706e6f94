//! The characters of a line in its row, one after another.

ghost use Rattle.std.specs.Prelude.{◌≡◌, ◌<◌, ◌≤◌, ◌&&◌, [], ◌∷◌, length, slice_index, nat_le, nat_lt, IfSome, IfNone, if◌then◌else◌};
ghost use Rattle.std.specs.Iterator.{YieldsFirst, item_count};

use mad_edit_lines::char_width;

/// What is shown where characters are hidden.
const ELLIPSIS: char = '…';

/// A character in a row.
#[derive(Clone, Copy)]
pub struct RowChar {
    /// The character.
    pub c: char,
    /// Whether it has the cursor's style.
    pub marked: bool,
}

/// A line in its row: its characters, `…` where they are hidden, and spaces up to the row's end.
#[derive(Drop)]
pub struct LineRow<'l> {
    /// Whether `…` comes first.
    pub front: bool,
    /// The line.
    pub line: &'l [char],
    /// The next of its characters.
    pub x: usize,
    /// The first of its characters that is marked, and the first one after those.
    pub selected: (usize, usize),
    /// Whether a star comes in place of each character.
    pub password: bool,
    /// Whether the first space after the line is marked.
    pub at_end: bool,
    /// The columns that are left, without that of the first `…`.
    pub room: usize,
}

// Whether a character of so many columns fits where `room` are left: the last one of a line may take the last column, another may not.
fn does_fit(width: usize, last: bool, room: usize) -> bool
    ensures { result ≡ (if last then nat_le width room else nat_lt width room) }
{
    if last { width <= room } else { width < room }
}

// Whether the character is one of those that are marked.
fn is_between(selected: (usize, usize), x: usize) -> bool
    ensures { result ≡ (nat_le selected.0 x && nat_lt x selected.1) }
{
    selected.0 <= x && x < selected.1
}

impl LineRow<'_> {
    ghost use Rattle.mad_field_rows.specs.LineRows.{line_left, shown_at};

    // A character of the line as it is shown.
    fn shown_char(&self, x: usize) -> char
        requires { x < length self.now.line.now }
        ensures { result ≡ shown_at self.now.password (slice_index self.now.line.now x) }
    {
        if self.password { '*' } else { self.line[x] }
    }

    // The next character of the line, or `…` if it doesn't fit.
    fn next_of_line(&mut self) -> RowChar
        requires left { self.old.x < length self.old.line.now }
        requires room { 0 < self.old.room }
        ensures next { line_left self.old ≡ result ∷ line_left self.new }
        ensures front { self.new.front ≡ self.old.front }
    {
        let x = self.x;
        let c = self.shown_char(x);
        let marked = is_between(self.selected, x);
        let width = char_width(c);
        if does_fit(width, x + 1 == self.line.len(), self.room) {
            self.x = x + 1;
            self.room -= width;
            return RowChar { c, marked };
        }
        self.x = self.line.len();
        self.room -= 1;
        RowChar {
            c: ELLIPSIS,
            marked,
        }
    }

    // The next space after the line.
    fn next_space(&mut self) -> RowChar
        requires left { length self.old.line.now ≤ self.old.x }
        requires room { 0 < self.old.room }
        ensures next { line_left self.old ≡ result ∷ line_left self.new }
        ensures front { self.new.front ≡ self.old.front }
    {
        let marked = self.at_end;
        self.at_end = false;
        self.room -= 1;
        RowChar { c: ' ', marked }
    }

    // The next character.
    fn next_char(&mut self) -> Option<RowChar>
        ensures next { IfSome result (λ c. line_left self.old ≡ c ∷ line_left self.new) }
        ensures none { IfNone result ((line_left self.old ≡ []) × (line_left self.new ≡ [])) }
        ensures front { self.new.front ≡ self.old.front }
    {
        if self.room == 0 {
            return None;
        }
        if self.x < self.line.len() {
            Some(self.next_of_line())
        } else {
            Some(self.next_space())
        }
    }
}

impl Iterator for LineRow<'_> {
    ghost use Rattle.mad_field_rows.specs.LineRows.{chars_left};

    type Item = RowChar;

    ghost next_gives = { YieldsFirst chars_left };

    ghost remaining = { item_count chars_left };

    fn next(&mut self) -> Option<RowChar> {
        if self.front {
            self.front = false;
            return Some(RowChar {
                c: ELLIPSIS,
                marked: false,
            });
        }
        self.next_char()
    }
}
