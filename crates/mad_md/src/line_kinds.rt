//! What a line is to the lines beside it: blocks of code and tables go on from line to line.

ghost use Rattle.std.specs.Prelude.{◌≡◌, false, [], ◌∷◌, ◌++◌, List, ℕ};
ghost use Rattle.std.specs.Str.Lines.{strip_carriage_return};
ghost use Rattle.mad_md.specs.Flagged.{Flags};
ghost use Rattle.mad_md.specs.LineKinds.{told_kind, style_kind, kind_of_line, MayNotGoOn};
ghost use Rattle.mad_md.specs.Scan.{line_of_form};

use crate::composite::CompositeStyle;
use crate::parts::without_return;
use crate::starts::{Form, begins, line_start};

/// What a line is to the lines beside it.
#[derive(Clone, Copy, PartialEq, Eq, Debug)]
pub enum LineKind {
    /// It opens or closes a block of code, and is no line of the text.
    Fence,
    /// A line of a block of code.
    Code,
    /// A row of a table, or a rule across one.
    Table,
    /// Any other line, which is a part by itself.
    Alone,
}

/// What a line is, which ends with its one newline, where a fence is open before it or not.
pub fn line_kind(line: &str, fenced: bool) -> LineKind
    ensures { (part : List ℕ) → line.now ≡ part ++ 10 ∷ [] → result ≡ kind_of_line fenced (strip_carriage_return part) }
{
    if !fenced && !may_go_on(line.as_bytes()) {
        return LineKind::Alone;
    }
    part_kind(line.strip_suffix('\n').unwrap_or(line), fenced)
}

// Whether a line that begins so may be one of code or of a table, or a fence.
fn may_go_on(line: &[u8]) -> bool
    ensures { result ≡ false → MayNotGoOn line.now }
{
    matches!(line.first(), Some(b'`' | b'|' | b' ' | b'\t'))
}

// What a line is, by its text without the newline.
fn part_kind(part: &str, fenced: bool) -> LineKind
    ensures { result ≡ kind_of_line fenced (strip_carriage_return part.entry.now) }
{
    let line = without_return(part).as_bytes();
    if begins(line, b"```") {
        LineKind::Fence
    } else if fenced {
        LineKind::Code
    } else {
        form_kind(line_start(line).form)
    }
}

// What a line of this form is.
fn form_kind(form: Form) -> LineKind
    ensures { (carried : Flags) (text : List ℕ) → told_kind (line_of_form form carried text) ≡ result }
{
    match form {
        Form::TablePart => LineKind::Table,
        Form::Code => LineKind::Code,
        Form::Rule => LineKind::Alone,
        Form::Continuing(style) | Form::Separate(style) => style_kind(style),
    }
}

// What a line of this style is.
fn style_kind(style: CompositeStyle) -> LineKind
    ensures { result ≡ style_kind style }
{
    match style {
        CompositeStyle::Code => LineKind::Code,
        _ => LineKind::Alone,
    }
}
