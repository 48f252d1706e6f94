//! What is drawn of the characters of a row.

ghost use Rattle.std.specs.Prelude.{◌≡◌, ◌+◌, ◌^◌, ◌<◌, ◌++◌, Some, OnOk, string_bytes, if◌then◌else◌};
ghost use Rattle.mad_term.specs.Styles.{IsStyle};
ghost use Rattle.mad_style.specs.StyledChars.{styled_char};
ghost use Rattle.mad_draw.specs.Fillings.{piece_chars, filling_pieces};
ghost use Rattle.mad_draw.specs.Pieces.{AreKnown, pieces_bytes};
ghost use Rattle.mad_field_rows.specs.LineRows.{chars_left};
ghost use Rattle.mad_field_rows.specs.RowChars.{row_columns};
ghost use Rattle.mad_field_rows.specs.RowPieces.{char_pieces, last_marked};

use crate::line_rows::{LineRow, RowChar};
use mad_draw::Spaces;
use mad_edit_lines::char_width;
use mad_style::CompoundStyle;
use mad_term::push_styled;
use std::alloc::AllocError;

/// Appends the characters of a row, each as a piece of its own: marked ones in one style, the others in another.
///
/// # Errors
///
/// Out of memory. What the text then ends with is open.
pub fn push_chars(
    bytes: &mut String,
    row: LineRow,
    marked: CompoundStyle,
    others: CompoundStyle,
) -> Result<(), AllocError>
    ensures writes { OnOk result (string_bytes bytes.new ≡ string_bytes bytes.old ++ pieces_bytes (char_pieces marked others (chars_left row.entry))) }
    ensures known { OnOk result (AreKnown (char_pieces marked others (chars_left row.entry))) }
{
    know_style(marked);
    know_style(others);
    for c in row {
        let style = style_of(c, marked, others);
        let mut buffer = [0; 4];
        push_styled(bytes, style.object_style, c.c.encode_utf8(&mut buffer))?;
    }
    Ok(())
}

// Nothing is done: this only says that the numbers of a style's colors are bytes.
fn know_style(style: CompoundStyle)
    ensures { IsStyle style.object_style }
{}

// The style of a character in a row.
fn style_of(c: RowChar, marked: CompoundStyle, others: CompoundStyle) -> CompoundStyle
    ensures { result ≡ (if c.marked then marked else others) }
{
    if c.marked { marked } else { others }
}

/// Appends `count` spaces, in pieces of at most 1000.
///
/// # Errors
///
/// Out of memory. What the text then ends with is open.
pub fn push_blanks(bytes: &mut String, style: CompoundStyle, count: usize) -> Result<(), AllocError>
    ensures writes { OnOk result (string_bytes bytes.new ≡ string_bytes bytes.old ++ pieces_bytes (filling_pieces (styled_char style 32) count)) }
    ensures known { OnOk result (AreKnown (filling_pieces (styled_char style 32) count)) }
{
    know_style(style);
    let most = most_spaces();
    let full = Spaces { style, count: most };
    for _done in 0..count / most {
        write!(bytes, "{full}")?;
    }
    let rest = Spaces {
        style,
        count: count % most,
    };
    write!(bytes, "{rest}")
}

// The most spaces of a piece.
#[tactic(auto, unfolding(mad_draw::specs::Fillings::piece_chars))]
fn most_spaces() -> usize
    ensures is { result ≡ piece_chars }
    ensures some { 0 < result }
{
    1000
}

/// The column of the last marked character of a row, whose first one is in `column`. None where no character is marked.
pub fn last_marked(row: LineRow, column: u16) -> Option<u16>
    requires { column + row_columns (chars_left row) < 2 ^ 16 }
    ensures { result ≡ last_marked (chars_left row.entry) column }
{
    let mut column = column;
    let mut found = None;
    for c in row {
        found = found_with(c.marked, column, found);
        column += char_width(c.c) as u16;
    }
    found
}

// A column that is found, or what was found before.
fn found_with(marked: bool, column: u16, found: Option<u16>) -> Option<u16>
    ensures { result ≡ (if marked then Some column else found) }
{
    if marked { Some(column) } else { found }
}
