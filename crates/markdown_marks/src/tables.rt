//! Rows of tables.

ghost use Rattle.std.specs.Prelude.{◌≡◌, ◌≤◌, ◌||◌, ◌&&◌, ◌==◌, false, not, length};
ghost use Rattle.markdown_marks.specs.Bytes.{is_blank_byte, is_blank};
ghost use Rattle.markdown_marks.specs.Tables.{without_bar, row_of, last_cell, cells_from, cell_count, back_spot, next_spot, ends_cell, is_nowhere, columns_at_end, columns_from, delimited_columns};

use crate::bytes::{first, is_blank, is_blank_byte, tail, without_blanks};
use memchr::memchr;

/// A place in a cell of the row below the head.
#[derive(Debug, Clone, Copy, PartialEq, Eq)]
pub(crate) enum Spot {
    /// Before its hyphens and colons.
    Front,
    /// After the colon in front.
    Colon,
    Hyphens,
    /// After its hyphens and colons.
    Back,
    /// This is no such cell.
    Nowhere,
}

fn without_bar(bytes: &[u8]) -> &[u8]
    ensures { result.now ≡ without_bar bytes.entry.now }
{
    if first(bytes) == b'|' {
        tail(bytes, 1)
    } else {
        bytes
    }
}

// A row without the blanks in front and the bar after them.
fn row_of(bytes: &[u8]) -> &[u8]
    ensures { result.now ≡ row_of bytes.entry.now }
{
    without_bar(without_blanks(bytes))
}

// Whether a bar is cut here.
fn cuts(b: u8, escaped: bool) -> bool
    ensures { result ≡ ((b == 124) && not escaped) }
{
    b == b'|' && !escaped
}

// Whether the byte takes its meaning from a bar behind it, whatever is before it.
fn escapes(b: u8) -> bool
    ensures { result ≡ (b == 92) }
{
    b == b'\\'
}

fn is_filled(some: bool, b: u8) -> bool
    ensures { result ≡ (some || not (is_blank_byte b)) }
{
    some || !is_blank_byte(b)
}

// How many cells bars cut.
#[tactic(auto, unfolding(crate::specs::Tables::cells_from))]
fn cells_from(bytes: &[u8]) -> usize
    ensures { result ≡ cells_from false false 0 bytes.now }
{
    let mut rest = bytes;
    let mut escaped = false;
    let mut some = false;
    let mut count = 0;
    while let [b, next @ ..] = rest {
        rest = next;
        if cuts(*b, escaped) {
            escaped = false;
            some = false;
            count += 1;
            continue;
        }
        some = is_filled(some, *b);
        escaped = escapes(*b);
    }
    if some { count + 1 } else { count }
}

// How many cells bars cut, where the row isn't blank. Most lines of a paragraph have no bar.
fn cells_of(row: &[u8]) -> usize
    requires { is_blank row.now ≡ false }
    ensures { result ≡ cells_from false false 0 row.now }
{
    match memchr(b'|', row) {
        None => 1,
        Some(_) => cells_from(row),
    }
}

/// How many cells a row of a table has. Bars cut it, but for those with a backslash right before them; without a bar it is one cell.
#[tactic(auto, unfolding(crate::specs::Tables::cell_count))]
pub fn cell_count(bytes: &[u8]) -> usize
    ensures { result ≡ cell_count bytes.now }
{
    let row = row_of(bytes);
    if is_blank(row) { 1 } else { cells_of(row) }
}

// ---- the row below the head

fn back_spot(b: u8) -> Spot
    ensures { result ≡ back_spot b }
{
    if is_blank_byte(b) {
        Spot::Back
    } else {
        Spot::Nowhere
    }
}

fn front_spot(b: u8) -> Spot
    ensures { result ≡ next_spot Spot.Front b }
{
    if is_blank_byte(b) {
        Spot::Front
    } else if b == b':' {
        Spot::Colon
    } else if b == b'-' {
        Spot::Hyphens
    } else {
        Spot::Nowhere
    }
}

fn hyphen_spot(b: u8) -> Spot
    ensures { result ≡ next_spot Spot.Hyphens b }
{
    if b == b'-' {
        Spot::Hyphens
    } else if b == b':' {
        Spot::Back
    } else {
        back_spot(b)
    }
}

fn colon_spot(b: u8) -> Spot
    ensures { result ≡ next_spot Spot.Colon b }
{
    if b == b'-' {
        Spot::Hyphens
    } else {
        Spot::Nowhere
    }
}

// Where a byte leads in a cell.
fn next_spot(spot: Spot, b: u8) -> Spot
    ensures { result ≡ next_spot spot b }
{
    match spot {
        Spot::Front => front_spot(b),
        Spot::Colon => colon_spot(b),
        Spot::Hyphens => hyphen_spot(b),
        Spot::Back => back_spot(b),
        Spot::Nowhere => Spot::Nowhere,
    }
}

// Whether a cell may end here.
fn ends_cell(spot: Spot) -> bool
    ensures { result ≡ ends_cell spot }
{
    match spot {
        Spot::Hyphens | Spot::Back => true,
        Spot::Front | Spot::Colon | Spot::Nowhere => false,
    }
}

fn is_nowhere(spot: Spot) -> bool
    ensures { result ≡ is_nowhere spot }
{
    match spot {
        Spot::Nowhere => true,
        Spot::Front | Spot::Colon | Spot::Hyphens | Spot::Back => false,
    }
}

fn ends_at(spot: Spot, b: u8) -> bool
    ensures { result ≡ (ends_cell spot && (b == 124)) }
{
    ends_cell(spot) && b == b'|'
}

fn columns_at_end(spot: Spot, count: usize) -> usize
    requires { count ≤ 9223372036854775807 }
    ensures { result ≡ columns_at_end spot count }
{
    match spot {
        Spot::Front => count,
        Spot::Hyphens | Spot::Back => count + 1,
        Spot::Colon | Spot::Nowhere => 0,
    }
}

// How many columns a row has after its first bar, 0 if it is no row of delimiters.
#[tactic(auto, unfolding(crate::specs::Tables::columns_from))]
fn columns_from(bytes: &[u8]) -> usize
    ensures { result ≡ columns_from Spot.Front 0 bytes.now }
{
    let mut rest = bytes;
    let mut spot = Spot::Front;
    let mut count = 0;
    while let [b, next @ ..] = rest {
        if is_nowhere(spot) {
            return 0;
        }
        rest = next;
        if ends_at(spot, *b) {
            spot = Spot::Front;
            count += 1;
            continue;
        }
        spot = next_spot(spot, *b);
    }
    columns_at_end(spot, count)
}

/// How many columns a row of delimiters has, 0 if the line is none. It has hyphens in each cell, with or without a colon on each side of them.
#[tactic(auto, unfolding(crate::specs::Tables::delimited_columns))]
pub fn delimited_columns(bytes: &[u8]) -> usize
    ensures { result ≡ delimited_columns bytes.now }
{
    columns_from(row_of(bytes))
}
