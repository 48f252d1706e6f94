//! Pieces of a text that others wrote, made printable one after another.

ghost use Rattle.std.specs.Prelude.{◌≡◌, ◌++◌, ℕ, List, chars, encode_utf8, encode_utf8_all, length, IfOk, IsUtf8, MatchOption, string_bytes};
ghost use Rattle.mad_stream.specs.PrintedPieces.{piece_shown, place_after, place_of, place_char, place_shown, end_shown};

use mad_measure::printable;
use std::alloc::{AllocError, Global};

/// Where the next piece of a text comes.
#[derive(Clone, Copy, PartialEq, Eq, Debug)]
pub(crate) enum Place {
    /// At the beginning of a line.
    LineStart,
    /// Inside a line.
    InLine,
    /// Behind a carriage return, of which nothing is shown yet: what comes after it decides.
    AfterReturn,
}

/// What [`printable`] shows of the next piece of a text, but for a carriage return at its end. Of one that the piece comes behind it shows what
/// stands for that, too.
pub(crate) fn printable_piece(
    alloc: Global,
    place: Place,
    piece: &str,
) -> Result<String, AllocError>
    ensures { IfOk result (λ shown. string_bytes shown ≡ encode_utf8_all (piece_shown place (chars piece.now))) }
{
    let mut placed = String::new(alloc);
    placed.push(place_char(place))?;
    placed.push_str(piece)?;
    let shown = printable(alloc, placed.as_str())?;
    let shown = without_place(&shown, place);
    let shown = without_end(shown, place_after(place, piece));
    String::from_str(alloc, shown)
}

// What is shown of a piece, without what is shown of the character that it was placed behind: of a carriage return that stays.
fn without_place(shown: &str, place: Place) -> &str
    ensures { (rest : List ℕ) → shown.entry.now ≡ place_shown place ++ rest → result.now ≡ rest }
{
    if place == Place::AfterReturn {
        return shown;
    }
    shown.strip_prefix(place_char(place)).unwrap_or(shown)
}

// What is shown of a piece, after which the text stands there, without the newline that is shown of a carriage return at its end.
fn without_end(shown: &str, next: Place) -> &str
    ensures { (front : List ℕ) → shown.entry.now ≡ front ++ end_shown next → result.now ≡ front }
{
    if next != Place::AfterReturn {
        return shown;
    }
    shown.strip_suffix('\n').unwrap_or(shown)
}

// A character that a piece comes behind which stands there.
fn place_char(place: Place) -> char
    ensures { result ≡ place_char place }
{
    match place {
        Place::LineStart => '\n',
        Place::InLine => '.',
        Place::AfterReturn => '\r',
    }
}

/// Where what comes after a piece stands.
pub(crate) fn place_after(place: Place, piece: &str) -> Place
    ensures { result ≡ place_after place (chars piece.now) }
{
    match last_char(piece) {
        None => place,
        Some((_, c)) => place_of(c),
    }
}

// Where what comes after a character stands.
fn place_of(c: char) -> Place
    ensures { result ≡ place_of c }
{
    match c {
        '\n' => Place::LineStart,
        '\r' => Place::AfterReturn,
        _ => Place::InLine,
    }
}

// The characters of a text before the last one, and that.
fn last_char(text: &str) -> Option<(&str, char)>
    ensures { MatchOption result (length text.entry.now ≡ 0) (λ parts. IsUtf8 parts.0.now × (text.entry.now ≡ parts.0.now ++ encode_utf8 parts.1)) }
{
    let mut chars = text.chars();
    let c = chars.next_back()?;
    Some((chars.as_str(), c))
}
