//! What is told of where a call is made.

ghost use Rattle.std.specs.Prelude.{◌≡◌};
ghost use Rattle.termimad_options.specs.Telling.{AreSurroundings, has_few, is_dumb, number_told, said, shade_told, text_told};

use crate::calls::columns_written;
use crate::plans::{Shade, Surroundings};

/// What is told of where a call is made: words, if they are there. An empty one says nothing.
#[derive(Clone, Copy)]
pub struct Told<'a> {
    /// Whether standard output is a terminal.
    pub is_terminal: bool,
    /// The kind of terminal.
    pub term: Option<&'a str>,
    /// Whether there are to be no colors.
    pub no_color: Option<&'a str>,
    /// Columns that are set.
    pub set_columns: Option<&'a str>,
    /// The skin that is set.
    pub skin: Option<&'a str>,
    /// The shade of the terminal's background: `dark`, `light`, or another word.
    pub shade: Option<&'a str>,
    /// The terminal's columns.
    pub columns: Option<&'a str>,
    /// Its rows.
    pub rows: Option<&'a str>,
    /// How many colors it has.
    pub colors: Option<&'a str>,
}

/// What is known of where a call is made.
pub fn surroundings_of<'a>(told: &Told<'a>) -> Surroundings<'a>
    ensures { AreSurroundings told.now result }
{
    Surroundings {
        is_terminal: told.is_terminal,
        is_dumb: is_dumb(told.term),
        has_few_colors: has_few(number_told(told.colors)),
        is_colorless: said(told.no_color).is_some(),
        shade: shade_told(told.shade),
        columns: number_told(told.columns),
        rows: number_told(told.rows),
        set_columns: number_told(told.set_columns),
        skin: said(told.skin),
    }
}

// A word that isn't empty.
fn said(word: Option<&str>) -> Option<&str>
    ensures { result ≡ said word.entry }
{
    match word {
        Some(text) if !text.is_empty() => Some(text),
        _ => None,
    }
}

// Whether the kind of terminal obeys no commands.
fn is_dumb(term: Option<&str>) -> bool
    ensures { result ≡ is_dumb (text_told term.entry) }
{
    match said(term) {
        Some(name) => name == "dumb",
        None => true,
    }
}

// Whether so many colors are few.
fn has_few(colors: Option<u16>) -> bool
    ensures { result ≡ has_few colors }
{
    match colors {
        Some(count) => count < 256,
        None => false,
    }
}

// The shade that a word says.
fn shade_told(word: Option<&str>) -> Shade
    ensures { result ≡ shade_told (text_told word.entry) }
{
    match word {
        Some("dark") => Shade::Dark,
        Some("light") => Shade::Light,
        _ => Shade::Unknown,
    }
}

// The number that a word says, from 1 to 65,535.
fn number_told(word: Option<&str>) -> Option<u16>
    ensures { result ≡ number_told (text_told word.entry) }
{
    match columns_written(word?) {
        Some(0) => None,
        number => number,
    }
}
