//! Fronts of a text.

ghost use Rattle.std.specs.Prelude.{◌≡◌, ◌≤◌, ◌⊎◌, length};
ghost use Rattle.mad_fitting.specs.Pieces.{IsFrontOf, StopsWithin, IsNoLonger, IsSolidFront};

use mad_characters::char_columns;

/// A front of a text.
#[derive(Clone, Copy)]
pub(crate) struct Front {
    /// Its bytes.
    pub(crate) bytes: usize,
    /// Its columns.
    pub(crate) columns: usize,
}

/// The longest front that takes at most `most` columns.
pub(crate) fn longest_front(text: &str, most: u128) -> Front
    ensures front { IsFrontOf text.now result }
    ensures fits { result.columns ≤ most }
    ensures stops { StopsWithin most text.now result }
{
    let mut columns = 0;
    for (index, c) in text.char_indices() {
        let width = char_columns(c);
        if (columns + width) as u128 > most {
            return Front {
                bytes: index,
                columns,
            };
        }
        columns += width;
    }
    Front {
        bytes: text.len(),
        columns,
    }
}

/// The shortest front that takes at least `least` columns, all of the text where it takes fewer.
pub(crate) fn shortest_front(text: &str, least: u128) -> Front
    ensures front { IsFrontOf text.now result }
    ensures enough { (least ≤ result.columns) ⊎ (result.bytes ≡ length text.now) }
    ensures shortest { IsNoLonger least text.now result }
{
    let mut columns = 0;
    for (index, c) in text.char_indices() {
        if columns as u128 >= least {
            return Front {
                bytes: index,
                columns,
            };
        }
        columns += char_columns(c);
    }
    Front {
        bytes: text.len(),
        columns,
    }
}

/// The longest front without whitespace.
pub(crate) fn solid_front(text: &str) -> Front
    ensures front { IsFrontOf text.now result }
    ensures solid { IsSolidFront text.now result }
{
    let mut columns = 0;
    for (index, c) in text.char_indices() {
        if c.is_whitespace() {
            return Front {
                bytes: index,
                columns,
            };
        }
        columns += char_columns(c);
    }
    Front {
        bytes: text.len(),
        columns,
    }
}
