//! The longest front of a text that fits some columns.

ghost use Rattle.std.specs.Prelude.{◌≡◌, ◌+◌, ◌<◌, ◌≤◌, ◌^◌, false, length, take, chars, string_bytes, encode_utf8_all, IfOk, OnErr, Ok, MatchOption};
ghost use Rattle.std.specs.Cow.{cow_str_bytes, IsOwnedStr};
ghost use Rattle.mad_measure.specs.RunningWidths.{columns_on, columns_back, IsFit, IsCropped, HasTabWithin, has_tab, tabs_replaced};

use mad_characters::char_columns;
use std::alloc::{AllocError, Global};
use std::borrow::CowStr;

/// What a tab is written as.
pub const TAB_REPLACEMENT: &str = "  ";

/// What a tab is written as where nothing else is asked for.
pub const DEFAULT_TAB_REPLACEMENT: &str = TAB_REPLACEMENT;

/// The longest front of a text that fits some columns.
///
/// A tab takes two columns and a backspace takes one back. No front of it passes the columns, so a backspace makes room
/// for what follows it, and not for what is before it. Any other control character takes none.
#[derive(Clone, Copy, Debug)]
pub struct StrFit {
    bytes_count: usize,
    cols_count: usize,
    has_tab: bool,
}

impl StrFit {
    /// The longest front of the text that fits `cols_max` columns. One pass over that front.
    pub fn from(s: &str, cols_max: usize) -> Self
        ensures fit { IsFit s.now cols_max result.bytes_count result.cols_count }
        ensures tab { result.has_tab ≡ has_tab (chars (take result.bytes_count s.now)) }
    {
        let most = cols_max as u128;
        let mut room = most;
        let mut fit = StrFit {
            bytes_count: 0,
            cols_count: 0,
            has_tab: false,
        };
        for c in s.chars() {
            let Some(left) = room_after(room, c) else {
                return fit;
            };
            room = left;
            fit.bytes_count += c.len_utf8();
            fit.cols_count = most.saturating_sub(room) as usize;
            fit.has_tab = fit.has_tab || c == '\t';
        }
        fit
    }

    /// How many bytes the longest front of the text has that fits `cols_max` columns, and how many columns it takes: 0
    /// where it takes back more than it takes.
    pub fn count_fitting(s: &str, cols_max: usize) -> (usize, usize)
        ensures { IsFit s.now cols_max result.0 result.1 }
    {
        let fit = Self::from(s, cols_max);
        (fit.bytes_count, fit.cols_count)
    }

    /// The longest front of the text that fits `cols_max` columns, each tab replaced by two spaces, and its columns.
    ///
    /// # Errors
    ///
    /// Out of memory is the only error.
    pub fn make_string(
        alloc: Global,
        s: &str,
        cols_max: usize,
    ) -> Result<(String, usize), AllocError>
        ensures { IfOk result (λ cropped. IsCropped s.now cols_max (string_bytes cropped.0) cropped.1) }
    {
        let (cow, cols) = Self::make_cow(alloc, s, cols_max)?;
        Ok((cow.into_owned(alloc)?, cols))
    }

    /// The same, borrowed where no tab is in that front.
    ///
    /// # Errors
    ///
    /// Out of memory is the only error. It can't be where no tab is in that front.
    #[tactic(auto, using(crate::proofs::StrFitLemmas::cropped_replaced, crate::proofs::StrFitLemmas::cropped_as_is))]
    pub fn make_cow(
        alloc: Global,
        s: &str,
        cols_max: usize,
    ) -> Result<(CowStr<'_, Global>, usize), AllocError>
        ensures cropped { IfOk result (λ cropped. IsCropped s.now cols_max (cow_str_bytes cropped.0) cropped.1) }
        ensures borrowed { IfOk result (λ cropped. IsOwnedStr cropped.0 → HasTabWithin s.now cols_max) }
        ensures err { OnErr result (HasTabWithin s.now cols_max) }
    {
        let fit = Self::from(s, cols_max);
        let front = &s[..fit.bytes_count];
        if !fit.has_tab {
            return Ok((CowStr::Borrowed(front), fit.cols_count));
        }
        let replaced = replace_tabs(alloc, front)?;
        Ok((CowStr::Owned(replaced), fit.cols_count))
    }
}

// The columns that a character leaves; `None` where there are too few for it.
fn room_after(room: u128, c: char) -> Option<u128>
    requires { room < 2 ^ 127 }
    ensures { MatchOption result (room + columns_back c < columns_on c) (λ left. left + columns_on c ≡ room + columns_back c) }
{
    match c {
        '\t' => room.checked_sub(2),
        '\x08' => Some(room + 1),
        _ => room.checked_sub(char_columns(c) as u128),
    }
}

// The text, each tab replaced by two spaces.
fn replace_tabs(alloc: Global, text: &str) -> Result<String, AllocError>
    ensures { IfOk result (λ replaced. string_bytes replaced ≡ encode_utf8_all (tabs_replaced (chars text.now))) }
{
    let mut replaced = String::with_capacity(alloc, text.len())?;
    for c in text.chars() {
        if c == '\t' {
            replaced.push_str(TAB_REPLACEMENT)?;
        } else {
            replaced.push(c)?;
        }
    }
    Ok(replaced)
}
