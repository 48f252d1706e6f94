//! Where links begin in the rows of a section: of each link the first character that is on the screen.

ghost use Rattle.std.specs.Prelude.{◌≡◌, ◌+◌, ◌++◌, chars, IfOk, OnOk};
ghost use Rattle.mad_mark_runs.specs.Values.{AreRising};
ghost use Rattle.mad_link_places.specs.LinkPlaces.{is_counted, line_count, line_places, line_walked, link_mark, next_row, number_behind, number_of, place_at, row_places, row_start, row_walked, rows_count, rows_places, section_places, text_places, text_walked, walked};

use mad_characters::char_columns;
use mad_format::FmtLine;
use mad_mark_runs::{MarkRun, end_of, runs_from, value_at};
use mad_marks::{count_in, has_mark};
use mad_md::Compound;
use mad_style::CompositeKind;
use std::alloc::AllocError;

// The largest mark that is no link's.
const LAST_TONE: usize = 8;

/// Where a link begins on a screen, and its number.
#[derive(Clone, Copy, Debug, PartialEq, Eq)]
pub struct LinkPlace {
    /// The index of the page's row.
    pub row: usize,
    /// The columns of the row's text before it.
    pub column: usize,
    /// The number.
    pub number: usize,
}

/// What places of links are told by.
#[derive(Clone, Copy)]
pub struct Spot<'m> {
    /// The marks of a section's links.
    pub marks: &'m [MarkRun],
    /// How many links with numbers come before these.
    pub before: usize,
    /// The index of a row of the page.
    pub row: usize,
}

// A row so far.
#[derive(Clone, Copy)]
pub(crate) struct Walk {
    /// How many counted characters of the section stand before what is next.
    pub number: usize,
    /// The largest mark that was on the screen.
    pub seen: usize,
    /// The columns of the row's text so far.
    pub column: usize,
}

impl Walk {
    // The start of a row behind so many counted characters. None of the section's links was on the screen.
    fn start(number: usize) -> Walk
        ensures { result ≡ row_start number }
    {
        Walk {
            number,
            seen: LAST_TONE,
            column: 0,
        }
    }

    // The start of the next row.
    fn next_row(self) -> Walk
        ensures { result ≡ next_row self }
    {
        Walk {
            number: self.number,
            seen: self.seen,
            column: 0,
        }
    }
}

/// Puts the links of a section after others that begin on a screen. It has these rows of the page, the first of which is that of the spot. So many of them
/// are hidden above the screen, and so many come on it then. Where not as many characters of links are in the rows as have marks, as in tables, there are none.
///
/// # Errors
///
/// Out of memory, which a number past `usize::MAX` is too.
pub fn push_section_places(
    places: &mut Vec<LinkPlace>,
    spot: Spot<'_>,
    hidden: usize,
    shown: usize,
    rows: &[FmtLine],
) -> Result<(), AllocError>
    requires { AreRising 0 spot.marks.now }
    ensures { OnOk result (places.new.items ≡ places.old.items ++ section_places spot.entry.marks.now spot.entry.before spot.entry.row hidden shown rows.now) }
{
    if rows_count(rows)? != end_of(spot.marks) {
        return Ok(());
    }
    let above = &rows[..hidden.min(rows.len())];
    let below = &rows[hidden.min(rows.len())..];
    let walk = Walk::start(rows_count(above)?);
    let first = row_below(spot, hidden)?;
    push_rows_places(places, first, walk, &below[..shown.min(below.len())])
}

// The spot of a row so many further down.
fn row_below(spot: Spot<'_>, rows: usize) -> Result<Spot<'_>, AllocError>
    ensures marks { IfOk result (λ below. below.marks.now ≡ spot.entry.marks.now) }
    ensures before { IfOk result (λ below. below.before ≡ spot.entry.before) }
    ensures row { IfOk result (λ below. below.row ≡ spot.entry.row + rows) }
{
    let row = sum(spot.row, rows)?;
    Ok(Spot {
        marks: spot.marks,
        before: spot.before,
        row,
    })
}

// How many characters of links rows have.
#[tactic(auto, using(crate::proofs::PlaceLemmas::count_more, crate::proofs::PlaceLemmas::count_all))]
fn rows_count(rows: &[FmtLine]) -> Result<usize, AllocError>
    ensures { IfOk result (λ count. count ≡ rows_count rows.now) }
{
    let mut count: usize = 0;
    let mut rest = rows;
    'rows: while let [line, next @ ..] = rest {
        count = sum(count, line_count(line)?)?;
        rest = next;
    }
    Ok(count)
}

// How many a line has.
fn line_count(line: &FmtLine) -> Result<usize, AllocError>
    ensures { IfOk result (λ count. count ≡ line_count line.now) }
{
    match line {
        FmtLine::Normal(composite) => count_in(composite),
        FmtLine::TableRow(_) | FmtLine::TableRule(_) | FmtLine::HorizontalRule => Ok(0),
    }
}

fn sum(a: usize, b: usize) -> Result<usize, AllocError>
    ensures { IfOk result (λ sum. sum ≡ a + b) }
{
    match a.checked_add(b) {
        Some(sum) => Ok(sum),
        None => Err(AllocError),
    }
}

// Puts the links that begin in rows after others.
#[tactic(auto, using(crate::proofs::PlaceLemmas::rows_more, crate::proofs::PlaceLemmas::rows_all))]
fn push_rows_places(
    places: &mut Vec<LinkPlace>,
    spot: Spot<'_>,
    walk: Walk,
    rows: &[FmtLine],
) -> Result<(), AllocError>
    requires { AreRising 0 spot.marks.now }
    ensures { OnOk result (places.new.items ≡ places.old.items ++ rows_places spot.entry.marks.now spot.entry.before spot.entry.row walk rows.now) }
{
    let mut here = spot;
    let mut so_far = walk;
    let mut rest = rows;
    'rows: while let [line, next @ ..] = rest {
        push_line_places(places, here, &mut so_far, line)?;
        so_far = so_far.next_row();
        here = row_below(here, 1)?;
        rest = next;
    }
    Ok(())
}

// Puts those of a line after others.
fn push_line_places(
    places: &mut Vec<LinkPlace>,
    spot: Spot<'_>,
    walk: &mut Walk,
    line: &FmtLine,
) -> Result<(), AllocError>
    requires { AreRising 0 spot.marks.now }
    ensures places { OnOk result (places.new.items ≡ places.old.items ++ line_places spot.entry.marks.now spot.entry.before spot.entry.row walk.old line.now) }
    ensures walk { OnOk result (walk.new ≡ line_walked spot.entry.marks.now walk.old line.now) }
{
    match line {
        FmtLine::Normal(composite) => push_row_places(
            places,
            spot,
            composite.kind,
            walk,
            composite.compounds.as_slice(),
        ),
        FmtLine::TableRow(_) | FmtLine::TableRule(_) | FmtLine::HorizontalRule => Ok(()),
    }
}

// Puts those of compounds after others, in a line of this kind.
#[tactic(auto, using(crate::proofs::PlaceLemmas::row_more, crate::proofs::PlaceLemmas::row_all, crate::proofs::PlaceLemmas::walk_more, crate::proofs::PlaceLemmas::walk_all))]
fn push_row_places(
    places: &mut Vec<LinkPlace>,
    spot: Spot<'_>,
    kind: CompositeKind,
    walk: &mut Walk,
    compounds: &[Compound],
) -> Result<(), AllocError>
    requires { AreRising 0 spot.marks.now }
    ensures places { OnOk result (places.new.items ≡ places.old.items ++ row_places spot.entry.marks.now spot.entry.before spot.entry.row kind walk.old compounds.now) }
    ensures walk { OnOk result (walk.new ≡ row_walked spot.entry.marks.now kind walk.old compounds.now) }
{
    let mut rest = compounds;
    'compounds: while let [compound, next @ ..] = rest {
        push_text_places(places, spot, has_mark(kind, compound), walk, compound.src)?;
        rest = next;
    }
    Ok(())
}

// Puts those of a text after others, which is of links or not.
#[tactic(auto, using(crate::proofs::PlaceLemmas::text_put, crate::proofs::PlaceLemmas::text_walk_put))]
fn push_text_places(
    places: &mut Vec<LinkPlace>,
    spot: Spot<'_>,
    linked: bool,
    walk: &mut Walk,
    text: &str,
) -> Result<(), AllocError>
    requires { AreRising 0 spot.marks.now }
    ensures places { OnOk result (places.new.items ≡ places.old.items ++ text_places spot.entry.marks.now spot.entry.before spot.entry.row linked walk.old (chars text.now)) }
    ensures walk { OnOk result (walk.new ≡ text_walked spot.entry.marks.now linked walk.old (chars text.now)) }
{
    for c in text.chars() {
        push_char_place(places, spot, linked, walk, c)?;
    }
    Ok(())
}

// Puts the link that begins at a character after others, if one does.
fn push_char_place(
    places: &mut Vec<LinkPlace>,
    spot: Spot<'_>,
    linked: bool,
    walk: &mut Walk,
    c: char,
) -> Result<(), AllocError>
    requires { AreRising 0 spot.marks.now }
    ensures places { OnOk result (places.new.items ≡ places.old.items ++ place_at spot.entry.before spot.entry.row walk.old (link_mark spot.entry.marks.now linked walk.old.number c)) }
    ensures walk { OnOk result (walk.new ≡ walked spot.entry.marks.now linked walk.old c) }
{
    let mark = link_mark(spot.marks, linked, walk.number, c);
    push_place(places, spot, walk, mark)?;
    *walk = Walk {
        number: number_behind(linked, walk.number, c)?,
        seen: walk.seen.max(mark),
        column: sum(walk.column, char_columns(c))?,
    };
    Ok(())
}

// Puts the link of a mark after others, if it begins here.
fn push_place(
    places: &mut Vec<LinkPlace>,
    spot: Spot<'_>,
    walk: &Walk,
    mark: usize,
) -> Result<(), AllocError>
    ensures { OnOk result (places.new.items ≡ places.old.items ++ place_at spot.entry.before spot.entry.row walk.now mark) }
{
    if walk.seen < mark {
        places.push(LinkPlace {
            row: spot.row,
            column: walk.column,
            number: number_of(spot.before, mark)?,
        })?;
        return Ok(());
    }
    Ok(())
}

// The number of the link that has a mark, behind so many links.
fn number_of(before: usize, mark: usize) -> Result<usize, AllocError>
    ensures { IfOk result (λ number. number ≡ number_of before mark) }
{
    sum(before, mark.saturating_sub(LAST_TONE))
}

// Whether a character of a text is counted, which is of links or not.
fn is_counted(linked: bool, c: char) -> bool
    ensures { result ≡ is_counted linked c }
{
    linked && !c.is_whitespace()
}

// The mark of a character before which so many counted ones are.
#[tactic(auto, using(mad_marked_rows::proofs::CursorLemmas::from_start))]
fn link_mark(marks: &[MarkRun], linked: bool, number: usize, c: char) -> usize
    requires { AreRising 0 marks.now }
    ensures { result ≡ link_mark marks.now linked number c }
{
    if is_counted(linked, c) {
        return value_at(runs_from(marks, number), number);
    }
    0
}

// How many counted characters are before the next one.
fn number_behind(linked: bool, number: usize, c: char) -> Result<usize, AllocError>
    ensures { IfOk result (λ next. next ≡ number_behind linked number c) }
{
    if is_counted(linked, c) {
        return sum(number, 1);
    }
    Ok(number)
}
