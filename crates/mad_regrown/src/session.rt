//! A session whose text has grown.

ghost use Rattle.std.specs.Prelude.{◌≡◌, IfOk};
ghost use Rattle.mad_outline.specs.Sources.{source_page};
ghost use Rattle.mad_pager.specs.Sessions.{state_of};
ghost use Rattle.mad_search.specs.KeptRows.{row_in_parts};
ghost use Rattle.mad_regrown.specs.Growing.{kept_found, kept_from, kept_state, IsGrown};

use mad_field::InputField;
use mad_outline::Source;
use mad_page::Page;
use mad_page_skin::PageSkin;
use mad_pager::{ScreenSize, Session};
use mad_patterns::Sought;
use mad_search::row_in_parts;
use std::alloc::{AllocError, Global};

/// What is kept of a session while more of its text is read.
#[derive(Drop)]
pub struct Kept {
    /// The screen, and which row was on top.
    pub page: Page,
    /// The rows in which sections of the shorter text began.
    pub starts: Vec<usize>,
    /// What is being typed, or was typed last.
    pub field: InputField,
    /// Whether it is being typed.
    pub is_typing: bool,
    /// Whether it is to be sought backwards.
    pub types_back: bool,
    /// What is sought; nothing, where it is empty.
    pub sought: String,
    /// What that is read as.
    pub reading: Sought,
    /// Whether it is sought backwards.
    pub is_backward: bool,
    /// What was sought so far.
    pub past: Vec<String>,
    /// How many searches ago the text was sought that is in the field; 0 for none.
    pub back: usize,
    /// The row of the shorter text that the last search found.
    pub found: Option<usize>,
    /// Whether the last search found no row.
    pub is_missing: bool,
    /// The size of the screen that the terminal told.
    pub told: Option<ScreenSize>,
}

/// Ends a session over a text, and keeps what doesn't hang on the text.
pub fn keep(session: Session) -> Kept
    ensures { kept_state result ≡ kept_from (state_of session.entry) }
{
    let Session {
        name: _,
        source: _,
        skin: _,
        laid,
        page,
        field,
        is_typing,
        types_back,
        sought,
        reading,
        is_backward,
        past,
        back,
        found,
        is_missing,
        told,
    } = session;
    Kept {
        page,
        starts: laid.starts,
        field,
        is_typing,
        types_back,
        sought,
        reading,
        is_backward,
        past,
        back,
        found,
        is_missing,
        told,
    }
}

/// The session over a longer text: it is laid out for the same screen. The row on top, and the one that was found last, are as far below the starts of
/// their sections as before.
///
/// # Errors
///
/// Out of memory is the only error.
pub fn resume<'s>(
    alloc: Global,
    name: &'s str,
    source: Source<'s>,
    skin: &'s PageSkin,
    kept: Kept,
) -> Result<Session<'s>, AllocError>
    ensures name { IfOk result (λ s. s.name ≡ name.entry) }
    ensures source { IfOk result (λ s. s.source ≡ source.entry) }
    ensures skin { IfOk result (λ s. s.skin.now ≡ skin.now) }
    ensures grown { IfOk result (λ s. IsGrown skin.now (source_page source.entry) (kept_state kept) (state_of s)) }
{
    let fresh = Session::new(
        alloc,
        name,
        source,
        skin,
        kept.page.columns,
        kept.page.rows,
        kept.page.files,
    )?;
    let page = page_grown(&kept, &fresh);
    let found = kept_found(
        kept.starts.as_slice(),
        fresh.laid.starts.as_slice(),
        kept.found,
    );
    Ok(Session {
        name: fresh.name,
        source: fresh.source,
        skin: fresh.skin,
        laid: fresh.laid,
        page,
        field: kept.field,
        is_typing: kept.is_typing,
        types_back: kept.types_back,
        sought: kept.sought,
        reading: kept.reading,
        is_backward: kept.is_backward,
        past: kept.past,
        back: kept.back,
        found,
        is_missing: kept.is_missing,
        told: kept.told,
    })
}

// The screen that there was, over the longer text of a session at its start.
fn page_grown(kept: &Kept, fresh: &Session) -> Page
    ensures { result ≡ record kept.now.page { height = fresh.now.page.height; top = row_in_parts kept.now.starts.items fresh.now.laid.starts.items kept.now.page.top } }
{
    let top = row_in_parts(
        kept.starts.as_slice(),
        fresh.laid.starts.as_slice(),
        kept.page.top,
    );
    Page {
        columns: kept.page.columns,
        rows: kept.page.rows,
        height: fresh.page.height,
        top,
        count: kept.page.count,
        holds_bar: kept.page.holds_bar,
        has_colon: kept.page.has_colon,
        tells: kept.page.tells,
        files: kept.page.files,
    }
}

// The row that was found last, in the longer text.
fn kept_found(old: &[usize], new: &[usize], found: Option<usize>) -> Option<usize>
    ensures { result ≡ kept_found old.now new.now found }
{
    match found {
        Some(row) => Some(row_in_parts(old, new, row)),
        None => None,
    }
}
