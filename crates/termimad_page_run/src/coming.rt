//! A text that comes: where it comes from, and what was read of it.

ghost use Rattle.std.specs.Prelude.{◌≡◌, IfErr, IfOk, MatchResult, None, false, string_bytes};
ghost use Rattle.termimad_page_run.specs.Comings.{IsFrontShown, IsLooked, IsMore, IsMoreUpTo, IsUnlooked, arrival, is_whole_after, name_coming, name_suffix};

use mad_growth::{read_on, whole_lines};
use mad_term::{Error, Source};
use std::alloc::{AllocError, Global};

/// A text that comes, as a file into which another program writes.
#[derive(Drop)]
pub struct Coming<T: Source, F: Source> {
    /// What has come of it and wasn't read. At its end there may be more later.
    pub text: T,
    /// It has a byte once no more comes: `c`, where the text was cut off.
    pub mark: F,
    /// That byte, if it was read.
    pub ended: Option<u8>,
    /// Whether no more comes and all was read.
    pub is_whole: bool,
}

impl<T: Source, F: Source> Coming<T, F> {
    /// A text of which nothing was read.
    pub fn new(text: T, mark: F) -> Self
        ensures { result ≡ record { text = text; mark = mark; ended = None; is_whole = false } }
    {
        Coming {
            text,
            mark,
            ended: None,
            is_whole: false,
        }
    }
}

/// Looks whether the mark has its byte, if it wasn't read before.
pub(crate) fn look<T: Source, F: Source>(coming: &mut Coming<T, F>) -> Result<(), Error>
    ensures { MatchResult result
        (λ _. IsLooked (arrival (T.seen coming.old.text) (F.seen coming.old.mark) coming.old.ended coming.old.is_whole) (arrival (T.seen coming.new.text) (F.seen coming.new.mark) coming.new.ended coming.new.is_whole))
        (λ e. IsUnlooked (arrival (T.seen coming.old.text) (F.seen coming.old.mark) coming.old.ended coming.old.is_whole) e (arrival (T.seen coming.new.text) (F.seen coming.new.mark) coming.new.ended coming.new.is_whole)) }
{
    if coming.ended.is_some() {
        return Ok(());
    }
    let mut byte = [0; 1];
    let count = coming.mark.fill(&mut byte)?;
    if count > 0 {
        coming.ended = Some(byte[0]);
    }
    Ok(())
}

/// Looks at the mark, and puts what has come since behind what is fresh: at most a block more than so many bytes. Of a whole text nothing is read, unless
/// it is followed.
///
/// # Errors
///
/// A fault of the sources, or out of memory. What was read by then is in what is fresh.
pub(crate) fn read_more<T: Source, F: Source>(
    coming: &mut Coming<T, F>,
    most: usize,
    fresh: &mut Vec<u8>,
) -> Result<(), Error>
    ensures more { IfOk result (λ _. IsMore most (arrival (T.seen coming.old.text) (F.seen coming.old.mark) coming.old.ended coming.old.is_whole) fresh.old.items
        (arrival (T.seen coming.new.text) (F.seen coming.new.mark) coming.new.ended coming.new.is_whole) fresh.new.items) }
    ensures fault { IfErr result (λ e. IsMoreUpTo (arrival (T.seen coming.old.text) (F.seen coming.old.mark) coming.old.ended coming.old.is_whole) fresh.old.items e
        (arrival (T.seen coming.new.text) (F.seen coming.new.mark) coming.new.ended coming.new.is_whole) fresh.new.items) }
{
    look(coming)?;
    let count = read_on(&mut coming.text, fresh, most)?;
    coming.is_whole = is_whole_after(coming.ended, coming.is_whole, count, most);
    Ok(())
}

// Whether no more comes and all was read, after so many bytes of a reading.
fn is_whole_after(ended: Option<u8>, was_whole: bool, count: usize, most: usize) -> bool
    ensures { result ≡ is_whole_after ended was_whole count most }
{
    ended.is_some() && (count < most || was_whole && most == 0)
}

/// The front of what was read that is shown: its whole lines, or all where no more comes.
pub(crate) fn front_shown(read: &[u8], is_whole: bool) -> &[u8]
    ensures { IsFrontShown read.now is_whole result.now }
{
    if is_whole {
        return read;
    }
    &read[..whole_lines(read)]
}

/// What is said behind the name of a text: whether it was cut off, and whether there is more of it.
pub(crate) fn name_suffix(ended: Option<u8>, is_whole: bool) -> &'static str
    ensures { result.now ≡ name_suffix ended is_whole }
{
    match ended {
        None => "  more comes",
        Some(b'c') if is_whole => " (its beginning)",
        Some(b'c') => " (its beginning)  more is there",
        Some(_) if is_whole => "",
        Some(_) => "  more is there",
    }
}

/// The name with that behind it.
pub(crate) fn name_coming(
    name: String,
    ended: Option<u8>,
    is_whole: bool,
) -> Result<String, AllocError>
    ensures { IfOk result (λ said. string_bytes said ≡ name_coming (string_bytes name) ended is_whole) }
{
    let mut said = name;
    said.push_str(name_suffix(ended, is_whole))?;
    Ok(said)
}
