//! Vectors that hold parts of one list, its chunks. Between many elements one is put in, and few have to move.

ghost use Rattle.std.specs.Prelude.{◌≡◌, ◌<◌, ◌≤◌, ◌+◌, ◌-◌, IfErr, OnErr, OnOk, get_or, length, slice_get, take};
ghost use Rattle.std.specs.Global.{Vec};
ghost use Rattle.std.specs.List.{insert};
ghost use Rattle.std.specs.Option.{option_copied};
ghost use Rattle.mad_list_rows.specs.Chunks.{all_of, last_of};

use std::alloc::{AllocError, AllocFailed, Global};

// A chunk of more elements than this is cut in two.
const MOST: usize = 1024;

/// The element of an index.
pub(crate) fn element_at<X>(chunks: &[Vec<X>], index: usize) -> Option<&X>
    ensures { option_copied result ≡ slice_get (all_of chunks.now) index }
{
    let mut left = index;
    for chunk in chunks {
        if left < chunk.len() {
            return Some(&chunk[left]);
        }
        left -= chunk.len();
    }
    None
}

/// The last element of the first `count` chunks.
pub(crate) fn last_element<X>(chunks: &[Vec<X>], count: usize) -> Option<&X>
    requires { count ≤ length chunks.now }
    ensures { option_copied result ≡ last_of (all_of (take count chunks.now)) }
{
    let mut left = count;
    while left > 0 {
        left -= 1;
        if let Some(element) = chunks[left].last() {
            return Some(element);
        }
    }
    None
}

/// Puts an element into a chunk, before the one of an index there or last. A chunk that has many then is cut in two, where memory is there.
pub(crate) fn put_element<X: Drop>(
    chunks: &mut Vec<Vec<X>>,
    chunk: usize,
    at: usize,
    element: X,
) -> Result<(), AllocFailed<X>>
    requires there { chunk < length chunks.old.items }
    requires inside { (d : Vec X) → at ≤ length (get_or chunks.old.items chunk d).items }
    ensures put { OnOk result (all_of chunks.new.items ≡ insert (all_of chunks.old.items) (length (all_of (take chunk chunks.old.items)) + at) element) }
    ensures err { OnErr result (all_of chunks.new.items ≡ all_of chunks.old.items) }
    ensures back { IfErr result (λ e. e.value ≡ element) }
{
    chunks[chunk].insert(at, element)?;
    if chunks[chunk].len() > MOST {
        cut_chunk(chunks, chunk);
    }
    Ok(())
}

// Cuts a chunk in two, where memory is there.
fn cut_chunk<X: Drop>(chunks: &mut Vec<Vec<X>>, chunk: usize)
    requires { chunk < length chunks.old.items }
    ensures { all_of chunks.new.items ≡ all_of chunks.old.items }
{
    let Ok(()) = chunks.try_reserve(1) else {
        return;
    };
    let half = chunks[chunk].len() / 2;
    if let Ok(back) = chunks[chunk].split_off(half) {
        let _put = chunks.insert(chunk + 1, back);
    }
}

/// Makes a chunk, where there is none.
///
/// # Errors
///
/// Out of memory.
pub(crate) fn have_chunk<X: Drop>(chunks: &mut Vec<Vec<X>>) -> Result<(), AllocError>
    ensures kept { all_of chunks.new.items ≡ all_of chunks.old.items }
    ensures some { OnOk result (0 < length chunks.new.items) }
{
    if chunks.is_empty() {
        let alloc = *chunks.allocator();
        if chunks.push(Vec::new(alloc)).is_err() {
            return Err(AllocError);
        }
    }
    Ok(())
}

/// Puts the elements of all chunks, of which there are `count`, into one.
///
/// # Errors
///
/// Out of memory. The elements are as they were.
pub(crate) fn join_chunks<X: Drop>(chunks: &mut Vec<Vec<X>>, count: usize) -> Result<(), AllocError>
    requires { count ≡ length (all_of chunks.old.items) }
    ensures kept { all_of chunks.new.items ≡ all_of chunks.old.items }
    ensures one { OnOk result (length chunks.new.items ≡ 1) }
{
    have_chunk(chunks)?;
    if chunks.len() == 1 {
        return Ok(());
    }
    let mut all = Vec::new(*chunks.allocator());
    all.try_reserve(count)?;
    for chunk in chunks.iter_mut() {
        let _moved = all.append(chunk);
    }
    chunks[0] = all;
    chunks.truncate(1);
    Ok(())
}
