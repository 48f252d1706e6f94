//! What is said of a skin that is read all the same.

ghost use Rattle.std.specs.Prelude.{◌≡◌, ◌≢◌, [], IfOk, MatchResult, map, string_bytes};
ghost use Rattle.termimad_run.specs.UnknownKeys.{key_lines, SaysKeys};

use mad_term::{Out, put_all};
use std::alloc::{AllocError, Global};

/// Says on a device which keys of a skin name no part of one: a line for each, all at once. Without keys nothing
/// happens; a fault of the device is passed over.
///
/// # Errors
///
/// Out of memory for the lines. Then nothing was said.
pub fn say_unknown<E: Out>(alloc: Global, err: &mut E, keys: &[String]) -> Result<(), AllocError>
    ensures { MatchResult result (λ _. SaysKeys (E.seen err.old) (map string_bytes keys.now) (E.seen err.new))
        (λ _. (map string_bytes keys.now ≢ []) × (E.seen err.new ≡ E.seen err.old)) }
{
    if keys.is_empty() {
        return Ok(());
    }
    let lines = lines_of(alloc, keys)?;
    let _ = put_all(err, lines.as_bytes());
    Ok(())
}

// A line for each key.
fn lines_of(alloc: Global, keys: &[String]) -> Result<String, AllocError>
    ensures { IfOk result (λ lines. string_bytes lines ≡ key_lines (map string_bytes keys.now)) }
{
    let mut lines = String::new(alloc);
    for key in keys {
        lines.push_str("unknown key: ")?;
        lines.push_str(key.as_str())?;
        lines.push('\n')?;
    }
    Ok(lines)
}
