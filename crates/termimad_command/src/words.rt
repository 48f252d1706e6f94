//! The words of a call.

ghost use Rattle.std.specs.Prelude.{◌≡◌, ◌∷◌, map, option_map, string_bytes, codes, IfOk};
ghost use Rattle.termimad_command.specs.Calls.{AreParted, asks_plan, words_behind};

use std::alloc::{AllocError, Global};
use termimad_options::{Parted, part_places};

/// Whether the words behind the program's name ask for the plan of a call alone, and these words parted: options, and where a text is shown first.
///
/// # Errors
///
/// Out of memory is the only error.
pub(crate) fn parted<'a>(
    alloc: Global,
    args: &'a [String],
) -> Result<(bool, Parted<'a>), AllocError>
    ensures { IfOk result (λ said. (said.0 ≡ asks_plan (map string_bytes args.now))
        × AreParted (map string_bytes args.now) (map (λ word. word.now) said.1.words.items) (option_map (λ word. word.now) said.1.place)) }
{
    let (plans, behind) = plan_asked(args);
    let words = words_of(alloc, behind)?;
    let parted = part_places(alloc, words.as_slice())?;
    Ok((plans, parted))
}

// The words of a call: the program's name, and these.
fn words_of<'a>(alloc: Global, args: &'a [String]) -> Result<Vec<&'a str>, AllocError>
    ensures { IfOk result (λ words. map (λ word. word.now) words.items ≡ codes "termimad" ∷ map string_bytes args.now) }
{
    let mut words = Vec::new(alloc);
    words.push("termimad")?;
    for arg in args {
        words.push(arg.as_str())?;
    }
    Ok(words)
}

// Whether the first word asks for the plan of a call alone, and the words behind it.
fn plan_asked(args: &[String]) -> (bool, &[String])
    ensures asks { result.0 ≡ asks_plan (map string_bytes args.now) }
    ensures behind { map string_bytes result.1.now ≡ words_behind (map string_bytes args.now) }
{
    match args {
        [first, rest @ ..] if first.as_str() == "--plan" => (true, rest),
        _ => (false, args),
    }
}
