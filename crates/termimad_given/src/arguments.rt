//! Arguments.

ghost use Rattle.std.specs.Prelude.{◌≡◌, drop, map, string_bytes, IfOk, MatchResult};
ghost use Rattle.std.specs.Vec.Iter.{into_iter_items};
ghost use Rattle.termimad_given.specs.Given.{GivesWords, LacksWords};

use std::alloc::{AllocError, Global};
use std::io::ErrorKind;
use std::{env, io};

/// Why there are no words.
#[derive(Clone, Copy, Debug, PartialEq, Eq)]
pub enum NoWords {
    /// One of them isn't UTF-8.
    Undecoded,
    /// Out of memory.
    Memory,
}

/// The words behind the program's name, of the arguments that a system gives.
///
/// # Errors
///
/// One of them isn't UTF-8; or out of memory.
pub fn words_behind_name(
    alloc: Global,
    given: io::Result<env::Args>,
) -> Result<Vec<String>, NoWords>
    ensures { MatchResult result (λ words. GivesWords given (map string_bytes words.items)) (LacksWords given) }
{
    match given {
        Ok(given) => match without_name(alloc, given) {
            Ok(words) => Ok(words),
            Err(_) => Err(NoWords::Memory),
        },
        Err(e) if e.kind() == ErrorKind::OutOfMemory => Err(NoWords::Memory),
        Err(_) => Err(NoWords::Undecoded),
    }
}

// The arguments after the first, which is the program's name.
fn without_name(alloc: Global, given: env::Args) -> Result<Vec<String>, AllocError>
    ensures { IfOk result (λ words. words.items ≡ drop 1 (into_iter_items given)) }
{
    let mut given = given;
    let _name = given.next();
    let mut words = Vec::new(alloc);
    for word in given {
        words.push(word)?;
    }
    Ok(words)
}
