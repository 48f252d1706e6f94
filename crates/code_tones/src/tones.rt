//! The tones of a text's counted characters.

ghost use Rattle.std.specs.Prelude.{◌≡◌, ◌++◌, OnOk};
ghost use Rattle.bstr.specs.Utf8.{pieces};
ghost use Rattle.code_tones.specs.Tones.{byte_tones, counted_tones, tones_of, toned};
ghost use Rattle.mad_mark_runs.specs.Values.{AreRising, end_from, joined_from, values_of};

use crate::byte_tones::ByteTones;
use crate::characters::{first_char, is_counted};
use code_colors::bytes::tail;
use code_colors::tokens::{Token, tokens_by};
use code_tables::rules::Language;
use mad_mark_runs::{MarkRun, push_run};
use std::alloc::{AllocError, Global};

/// Adds the tones of a text of code to runs: one for each character of it that isn't blank. Without a language all are plain.
///
/// # Errors
///
/// Out of memory is the only error. Some tones may have been added then.
pub fn push_tones(
    alloc: Global,
    language: Option<Language>,
    text: &[u8],
    runs: &mut Vec<MarkRun>,
) -> Result<(), AllocError>
    requires { AreRising 0 runs.old.items }
    ensures rising { AreRising 0 runs.new.items }
    ensures values { OnOk result (values_of runs.new.items ≡ values_of runs.old.items ++ tones_of language text.now) }
    ensures runs { OnOk result (runs.new.items ≡ runs.old.items ++ joined_from (end_from 0 runs.old.items) 0 0 (tones_of language text.now)) }
{
    let tokens = tokens_by(alloc, language, text)?;
    push_token_tones(&tokens, text, runs)
}

// Adds the tones of a text's counted characters, by its tokens.
fn push_token_tones(
    tokens: &[Token],
    text: &[u8],
    runs: &mut Vec<MarkRun>,
) -> Result<(), AllocError>
    requires { AreRising 0 runs.old.items }
    ensures rising { AreRising 0 runs.new.items }
    ensures values { OnOk result (values_of runs.new.items ≡ values_of runs.old.items ++ counted_tones (toned (byte_tones tokens.now) (pieces text.now))) }
    ensures runs { OnOk result (runs.new.items ≡ runs.old.items ++ joined_from (end_from 0 runs.old.items) 0 0 (counted_tones (toned (byte_tones tokens.now) (pieces text.now)))) }
{
    let mut tones = ByteTones::new(tokens);
    let mut rest = text;
    let mut value: usize = 0;
    let mut count: usize = 0;
    while !rest.is_empty() {
        let tone = tones.next();
        let (c, size) = first_char(rest);
        if is_counted(c) {
            if tone != value {
                push_run(runs, value, count)?;
                value = tone;
                count = 0;
            }
            count += 1;
        }
        tones.pass(size - 1);
        rest = tail(rest, size);
    }
    push_run(runs, value, count)
}
