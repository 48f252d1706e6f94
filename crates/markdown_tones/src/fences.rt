//! The marks of code behind a fence.

ghost use Rattle.std.specs.Prelude.{◌≡◌, IfOk, map};
ghost use Rattle.markdown_marks.specs.Remaining.{remaining};
ghost use Rattle.markdown_tones.specs.Fences.{begins_session, fence_language, fence_marks, marks_in, session_of};

use crate::code::push_code_tones;
use code_names::language_of;
use code_tables::rules::Language;
use mad_mark_runs::MarkRun;
use markdown_marks::rest::Rest;
use std::alloc::{AllocError, Global};

/// The marks of a fence's code: a tone for each character that is shown of it and isn't blank, by the language that the fence names. The first line is what
/// stands behind the fence. Without a language code has no marks.
///
/// # Errors
///
/// Out of memory is the only error.
pub fn fence_marks(alloc: Global, lines: &[Rest<'_>]) -> Result<Vec<MarkRun>, AllocError>
    ensures { IfOk result (λ marks. marks.items ≡ fence_marks (map remaining lines.now)) }
{
    match lines {
        [] => Ok(Vec::new(alloc)),
        [info, code @ ..] => marks_in(alloc, fence_language(info, code), code),
    }
}

// Those of lines of code in a language, if it has one.
fn marks_in(
    alloc: Global,
    language: Option<Language>,
    code: &[Rest<'_>],
) -> Result<Vec<MarkRun>, AllocError>
    ensures { IfOk result (λ marks. marks.items ≡ marks_in language (map remaining code.now)) }
{
    let mut marks = Vec::new(alloc);
    if language.is_some() {
        push_code_tones(alloc, language, code, &mut marks)?;
    }
    Ok(marks)
}

// The language that a fence names. Lines of a shell are a session, if the first is a prompt.
fn fence_language(info: &Rest<'_>, code: &[Rest<'_>]) -> Option<Language>
    ensures { result ≡ fence_language (remaining info.now) (map remaining code.now) }
{
    match language_of(info.bytes) {
        Some(Language::Sh) => Some(session_of(begins_session(code))),
        language => language,
    }
}

// A shell's lines, or a session with their answers.
fn session_of(prompt: bool) -> Language
    ensures { result ≡ session_of prompt }
{
    if prompt {
        Language::Console
    } else {
        Language::Sh
    }
}

// Whether the first line is a prompt.
fn begins_session(code: &[Rest<'_>]) -> bool
    ensures { result ≡ begins_session (map remaining code.now) }
{
    match code {
        [] => false,
        [line, ..] => matches!(line.bytes, [b'$', b' ', ..]),
    }
}
