//! The bytes of an event.

ghost use Rattle.std.specs.Prelude.{◌≡◌, ◌≢◌, ◌∷◌, ◌++◌, [], IfOk, OnErr, None, option_map, vec_items, string_bytes};
ghost use Rattle.mad_keys.specs.Forms.{form_bytes};
ghost use Rattle.mad_keys.specs.PlainBytes.{plain_bytes};
ghost use Rattle.mad_keys.specs.Laws.{IsWritten};

use crate::forms::{Form, plain_form};
use mad_term::Event;
use std::alloc::{AllocError, Global};

// The bytes of a text, and a letter after them.
fn ended(text: String, letter: u8) -> Result<Vec<u8>, AllocError>
    ensures { IfOk result (λ bytes. bytes.items ≡ string_bytes text ++ letter ∷ []) }
{
    let mut bytes = text.into_bytes();
    bytes.push(letter)?;
    Ok(bytes)
}

// The bytes of a form.
#[tactic(auto, using(crate::proofs::FormLemmas::one_number, crate::proofs::FormLemmas::two_numbers, crate::proofs::FormLemmas::three_numbers, crate::proofs::FormLemmas::eight_first))]
fn bytes_of(alloc: Global, form: Form) -> Result<Vec<u8>, AllocError>
    ensures { IfOk result (λ bytes. bytes.items ≡ form_bytes form) }
{
    match form {
        Form::Char(c) => Ok(format!(in alloc; "{c}")?.into_bytes()),
        Form::Alt(c) => Ok(format!(in alloc; "\x1b{c}")?.into_bytes()),
        Form::Application(letter) => ended(format!(in alloc; "\x1bO")?, letter),
        Form::Letter(letter) => ended(format!(in alloc; "\x1b[")?, letter),
        Form::Number(n) => ended(format!(in alloc; "\x1b[{n}")?, b'~'),
        Form::Pair(n, m, letter) => ended(format!(in alloc; "\x1b[{n};{m}")?, letter),
        Form::Size(rows, columns) => ended(format!(in alloc; "\x1b[8;{rows};{columns}")?, b't'),
        Form::Mouse(number, column, row, letter) => {
            ended(format!(in alloc; "\x1b[<{number};{column};{row}")?, letter)
        }
    }
}

/// The bytes by which a terminal tells an event, in their plainest form. Alone in a block, [`Keys`](crate::Keys) reads them as that event.
///
/// It answers None only where no bytes are the event:
///
/// - Control with `h`, `i`, `j` or `m`, or with another character than `a` to `z`, `\`, `]`, `^` or `_`.
/// - Alt with `[` or `O`: after ESC these begin sequences.
/// - Shift with a character, and Shift or Control with Null, Tab, Enter or Backspace.
/// - Esc or BackTab with modifiers.
/// - A control character as a character, F0, F13 and more, a size of 0, and modifiers beside Shift, Control and Alt.
///
/// # Errors
///
/// Out of memory.
pub fn event_bytes(alloc: Global, event: &Event) -> Result<Option<Vec<u8>>, AllocError>
    ensures plain { IfOk result (λ bytes. option_map vec_items bytes ≡ plain_bytes event.now) }
    ensures written { IfOk result (λ bytes. IsWritten event.now (option_map vec_items bytes)) }
    ensures fails { OnErr result (plain_bytes event.now ≢ None) }
{
    match plain_form(*event) {
        Some(form) => Ok(Some(bytes_of(alloc, form)?)),
        None => Ok(None),
    }
}
