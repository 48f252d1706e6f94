//! Filling of columns with one character, in pieces of at most 1000 characters.

ghost use Rattle.std.specs.Prelude.{◌≡◌, ◌≤◌, ◌/◌, ◌++◌, IfOk, IsErrOf, encode_utf8, string_bytes, replicate};
ghost use Rattle.std.specs.Char.{IsScalar};
ghost use Rattle.std.specs.List.{repeat};
ghost use Rattle.mad_term.specs.Draws.{Draws};
ghost use Rattle.mad_term.specs.Styles.{background_bytes};
ghost use Rattle.mad_term.specs.declared.errors.Error.TheVariants.{Memory};
ghost use Rattle.mad_style.specs.StyledChars.{styled_char};
ghost use Rattle.mad_draw.specs.Fillings.{piece_chars, filling_pieces};
ghost use Rattle.mad_draw.specs.Pieces.{pieces_bytes, char_repeat};

use crate::spaces::Spaces;
use mad_style::CompoundStyle;
use mad_term::{Color, Error, Out, push_background, push_styled, put_text};
use std::alloc::{AllocError, Global};

// The most characters that a piece has.
const PIECE_CHARS: usize = 1000;

/// A character that fills columns. It is kept as often as a piece may have it.
#[derive(Debug, Drop)]
pub struct Filling {
    filling_char: char,
    content: String,
    ghost whole: { string_bytes content ≡ repeat piece_chars (encode_utf8 filling_char) },
}

impl Filling {
    /// The filling of this character. Out of memory is the only error.
    pub fn from_char(alloc: Global, filling_char: char) -> Result<Self, AllocError>
        ensures { IfOk result (λ filling. filling.filling_char ≡ filling_char) }
    {
        let mut content = String::with_capacity(alloc, PIECE_CHARS * filling_char.len_utf8())?;
        for _done in 0..PIECE_CHARS {
            content.push(filling_char)?;
        }
        Ok(Self {
            filling_char,
            content,
        })
    }

    /// Writes the character `len` times without style.
    ///
    /// # Errors
    ///
    /// A fault of the device.
    pub fn queue_unstyled<O: Out>(&self, out: &mut O, len: usize) -> Result<(), Error>
        ensures writes { Draws (O.seen out.old) (repeat len (encode_utf8 self.now.filling_char)) result (O.seen out.new) }
        ensures without_memory { IsErrOf result Memory → ⊥ }
    {
        put_times(out, &self.content, len / PIECE_CHARS)?;
        put_text(out, self.front(len % PIECE_CHARS))
    }

    /// Writes the character `len` times in a style, in pieces of at most 1000 characters.
    ///
    /// # Errors
    ///
    /// A fault of the device, or out of memory before anything went out.
    pub fn queue_styled<O: Out>(
        &self,
        alloc: Global,
        out: &mut O,
        cs: &CompoundStyle,
        len: usize,
    ) -> Result<(), Error>
        ensures writes { Draws (O.seen out.old) (pieces_bytes (filling_pieces (styled_char cs.now self.now.filling_char) len)) result (O.seen out.new) }
        ensures early { IsErrOf result Memory → O.seen out.new ≡ O.seen out.old }
    {
        let whole = self.piece(alloc, cs, whole_chars(len))?;
        let last = self.piece(alloc, cs, len % PIECE_CHARS)?;
        put_filling(out, &whole, &last, len / PIECE_CHARS)
    }

    // The character `count` times.
    fn front(&self, count: usize) -> &str
        requires { count ≤ piece_chars }
        ensures { result.now ≡ repeat count (encode_utf8 self.now.filling_char) }
    {
        know_char(self.filling_char);
        &self.content[..count * self.filling_char.len_utf8()]
    }

    // The character `count` times as one piece; nothing of none.
    fn piece(&self, alloc: Global, cs: &CompoundStyle, count: usize) -> Result<String, AllocError>
        requires { count ≤ piece_chars }
        ensures { IfOk result (λ piece. string_bytes piece ≡ pieces_bytes (char_repeat (styled_char cs.now self.now.filling_char) count)) }
    {
        let mut piece = String::new(alloc);
        if count > 0 {
            push_styled(&mut piece, cs.object_style, self.front(count))?;
        }
        Ok(piece)
    }
}

/// Writes `len` spaces in a style, in pieces of at most 1000 characters, as a [`Filling`] of spaces does.
///
/// # Errors
///
/// A fault of the device, or out of memory before anything went out.
pub fn queue_spaces<O: Out>(
    alloc: Global,
    out: &mut O,
    cs: &CompoundStyle,
    len: usize,
) -> Result<(), Error>
    ensures writes { Draws (O.seen out.old) (pieces_bytes (filling_pieces (styled_char cs.now 32) len)) result (O.seen out.new) }
    ensures early { IsErrOf result Memory → O.seen out.new ≡ O.seen out.old }
{
    let whole = spaces_piece(alloc, *cs, whole_chars(len))?;
    let last = spaces_piece(alloc, *cs, len % PIECE_CHARS)?;
    put_filling(out, &whole, &last, len / PIECE_CHARS)
}

/// Sets the background and writes `len` spaces on it. Nothing is reset: what is written next has it too.
///
/// # Errors
///
/// A fault of the device, or out of memory before anything went out.
#[tactic(auto, using(mad_term::proofs::QueueExits::memory_first))]
pub fn fill_bg<O: Out>(alloc: Global, out: &mut O, len: usize, bg: Color) -> Result<(), Error>
    ensures writes { Draws (O.seen out.old) (background_bytes bg ++ replicate len 32) result (O.seen out.new) }
    ensures early { IsErrOf result Memory → O.seen out.new ≡ O.seen out.old }
{
    let spaces = Spaces {
        style: CompoundStyle::default(),
        count: len,
    };
    let mut bytes = String::new(alloc);
    push_background(&mut bytes, bg)?;
    bytes.reserve(len)?;
    write!(bytes, "{spaces}")?;
    put_text(out, &bytes)
}

// A character is one of Unicode's.
fn know_char(c: char)
    ensures { IsScalar c }
{}

// The characters of each piece but the last: none where there is none.
fn whole_chars(len: usize) -> usize
    ensures within { result ≤ piece_chars }
    ensures whole { piece_chars ≤ len → result ≡ piece_chars }
{
    if len < PIECE_CHARS { 0 } else { PIECE_CHARS }
}

// `count` spaces as one piece; nothing of none.
fn spaces_piece(alloc: Global, style: CompoundStyle, count: usize) -> Result<String, AllocError>
    ensures { IfOk result (λ piece. string_bytes piece ≡ pieces_bytes (char_repeat (styled_char style 32) count)) }
{
    let spaces = Spaces { style, count };
    spaces.to_string(alloc)
}

// Puts a text `count` times, and then the last one.
fn put_filling<O: Out>(out: &mut O, whole: &str, last: &str, count: usize) -> Result<(), Error>
    ensures writes { Draws (O.seen out.old) (repeat count whole.now ++ last.now) result (O.seen out.new) }
    ensures without_memory { IsErrOf result Memory → ⊥ }
{
    put_times(out, whole, count)?;
    put_text(out, last)
}

// Puts a text `count` times.
fn put_times<O: Out>(out: &mut O, text: &str, count: usize) -> Result<(), Error>
    ensures writes { Draws (O.seen out.old) (repeat count text.now) result (O.seen out.new) }
    ensures without_memory { IsErrOf result Memory → ⊥ }
{
    for _done in 0..count {
        put_text(out, text)?;
    }
    Ok(())
}
