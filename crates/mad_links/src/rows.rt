//! Rows of pieces with links.

ghost use Rattle.std.specs.Prelude.{◌≡◌, [], ◌∷◌, ◌++◌, IfOk, IfSome, OnOk, map, chars, string_bytes, IsUtf8};
ghost use Rattle.mad_term.specs.Styles.{IsStyle};
ghost use Rattle.mad_screen.specs.Painting.{IsShown};
ghost use Rattle.mad_links.specs.Addresses.{IsWritten};
ghost use Rattle.mad_links.specs.LinkRows.{AreAddresses, AreLinkedPieces, IsLinkedPiece, address_of, begun_bytes, change_bytes, linked_bytes, linked_bytes_from, written_link};
ghost use Rattle.mad_links.specs.Pieces.{AreShownTexts, piece_of};
ghost use Rattle.std.specs.Option.{option_copied};

use crate::addresses::LinkAddress;
use crate::commands::{push_close, push_open};
use mad_term::{ContentStyle, push_styled};
use std::alloc::AllocError;

/// A text in a style, and the number of its link, if it is in one.
#[derive(Clone, Copy)]
pub struct LinkPiece<'a> {
    /// How the text looks.
    pub style: ContentStyle,
    /// The text.
    pub text: &'a str,
    /// The number of its link among the addresses, counted from 0.
    pub link: Option<usize>,
}

// The address of this number, if there is one and it isn't refused.
fn address_at(addresses: &[Option<LinkAddress>], number: usize) -> Option<&LinkAddress>
    ensures { option_copied result ≡ address_of addresses.now number }
{
    match addresses.get(number) {
        Some(Some(address)) => Some(address),
        _ => None,
    }
}

/// The number of a link that is written: this one, if it has an address.
pub fn written_link(addresses: &[Option<LinkAddress>], link: Option<usize>) -> Option<usize>
    ensures { result ≡ written_link addresses.now link }
{
    let number = link?;
    match address_at(addresses, number) {
        None => None,
        Some(_) => Some(number),
    }
}

/// Appends the command where the link changes from one that is open to another.
///
/// # Errors
///
/// Out of memory. What the row then ends with is open.
pub fn push_change(
    row: &mut String,
    addresses: &[Option<LinkAddress>],
    was: Option<usize>,
    now: Option<usize>,
) -> Result<(), AllocError>
    ensures { OnOk result (string_bytes row.new ≡ string_bytes row.old ++ change_bytes addresses.now was now) }
{
    if was == now {
        return Ok(());
    }
    let Some(number) = now else {
        return push_close(row);
    };
    match address_at(addresses, number) {
        None => push_close(row),
        Some(address) => push_open(row, number, address),
    }
}

// Nothing is done: this only says that the address can be written.
fn know_address(address: &Option<LinkAddress>)
    ensures { IfSome address.now IsWritten }
{
    if let Some(address) = address {
        address.as_str();
    }
}

/// Nothing is done: this only says that the addresses can be written.
pub fn know_addresses(addresses: &[Option<LinkAddress>])
    ensures { AreAddresses addresses.now }
{
    for address in addresses {
        know_address(address);
    }
}

// Nothing is done: this only says that the piece is one, if its text shows cells of its own.
fn know_piece(piece: &LinkPiece)
    ensures { IsShown (chars piece.now.text.now) → IsLinkedPiece (piece_of piece.now) }
{
    know_style(piece.style);
    know_text(piece.text);
}

// Nothing is done: this only says that the numbers of the style's colors are bytes.
pub(crate) fn know_style(style: ContentStyle)
    ensures { IsStyle style }
{}

fn know_text(text: &str)
    ensures { IsUtf8 text.now }
{}

// So is each of these.
fn know_pieces(pieces: &[LinkPiece])
    ensures { AreShownTexts pieces.now → AreLinkedPieces (map piece_of pieces.now) }
{
    for piece in pieces {
        know_piece(piece);
    }
}

/// Appends a row's pieces, each in its link. A piece whose link has no address is in none. The links of the row are closed at its end.
///
/// # Errors
///
/// Out of memory. What the row then ends with is open.
pub fn push_linked(
    row: &mut String,
    pieces: &[LinkPiece],
    addresses: &[Option<LinkAddress>],
) -> Result<(), AllocError>
    ensures writes { OnOk result (string_bytes row.new ≡ string_bytes row.old ++ linked_bytes addresses.now (map piece_of pieces.now)) }

    // The addresses can be written, and the pieces are such as the laws speak of, if their texts show cells of their own.
    ensures addresses { AreAddresses addresses.now }
    ensures pieces { AreShownTexts pieces.now → AreLinkedPieces (map piece_of pieces.now) }
{
    know_addresses(addresses);
    know_pieces(pieces);
    let mut was = None;
    for piece in pieces {
        was = push_piece(row, piece, addresses, was)?;
    }
    push_end(row, addresses, was)?;
    Ok(())
}

/// Appends one piece of a row, where the link of the number `was` is open, and answers which one is open then. Each row begins with none, and ends with
/// [`push_end`].
///
/// # Errors
///
/// Out of memory. What the row then ends with is open.
pub fn push_piece(
    row: &mut String,
    piece: &LinkPiece,
    addresses: &[Option<LinkAddress>],
    was: Option<usize>,
) -> Result<Option<usize>, AllocError>
    ensures writes { OnOk result (string_bytes row.new ≡ string_bytes row.old ++ (begun_bytes addresses.now was (piece_of piece.now ∷ [])).0) }
    ensures opens { IfOk result (λ now. now ≡ (begun_bytes addresses.now was (piece_of piece.now ∷ [])).1) }
{
    let now = written_link(addresses, piece.link);
    push_change(row, addresses, was, now)?;
    push_styled(row, piece.style, piece.text)?;
    Ok(now)
}

/// Ends a row, where the link of the number `was` is open.
///
/// # Errors
///
/// Out of memory. What the row then ends with is open.
pub fn push_end(
    row: &mut String,
    addresses: &[Option<LinkAddress>],
    was: Option<usize>,
) -> Result<(), AllocError>
    ensures { OnOk result (string_bytes row.new ≡ string_bytes row.old ++ linked_bytes_from addresses.now was []) }
{
    push_change(row, addresses, was, None)?;
    Ok(())
}
