//! Pieces of a text that others wrote, made printable and steady one after another.

ghost use Rattle.std.specs.Prelude.{◌≡◌, chars, encode_utf8_all, string_bytes, IfOk};
ghost use Rattle.mad_stream.specs.PrintedPieces.{end_shown};
ghost use Rattle.mad_stream.specs.SteadyPieces.{end_piece, spot_after, start_spot, steady_piece};

use crate::printed::{Place, place_after, printable_piece};
use mad_steady::places::Place as SteadyPlace;
use mad_steady::{push_held, push_steady_piece};
use std::alloc::{AllocError, Global};

/// Where the next piece of a text comes: by the text, and by what is printable of it.
#[derive(Clone, Copy, PartialEq, Eq, Debug)]
pub(crate) struct Spot {
    printed: Place,
    steady: SteadyPlace,
}

impl Spot {
    /// Where a text begins.
    pub(crate) fn start() -> Spot
        ensures { result ≡ start_spot }
    {
        Spot {
            printed: Place::LineStart,
            steady: SteadyPlace::Opened,
        }
    }
}

/// What is shown of the next piece of a text, which comes at a spot: what [`printable_piece`] shows, made [`steady`](mad_steady::steady). What is
/// held behind it isn't shown yet. And the spot behind it.
pub(crate) fn steady_piece(
    alloc: Global,
    spot: Spot,
    piece: &str,
) -> Result<(String, Spot), AllocError>
    ensures text { IfOk result (λ made. string_bytes made.0 ≡ encode_utf8_all (steady_piece spot (chars piece.now))) }
    ensures spot { IfOk result (λ made. made.1 ≡ spot_after spot (chars piece.now)) }
{
    let text = printable_piece(alloc, spot.printed, piece)?;
    let mut shown = String::new(alloc);
    let steady = push_steady_piece(&mut shown, spot.steady, text.as_str())?;
    let printed = place_after(spot.printed, piece);
    Ok((shown, Spot { printed, steady }))
}

/// What is shown yet where a text ends at a spot.
pub(crate) fn end_piece(alloc: Global, spot: Spot) -> Result<String, AllocError>
    ensures { IfOk result (λ shown. string_bytes shown ≡ encode_utf8_all (end_piece spot)) }
{
    let mut shown = String::new(alloc);
    let place = push_steady_piece(&mut shown, spot.steady, printed_end(spot.printed))?;
    push_held(&mut shown, place)?;
    Ok(shown)
}

// What is printable of a carriage return that a text ends with: the newline that ends its line.
fn printed_end(place: Place) -> &'static str
    ensures { result.now ≡ end_shown place }
{
    match place {
        Place::AfterReturn => "\n",
        Place::LineStart | Place::InLine => "",
    }
}
