//! Texts whose columns every terminal counts alike.

ghost use Rattle.std.specs.Prelude.{◌≡◌, ◌↔◌, ◌++◌, ℕ, Bool, false, true, chars, string_bytes, encode_utf8, encode_utf8_all, length, ◌<◌, ◌≤◌, IfOk, OnOk, OnErr, IsTrue, IsUtf8, MatchOption};
ghost use Rattle.std.specs.Cow.{cow_str_bytes, IsOwnedStr};
ghost use Rattle.mad_steady.specs.Kinds.{kind, ascii_kind};
ghost use Rattle.mad_steady.specs.Plain.{ArePlain};
ghost use Rattle.mad_steady.specs.Steady.{held, sign, alone, joined, written, behind, steady_from, steady_text, steady_growing, place_behind, are_steady_from, are_steady};
ghost use Rattle.mad_steady.specs.Widths.{are_borne, PiecesAreJoined};
ghost use Rattle.std.specs.List.{list_all};
ghost use Rattle.mad_characters.specs.Pictures.{is_printable_char};
ghost use Rattle.mad_steady.specs.Kept.{PassesWhatIsMade};

use crate::kinds::{Kind, ascii_kind, kind_of};
use crate::places::{Place, behind, letter, with_tail};
use std::alloc::{AllocError, Global};
use std::borrow::CowStr;

/// The text, such that terminals count its columns as this project does, borrowed where nothing has to change.
///
/// Soft hyphens, joiners (U+200D), skin tones and tags go, and variation selectors but behind a character of two columns. Two
/// regional indicators stay, and one alone becomes its letter. A leading jamo, a vowel and perhaps a trailing one become their
/// syllable; another vowel or trailing jamo becomes U+FFFD. U+17D8 becomes the three characters that it stands for. A widthless
/// character goes where a line begins, behind a blank or a control character, and behind one of ``* ~ ` | # >``, with those that
/// follow it.
///
/// # Errors
///
/// Out of memory is the only error. It can't be where the text is steady.
pub fn steady(alloc: Global, text: &str) -> Result<CowStr<'_, Global>, AllocError>
    ensures text { IfOk result (λ shown. cow_str_bytes shown ≡ encode_utf8_all (steady_text (chars text.now))) }
    ensures borrowed { IfOk result (λ shown. IsOwnedStr shown ↔ are_steady (chars text.now) ≡ false) }
    ensures again { IfOk result (λ shown. are_steady (chars (cow_str_bytes shown)) ≡ true) }
    ensures width { IfOk result (λ shown. are_borne false (chars (cow_str_bytes shown)) ≡ true) }
    ensures pieces { IfOk result (λ shown. PiecesAreJoined (chars (cow_str_bytes shown))) }
    ensures kept { IfOk result (λ shown. (p : ℕ → Bool) → PassesWhatIsMade p → list_all p (chars text.now) ≡ true → list_all p (chars (cow_str_bytes shown)) ≡ true) }
    ensures err { OnErr result (are_steady (chars text.now) ≡ false) }
{
    if is_steady(text) {
        return Ok(CowStr::Borrowed(text));
    }
    let mut shown = String::with_capacity(alloc, text.len())?;
    push_steady(&mut shown, text)?;
    Ok(CowStr::Owned(shown))
}

/// Whether [`steady`] leaves the text unchanged. It stops at the first character that doesn't stay.
pub fn is_steady(text: &str) -> bool
    ensures unchanged { IsTrue result ↔ steady_text (chars text.now) ≡ chars text.now }
    ensures width { IsTrue result → are_borne false (chars text.now) ≡ true }
    ensures each { result ≡ are_steady (chars text.now) }
{
    let (mut place, mut rest) = past_plain(Place::Opened, text);
    while let Some((c, next)) = first_char(rest) {
        let kind = kind_of(c);
        if !place.keeps(kind) {
            return false;
        }
        let (after, left) = past_plain(place.next(kind, c), next);
        place = after;
        rest = left;
    }
    place.may_end()
}

// The first character of a text, and the others.
fn first_char(text: &str) -> Option<(char, &str)>
    ensures { MatchOption result (length text.entry.now ≡ 0) (λ parts. IsUtf8 parts.1.now × (text.entry.now ≡ encode_utf8 parts.0 ++ parts.1.now)) }
{
    let mut chars = text.chars();
    let c = chars.next()?;
    Some((c, chars.as_str()))
}

// Whether it is a space or a graphic ASCII character.
fn is_plain(byte: u8) -> bool
    ensures { IsTrue result → (31 < byte) × (byte < 127) }
{
    (b' '..0x7f).contains(&byte)
}

// How many of these are in front.
fn plain_len(bytes: &[u8]) -> usize
    ensures plain { ArePlain bytes.now result }
    ensures inside { result ≤ length bytes.now }
{
    let mut at = 0;
    while at < bytes.len() && is_plain(bytes[at]) {
        at += 1;
    }
    at
}

// The place behind such a character, whatever is before it.
fn behind_plain(byte: u8) -> Place
    ensures { result ≡ behind (ascii_kind byte) byte }
{
    let c = char::from(byte);
    behind(ascii_kind(c), c)
}

// Goes past those in front, which stay but behind half of a flag: the place behind them, and what is left.
fn past_plain(place: Place, text: &str) -> (Place, &str)
    ensures utf8 { IsUtf8 result.1.now }
    ensures steady { are_steady_from result.0 (chars result.1.now) ≡ are_steady_from place (chars text.entry.now) }
    ensures fewer { length result.1.now ≤ length text.entry.now }
{
    let bytes = text.as_bytes();
    let len = plain_len(bytes);
    if len == 0 || !place.may_end() {
        return (place, text);
    }
    let after = behind_plain(bytes[len - 1]);
    let (_, rest) = text.split_at(len);
    (after, rest)
}

// Writes what is held and those in front, if there are any: the place behind them, and what is left.
fn push_plain<'t>(
    shown: &mut String,
    place: Place,
    text: &'t str,
) -> Result<(Place, &'t str), AllocError>
    ensures utf8 { IfOk result (λ parts. IsUtf8 parts.1.now) }
    ensures text { IfOk result (λ parts. string_bytes shown.new ++ encode_utf8_all (steady_growing parts.0 (chars parts.1.now)) ≡ string_bytes shown.old ++ encode_utf8_all (steady_growing place (chars text.entry.now))) }
    ensures behind { IfOk result (λ parts. place_behind parts.0 (chars parts.1.now) ≡ place_behind place (chars text.entry.now)) }
    ensures fewer { IfOk result (λ parts. length parts.1.now ≤ length text.entry.now) }
{
    let bytes = text.as_bytes();
    let len = plain_len(bytes);
    if len == 0 {
        return Ok((place, text));
    }
    push_held(shown, place)?;
    let after = behind_plain(bytes[len - 1]);
    let (front, rest) = text.split_at(len);
    shown.push_str(front)?;
    Ok((after, rest))
}

// Writes the steady text.
fn push_steady(shown: &mut String, text: &str) -> Result<(), AllocError>
    ensures { OnOk result (string_bytes shown.new ≡ string_bytes shown.old ++ encode_utf8_all (steady_text (chars text.now))) }
{
    let place = push_steady_piece(shown, Place::Opened, text)?;
    push_held(shown, place)
}

/// Writes the steady text of the next piece of a text, which comes at a place, and answers the place behind it. The first piece comes where a line
/// begins ([`Place::Opened`]).
///
/// What the end of the piece leaves to be written, as half of a flag, is held there: it comes with the next piece, and after the last one by
/// [`push_held`].
///
/// # Errors
///
/// Out of memory is the only error. Then a beginning of it was written.
pub fn push_steady_piece(shown: &mut String, place: Place, piece: &str) -> Result<Place, AllocError>
    ensures text { OnOk result (string_bytes shown.new ≡ string_bytes shown.old ++ encode_utf8_all (steady_growing place (chars piece.now))) }
    ensures place { IfOk result (λ next. next ≡ place_behind place (chars piece.now)) }
{
    let (mut place, mut rest) = push_plain(shown, place, piece)?;
    while let Some((c, next)) = first_char(rest) {
        let kind = kind_of(c);
        push_written(shown, place, kind, c)?;
        let (after, left) = push_plain(shown, place.next(kind, c), next)?;
        place = after;
        rest = left;
    }
    Ok(place)
}

// Writes what a character is, of this kind and at this place.
fn push_written(shown: &mut String, place: Place, kind: Kind, c: char) -> Result<(), AllocError>
    ensures { OnOk result (string_bytes shown.new ≡ string_bytes shown.old ++ encode_utf8_all (written place kind c)) }
{
    if place.drops(kind) {
        Ok(())
    } else if place.joins(kind) {
        push_joined(shown, place, c)
    } else {
        push_held(shown, place)?;
        push_alone(shown, kind, c)
    }
}

/// Writes what is held at a place, where the text ends there. Only out of memory is an error.
pub fn push_held(shown: &mut String, place: Place) -> Result<(), AllocError>
    ensures { OnOk result (string_bytes shown.new ≡ string_bytes shown.old ++ encode_utf8_all (held place)) }
{
    match place {
        Place::HoldsLead(c) | Place::HoldsSyllable(c) => shown.push(c),
        Place::HoldsIndicator(c) => shown.push(letter(c)),
        _ => Ok(()),
    }
}

// Writes what a character is by itself, but one that may join the next.
fn push_alone(shown: &mut String, kind: Kind, c: char) -> Result<(), AllocError>
    ensures { OnOk result (string_bytes shown.new ≡ string_bytes shown.old ++ encode_utf8_all (alone kind c)) }
{
    match kind {
        Kind::Sign => push_sign(shown),
        Kind::Vowel | Kind::Tail | Kind::Jamo => shown.push(char::REPLACEMENT_CHARACTER),
        Kind::Indicator | Kind::Lead | Kind::OpenSyllable => Ok(()),
        _ => shown.push(c),
    }
}

// Writes what U+17D8 stands for.
fn push_sign(shown: &mut String) -> Result<(), AllocError>
    ensures { OnOk result (string_bytes shown.new ≡ string_bytes shown.old ++ encode_utf8_all sign) }
{
    shown.push('\u{17d4}')?;
    shown.push('\u{179b}')?;
    shown.push('\u{17d4}')
}

// Writes what is held, joined by the character.
fn push_joined(shown: &mut String, place: Place, c: char) -> Result<(), AllocError>
    ensures { OnOk result (string_bytes shown.new ≡ string_bytes shown.old ++ encode_utf8_all (joined place c)) }
{
    match place {
        Place::HoldsSyllable(syllable) => shown.push(with_tail(syllable, c)),
        Place::HoldsIndicator(indicator) => {
            shown.push(indicator)?;
            shown.push(c)
        }
        _ => Ok(()),
    }
}

/// A printable text stays printable: so are all characters that [`steady`] makes.
pub fn printable_stays()
    ensures { PassesWhatIsMade is_printable_char }
{}
